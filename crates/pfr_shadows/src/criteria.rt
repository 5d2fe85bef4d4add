//! Whether one criterion holds wherever another does.
ghost use Rattle.std.specs.Prelude.{◌≡◌, true, IfSome};
ghost use Rattle.pfr_shadows.specs.Shadows as spec;

use crate::same::{
    are_same_flags, is_same_icmp, is_same_interface, is_same_port, is_same_protocol,
};
use pfr_criteria::transports::port_holds;
use pfr_net::{Comparison, Direction, IcmpMatch, PortMatch, Protocol};
use pfr_ruleset::{FlagsCriterion, InterfaceCriterion};

/// Whether the direction `wide` holds wherever `narrow` does.
pub(crate) fn direction_covers(wide: Option<Direction>, narrow: Option<Direction>) -> bool
    ensures { result ≡ true → spec.DirectionCovers wide narrow }
{
    match (wide, narrow) {
        (None, _) => true,
        (Some(Direction::In), Some(Direction::In)) => true,
        (Some(Direction::Out), Some(Direction::Out)) => true,
        _ => false,
    }
}

/// Whether the interface `wide` holds wherever `narrow` does.
pub(crate) fn interface_covers(
    wide: &Option<InterfaceCriterion>,
    narrow: &Option<InterfaceCriterion>,
) -> bool
    ensures { result ≡ true → spec.InterfaceCovers wide.now narrow.now }
{
    match (wide, narrow) {
        (None, _) => true,
        (Some(wide), Some(narrow)) => is_same_interface(wide, narrow),
        (Some(_), None) => false,
    }
}

/// Whether the protocol `wide` holds wherever `narrow` does.
pub(crate) fn protocol_covers(wide: Option<Protocol>, narrow: Option<Protocol>) -> bool
    ensures { result ≡ true → spec.ProtocolCovers wide narrow }
{
    match (wide, narrow) {
        (None, _) => true,
        (Some(wide), Some(narrow)) => is_same_protocol(wide, narrow),
        (Some(_), None) => false,
    }
}

/// Whether the ICMP type `wide` holds wherever `narrow` does.
pub(crate) fn icmp_covers(wide: Option<IcmpMatch>, narrow: Option<IcmpMatch>) -> bool
    ensures { result ≡ true → spec.IcmpCovers wide narrow }
{
    match (wide, narrow) {
        (None, _) => true,
        (Some(wide), Some(narrow)) => is_same_icmp(wide, narrow),
        (Some(_), None) => false,
    }
}

/// The port that a criterion asks for, if it is a single one.
fn port_in(criterion: PortMatch) -> Option<u16>
    ensures { IfSome result (λ port. criterion ≡ spec.one_port port) }
{
    match criterion {
        PortMatch::Compare(Comparison::Equal, port) => Some(port),
        _ => None,
    }
}

/// Whether the ports `wide` hold wherever `narrow` do: both are the same, or `narrow` is a single port among `wide`.
fn ports_cover(wide: PortMatch, narrow: PortMatch) -> bool
    ensures { result ≡ true → spec.PortCovers wide narrow }
{
    match port_in(narrow) {
        Some(port) => port_holds(wide, port),
        None => is_same_port(wide, narrow),
    }
}

/// The same if a rule may ask for no ports.
pub(crate) fn port_covers(wide: Option<PortMatch>, narrow: Option<PortMatch>) -> bool
    ensures { result ≡ true → spec.PortsCover wide narrow }
{
    match (wide, narrow) {
        (None, _) => true,
        (Some(wide), Some(narrow)) => ports_cover(wide, narrow),
        (Some(_), None) => false,
    }
}

/// Whether the flags `wide` hold wherever `narrow` do.
pub(crate) fn flags_cover(wide: FlagsCriterion, narrow: FlagsCriterion) -> bool
    ensures { result ≡ true → spec.FlagsCover wide narrow }
{
    match wide {
        FlagsCriterion::Any => true,
        _ => are_same_flags(wide, narrow),
    }
}
