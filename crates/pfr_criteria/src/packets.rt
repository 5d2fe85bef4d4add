//! Packets.
ghost use Rattle.std.specs.Prelude.{◌≡◌};
ghost use Rattle.pfr_criteria.specs.Packets as spec;

use crate::hosts::host_holds;
use crate::transports::{destination_port_holds, flags_hold, icmp_holds, source_port_holds};
use pfr_headers::Packet;
use pfr_net::{Direction, IfName, Protocol};
use pfr_ruleset::{AddressTable, FlatAnchor, FlatRule, InterfaceCriterion, PacketMatch};

pub(crate) fn direction_holds(written: Option<Direction>, direction: Direction) -> bool
    ensures { result ≡ spec.direction_holds written direction }
{
    match (written, direction) {
        (None, _) => true,
        (Some(Direction::In), Direction::In) => true,
        (Some(Direction::Out), Direction::Out) => true,
        (Some(Direction::In), Direction::Out) => false,
        (Some(Direction::Out), Direction::In) => false,
    }
}

/// Whether two names are the same.
pub fn is_named(name: &IfName, other: &IfName) -> bool
    ensures { result ≡ spec.is_named name.now other.now }
{
    name.bytes.as_slice() == other.bytes.as_slice()
}

pub(crate) fn interface_holds(criterion: &Option<InterfaceCriterion>, name: &IfName) -> bool
    ensures { result ≡ spec.interface_holds criterion.now name.now }
{
    match criterion {
        None => true,
        Some(criterion) if criterion.is_negated => !is_named(&criterion.name, name),
        Some(criterion) => is_named(&criterion.name, name),
    }
}

pub(crate) fn protocol_holds(written: Option<Protocol>, number: u8) -> bool
    ensures { result ≡ spec.protocol_holds written number }
{
    match written {
        None => true,
        Some(written) => written.0 == number,
    }
}

/// Whether a packet on the interface `name` meets all criteria of `asked`, by the tables of the ruleset.
#[tactic(auto, unfolding(crate::specs::Packets::match_holds))]
pub fn match_holds(
    asked: &PacketMatch,
    name: &IfName,
    tables: &[AddressTable],
    packet: &Packet,
) -> bool
    ensures { result ≡ spec.match_holds asked.now name.now tables.now packet.now }
{
    protocol_holds(asked.protocol, packet.protocol.0)
        && interface_holds(&asked.interface, name)
        && destination_port_holds(asked.destination_port, &packet.transport)
        && source_port_holds(asked.source_port, &packet.transport)
        && icmp_holds(asked.icmp, &packet.transport)
        && host_holds(tables, asked.destination, packet.destination)
        && host_holds(tables, asked.source, packet.source)
}

/// Whether a packet is all that a filter rule writes, and has its default flags.
#[tactic(auto, unfolding(crate::specs::Packets::rule_holds))]
pub fn rule_holds(
    rule: &FlatRule,
    name: &IfName,
    tables: &[AddressTable],
    packet: &Packet,
    direction: Direction,
) -> bool
    ensures { result ≡ spec.rule_holds rule.now name.now tables.now packet.now direction }
{
    direction_holds(rule.direction, direction)
        && flags_hold(rule.flags, &packet.transport)
        && match_holds(&rule.packet, name, tables, packet)
}

/// Whether a packet is all that an anchor writes.
#[tactic(auto, unfolding(crate::specs::Packets::anchor_holds))]
pub fn anchor_holds(
    anchor: &FlatAnchor,
    name: &IfName,
    tables: &[AddressTable],
    packet: &Packet,
    direction: Direction,
) -> bool
    ensures { result ≡ spec.anchor_holds anchor.now name.now tables.now packet.now direction }
{
    direction_holds(anchor.direction, direction)
        && match_holds(&anchor.packet, name, tables, packet)
}
