//! Which rules a packet could have asked.
ghost use Rattle.std.specs.Prelude.{◌≡◌, ◌||◌, not};
ghost use Rattle.pfr_asked.specs.Asking as spec;
ghost use Rattle.pfr_criteria.specs.Packets.{direction_holds, interface_holds};
ghost use Rattle.pfr_rules.specs.Filter as filter;

use pfr_criteria::{is_named, opens_connection};
use pfr_headers::View;
use pfr_net::{Direction, IfName};
use pfr_packet::{Outcome, Reason};
use pfr_ruleset::{FilterRules, FlatAnchor, InterfaceCriterion, PacketMatch};

/// Whether the filter was asked about a packet, by what the packet came to.
pub fn came(outcome: &Outcome) -> bool
    ensures { result ≡ spec.came outcome.now }
{
    match outcome.reason {
        Reason::Rule | Reason::Default | Reason::StateInsert | Reason::StateLimit => true,
        Reason::IpOption => outcome.state.is_none(),
        Reason::NotIp
        | Reason::SkipOn
        | Reason::Short
        | Reason::State
        | Reason::StateError
        | Reason::StateMismatch
        | Reason::NatExhausted
        | Reason::NatPass => false,
    }
}

/// Whether translation rules were asked about a packet with this view, by what it came to, or would have been but for
/// where it was captured: it belongs to a connection, and has no state yet.
pub fn opens(view: &View, outcome: &Outcome) -> bool
    ensures { result ≡ spec.opens view.now outcome.now }
{
    match view {
        View::Ipv4(packet) => opens_connection(&packet.transport) && has_no_state(outcome),
        View::Skip | View::Short => false,
    }
}

/// Whether a packet has no state yet, and is let to the rules.
fn has_no_state(outcome: &Outcome) -> bool
    ensures { result ≡ spec.opens_by outcome.now.reason outcome.now.state }
{
    match outcome.reason {
        Reason::Rule
        | Reason::Default
        | Reason::StateInsert
        | Reason::StateLimit
        | Reason::NatExhausted
        | Reason::NatPass => true,
        Reason::IpOption => outcome.state.is_none(),
        Reason::NotIp
        | Reason::SkipOn
        | Reason::Short
        | Reason::State
        | Reason::StateError
        | Reason::StateMismatch => false,
    }
}

/// Whether a direction that is written allows packets that go this way.
fn direction_allows(written: Option<Direction>, direction: Direction) -> bool
    ensures { result ≡ direction_holds written direction }
{
    match (written, direction) {
        (None, _) => true,
        (Some(Direction::In), Direction::In) => true,
        (Some(Direction::Out), Direction::Out) => true,
        (Some(Direction::In), Direction::Out) => false,
        (Some(Direction::Out), Direction::In) => false,
    }
}

/// Whether an interface that is written allows packets on the interface of a name.
pub fn interface_allows(written: &Option<InterfaceCriterion>, name: &IfName) -> bool
    ensures { result ≡ interface_holds written.now name.now }
{
    match written {
        None => true,
        Some(criterion) if criterion.is_negated => !is_named(&criterion.name, name),
        Some(criterion) => is_named(&criterion.name, name),
    }
}

/// Whether what a rule or an anchor writes allows packets that go this way on the interface of a name.
fn allows(
    written: Option<Direction>,
    asked: &PacketMatch,
    name: &IfName,
    direction: Direction,
) -> bool
    ensures { result ≡ spec.allows written asked.now name.now direction }
{
    direction_allows(written, direction) && interface_allows(&asked.interface, name)
}

/// Whether an anchor stands round the rule at a place.
fn is_round(anchor: &FlatAnchor, place: usize) -> bool
    ensures { result ≡ filter.is_round anchor.now place }
{
    anchor.first <= place && place <= anchor.last
}

/// Whether an anchor allows such packets, if it stands round the rule at a place.
fn lets_in(anchor: &FlatAnchor, place: usize, name: &IfName, direction: Direction) -> bool
    ensures { result ≡ (not (filter.is_round anchor.now place) || spec.anchor_allows name.now direction anchor.now) }
{
    !is_round(anchor, place) || allows(anchor.direction, &anchor.packet, name, direction)
}

/// Whether all anchors round the rule at a place allow such packets.
fn anchors_allow(anchors: &[FlatAnchor], place: usize, name: &IfName, direction: Direction) -> bool
    ensures { result ≡ filter.is_inside (spec.anchor_allows name.now direction) anchors.now place }
{
    for anchor in anchors {
        if !lets_in(anchor, place, name, direction) {
            return false;
        }
    }
    true
}

/// Whether the filter rule at a place, and all anchors round it, allow packets that go this way on the interface of a
/// name, whatever else they ask for.
pub fn is_allowed(filter: &FilterRules, place: usize, name: &IfName, direction: Direction) -> bool
    ensures { result ≡ spec.allowed filter.now place name.now direction }
{
    match filter.rules().get(place) {
        Some(rule) => {
            anchors_allow(filter.anchors(), place, name, direction)
                && allows(rule.direction, &rule.packet, name, direction)
        }
        None => false,
    }
}
