//! Whether one rule decides wherever another one might.
ghost use Rattle.std.specs.Prelude.{◌≡◌, true, ◌||◌, not, ◌&&◌};
ghost use Rattle.std.specs.List.{list_all};
ghost use Rattle.pfr_shadows.specs.Shadows as spec;

use crate::criteria::{
    direction_covers, flags_cover, icmp_covers, interface_covers, port_covers, protocol_covers,
};
use crate::hosts::host_covers;
use pfr_ruleset::{AddressTable, FlatAnchor, FlatRule, PacketMatch, Ruleset};

/// Whether the criteria `wide` are seen to hold wherever `narrow` do.
fn match_covers(tables: &[AddressTable], wide: &PacketMatch, narrow: &PacketMatch) -> bool
    ensures { result ≡ true → spec.MatchCovers tables.now wide.now narrow.now }
{
    let protocol = protocol_covers(wide.protocol, narrow.protocol);
    let interface = interface_covers(&wide.interface, &narrow.interface);
    let destination_port = port_covers(wide.destination_port, narrow.destination_port);
    let source_port = port_covers(wide.source_port, narrow.source_port);
    let icmp = icmp_covers(wide.icmp, narrow.icmp);
    if !protocol || !interface || !destination_port || !source_port || !icmp {
        return false;
    }
    let destination = host_covers(tables, wide.destination, narrow.destination);
    let source = host_covers(tables, wide.source, narrow.source);
    destination && source
}

/// Whether the filter rule `wide` is seen to hold wherever `narrow` does.
pub fn covers(tables: &[AddressTable], wide: &FlatRule, narrow: &FlatRule) -> bool
    ensures { result ≡ true → spec.Covers tables.now wide.now narrow.now }
{
    let direction = direction_covers(wide.direction, narrow.direction);
    let flags = flags_cover(wide.flags, narrow.flags);
    if !direction || !flags {
        return false;
    }
    match_covers(tables, &wide.packet, &narrow.packet)
}

/// Whether an anchor stands round the rule at a place.
fn is_round(anchor: &FlatAnchor, place: usize) -> bool
    ensures { result ≡ spec.is_round anchor.now place }
{
    anchor.first <= place && place <= anchor.last
}

/// Whether each anchor round the first place is round the second too.
fn is_open_to(anchors: &[FlatAnchor], first: usize, second: usize) -> bool
    ensures { result ≡ spec.is_open_to anchors.now first second }
{
    for anchor in anchors {
        if is_round(anchor, first) && !is_round(anchor, second) {
            return false;
        }
    }
    true
}

/// Whether each quick anchor round the first place is round the second too.
fn goes_on_to(anchors: &[FlatAnchor], first: usize, second: usize) -> bool
    ensures { result ≡ spec.goes_on_to anchors.now first second }
{
    for anchor in anchors {
        if anchor.is_quick && is_round(anchor, first) && !is_round(anchor, second) {
            return false;
        }
    }
    true
}

/// Whether the first of two rules, at these places, decides if both hold, as far as their places say.
fn comes_to_decide(
    anchors: &[FlatAnchor],
    first: usize,
    second: usize,
    one: &FlatRule,
    other: &FlatRule,
) -> bool
    ensures { result ≡ spec.comes_to_decide anchors.now first second one.now other.now }
{
    (first < second && one.is_quick)
        || (second < first && !other.is_quick && goes_on_to(anchors, second, first))
}

/// Whether a rule has room whenever it holds: the states that it keeps aren't limited.
pub(crate) fn has_room(rule: &FlatRule) -> bool
    ensures { result ≡ spec.has_room rule.now }
{
    match rule.state {
        Some(state) => state.most.is_none(),
        None => true,
    }
}

/// Whether the rule at place `rule` is seen never to decide, since the one at place `by` decides instead.
pub fn is_shadow(ruleset: &Ruleset, rule: usize, by: usize) -> bool
    ensures { result ≡ true → spec.IsShadow ruleset.now rule by }
{
    let rules = ruleset.filter.rules();
    let anchors = ruleset.filter.anchors();
    match (rules.get(rule), rules.get(by)) {
        (Some(narrow), Some(wide)) => {
            is_open_to(anchors, by, rule)
                && comes_to_decide(anchors, by, rule, wide, narrow)
                && has_room(wide)
                && covers(ruleset.tables.as_slice(), wide, narrow)
        }
        _ => false,
    }
}
