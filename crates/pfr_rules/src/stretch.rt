//! Stretches of rules that don't hold, which a walk visits as one run.
ghost use Rattle.std.specs.Prelude.{◌≡◌, ◌<◌, ◌≤◌, length, true, map, Some, IfNone, IfSome};
ghost use Rattle.std.specs.List.{slice_get};
ghost use Rattle.std.specs.Option.{option_copied};
ghost use Rattle.pfr_ruleset.specs.Criteria.{asked_by};
ghost use Rattle.pfr_ruleset.specs.FilterAids.{HaveOwnAids};
ghost use Rattle.pfr_ruleset.specs.Indexes.{AreAids};
ghost use Rattle.pfr_rules.specs.Candidates as candidates;
ghost use Rattle.pfr_rules.specs.Filter.{ruled};
ghost use Rattle.pfr_rules.specs.Stretches as spec;

use crate::candidates::{Trail, begin_asking, next_asked};
use pfr_criteria::{Answer, ask_rule, rule_holds};
use pfr_headers::Packet;
use pfr_net::{Direction, IfName};
use pfr_ruleset::{Aids, FilterAids, FlatRule, Ruleset};

/// The end of a stretch of rules that don't hold.
pub(crate) struct StretchEnd {
    /// The place behind the stretch.
    pub(crate) to: usize,
    /// Whether the rule there has been asked, and holds.
    pub(crate) hits: bool,
    /// The number of rules that have been asked.
    pub(crate) asked: u64,
}

/// Whether a rule holds for a packet of a direction on the interface of this name.
pub(crate) fn rule_is(
    flat: &Ruleset,
    rule: &FlatRule,
    name: &IfName,
    packet: &Packet,
    direction: Direction,
) -> bool
    ensures { result ≡ ruled flat.now name.now packet.now direction rule.now }
{
    rule_holds(rule, name, flat.tables.as_slice(), packet, direction)
}

/// A packet at the first rule of each chain that it follows, if there is an index.
pub(crate) fn follow(flat: &Ruleset, aids: Option<&FilterAids>, packet: &Packet) -> Trail
    requires { HaveOwnAids flat.now.filter (option_copied aids) }
    ensures { candidates.IsFollowingBy (option_copied aids.entry) packet.now 0 result }
{
    match aids {
        Some(aids) => begin_asking(&aids.rules, packet),
        None => Trail::new(),
    }
}

/// What the rule at a place answers: None if it holds, else the place of the next rule that may. No rule between holds.
fn behind_failing(
    flat: &Ruleset,
    aids: &Aids,
    rule: &FlatRule,
    name: &IfName,
    packet: &Packet,
    direction: Direction,
    place: usize,
) -> Option<usize>
    requires aids { AreAids (map asked_by flat.now.filter.rules) aids.now }
    requires within { place < length flat.now.filter.rules }
    requires small { place < 18446744073709551615 }
    requires rule { slice_get flat.now.filter.rules place ≡ Some rule.now }
    ensures holds { IfNone result (spec.HoldsAt (ruled flat.now name.now packet.now direction) flat.now.filter.rules place) }
    ensures fails { IfSome result (spec.IsBehind (ruled flat.now name.now packet.now direction) flat.now.filter.rules place) }
{
    match ask_rule(rule, name, flat.tables.as_slice(), packet, direction) {
        Answer::Holds => None,
        Answer::Fails => Some(place + 1),
        Answer::FailsAt(criterion) => Some(aids.skips.next(criterion, place)),
    }
}

/// How far a walk may jump from `place`, at most to `end`, by what is kept beside the rules.
fn stretch_by(
    flat: &Ruleset,
    aids: &Aids,
    name: &IfName,
    packet: &Packet,
    direction: Direction,
    trail: &mut Trail,
    place: usize,
    end: usize,
) -> StretchEnd
    requires aids { AreAids (map asked_by flat.now.filter.rules) aids.now }
    requires followed { candidates.IsFollowingIn aids.now.index packet.now place trail.old }
    requires end { end ≤ length flat.now.filter.rules }
    requires from { place ≤ end }
    ensures from { place ≤ result.to }
    ensures within { result.to ≤ end }
    ensures fails { spec.NoneHolds (ruled flat.now name.now packet.now direction) flat.now.filter.rules place result.to }
    ensures hits { result.hits ≡ true → result.to < end × spec.HoldsAt (ruled flat.now name.now packet.now direction) flat.now.filter.rules result.to }
    ensures followed { candidates.IsFollowingIn aids.now.index packet.now result.to trail.new }
{
    let rules = flat.filter.rules();
    let mut asked: u64 = 0;
    let mut from = place;
    while from < end {
        let to = next_asked(aids, trail, from);
        if to >= end {
            return StretchEnd {
                to: end,
                hits: false,
                asked,
            };
        }
        asked = asked.saturating_add(1);
        match behind_failing(flat, aids, &rules[to], name, packet, direction, to) {
            None => {
                return StretchEnd {
                    to,
                    hits: true,
                    asked,
                };
            }
            Some(next) => from = next.min(end),
        }
    }
    StretchEnd {
        to: end,
        hits: false,
        asked,
    }
}

/// How far a walk may jump from a place without a look at its last hit, at most to `limit`.
#[inline]
fn open_end(aids: &FilterAids, openings: &[usize], place: usize, limit: usize) -> usize
    requires ends { spec.AreEndsFor openings.now aids.now }
    requires place { place < limit }
    requires limit { limit ≤ length openings.now }
    ensures from { place ≤ result }
    ensures within { result ≤ limit }
    ensures opens { spec.NoneOpens openings.now place result }
{
    if openings[place] < place {
        return place;
    }
    aids.open_end(place).min(limit)
}

/// The end of a stretch from a place on; each of its rules has been asked.
fn end_of_each(place: usize, to: usize, hits: bool) -> StretchEnd
    ensures to { result.to ≡ to }
    ensures hits { result.hits ≡ hits }
{
    StretchEnd {
        to,
        hits,
        asked: to.saturating_sub(place) as u64,
    }
}

/// How far a walk may jump from `place`, at most to `limit`, if nothing is kept beside the rules: each rule is asked.
fn stretch_of_each(
    flat: &Ruleset,
    name: &IfName,
    packet: &Packet,
    direction: Direction,
    place: usize,
    limit: usize,
) -> StretchEnd
    requires limit { limit ≤ length flat.now.filter.rules }
    requires from { place ≤ limit }
    ensures from { place ≤ result.to }
    ensures within { result.to ≤ limit }
    ensures fails { spec.NoneHolds (ruled flat.now name.now packet.now direction) flat.now.filter.rules place result.to }
    ensures stops { spec.NoneStops flat.now.filter place result.to }
    ensures hits { result.hits ≡ true → result.to < limit × spec.HoldsAt (ruled flat.now name.now packet.now direction) flat.now.filter.rules result.to }
{
    let rules = flat.filter.rules();
    let openings = flat.filter.openings();
    let mut to = place;
    while to < limit {
        if openings[to] < to {
            return end_of_each(place, to, false);
        }
        if rule_is(flat, &rules[to], name, packet, direction) {
            return end_of_each(place, to, true);
        }
        to += 1;
    }
    end_of_each(place, to, false)
}

/// How far a walk may jump from `place`, at most to `limit`: no rule that it jumps over holds, and at none of them an
/// earlier hit ends the walk. The packet moves along its chains.
pub(crate) fn stretch(
    flat: &Ruleset,
    aids: Option<&FilterAids>,
    name: &IfName,
    packet: &Packet,
    direction: Direction,
    trail: &mut Trail,
    place: usize,
    limit: usize,
) -> StretchEnd
    requires aids { HaveOwnAids flat.now.filter (option_copied aids) }
    requires followed { candidates.IsFollowingBy (option_copied aids) packet.now place trail.old }
    requires limit { limit ≤ length flat.now.filter.rules }
    requires from { place < limit }
    ensures from { place ≤ result.to }
    ensures within { result.to ≤ limit }
    ensures fails { spec.NoneHolds (ruled flat.now name.now packet.now direction) flat.now.filter.rules place result.to }
    ensures stops { spec.NoneStops flat.now.filter place result.to }
    ensures hits { result.hits ≡ true → result.to < limit × spec.HoldsAt (ruled flat.now name.now packet.now direction) flat.now.filter.rules result.to }
    ensures followed { candidates.IsFollowingBy (option_copied aids.entry) packet.now result.to trail.new }
{
    match aids {
        None => stretch_of_each(flat, name, packet, direction, place, limit),
        Some(aids) => {
            let end = open_end(aids, flat.filter.openings(), place, limit);
            stretch_by(
                flat,
                &aids.rules,
                name,
                packet,
                direction,
                trail,
                place,
                end,
            )
        }
    }
}
