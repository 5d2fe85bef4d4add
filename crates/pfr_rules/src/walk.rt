//! The walk over the rules.
ghost use Rattle.std.specs.Prelude.{◌≡◌, ◌<◌, ◌+◌, if◌then◌else◌, length, Some, IfOk, OnOk};
ghost use Rattle.std.specs.List.{All, slice_get, slice_index_or};
ghost use Rattle.std.specs.Option.{ForSome, option_copied};
ghost use Rattle.pfr_states.specs.declared.question.Question.{Question};
ghost use Rattle.pfr_rules.specs.Filter as spec;
ghost use Rattle.pfr_rules.specs.Stretches.{next_first as next_first_of};

use crate::decision::Decision;
use crate::room::{RuleRoom, is_match};
use crate::stretch::{StretchEnd, follow, stretch};
use crate::visits::Visits;
use pfr_criteria::anchor_holds;
use pfr_headers::Packet;
use pfr_net::{Direction, IfName, RuleNumber};
use pfr_ruleset::{FilterAction, FlatAnchor, FlatRule, Ruleset};
use std::alloc::{AllocError, Global};

/// What the rule at a place decides.
#[inline]
fn decision_by(rules: &[FlatRule], decided: Option<usize>) -> Decision
    requires { ForSome decided (λ place. place < length rules.now) }
    ensures { result ≡ spec.decision_by rules.now decided }
{
    match decided {
        None => Decision {
            rule: None,
            action: FilterAction::Pass,
        },
        Some(place) => Decision {
            rule: Some(RuleNumber(place)),
            action: rules[place].action,
        },
    }
}

/// Whether a walk ends at a place, by its opening and the last hit. The opening is the least place from which on a hit
/// ends the walk there.
#[inline]
fn stops(opening: usize, decided: Option<usize>) -> bool
    ensures { result ≡ spec.stops_by opening decided }
{
    match decided {
        None => false,
        Some(hit) => opening <= hit,
    }
}

fn anchor_is(
    flat: &Ruleset,
    anchor: &FlatAnchor,
    name: &IfName,
    packet: &Packet,
    direction: Direction,
) -> bool
    ensures { result ≡ spec.anchored flat.now name.now packet.now direction anchor.now }
{
    anchor_holds(anchor, name, flat.tables.as_slice(), packet, direction)
}

/// Whether a walk ends at a place, by the openings and the last hit.
#[inline]
fn ends_at(openings: &[usize], place: usize, decided: Option<usize>) -> bool
    requires { place < length openings.now }
    ensures value { result ≡ spec.stops_by (slice_index_or openings.now place 0) decided }
    ensures small { place < 18446744073709551615 }
{
    stops(openings[place], decided)
}

/// The place behind another one.
#[inline]
fn behind(openings: &[usize], place: usize) -> usize
    requires { place < length openings.now }
    ensures { result ≡ place + 1 }
{
    // a place below a slice's length has a number behind it
    let _last = openings.len();
    place + 1
}

/// The next anchor, if it begins at a place or before it.
#[inline]
fn begun(anchors: &[FlatAnchor], next: usize, place: usize) -> Option<&FlatAnchor>
    ensures { option_copied result ≡ spec.begun (slice_get anchors.now next) place }
{
    match anchors.get(next) {
        Some(anchor) if anchor.first <= place => Some(anchor),
        _ => None,
    }
}

/// The place at which the next anchor begins, or the end.
#[inline]
fn next_first(anchors: &[FlatAnchor], next: usize, end: usize) -> usize
    ensures { result ≡ next_first_of (slice_get anchors.now next) end }
{
    match anchors.get(next) {
        None => end,
        Some(anchor) => anchor.first.min(end),
    }
}

/// The last hit, which is at this place if its rule hits.
#[inline]
fn with_hit(decided: Option<usize>, is_hit: bool, place: usize) -> Option<usize>
    ensures { result ≡ (if is_hit then Some place else decided) }
{
    if is_hit { Some(place) } else { decided }
}

/// How a walk ended: the place of the rule that decides, and the rules that were visited.
#[derive(Drop)]
struct Walked {
    decided: Option<usize>,
    visits: Visits,
}

/// Walks over the rules. An anchor that doesn't hold is passed over with all that stands in it. A stretch of rules that
/// don't hold is visited as one run. If all that a rule writes holds, the rule is asked whether it has room.
fn walk<R: RuleRoom>(
    alloc: Global,
    flat: &Ruleset,
    name: &IfName,
    packet: &Packet,
    direction: Direction,
    rooms: &mut R,
) -> Result<Walked, AllocError>
    ensures seen { R.seen rooms.new ≡ R.seen rooms.old }
    ensures decided { IfOk result (λ walked. walked.decided ≡ spec.deciding flat.now (spec.rooms_in (R.seen rooms.old)) name.now packet.now direction) }
    ensures visits { IfOk result (λ walked. walked.visits ≡ spec.visited flat.now (spec.rooms_in (R.seen rooms.old)) name.now packet.now direction) }
    ensures within { IfOk result (λ walked. ForSome walked.decided (λ place. place < length flat.now.filter.rules)) }
    ensures asked { OnOk result (All (R.asked rooms.new) (spec.rooms_asked flat.now (spec.rooms_in (R.seen rooms.old)) name.now packet.now direction)) }
    ensures kept { (question : Question) → R.asked rooms.old question → R.asked rooms.new question }
{
    let rules = flat.filter.rules();
    let anchors = flat.filter.anchors();
    let openings = flat.filter.openings();
    let aids = flat.filter.aids();
    let mut trail = follow(flat, aids, packet);
    let mut visits = Visits::new(alloc);
    let mut decided = None;
    let mut place: usize = 0;
    let mut next: usize = 0;
    while place < rules.len() {
        if let Some(anchor) = begun(anchors, next, place) {
            next += 1;
            if anchor.last < place {
                continue;
            }
            if anchor_is(flat, anchor, name, packet, direction) {
                continue;
            }
            if ends_at(openings, anchor.last, decided) {
                return Ok(Walked { decided, visits });
            }
            place = behind(openings, anchor.last);
            continue;
        }
        let limit = next_first(anchors, next, rules.len());
        let StretchEnd { to, hits, asked } = stretch(
            flat, aids, name, packet, direction, &mut trail, place, limit,
        );
        if to >= limit {
            visits.push_run(place, to - place, asked)?;
            place = to;
            continue;
        }
        visits.push_run(place, to + 1 - place, asked)?;
        let is_hit = is_match(flat, &rules[to], to, name, packet, direction, hits, rooms)?;
        decided = with_hit(decided, is_hit, to);
        if ends_at(openings, to, decided) {
            return Ok(Walked { decided, visits });
        }
        place = behind(openings, to);
    }
    Ok(Walked { decided, visits })
}

/// Which rule decides on a packet on the interface of this name, and which rules are visited. Of the rules up to the
/// first stop the last one that hits decides; if none hits, the packet passes. A rule with `max` hits only if `rooms`
/// answers that it has room. The contract also says which rules were asked for their room.
pub fn filter<R: RuleRoom>(
    alloc: Global,
    flat: &Ruleset,
    name: &IfName,
    packet: &Packet,
    direction: Direction,
    rooms: &mut R,
) -> Result<(Decision, Visits), AllocError>
    ensures seen { R.seen rooms.new ≡ R.seen rooms.old }
    ensures decision { IfOk result (λ answer. answer.0 ≡ spec.decision_of flat.now (spec.rooms_in (R.seen rooms.old)) name.now packet.now direction) }
    ensures visits { IfOk result (λ answer. answer.1 ≡ spec.visited flat.now (spec.rooms_in (R.seen rooms.old)) name.now packet.now direction) }
    ensures asked { OnOk result (All (R.asked rooms.new) (spec.rooms_asked flat.now (spec.rooms_in (R.seen rooms.old)) name.now packet.now direction)) }
    ensures kept { (question : Question) → R.asked rooms.old question → R.asked rooms.new question }
{
    let Walked { decided, visits } = walk(alloc, flat, name, packet, direction, rooms)?;
    Ok((decision_by(flat.filter.rules(), decided), visits))
}
