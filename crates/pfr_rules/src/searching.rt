//! The search for the first translation rule of a kind that holds for a packet.
ghost use Rattle.std.specs.Prelude.{◌≡◌, ◌<◌, ◌≤◌, ◌++◌, ℕ, List, suc, length, map, min, take, IfNone, IfOk, IfSome, OnOk};
ghost use Rattle.std.specs.List.{find, slice_get, slice_index_or};
ghost use Rattle.std.specs.Option.{option_copied};
ghost use Rattle.pfr_ruleset.specs.Criteria.{asked_by_translation};
ghost use Rattle.pfr_ruleset.specs.Indexes.{AreAids};
ghost use Rattle.pfr_ruleset.specs.TranslationAids.{number_of, HaveAids, HaveNumberEnds, IsNumberEnd};
ghost use Rattle.pfr_rules.specs.Searching.{held};
ghost use Rattle.pfr_rules.specs.Stretches.{HoldsAt, IsBehind, NoneHolds};
ghost use Rattle.pfr_rules.specs.Translating.{numbered, up_to_first};

use crate::candidates::{begin_asking, next_asked};
use crate::visits::Visits;
use pfr_criteria::{Answer, ask_translation, translation_holds};
use pfr_headers::Packet;
use pfr_net::IfName;
use pfr_ruleset::{Aids, FlatTranslation, Ruleset, TranslationAids, TranslationRules};
use std::alloc::AllocError;

/// What the rule at a place answers: None if it holds, else the place of the next rule that may. No rule between holds.
fn behind_failing<T>(
    rules: &[FlatTranslation<T>],
    aids: &Aids,
    flat: &Ruleset,
    name: &IfName,
    packet: &Packet,
    place: usize,
) -> Option<usize>
    requires aids { AreAids (map asked_by_translation rules.now) aids.now }
    requires within { place < length rules.now }
    requires small { place < 18446744073709551615 }
    ensures holds { IfNone result (HoldsAt (held flat.now name.now packet.now) rules.now place) }
    ensures fails { IfSome result (IsBehind (held flat.now name.now packet.now) rules.now place) }
{
    match ask_translation(&rules[place], name, flat.tables.as_slice(), packet) {
        Answer::Holds => None,
        Answer::Fails => Some(place + 1),
        Answer::FailsAt(criterion) => Some(aids.skips.next(criterion, place)),
    }
}

/// The place of the first rule that holds for a packet, or the number of rules if none does. The search uses what is
/// kept beside the rules, and counts each rule that is asked.
fn first_by<T>(
    rules: &[FlatTranslation<T>],
    aids: &Aids,
    flat: &Ruleset,
    name: &IfName,
    packet: &Packet,
    visits: &mut Visits,
) -> usize
    requires aids { AreAids (map asked_by_translation rules.now) aids.now }
    ensures within { result ≤ length rules.now }
    ensures none { NoneHolds (held flat.now name.now packet.now) rules.now 0 result }
    ensures holds { result < length rules.now → HoldsAt (held flat.now name.now packet.now) rules.now result }
    ensures visits { visits.new ≡ visits.old }
{
    let end = rules.len();
    let mut trail = begin_asking(aids, packet);
    let mut from = 0;
    while from < end {
        let to = next_asked(aids, &mut trail, from);
        if to >= end {
            return end;
        }
        visits.ask(1);
        match behind_failing(rules, aids, flat, name, packet, to) {
            None => return to,
            Some(next) => from = next,
        }
    }
    end
}

/// The same if nothing is kept beside the rules: each rule is asked.
fn first_of_each<T>(
    rules: &[FlatTranslation<T>],
    flat: &Ruleset,
    name: &IfName,
    packet: &Packet,
    visits: &mut Visits,
) -> usize
    ensures within { result ≤ length rules.now }
    ensures none { NoneHolds (held flat.now name.now packet.now) rules.now 0 result }
    ensures holds { result < length rules.now → HoldsAt (held flat.now name.now packet.now) rules.now result }
    ensures visits { visits.new ≡ visits.old }
{
    let mut place = 0;
    while place < rules.len() {
        visits.ask(1);
        if translation_holds(&rules[place], name, flat.tables.as_slice(), packet) {
            return place;
        }
        place += 1;
    }
    place
}

/// The place of the first rule that holds for a packet, or the number of rules if none does. Each rule that is asked is
/// counted.
fn first_place<T>(
    rules: &[FlatTranslation<T>],
    aids: Option<&TranslationAids>,
    flat: &Ruleset,
    name: &IfName,
    packet: &Packet,
    visits: &mut Visits,
) -> usize
    requires aids { HaveAids rules.now (option_copied aids) }
    ensures within { result ≤ length rules.now }
    ensures none { NoneHolds (held flat.now name.now packet.now) rules.now 0 result }
    ensures holds { result < length rules.now → HoldsAt (held flat.now name.now packet.now) rules.now result }
    ensures visits { visits.new ≡ visits.old }
{
    match aids {
        None => first_of_each(rules, flat, name, packet, visits),
        Some(aids) => first_by(rules, &aids.rules, flat, name, packet, visits),
    }
}

/// The place up to which the numbers of rules follow on one another from a place on, at most `upto`.
fn run_end(aids: Option<&TranslationAids>, from: usize, upto: usize) -> usize
    requires { from < upto }
    ensures within { result ≤ upto }
    ensures run { (numbers : List ℕ) → HaveNumberEnds numbers (option_copied aids.entry) → upto ≤ length numbers → IsNumberEnd numbers from result }
{
    match aids {
        None => from + 1,
        Some(aids) => aids.number_end(from).min(upto),
    }
}

/// The number of the rule at a place.
#[inline]
#[tactic(auto, using(crate::proofs::SearchLemmas::number_at))]
fn number_at<T>(rules: &[FlatTranslation<T>], place: usize) -> usize
    requires { place < length rules.now }
    ensures { result ≡ slice_index_or (map number_of rules.now) place 0 }
{
    rules[place].number
}

/// Puts the numbers of the rules before place `upto` behind the visited ones. Numbers that follow on one another are
/// one run.
fn visit<T>(
    rules: &[FlatTranslation<T>],
    aids: Option<&TranslationAids>,
    upto: usize,
    visits: &mut Visits,
) -> Result<(), AllocError>
    requires aids { HaveAids rules.now (option_copied aids) }
    requires within { upto ≤ length rules.now }
    ensures { OnOk result (visits.new ≡ visits.old ++ take upto (map number_of rules.now)) }
{
    let mut from = 0;
    while from < upto {
        let end = run_end(aids, from, upto);
        let first = number_at(rules, from);
        let last = number_at(rules, end - 1);
        visits.push_up_to(first, last)?;
        from = end;
    }
    Ok(())
}

/// The rule at a place, if there is one.
#[inline]
fn rule_at<T>(rules: &[FlatTranslation<T>], place: usize) -> Option<&FlatTranslation<T>>
    ensures { option_copied result ≡ slice_get rules.now place }
{
    rules.get(place)
}

/// The number of rules, of `count`, that are asked if the first one that holds is at `place`; all of them if `place` is
/// `count`.
#[inline]
fn asked_up_to(place: usize, count: usize) -> usize
    requires { place ≤ count }
    ensures { result ≡ min (suc place) count }
{
    if place < count { place + 1 } else { count }
}

/// The first of these rules that holds for a packet. The numbers of the rules up to it, or of all rules if none holds,
/// are put behind the visited ones.
fn first_in<'a, T>(
    rules: &'a [FlatTranslation<T>],
    aids: Option<&TranslationAids>,
    flat: &Ruleset,
    name: &IfName,
    packet: &Packet,
    visits: &mut Visits,
) -> Result<Option<&'a FlatTranslation<T>>, AllocError>
    requires aids { HaveAids rules.now (option_copied aids) }
    ensures found { IfOk result (λ found. option_copied found ≡ find (held flat.now name.now packet.now) rules.now) }
    ensures visits { OnOk result (visits.new ≡ visits.old ++ up_to_first (held flat.now name.now packet.now) numbered rules.now) }
{
    let place = first_place(rules, aids, flat, name, packet, visits);
    let upto = asked_up_to(place, rules.len());
    visit(rules, aids, upto, visits)?;
    Ok(rule_at(rules, place))
}

/// The same for all rules of a kind.
pub(crate) fn first_of<'a, T>(
    rules: &'a TranslationRules<T>,
    flat: &Ruleset,
    name: &IfName,
    packet: &Packet,
    visits: &mut Visits,
) -> Result<Option<&'a FlatTranslation<T>>, AllocError>
    ensures found { IfOk result (λ found. option_copied found ≡ find (held flat.now name.now packet.now) rules.now) }
    ensures visits { OnOk result (visits.new ≡ visits.old ++ up_to_first (held flat.now name.now packet.now) numbered rules.now) }
{
    first_in(rules.as_slice(), rules.aids(), flat, name, packet, visits)
}
