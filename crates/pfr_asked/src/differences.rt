//! Rules that only one of two rulesets has, and those that stand elsewhere among the others.
use crate::keys::{Anchors, Key, Told, keys, new_numbers, old_numbers};
use pfr_ruleset::FlatTranslation;
use std::alloc::{AllocError, Global};
use std::collections::BTreeMap;

/// One of both rulesets.
#[derive(Clone, Copy, PartialEq, Eq, PartialOrd, Ord)]
pub enum Which {
    Old,
    New,
}

/// Rules of a kind are asked in their order.
#[derive(Clone, Copy, PartialEq, Eq, PartialOrd, Ord)]
pub enum Kind {
    Nat,
    Rdr,
    Binat,
    Filter,
}

/// All kinds of rules.
pub(crate) const KINDS: [Kind; 4] = [Kind::Nat, Kind::Rdr, Kind::Binat, Kind::Filter];

/// A rule that differs.
#[derive(Clone, Copy)]
pub(crate) struct Difference {
    pub(crate) which: Which,
    pub(crate) kind: Kind,
    /// Its place among the rules of its kind.
    pub(crate) place: usize,
    /// Its number among the filter rules, or among the translation rules.
    pub(crate) number: usize,
    /// The line of the file on which it stands.
    pub(crate) line: usize,
    /// Whether a packet for which it decides names it. None names a translation rule with `no`.
    pub(crate) is_named: bool,
}

/// How many rules have a key.
type Counts<'a> = BTreeMap<Key<'a>, usize>;

fn counts_of<'a>(alloc: Global, keys: &[Key<'a>]) -> Result<Counts<'a>, AllocError> {
    let mut counts = BTreeMap::new(alloc);
    for key in keys {
        let count: usize = counts.get(key).copied().unwrap_or(0);
        counts.insert(*key, count.saturating_add(1))?;
    }
    Ok(counts)
}

/// Whether there is one more rule with a key, which is taken away then.
fn takes_one<'a>(counts: &mut Counts<'a>, key: &Key<'a>) -> Result<bool, AllocError> {
    match counts.get(key).copied() {
        Some(count) if count > 0 => {
            counts.insert(*key, count - 1)?;
            Ok(true)
        }
        _ => Ok(false),
    }
}

/// The number of the translation rule at a place of its kind, and whether it translates.
fn number_at<T>(rules: &[FlatTranslation<T>], place: usize) -> (usize, bool) {
    match rules.get(place) {
        Some(rule) => (rule.number, rule.target.is_some()),
        None => (0, false),
    }
}

/// The rule at a place of its kind, as one that differs.
fn difference_at(told: Told<'_, '_>, which: Which, kind: Kind, place: usize) -> Difference {
    let translations = &told.rules.translations;
    let (number, is_named) = match kind {
        Kind::Filter => (place, true),
        Kind::Nat => number_at(translations.nats.as_slice(), place),
        Kind::Rdr => number_at(translations.rdrs.as_slice(), place),
        Kind::Binat => number_at(translations.binats.as_slice(), place),
    };
    let rules = match kind {
        Kind::Filter => told.told.filter.as_slice(),
        Kind::Nat | Kind::Rdr | Kind::Binat => told.told.translations.as_slice(),
    };
    let line = match rules.get(number) {
        Some(rule) => rule.line,
        None => 0,
    };
    Difference {
        which,
        kind,
        place,
        number,
        line,
        is_named,
    }
}

/// How many rules of a kind a ruleset has.
fn count_of(told: Told<'_, '_>, kind: Kind) -> usize {
    let translations = &told.rules.translations;
    match kind {
        Kind::Filter => told.rules.filter.rules().len(),
        Kind::Nat => translations.nats.as_slice().len(),
        Kind::Rdr => translations.rdrs.as_slice().len(),
        Kind::Binat => translations.binats.as_slice().len(),
    }
}

/// All rules of a ruleset, as if all differed.
pub(crate) fn all_rules(alloc: Global, told: Told<'_, '_>) -> Result<Vec<Difference>, AllocError> {
    let mut list = Vec::new(alloc);
    for kind in KINDS {
        for place in 0..count_of(told, kind) {
            list.push(difference_at(told, Which::New, kind, place))?;
        }
    }
    Ok(list)
}

/// The places of the rules that the other ruleset has too. The others differ.
fn common<'a>(
    alloc: Global,
    told: Told<'_, '_>,
    which: Which,
    kind: Kind,
    keys: &[Key<'a>],
    others: &[Key<'a>],
    list: &mut Vec<Difference>,
) -> Result<Vec<usize>, AllocError> {
    let mut left = counts_of(alloc, others)?;
    let mut places = Vec::new(alloc);
    for (place, key) in keys.iter().enumerate() {
        if takes_one(&mut left, key)? {
            places.push(place)?;
        } else {
            list.push(difference_at(told, which, kind, place))?;
        }
    }
    Ok(places)
}

/// Adds the rules of a kind that differ, by the keys of all.
fn add_kind<'a>(
    alloc: Global,
    old: Told<'_, '_>,
    new: Told<'_, '_>,
    kind: Kind,
    before: &[Key<'a>],
    after: &[Key<'a>],
    list: &mut Vec<Difference>,
) -> Result<(), AllocError> {
    let old_places = common(alloc, old, Which::Old, kind, before, after, list)?;
    let new_places = common(alloc, new, Which::New, kind, after, before, list)?;
    for (old_place, new_place) in old_places.iter().zip(&new_places) {
        if before.get(*old_place) != after.get(*new_place) {
            list.push(difference_at(old, Which::Old, kind, *old_place))?;
            list.push(difference_at(new, Which::New, kind, *new_place))?;
        }
    }
    Ok(())
}

/// The rules of two rulesets that differ: those that only one has, and those that both have, but elsewhere among the
/// ones that both have. A rule is the same if its words are, without its label, what its tables hold, and the anchors
/// round it.
pub(crate) fn differences<'a>(
    alloc: Global,
    old: Told<'_, 'a>,
    new: Told<'_, 'a>,
) -> Result<Vec<Difference>, AllocError> {
    let old_tables = old_numbers(alloc, old)?;
    let new_tables = new_numbers(alloc, old, new)?;
    let mut anchors: Anchors<'a> = BTreeMap::new(alloc);
    let mut list = Vec::new(alloc);
    for kind in KINDS {
        let before = keys(alloc, old, kind, old_tables.as_slice(), &mut anchors)?;
        let after = keys(alloc, new, kind, new_tables.as_slice(), &mut anchors)?;
        add_kind(
            alloc,
            old,
            new,
            kind,
            before.as_slice(),
            after.as_slice(),
            &mut list,
        )?;
    }
    Ok(list)
}
