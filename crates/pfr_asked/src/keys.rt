//! What rules are compared by: their words, what their tables hold, and the anchors round them.
use crate::differences::Kind;
use pfr_ruleset::{AddressTable, FlatAnchor, FlatTranslation, HostSet, PacketMatch, Ruleset};
use pfr_wording::{RuleTold, RulesTold};
use std::alloc::{AllocError, Global};
use std::collections::BTreeMap;

/// A ruleset, and how its rules are told.
#[derive(Clone, Copy)]
pub struct Told<'r, 'a> {
    pub rules: &'r Ruleset,
    pub told: &'a RulesTold<'a>,
}

/// The numbers of the tables at the source and the destination of a rule or an anchor, from 1. 0 if there is none.
#[derive(Clone, Copy, PartialEq, Eq, PartialOrd, Ord)]
struct TablesAsked {
    source: usize,
    destination: usize,
}

/// What a rule says. Two rules with equal keys do the same, wherever they stand.
#[derive(Clone, Copy, PartialEq, Eq, PartialOrd, Ord)]
pub(crate) struct Key<'a> {
    /// Its words without its label.
    words: &'a [u8],
    is_logged: bool,
    tables: TablesAsked,
    /// The number of the innermost anchor round it, from 1. 0 if there is none.
    anchor: usize,
}

/// What an anchor says, with the number of the anchor round it.
#[derive(Clone, Copy, PartialEq, Eq, PartialOrd, Ord)]
pub(crate) struct AnchorKey<'a> {
    words: &'a [u8],
    tables: TablesAsked,
    round: usize,
}

/// The numbers of anchors of both rulesets: those that say the same have one.
pub(crate) type Anchors<'a> = BTreeMap<AnchorKey<'a>, usize>;

/// Whether two tables hold the same.
fn is_same_table(
    alloc: Global,
    first: &AddressTable,
    second: &AddressTable,
) -> Result<bool, AllocError> {
    let first = first.entries(alloc)?;
    let second = second.entries(alloc)?;
    Ok(first.as_slice() == second.as_slice())
}

/// The places of tables among those of a ruleset, by how they are told. The first table of a ruleset has no name.
fn places_of<'a>(
    alloc: Global,
    told: Told<'_, 'a>,
) -> Result<BTreeMap<&'a [u8], usize>, AllocError> {
    let mut places = BTreeMap::new(alloc);
    for (place, name) in told.told.tables.iter().enumerate() {
        places.insert(*name, place + 1)?;
    }
    Ok(places)
}

/// The old table that holds the same as the new table at a place, and has its name.
fn old_table<'a>(
    alloc: Global,
    old: Told<'_, 'a>,
    new: Told<'_, 'a>,
    places: &BTreeMap<&'a [u8], usize>,
    place: usize,
) -> Result<Option<usize>, AllocError> {
    if place == 0 {
        return Ok(Some(0));
    }
    let Some(name) = new.told.tables.get(place - 1) else {
        return Ok(None);
    };
    let Some(before) = places.get(name).copied() else {
        return Ok(None);
    };
    let tables = (
        old.rules.tables.as_slice().get(before),
        new.rules.tables.as_slice().get(place),
    );
    match tables {
        (Some(first), Some(second)) if is_same_table(alloc, first, second)? => Ok(Some(before)),
        _ => Ok(None),
    }
}

/// The numbers of the old ruleset's tables, by their places.
pub(crate) fn old_numbers(alloc: Global, old: Told<'_, '_>) -> Result<Vec<usize>, AllocError> {
    let mut numbers = Vec::new(alloc);
    for (place, _) in old.rules.tables.as_slice().iter().enumerate() {
        numbers.push(place + 1)?;
    }
    Ok(numbers)
}

/// The numbers of the new ruleset's tables, by their places. One has the number of an old one if both have one name and
/// hold the same.
pub(crate) fn new_numbers<'a>(
    alloc: Global,
    old: Told<'_, 'a>,
    new: Told<'_, 'a>,
) -> Result<Vec<usize>, AllocError> {
    let count = old.rules.tables.len();
    let places = places_of(alloc, old)?;
    let mut numbers = Vec::new(alloc);
    for (place, _) in new.rules.tables.as_slice().iter().enumerate() {
        let number = match old_table(alloc, old, new, &places, place)? {
            Some(before) => before,
            None => count.saturating_add(place),
        };
        numbers.push(number.saturating_add(1))?;
    }
    Ok(numbers)
}

/// The number of a table, if hosts are one.
fn number_of(numbers: &[usize], hosts: HostSet) -> usize {
    match hosts {
        HostSet::Table(place) => numbers.get(place).copied().unwrap_or(0),
        HostSet::Any | HostSet::Network(_) | HostSet::Range(..) => 0,
    }
}

fn tables_asked(numbers: &[usize], asked: &PacketMatch) -> TablesAsked {
    TablesAsked {
        source: number_of(numbers, asked.source.hosts),
        destination: number_of(numbers, asked.destination.hosts),
    }
}

/// The number of an anchor, which may be its first one.
fn anchor_number<'a>(anchors: &mut Anchors<'a>, key: AnchorKey<'a>) -> Result<usize, AllocError> {
    if let Some(number) = anchors.get(&key) {
        return Ok(*number);
    }
    let number = anchors.len().saturating_add(1);
    anchors.insert(key, number)?;
    Ok(number)
}

/// Anchors that are open at a place: each with its number and the place of its last rule, the innermost last.
type Open = Vec<(usize, usize)>;

/// Opens an anchor, the one at `place` among all.
fn open_anchor<'a>(
    told: Told<'_, 'a>,
    numbers: &[usize],
    anchors: &mut Anchors<'a>,
    open: &mut Open,
    anchor: &FlatAnchor,
    place: usize,
) -> Result<(), AllocError> {
    let key = AnchorKey {
        words: told.told.anchors.get(place).copied().unwrap_or(b""),
        tables: tables_asked(numbers, &anchor.packet),
        round: innermost(open),
    };
    open.push((anchor_number(anchors, key)?, anchor.last))?;
    Ok(())
}

/// The number of the innermost open anchor. 0 if there is none.
fn innermost(open: &Open) -> usize {
    match open.last() {
        Some((number, _)) => *number,
        None => 0,
    }
}

/// Opens the anchors whose first rule is at a place, from the one at `next` among all on, and answers the place of the
/// next one.
fn open_anchors<'a>(
    told: Told<'_, 'a>,
    numbers: &[usize],
    anchors: &mut Anchors<'a>,
    open: &mut Open,
    next: usize,
    place: usize,
) -> Result<usize, AllocError> {
    let mut next = next;
    let all = told.rules.filter.anchors();
    'anchors: for anchor in all.get(next..).unwrap_or(&[]) {
        if anchor.first != place {
            break 'anchors;
        }
        open_anchor(told, numbers, anchors, open, anchor, next)?;
        next = next.saturating_add(1);
    }
    Ok(next)
}

/// Closes the anchors whose last rule is at a place.
fn close_anchors(open: &mut Open, place: usize) {
    let mut kept = open.len();
    'open: for (_, last) in open.as_slice().iter().rev() {
        if *last != place {
            break 'open;
        }
        kept = kept.saturating_sub(1);
    }
    open.truncate(kept);
}

/// The key of a rule.
fn key_of<'a>(
    numbers: &[usize],
    rule: &RuleTold<'a>,
    asked: &PacketMatch,
    anchor: usize,
) -> Key<'a> {
    Key {
        words: rule.unlabelled,
        is_logged: rule.is_logged,
        tables: tables_asked(numbers, asked),
        anchor,
    }
}

/// The keys of a ruleset's filter rules, by the numbers of its tables.
fn filter_keys<'a>(
    alloc: Global,
    told: Told<'_, 'a>,
    numbers: &[usize],
    anchors: &mut Anchors<'a>,
) -> Result<Vec<Key<'a>>, AllocError> {
    let mut keys = Vec::new(alloc);
    let mut open = Vec::new(alloc);
    let mut next = 0;
    for (place, rule) in told.rules.filter.rules().iter().enumerate() {
        next = open_anchors(told, numbers, anchors, &mut open, next, place)?;
        if let Some(words) = told.told.filter.get(place) {
            keys.push(key_of(numbers, words, &rule.packet, innermost(&open)))?;
        }
        close_anchors(&mut open, place);
    }
    Ok(keys)
}

/// The keys of translation rules of a kind.
fn keys_of<'a, T>(
    alloc: Global,
    told: Told<'_, 'a>,
    numbers: &[usize],
    rules: &[FlatTranslation<T>],
) -> Result<Vec<Key<'a>>, AllocError> {
    let mut keys = Vec::new(alloc);
    for rule in rules {
        if let Some(words) = told.told.translations.get(rule.number) {
            keys.push(key_of(numbers, words, &rule.packet, 0))?;
        }
    }
    Ok(keys)
}

/// The keys of a ruleset's rules of a kind, by the numbers of its tables.
pub(crate) fn keys<'a>(
    alloc: Global,
    told: Told<'_, 'a>,
    kind: Kind,
    numbers: &[usize],
    anchors: &mut Anchors<'a>,
) -> Result<Vec<Key<'a>>, AllocError> {
    let translations = &told.rules.translations;
    match kind {
        Kind::Filter => filter_keys(alloc, told, numbers, anchors),
        Kind::Nat => keys_of(alloc, told, numbers, translations.nats.as_slice()),
        Kind::Rdr => keys_of(alloc, told, numbers, translations.rdrs.as_slice()),
        Kind::Binat => keys_of(alloc, told, numbers, translations.binats.as_slice()),
    }
}
