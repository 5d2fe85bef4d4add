//! For each rule and each criterion the next rule that may hold if this one fails there.
ghost use Rattle.std.specs.Prelude.{◌≡◌, ◌↔◌, ◌<◌, ◌≤◌, ◌+◌, List, length, true, Some, IfOk};
ghost use Rattle.std.specs.List.{slice_get};
ghost use Rattle.std.specs.Option.{option_copied};
ghost use Rattle.pfr_ruleset.specs.declared.criterion.Asked as TheAsked;
ghost use Rattle.pfr_ruleset.specs.Criteria as criteria;
ghost use Rattle.pfr_ruleset.specs.Skipping as spec;

use crate::criterion::{Asked, Criterion, writes_same};
use std::alloc::{AllocError, Global};

/// For each criterion the next rule that writes something else there than this one, or the number of rules.
#[derive(Clone, Copy)]
pub struct RuleSkips {
    interface: u32,
    direction: u32,
    protocol: u32,
    source: u32,
    source_port: u32,
    destination: u32,
    destination_port: u32,
}

/// The skips of each rule of a list.
#[derive(Drop)]
pub struct Skips {
    rules: Vec<RuleSkips>,
}

impl RuleSkips {
    /// The same place at each criterion.
    fn all(place: u32) -> RuleSkips {
        RuleSkips {
            interface: place,
            direction: place,
            protocol: place,
            source: place,
            source_port: place,
            destination: place,
            destination_port: place,
        }
    }

    #[inline]
    fn at(&self, criterion: Criterion) -> u32
        ensures { result ≡ spec.skip_at criterion self.now }
    {
        match criterion {
            Criterion::Interface => self.interface,
            Criterion::Direction => self.direction,
            Criterion::Protocol => self.protocol,
            Criterion::Source => self.source,
            Criterion::SourcePort => self.source_port,
            Criterion::Destination => self.destination,
            Criterion::DestinationPort => self.destination_port,
        }
    }
}

/// What the rule at a place asks for, if there is one.
fn rule_at(asked: &[Asked], place: usize) -> Option<&Asked>
    ensures { option_copied result ≡ slice_get asked.now place }
{
    asked.get(place)
}

/// Whether the next rule, if there is one, writes the same at a criterion.
fn goes_on(criterion: Criterion, here: &Asked, next: Option<&Asked>) -> bool
    ensures { result ≡ true ↔ spec.GoesOn criterion here.now (option_copied next.entry) }
{
    match next {
        Some(next) => writes_same(criterion, here, next),
        None => false,
    }
}

/// The skip of the rule at a place: the skip of the next rule if that one writes the same, and else the next rule.
fn skip(
    asked: &[Asked],
    here: &Asked,
    place: usize,
    criterion: Criterion,
    behind: &RuleSkips,
) -> u32
    requires few { length asked.now ≤ 4294967295 }
    requires within { place < length asked.now }
    requires here { slice_get asked.now place ≡ Some here.now }
    requires behind { place + 1 < length asked.now → spec.HasSkips asked.now (place + 1) behind.now }
    ensures { criteria.IsSkip criterion asked.now place result }
{
    let next = place + 1;
    if goes_on(criterion, here, rule_at(asked, next)) {
        return behind.at(criterion);
    }
    next as u32
}

/// The skips of the rule at a place, by the skips of the next rule.
fn skips_before(asked: &[Asked], here: &Asked, place: usize, behind: &RuleSkips) -> RuleSkips
    requires few { length asked.now ≤ 4294967295 }
    requires within { place < length asked.now }
    requires here { slice_get asked.now place ≡ Some here.now }
    requires behind { place + 1 < length asked.now → spec.HasSkips asked.now (place + 1) behind.now }
    ensures { spec.HasSkips asked.now place result }
{
    RuleSkips {
        interface: skip(asked, here, place, Criterion::Interface, behind),
        direction: skip(asked, here, place, Criterion::Direction, behind),
        protocol: skip(asked, here, place, Criterion::Protocol, behind),
        source: skip(asked, here, place, Criterion::Source, behind),
        source_port: skip(asked, here, place, Criterion::SourcePort, behind),
        destination: skip(asked, here, place, Criterion::Destination, behind),
        destination_port: skip(asked, here, place, Criterion::DestinationPort, behind),
    }
}

/// Writes the skips of each rule, from the last one on.
fn write_skips(asked: &[Asked], skips: &mut [RuleSkips])
    requires few { length asked.now ≤ 4294967295 }
    requires size { length skips.old ≡ length asked.now }
    ensures { spec.HaveSkipsFrom 0 asked.now skips.new }
{
    let mut behind = RuleSkips::all(0);
    let mut place = asked.len();
    while place > 0 {
        place -= 1;
        behind = skips_before(asked, &asked[place], place, &behind);
        skips[place] = behind;
    }
}

impl Skips {
    /// The skips of the rules that ask for `asked`.
    pub(crate) fn over(alloc: Global, asked: &[Asked]) -> Result<Skips, AllocError>
        requires few { length asked.now ≤ 4294967295 }
        ensures { IfOk result (λ skips. spec.HaveSkips asked.now skips) }
    {
        let mut rules = vec![in alloc; RuleSkips::all(0); asked.len()]?;
        write_skips(asked, &mut rules);
        Ok(Skips { rules })
    }

    /// The next rule to test if the one at `place` fails at a criterion. The rules between fail there too.
    #[inline]
    pub fn next(&self, criterion: Criterion, place: usize) -> usize
        ensures { (asked : List TheAsked.Asked) → spec.HaveSkips asked self.now → place < length asked → criteria.IsSkip criterion asked place result }
    {
        match self.rules.get(place) {
            Some(skips) => skips.at(criterion) as usize,
            None => place.saturating_add(1),
        }
    }
}
