//! What is kept beside translation rules, so that a walk skips those that don't hold.
ghost use Rattle.std.specs.Prelude.{◌≡◌, ◌≤◌, length, map, IfOk};
ghost use Rattle.pfr_ruleset.specs.Criteria.{asked_by_translation};
ghost use Rattle.pfr_ruleset.specs.Indexes.{AreAids};
ghost use Rattle.pfr_ruleset.specs.TranslationAids as spec;

use crate::aids::Aids;
use crate::criterion::Asked;
use crate::flat::FlatTranslation;
use pfr_chains::run_ends;
use std::alloc::{AllocError, Global};

/// The skips and the index of translation rules of a kind, and how far their numbers follow on one another.
#[derive(Drop)]
pub struct TranslationAids {
    pub rules: Aids,
    /// For each place the next one whose rule isn't numbered one more than the rule before it, or the number of rules.
    number_ends: Vec<u32>,
}

/// What is kept beside translation rules as beside filter rules.
fn aids_of<T>(alloc: Global, rules: &[FlatTranslation<T>]) -> Result<Aids, AllocError>
    requires few { length rules.now ≤ 4294967295 }
    ensures { IfOk result (λ aids. AreAids (map asked_by_translation rules.now) aids) }
{
    let asked = asked_of(alloc, rules)?;
    let aids = Aids::over(alloc, &asked)?;
    Ok(aids)
}

/// What each translation rule asks for.
fn asked_of<T>(alloc: Global, rules: &[FlatTranslation<T>]) -> Result<Vec<Asked>, AllocError>
    ensures { IfOk result (λ asked. asked.items ≡ map asked_by_translation rules.now) }
{
    let mut asked = Vec::with_capacity(alloc, rules.len())?;
    for rule in rules {
        asked.push(rule.asked())?;
    }
    Ok(asked)
}

/// Whether a number follows on another one.
fn follows(number: usize, before: usize) -> bool
    ensures { spec.FollowsBy result number before }
{
    number > 0 && number - 1 == before
}

fn numbers_of<T>(alloc: Global, rules: &[FlatTranslation<T>]) -> Result<Vec<usize>, AllocError>
    ensures { IfOk result (λ numbers. numbers.items ≡ map spec.number_of rules.now) }
{
    let mut numbers = Vec::with_capacity(alloc, rules.len())?;
    for rule in rules {
        numbers.push(rule.number)?;
    }
    Ok(numbers)
}

/// For each number whether it doesn't follow on the one before it.
fn number_breaks(alloc: Global, numbers: &[usize]) -> Result<Vec<bool>, AllocError>
    ensures { IfOk result (λ breaks. spec.AreNumberBreaks numbers.now breaks.items) }
{
    let mut breaks = vec![in alloc; true; numbers.len()]?;
    for place in 1..numbers.len() {
        breaks[place] = !follows(numbers[place], numbers[place - 1]);
    }
    Ok(breaks)
}

fn number_ends_of<T>(alloc: Global, rules: &[FlatTranslation<T>]) -> Result<Vec<u32>, AllocError>
    requires few { length rules.now ≤ 4294967295 }
    ensures { IfOk result (λ ends. spec.AreNumberEnds (map spec.number_of rules.now) ends.items) }
{
    let numbers = numbers_of(alloc, rules)?;
    let breaks = number_breaks(alloc, &numbers)?;
    let ends = run_ends(alloc, &breaks)?;
    Ok(ends)
}

impl TranslationAids {
    /// What is kept beside translation rules of a kind.
    pub(crate) fn over<T>(
        alloc: Global,
        rules: &[FlatTranslation<T>],
    ) -> Result<TranslationAids, AllocError>
        requires few { length rules.now ≤ 4294967295 }
        ensures { IfOk result (λ aids. spec.AreTranslationAids rules.now aids) }
    {
        let number_ends = number_ends_of(alloc, rules)?;
        let rules = aids_of(alloc, rules)?;
        Ok(TranslationAids { rules, number_ends })
    }

    /// The next rule behind a place that isn't numbered one more than the rule before it, or the number of rules.
    #[inline]
    pub fn number_end(&self, place: usize) -> usize
        ensures { spec.KnowsNumberEnd self.now place result }
    {
        match self.number_ends.get(place) {
            Some(end) => *end as usize,
            None => place.saturating_add(1),
        }
    }
}
