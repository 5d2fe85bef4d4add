//! How often rules were evaluated.
ghost use Rattle.std.specs.Prelude.{◌≡◌, ◌<◌, ◌≤◌, ◌+◌, fold, replicate, IfOk};
ghost use Rattle.pfr_rules.specs.Counts.{raised};
ghost use Rattle.pfr_rules.specs.Evaluating.{Balances, counts_from};
ghost use Rattle.pfr_rules.specs.Numbers.{numbers_from};

use crate::visits::Visits;
use std::alloc::{AllocError, Global};
use std::marker::Model;

/// The counts of one rule: how often it was evaluated alone, and how many runs of rules begin with it and end before
/// it.
#[derive(Clone, Copy)]
pub(crate) struct Tally {
    alone: u64,
    begun: u64,
    ended: u64,
}

/// How often each rule was evaluated. Contracts see the list of these counts. A packet mostly visits the rules from the
/// first one to the one that decides. So runs of rules are counted at their two ends, whatever the number of rules
/// between.
#[derive(Drop)]
pub struct Evaluations {
    tallies: Vec<Tally>,
}

impl Model for Evaluations {
    ghost use Rattle.std.specs.Prelude.{List, ℕ};
    ghost use Rattle.pfr_rules.specs.Evaluating.{Balances, counts_from};

    ghost Value = { List ℕ };

    ghost view = { λ e. counts_from 0 e.tallies.items };

    ghost invariant = { λ e. Balances 0 e.tallies.items };
}

/// Counts a rule once more, by itself.
fn count_alone(tallies: &mut [Tally], rule: usize)
    requires { Balances 0 tallies.old }
    ensures counts { counts_from 0 tallies.new ≡ raised (counts_from 0 tallies.old) rule }
    ensures balances { Balances 0 tallies.new }
{
    if rule < tallies.len() {
        let tally = tallies[rule];
        tallies[rule] = Tally {
            alone: tally.alone.saturating_add(1),
            ..tally
        };
    }
}

/// Counts each rule of a run once more, one by one.
fn count_each(tallies: &mut [Tally], first: usize, count: usize)
    requires balances { Balances 0 tallies.old }
    requires fits { first + count ≤ 18446744073709551616 }
    ensures counts { counts_from 0 tallies.new ≡ fold raised (counts_from 0 tallies.old) (numbers_from first count) }
    ensures balances { Balances 0 tallies.new }
{
    for index in 0..count {
        count_alone(tallies, first + index);
    }
}

/// Counts each rule of a run once more: at the first one and behind the last, if there are rules.
pub(crate) fn count_run(tallies: &mut [Tally], first: usize, count: usize)
    requires balances { Balances 0 tallies.old }
    requires fits { first + count ≤ 18446744073709551616 }
    ensures counts { counts_from 0 tallies.new ≡ fold raised (counts_from 0 tallies.old) (numbers_from first count) }
    ensures balances { Balances 0 tallies.new }
{
    if first >= tallies.len() {
        return;
    }
    if count == 0 {
        return;
    }
    let begin = tallies[first];
    let Some(begun) = begin.begun.checked_add(1) else {
        count_each(tallies, first, count);
        return;
    };
    if count >= tallies.len() - first {
        tallies[first] = Tally { begun, ..begin };
        return;
    }
    let end = tallies[first + count];
    let Some(ended) = end.ended.checked_add(1) else {
        count_each(tallies, first, count);
        return;
    };
    tallies[first] = Tally { begun, ..begin };
    tallies[first + count] = Tally { ended, ..end };
}

/// The counts of the rules.
fn counts_of(alloc: Global, tallies: &[Tally]) -> Result<Vec<u64>, AllocError>
    requires { Balances 0 tallies.now }
    ensures { IfOk result (λ counts. counts.items ≡ counts_from 0 tallies.now) }
{
    let mut counts = Vec::new(alloc);
    let mut runs = 0_u128;
    for tally in tallies {
        runs = runs + u128::from(tally.begun) - u128::from(tally.ended);
        let more = runs.min(u128::from(u64::MAX)) as u64;
        counts.push(tally.alone.saturating_add(more))?;
    }
    Ok(counts)
}

impl Evaluations {
    /// Counts of 0 for `rules` rules.
    #[tactic(auto, using(crate::proofs::Tallies::counts_none, crate::proofs::Tallies::balances_none))]
    pub fn new(alloc: Global, rules: usize) -> Result<Evaluations, AllocError>
        ensures { IfOk result (λ evaluations. evaluations ≡ replicate rules 0) }
    {
        let none = Tally {
            alone: 0,
            begun: 0,
            ended: 0,
        };
        Ok(Evaluations {
            tallies: Vec::from_elem(alloc, none, rules)?,
        })
    }

    /// Counts each rule that is visited once more. A count at the last value of 64 bits stays there.
    pub fn count(&mut self, visits: &Visits)
        ensures { self.new ≡ fold raised self.old visits.now }
    {
        visits.count_in(self.tallies.as_mut_slice());
    }

    /// How often each rule was evaluated.
    pub fn counts(&self, alloc: Global) -> Result<Vec<u64>, AllocError>
        ensures { IfOk result (λ counts. counts.items ≡ self.now) }
    {
        counts_of(alloc, self.tallies.as_slice())
    }
}
