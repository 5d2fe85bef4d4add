//! The rules that a walk visits.
ghost use Rattle.std.specs.Prelude.{◌≡◌, ◌<◌, ◌≤◌, ◌+◌, ◌-◌, suc, [], ◌∷◌, ◌++◌, fold, OnOk, OnErr, IfOk};
ghost use Rattle.pfr_rules.specs.Counts.{raised};
ghost use Rattle.pfr_rules.specs.Evaluating.{Balances, counts_from};
ghost use Rattle.pfr_rules.specs.Numbers.{follows, numbers_from};

use crate::evaluations::{Tally, count_run};
use pfr_items::Items;
use std::alloc::{AllocError, Global};
use std::marker::Model;

/// Numbers that follow one another.
#[derive(Clone, Copy)]
struct Run {
    first: usize,
    count: usize,
    ghost fits: { first + count ≤ 18446744073709551616 },
}

/// The numbers of the rules that a walk visits, in the order in which it visits them. Filter rules are visited in
/// rising order, and so are the translation rules of a kind. Contracts see the list. If no number is passed over, the
/// numbers are one run, and take no memory.
#[derive(Drop)]
pub struct Visits {
    before: Vec<Run>,
    last: Run,
    /// The number of rules that the walk has asked. The others are visited, and don't hold.
    asked: u64,
}

impl Model for Visits {
    ghost use Rattle.std.specs.Prelude.{List, ℕ, ◌++◌};
    ghost use Rattle.std.specs.List.{flat_map};
    ghost use Rattle.pfr_rules.specs.Numbers.{numbers_from};

    ghost Value = { List ℕ };

    ghost view = { λ v. flat_map (λ run. numbers_from run.first run.count) v.before.items ++ numbers_from v.last.first v.last.count };
}

impl Run {
    /// The same with `more` numbers behind its last one.
    fn longer(self, more: usize) -> Run
        requires few { self.count + more ≤ 18446744073709551615 }
        requires fits { self.first + self.count + more ≤ 18446744073709551616 }
        ensures first { result.first ≡ self.first }
        ensures count { result.count ≡ self.count + more }
    {
        Run {
            first: self.first,
            count: self.count + more,
        }
    }

    /// Puts the numbers behind others.
    fn put(self, numbers: &mut Items<usize>) -> Result<(), AllocError>
        ensures { OnOk result (numbers.new ≡ numbers.old ++ numbers_from self.first self.count) }
    {
        for index in 0..self.count {
            numbers.push(self.first + index)?;
        }
        Ok(())
    }

    /// Counts the rules of these numbers once more.
    fn count_in(self, tallies: &mut [Tally])
        requires { Balances 0 tallies.old }
        ensures counts { counts_from 0 tallies.new ≡ fold raised (counts_from 0 tallies.old) (numbers_from self.first self.count) }
        ensures balances { Balances 0 tallies.new }
    {
        count_run(tallies, self.first, self.count);
    }

    /// Whether a number follows the last one, and may still be counted.
    fn is_followed_by(&self, number: usize) -> bool
        ensures { result ≡ follows self.now.first self.now.count number }
    {
        self.count < usize::MAX && self.first <= number && number - self.first == self.count
    }
}

impl Visits {
    pub fn new(alloc: Global) -> Visits
        ensures { result ≡ [] }
    {
        Visits {
            before: Vec::new(alloc),
            last: Run { first: 0, count: 0 },
            asked: 0,
        }
    }

    /// Notes that `count` more rules have been asked.
    #[inline]
    pub(crate) fn ask(&mut self, count: u64)
        ensures { self.new ≡ self.old }
    {
        self.asked = self.asked.saturating_add(count);
    }

    /// Puts a number behind the others. If memory is refused, the numbers stay as they were.
    pub fn push(&mut self, number: usize) -> Result<(), AllocError>
        ensures pushed { OnOk result (self.new ≡ self.old ++ number ∷ []) }
        ensures kept { OnErr result (self.new ≡ self.old) }
    {
        if self.last.is_followed_by(number) {
            self.last = self.last.longer(1);
            return Ok(());
        }
        if self.last.count > 0 {
            self.before.push(self.last)?;
        }
        self.last = Run {
            first: number,
            count: 1,
        };
        Ok(())
    }

    /// Puts `count` numbers behind the others: `first` and those that follow it. Of their rules `asked` have been
    /// asked. If memory is refused, the numbers stay as they were.
    pub fn push_run(&mut self, first: usize, count: usize, asked: u64) -> Result<(), AllocError>
        requires fits { first + count ≤ 18446744073709551615 }
        ensures pushed { OnOk result (self.new ≡ self.old ++ numbers_from first count) }
        ensures kept { OnErr result (self.new ≡ self.old) }
    {
        self.asked = self.asked.saturating_add(asked);
        if count == 0 {
            return Ok(());
        }
        if self.last.is_followed_by(first) {
            self.last = self.last.longer(count);
            return Ok(());
        }
        if self.last.count > 0 {
            self.before.push(self.last)?;
        }
        self.last = Run { first, count };
        Ok(())
    }

    /// Puts the numbers from `first` to `last` behind the others.
    pub(crate) fn push_up_to(&mut self, first: usize, last: usize) -> Result<(), AllocError>
        requires { first ≤ last }
        ensures { OnOk result (self.new ≡ self.old ++ numbers_from first (suc (last - first))) }
    {
        self.push_run(first, last - first, 0)?;
        self.push(last)
    }

    /// Counts the rules of these numbers once more.
    pub(crate) fn count_in(&self, tallies: &mut [Tally])
        requires { Balances 0 tallies.old }
        ensures counts { counts_from 0 tallies.new ≡ fold raised (counts_from 0 tallies.old) self.now }
        ensures balances { Balances 0 tallies.new }
    {
        let before = self.before.as_slice();
        for run in before {
            run.count_in(tallies);
        }
        self.last.count_in(tallies);
    }

    /// The number of rules that have been asked, at most 2^64 - 1. Nothing depends on it: it tells what a walk costs.
    #[inline]
    pub fn asked(&self) -> u64 {
        self.asked
    }

    /// A copy of the numbers.
    pub fn numbers(&self, alloc: Global) -> Result<Items<usize>, AllocError>
        ensures { IfOk result (λ numbers. numbers ≡ self.now) }
    {
        let mut numbers = Items::new(alloc);
        let before = self.before.as_slice();
        for run in before {
            run.put(&mut numbers)?;
        }
        self.last.put(&mut numbers)?;
        Ok(numbers)
    }
}
