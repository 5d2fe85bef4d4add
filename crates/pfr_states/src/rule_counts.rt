//! How many states each filter rule made.
ghost use Rattle.std.specs.Prelude.{◌≡◌, ◌+◌, ◌-◌, ◌<◌, ℕ, [], length, get_or, slice_set, OnOk};
ghost use Rattle.pfr_states.specs.RuleCounts.{HasCount, counts_for};
ghost use Rattle.pfr_states.specs.States as states;

use pfr_track::RuleNumber;
use std::alloc::{AllocError, Global};
use std::marker::Model;

/// How many states each filter rule made, by the number of the rule. A rule without a count made none.
#[derive(Drop)]
pub(crate) struct RuleCounts {
    counts: Vec<usize>,
}

impl Model for RuleCounts {
    ghost use Rattle.std.specs.Prelude.{List, ℕ};

    ghost Value = { List ℕ };

    ghost view = { λ c. c.counts.items };
}

/// Whether a rule is named, and is `rule`.
#[inline]
pub(crate) fn names_rule(rule: RuleNumber, named: Option<RuleNumber>) -> bool
    ensures { result ≡ states.names_rule rule.0 named }
{
    match named {
        Some(named) => named == rule,
        None => false,
    }
}

/// Makes the counts longer, so that a rule has one. If memory is refused, they stay as they are.
#[cold]
fn grow(counts: &mut Vec<usize>, rule: RuleNumber) -> Result<(), AllocError>
    requires { length counts.old.items < rule.0 + 1 }
    ensures same { (number : ℕ) → get_or counts.new.items number 0 ≡ get_or counts.old.items number 0 }
    ensures room { OnOk result (rule.0 < length counts.new.items) }
{
    match rule.0.checked_add(1) {
        Some(count) => counts.resize(count, 0),
        None => Err(AllocError),
    }
}

/// Adds one to the count of a rule.
#[inline]
fn add_one(counts: &mut Vec<usize>, rule: RuleNumber)
    requires room { rule.0 < length counts.old.items }
    requires few { get_or counts.old.items rule.0 0 + 1 < 18446744073709551616 }
    ensures { counts.new.items ≡ slice_set counts.old.items rule.0 (get_or counts.old.items rule.0 0 + 1) }
{
    counts[rule.0] += 1;
}

impl RuleCounts {
    /// Nothing is counted yet. It takes memory only once rules make states.
    pub(crate) fn new(alloc: Global) -> RuleCounts
        ensures { result ≡ [] }
    {
        RuleCounts {
            counts: Vec::new(alloc),
        }
    }

    /// How many states a rule made.
    #[inline]
    pub(crate) fn get(&self, rule: RuleNumber) -> usize
        ensures { result ≡ get_or self.now rule.0 0 }
    {
        match self.counts.get(rule.0) {
            Some(count) => *count,
            None => 0,
        }
    }

    /// Makes sure that a rule has a count. If memory is refused, nothing changes.
    #[inline]
    pub(crate) fn reserve(&mut self, rule: Option<RuleNumber>) -> Result<(), AllocError>
        ensures same { (number : ℕ) → get_or self.new number 0 ≡ get_or self.old number 0 }
        ensures room { OnOk result (HasCount rule self.new) }
    {
        let Some(rule) = rule else {
            return Ok(());
        };
        if rule.0 < self.counts.len() {
            return Ok(());
        }
        grow(&mut self.counts, rule)
    }

    /// Counts one more state of a rule.
    #[inline]
    pub(crate) fn add(&mut self, rule: Option<RuleNumber>)
        requires room { HasCount rule self.old }
        requires few { (number : ℕ) → counts_for number rule + get_or self.old number 0 < 18446744073709551616 }
        ensures { (number : ℕ) → get_or self.new number 0 ≡ counts_for number rule + get_or self.old number 0 }
    {
        if let Some(rule) = rule {
            add_one(&mut self.counts, rule);
        }
    }

    /// Counts one state less of a rule.
    #[inline]
    pub(crate) fn remove(&mut self, rule: Option<RuleNumber>)
        ensures counts { (number : ℕ) → get_or self.new number 0 ≡ get_or self.old number 0 - counts_for number rule }
        ensures rules { length self.new ≡ length self.old }
    {
        if let Some(rule) = rule {
            if let Some(count) = self.counts.get_mut(rule.0) {
                *count = count.saturating_sub(1);
            }
        }
    }

    /// Moves one state from the count of a rule to that of another one.
    pub(crate) fn move_one(&mut self, from: Option<RuleNumber>, to: Option<RuleNumber>)
        requires room { HasCount to self.old }
        requires few { (number : ℕ) → counts_for number to + (get_or self.old number 0 - counts_for number from) < 18446744073709551616 }
        ensures { (number : ℕ) → get_or self.new number 0 ≡ counts_for number to + (get_or self.old number 0 - counts_for number from) }
    {
        self.remove(from);
        self.add(to);
    }
}
