//! What is counted in a run.
ghost use Rattle.std.specs.Prelude.{◌≡◌, get_or, replicate, IfOk};
ghost use Rattle.pfr_commit.specs.Counters as spec;

use pfr_headers::View;
use pfr_net::RuleNumber;
use pfr_packet::{Outcome, Reason, Verdict};
use pfr_rules::Evaluations;
use pfr_rules::counts::add;
use std::alloc::{AllocError, Global};
use std::marker::Model;

/// One count for each rule of a kind.
#[derive(Drop)]
pub(crate) struct Counts {
    values: Vec<u64>,
}

impl Model for Counts {
    ghost use Rattle.std.specs.Prelude.{List, ℕ};

    ghost Value = { List ℕ };

    ghost view = { λ c. c.values.items };
}

/// What is counted of the rules of a kind: how often each was evaluated, and the packets and bytes that count for it.
#[derive(Drop)]
pub struct RuleCounters {
    pub(crate) evaluations: Evaluations,
    pub(crate) packets: Counts,
    pub(crate) bytes: Counts,
}

/// How many packets came to each verdict.
#[derive(Clone, Copy)]
pub struct Totals {
    pub passed: u64,
    pub blocked: u64,
    pub returned: u64,
    pub skipped: u64,
}

/// What is counted of all rules, and of the packets.
#[derive(Drop)]
pub struct Counters {
    pub(crate) filter: RuleCounters,
    pub(crate) translation: RuleCounters,
    pub(crate) totals: Totals,
}

impl Counts {
    fn zeros(alloc: Global, rules: usize) -> Result<Counts, AllocError>
        ensures { IfOk result (λ counts. counts ≡ replicate rules 0) }
    {
        let values = Vec::from_elem(alloc, 0, rules)?;
        Ok(Counts { values })
    }

    /// The count of a rule, 0 if there is no such rule.
    pub(crate) fn get(&self, rule: usize) -> u64
        ensures { result ≡ get_or self.now rule 0 }
    {
        match self.values.get(rule) {
            Some(count) => *count,
            None => 0,
        }
    }

    /// Adds an amount to the count of the rule that is named, if there is one.
    fn add_to(&mut self, rule: Option<RuleNumber>, amount: u64)
        ensures { self.new ≡ spec.added_to rule amount self.old }
    {
        if let Some(rule) = rule {
            add(self.values.as_mut_slice(), rule.0, amount);
        }
    }
}

impl RuleCounters {
    /// Nothing is counted yet of `rules` rules.
    fn new(alloc: Global, rules: u32) -> Result<RuleCounters, AllocError>
        ensures { IfOk result (λ counters. counters ≡ spec.uncounted rules) }
    {
        let rules = rules as usize;
        Ok(RuleCounters {
            evaluations: Evaluations::new(alloc, rules)?,
            packets: Counts::zeros(alloc, rules)?,
            bytes: Counts::zeros(alloc, rules)?,
        })
    }

    fn add_packet(&mut self, rule: Option<RuleNumber>, length: u64)
        ensures { self.new ≡ spec.with_packet rule length self.old }
    {
        self.packets.add_to(rule, 1);
        self.bytes.add_to(rule, length);
    }
}

impl Totals {
    fn add(&mut self, verdict: Verdict)
        ensures { self.new ≡ spec.with_verdict verdict self.old }
    {
        match verdict {
            Verdict::Pass => self.passed = self.passed.saturating_add(1),
            Verdict::Block => self.blocked = self.blocked.saturating_add(1),
            Verdict::Return => self.returned = self.returned.saturating_add(1),
            Verdict::Skip => self.skipped = self.skipped.saturating_add(1),
        }
    }
}

/// Whether a packet counts for the rules that it names.
fn counts_for_rules(reason: Reason) -> bool
    ensures { result ≡ spec.counts_for_rules reason }
{
    matches!(
        reason,
        Reason::Rule | Reason::State | Reason::StateError | Reason::NatPass
    )
}

/// The total length in a packet's IP header.
fn length_of(view: &View) -> u64
    ensures { result ≡ spec.length_of view.now }
{
    match view {
        View::Ipv4(packet) => u64::from(packet.total_length),
        View::Skip => 0,
        View::Short => 0,
    }
}

impl Counters {
    /// Nothing is counted yet. `rules` has the number of filter rules and the number of translation rules.
    pub(crate) fn new(alloc: Global, rules: (u32, u32)) -> Result<Counters, AllocError>
        ensures { IfOk result (λ counters. counters ≡ spec.nothing_counted rules.0 rules.1) }
    {
        let (filter, translation) = rules;
        Ok(Counters {
            filter: RuleCounters::new(alloc, filter)?,
            translation: RuleCounters::new(alloc, translation)?,
            totals: Totals {
                passed: 0,
                blocked: 0,
                returned: 0,
                skipped: 0,
            },
        })
    }

    fn add_evaluations(&mut self, outcome: &Outcome)
        ensures { self.new ≡ spec.with_evaluations outcome.now self.old }
    {
        self.filter.evaluations.count(&outcome.visited.filter);
        self.translation
            .evaluations
            .count(&outcome.visited.translation);
    }

    fn add_named(&mut self, outcome: &Outcome, length: u64)
        ensures { self.new ≡ spec.with_named outcome.now length self.old }
    {
        if counts_for_rules(outcome.reason) {
            self.filter.add_packet(outcome.rule, length);
            self.translation.add_packet(outcome.translation, length);
        }
    }

    /// Counts a packet, with what it came to.
    #[tactic(auto, unfolding(crate::specs::Counters::counted))]
    pub(crate) fn count(&mut self, view: &View, outcome: &Outcome)
        ensures { self.new ≡ spec.counted view.now outcome.now self.old }
    {
        self.add_evaluations(outcome);
        self.add_named(outcome, length_of(view));
        self.totals.add(outcome.verdict);
    }
}
