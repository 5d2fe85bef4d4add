//! What is counted of the packets of captures.
use crate::blocked::{BlockedFlows, Why};
use crate::count::{ByVerdict, bytes_of};
use crate::lines::Lines;
use crate::spans::Spans;
use pfr_asked::{Targets, Told, Traffic, is_translated, not_asked, targets_of};
use pfr_capture::Form;
use pfr_commit::Gate;
use pfr_listing::Flow;
use pfr_net::RuleNumber;
use pfr_packet::{Outcome, Verdict};
use pfr_ruleset::Ruleset;
use pfr_shadows::Shadow;
use pfr_show::{Met, Stopped, Taker};
use pfr_track::Clock;
use pfr_wording::{RuleTold, RulesTold};
use std::alloc::{AllocError, Global};

/// What was counted of packets.
#[derive(Drop)]
pub struct Counted<'a> {
    rules: &'a RulesTold<'a>,
    pub(crate) verdicts: ByVerdict,
    pub(crate) spans: Spans,
    pub(crate) lines: Lines,
    pub(crate) blocked: BlockedFlows,
    /// The clock at the first packet.
    pub(crate) from: Clock,
    /// The clock at the last packet.
    pub(crate) to: Clock,
    /// What the packets are, as far as it says which rules they could have asked.
    traffic: Traffic,
    /// The addresses that packets have behind their translation.
    targets: Targets,
}

/// Counts packets, and tells a gate of them.
#[derive(Drop)]
pub struct Tally<'a, G> {
    gate: &'a G,
    counted: Counted<'a>,
}

/// The line of the rule with a number, if one is named.
fn line_at(rules: &[RuleTold<'_>], number: Option<RuleNumber>) -> Option<usize> {
    let RuleNumber(number) = number?;
    Some(rules.get(number)?.line)
}

/// Whether a packet with this verdict is blocked.
fn is_blocked(verdict: Verdict) -> bool {
    match verdict {
        Verdict::Block | Verdict::Return => true,
        Verdict::Pass | Verdict::Skip => false,
    }
}

impl<'a> Counted<'a> {
    /// No packets of a run with these rules, of which some are shadowed.
    fn new(
        alloc: Global,
        ruleset: &Ruleset,
        rules: &'a RulesTold<'a>,
        shadows: &[Shadow],
    ) -> Result<Counted<'a>, AllocError> {
        let lines = Lines::of(alloc, rules, shadows)?;
        let traffic = Traffic::new(alloc, ruleset)?;
        let targets = targets_of(alloc, ruleset, ruleset)?;
        Ok(Counted {
            rules,
            verdicts: ByVerdict::new(),
            spans: Spans::new(alloc),
            lines,
            blocked: BlockedFlows::new(alloc),
            from: Clock(0),
            to: Clock(0),
            traffic,
            targets,
        })
    }

    /// The clock at the last packet.
    pub fn clock(&self) -> Clock {
        self.to
    }

    /// Counts a packet that came to this.
    fn add(&mut self, met: Met<'_>, outcome: &Outcome) -> Result<(), AllocError> {
        if met.number == 1 {
            self.from = met.clock;
        }
        self.to = met.clock;
        let is_translated = is_translated(met.packet, met.view, &self.targets, false);
        self.traffic
            .add(met.packet, met.view, outcome, is_translated);
        let bytes = bytes_of(met.view);
        self.verdicts.add(outcome.verdict, bytes);
        self.spans
            .add(u64::from(met.clock.0), outcome.verdict, bytes)?;
        self.add_rules(met, outcome, bytes)
    }

    /// Says of the lines of this ruleset which rules no packet could have asked.
    fn leave_out(&mut self, alloc: Global, ruleset: &Ruleset) -> Result<(), AllocError> {
        let told = Told {
            rules: ruleset,
            told: self.rules,
        };
        let rules = not_asked(alloc, told, &self.traffic)?;
        self.lines.leave_out(rules.as_slice());
        Ok(())
    }

    /// Counts a packet for the lines of its rules, and for its flow, if it is blocked.
    fn add_rules(&mut self, met: Met<'_>, outcome: &Outcome, bytes: u64) -> Result<(), AllocError> {
        let filter = line_at(self.rules.filter.as_slice(), outcome.rule);
        let translation = line_at(self.rules.translations.as_slice(), outcome.translation);
        self.lines.add(filter, translation, bytes);
        if !is_blocked(outcome.verdict) {
            return Ok(());
        }
        let why = Why {
            line: filter,
            reason: outcome.reason,
        };
        let wire = (met.packet.place, Flow::of(met.view));
        self.blocked.add(wire, met.number, why, bytes)
    }
}

impl<'a, G: Gate> Tally<'a, G> {
    /// No packets of a run with this ruleset, whose rules are told, and of which some are shadowed.
    pub fn new(
        alloc: Global,
        ruleset: &Ruleset,
        rules: &'a RulesTold<'a>,
        shadows: &[Shadow],
        gate: &'a G,
    ) -> Result<Tally<'a, G>, AllocError> {
        Ok(Tally {
            gate,
            counted: Counted::new(alloc, ruleset, rules, shadows)?,
        })
    }

    /// What was counted behind the last packet of a run with this ruleset.
    pub fn counted(
        &mut self,
        alloc: Global,
        ruleset: &Ruleset,
    ) -> Result<&Counted<'a>, AllocError> {
        self.counted.leave_out(alloc, ruleset)?;
        Ok(&self.counted)
    }
}

impl<G: Gate> Taker for Tally<'_, G> {
    fn begin(&mut self, _forms: Vec<Form>) -> Result<(), Stopped> {
        Ok(())
    }

    fn take(&mut self, met: Met<'_>, outcome: &Outcome) -> Result<(), Stopped> {
        self.gate.taken(met.packet, met.view, outcome);
        Ok(self.counted.add(met, outcome)?)
    }

    fn rest(&mut self) -> Result<(), Stopped> {
        Ok(())
    }
}
