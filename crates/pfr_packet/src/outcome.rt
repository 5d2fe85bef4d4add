//! What a packet comes to.
ghost use Rattle.std.specs.Prelude.{◌≡◌, []};
ghost use Rattle.pfr_packet.specs.declared.verdict.Reason.TheVariants.{StateMismatch};
ghost use Rattle.pfr_packet.specs.declared.verdict.Verdict.TheVariants.{Block};
ghost use Rattle.pfr_packet.specs.Outcomes as spec;
ghost use Rattle.pfr_packet.specs.Passages.{exhausted, unfiltered};

use crate::passage::Passage;
use crate::verdict::{Reason, Verdict};
use pfr_headers::{Change, Packet};
use pfr_net::{Direction, RuleNumber};
use pfr_rules::Visits;
use pfr_states::TableChange;
use pfr_track::{State, StateNumber};
use std::alloc::Global;

/// The rules that are visited on the way to a verdict.
#[derive(Drop)]
pub struct VisitedRules {
    pub translation: Visits,
    pub filter: Visits,
}

/// What a packet comes to: what becomes of it, and what it changes.
#[derive(Drop)]
pub struct Outcome {
    /// None for what isn't looked at: a frame that is no IPv4 packet, a packet that is too short, or one of an
    /// interface that isn't filtered.
    pub direction: Option<Direction>,
    pub verdict: Verdict,
    pub reason: Reason,
    /// The filter rule that decided, or the filter rule of the packet's state.
    pub rule: Option<RuleNumber>,
    /// The translation rule that matched, or the translation rule of the packet's state.
    pub translation: Option<RuleNumber>,
    /// The state that the packet was found to have, or that it makes.
    pub state: Option<StateNumber>,
    pub visited: VisitedRules,
    /// What is written into its bytes.
    pub bytes: Option<Change>,
    /// What it changes in the table of states.
    pub change: Option<TableChange>,
}

impl VisitedRules {
    fn none(alloc: Global) -> VisitedRules
        ensures { result ≡ spec.none_visited }
    {
        VisitedRules {
            translation: Visits::new(alloc),
            filter: Visits::new(alloc),
        }
    }

    /// Visited translation rules, and no filter rule.
    fn of_translation(alloc: Global, visits: Visits) -> VisitedRules
        ensures translation { result.translation ≡ visits }
        ensures filter { result.filter ≡ [] }
    {
        VisitedRules {
            translation: visits,
            filter: Visits::new(alloc),
        }
    }
}

impl Outcome {
    /// An outcome of no packet yet, to be written over.
    #[inline]
    pub fn new(alloc: Global) -> Outcome
        ensures { result ≡ spec.fresh }
    {
        Outcome::unseen(alloc, Verdict::Skip, Reason::NotIp)
    }

    /// What a packet that isn't looked at comes to.
    pub(crate) fn unseen(alloc: Global, verdict: Verdict, reason: Reason) -> Outcome
        ensures { result ≡ spec.unseen verdict reason }
    {
        Outcome {
            direction: None,
            verdict,
            reason,
            rule: None,
            translation: None,
            state: None,
            visited: VisitedRules::none(alloc),
            bytes: None,
            change: None,
        }
    }

    /// Writes over a fresh outcome what a packet comes to whose state is found, but which doesn't fit.
    #[inline(always)]
    pub(crate) fn find_state(&mut self, direction: Direction, state: &State)
        requires { self.old ≡ spec.fresh }
        ensures { self.new ≡ spec.by_state direction state.now Block StateMismatch }
    {
        self.direction = Some(direction);
        self.verdict = Verdict::Block;
        self.reason = Reason::StateMismatch;
        self.rule = state.rules.filter;
        self.translation = state.rules.translation;
        self.state = Some(state.number);
    }

    /// What a packet that a rule with `pass` translates comes to: it isn't filtered, and passes unless it has IP
    /// options. `visits` are the translation rules that were visited.
    pub(crate) fn unfiltered(
        alloc: Global,
        direction: Direction,
        packet: &Packet,
        passage: &Passage,
        visits: Visits,
    ) -> Outcome
        ensures { result ≡ unfiltered direction packet.now passage.now visits }
    {
        let mut outcome = Outcome {
            direction: Some(direction),
            verdict: Verdict::Pass,
            reason: Reason::NatPass,
            rule: None,
            translation: passage.translation,
            state: None,
            visited: VisitedRules::of_translation(alloc, visits),
            bytes: None,
            change: None,
        };
        outcome.ask_leave(packet, false);
        outcome
    }

    /// What a packet comes to if its translation rule has no free port.
    pub(crate) fn exhausted(
        alloc: Global,
        direction: Direction,
        rule: RuleNumber,
        visits: Visits,
    ) -> Outcome
        ensures { result ≡ exhausted direction rule visits }
    {
        Outcome {
            direction: Some(direction),
            verdict: Verdict::Block,
            reason: Reason::NatExhausted,
            rule: None,
            translation: Some(rule),
            state: None,
            visited: VisitedRules::of_translation(alloc, visits),
            bytes: None,
            change: None,
        }
    }

    /// The packet is blocked instead: nothing changes.
    pub(crate) fn block(&mut self, reason: Reason)
        ensures { self.new ≡ spec.blocked reason self.old }
    {
        self.verdict = Verdict::Block;
        self.reason = reason;
        self.bytes = None;
        self.change = None;
    }

    /// The packet is blocked instead if it would pass, has IP options, and these aren't allowed.
    pub(crate) fn ask_leave(&mut self, packet: &Packet, allows_options: bool)
        ensures { self.new ≡ spec.without_leave packet.now allows_options self.old }
    {
        if self.verdict.lets_pass() && packet.has_options() && !allows_options {
            self.block(Reason::IpOption);
        }
    }
}
