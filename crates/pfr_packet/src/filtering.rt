//! What the filter makes of a packet by itself.
ghost use Rattle.std.specs.Prelude.{◌≡◌, IfOk, OnOk};
ghost use Rattle.std.specs.List.{All};
ghost use Rattle.pfr_rules.specs.Filter.{rooms_asked, rooms_in};
ghost use Rattle.pfr_states.specs.declared.question.Question.{Question};
ghost use Rattle.pfr_packet.specs.Filtering as spec;
ghost use Rattle.pfr_packet.specs.Outcomes.{fresh};

use crate::outcome::Outcome;
use crate::verdict::{Reason, Verdict};
use pfr_headers::Packet;
use pfr_net::{Direction, IfName, RuleNumber};
use pfr_rules::{Decision, RuleRoom, Visits, filter};
use pfr_ruleset::{FilterAction, FlatRule, Ruleset, StateRule};
use std::alloc::{AllocError, Global};

/// What the deciding rule says beyond its verdict.
#[derive(Clone, Copy)]
pub struct Conduct {
    /// Packets with IP options may pass.
    pub allows_options: bool,
    /// The state that the rule keeps, if it keeps one.
    pub state: Option<StateRule>,
}

#[inline]
fn verdict_of(action: FilterAction) -> Verdict
    ensures { result ≡ spec.verdict_of action }
{
    match action {
        FilterAction::Pass => Verdict::Pass,
        FilterAction::Drop => Verdict::Block,
        FilterAction::Return => Verdict::Return,
    }
}

#[inline]
fn reason_of(rule: Option<RuleNumber>) -> Reason
    ensures { result ≡ spec.reason_of rule }
{
    match rule {
        Some(_) => Reason::Rule,
        None => Reason::Default,
    }
}

/// What the deciding rule says beyond its verdict. Without such a rule IP options aren't allowed, and no state is kept.
fn conduct_of(rules: &[FlatRule], rule: Option<RuleNumber>) -> Conduct
    ensures { result ≡ spec.conduct_of rules.now rule }
{
    let silent = Conduct {
        allows_options: false,
        state: None,
    };
    match rule {
        None => silent,
        Some(number) => match rules.get(number.0) {
            None => silent,
            Some(rule) => Conduct {
                allows_options: rule.allow_opts,
                state: rule.state,
            },
        },
    }
}

/// Writes a decision of the filter over a fresh outcome.
fn decide(outcome: &mut Outcome, direction: Direction, decision: Decision, visits: Visits)
    requires { outcome.old ≡ fresh }
    ensures { outcome.new ≡ spec.decided direction decision visits }
{
    outcome.direction = Some(direction);
    outcome.verdict = verdict_of(decision.action);
    outcome.reason = reason_of(decision.rule);
    outcome.rule = decision.rule;
    outcome.visited.filter = visits;
}

/// What the filter makes of a packet on the interface of this name by itself, written over a fresh outcome. A packet
/// with IP options that aren't allowed doesn't pass. It answers what the deciding rule says beyond its verdict. Rules
/// with `max` are asked whether they have room.
#[tactic(auto, unfolding(crate::specs::Filtering::filtered, crate::specs::Filtering::allows_options, crate::specs::Filtering::kept))]
pub(crate) fn filter_into<R: RuleRoom>(
    alloc: Global,
    rules: &Ruleset,
    name: &IfName,
    packet: &Packet,
    direction: Direction,
    rooms: &mut R,
    outcome: &mut Outcome,
) -> Result<Conduct, AllocError>
    requires { outcome.old ≡ fresh }
    ensures seen { R.seen rooms.new ≡ R.seen rooms.old }
    ensures outcome { OnOk result (outcome.new ≡ spec.filtered_over rules.now name.now (R.seen rooms.old) packet.now direction) }
    ensures leave { IfOk result (λ conduct. conduct.allows_options ≡ spec.leave_over rules.now name.now (R.seen rooms.old) packet.now direction) }
    ensures state { IfOk result (λ conduct. conduct.state ≡ spec.kept_over rules.now name.now (R.seen rooms.old) packet.now direction) }
    ensures asked { OnOk result (All (R.asked rooms.new) (rooms_asked rules.now (rooms_in (R.seen rooms.old)) name.now packet.now direction)) }
    ensures kept { (question : Question) → R.asked rooms.old question → R.asked rooms.new question }
{
    let (decision, visits) = filter(alloc, rules, name, packet, direction, rooms)?;
    let conduct = conduct_of(rules.filter.rules(), decision.rule);
    decide(outcome, direction, decision, visits);
    outcome.ask_leave(packet, conduct.allows_options);
    Ok(conduct)
}
