//! Which of the states that wait by deadlines is due first, and which of them a filter rule made.
ghost use Rattle.std.specs.Prelude.{◌≡◌};
ghost use Rattle.std.specs.Option.{option_copied};
ghost use Rattle.pfr_states.specs.Awaited as awaited;
ghost use Rattle.pfr_states.specs.RuleCounts.{left_of_rule};
ghost use Rattle.pfr_states.specs.States as spec;

use crate::keyed::Keyed;
use crate::rule_counts::names_rule;
use pfr_deadlines::Wait;
use pfr_track::{Clock, RuleNumber, State};

/// The state that waits by exactly this deadline, if its own has come.
pub(crate) fn due_by(keyed: &Keyed, wait: Wait, clock: Clock) -> Option<&State>
    ensures { option_copied result ≡ awaited.due_by clock keyed.now wait }
{
    let stored = keyed.kept_by(wait)?;
    if stored.state.deadline.has_come(clock) {
        Some(&stored.state)
    } else {
        None
    }
}

/// Whether the state that waits by exactly this deadline was made by filter rule `rule`, and its own deadline has come.
pub(crate) fn is_rule_due_by(keyed: &Keyed, wait: Wait, rule: RuleNumber, clock: Clock) -> bool
    ensures { result ≡ awaited.is_some_of_rule rule.0 (awaited.due_by clock keyed.now wait) }
{
    match due_by(keyed, wait, clock) {
        Some(state) => names_rule(rule, state.rules.filter),
        None => false,
    }
}

/// 1 for a state of filter rule `rule` whose deadline hasn't come, else 0.
pub(crate) fn left_of_rule(state: &State, rule: RuleNumber, clock: Clock) -> usize
    ensures { result ≡ left_of_rule rule.0 clock state.now }
{
    usize::from(!state.deadline.has_come(clock) && names_rule(rule, state.rules.filter))
}

/// Of two states the one that is due first.
pub(crate) fn sooner<'a>(first: Option<&'a State>, other: Option<&'a State>) -> Option<&'a State>
    ensures { option_copied result ≡ awaited.sooner (option_copied first.entry) (option_copied other.entry) }
{
    let Some(other) = other else {
        return first;
    };
    let Some(state) = first else {
        return Some(other);
    };
    if goes_before(other, state) {
        Some(other)
    } else {
        Some(state)
    }
}

/// Whether a state is due before another one: by deadline, and if these are equal by number.
fn goes_before(first: &State, second: &State) -> bool
    ensures { result ≡ spec.goes_before first.now second.now }
{
    first.deadline < second.deadline
        || first.deadline == second.deadline && first.number < second.number
}
