//! Which states are alike, and which binding covers a scope.
ghost use Rattle.std.specs.Prelude.{◌≡◌};
ghost use Rattle.pfr_states.specs.Indexed as spec;

use crate::rule_counts::names_rule;
use pfr_track::{Binding, RuleNumber, State};

/// Whether two rules are the same, or none.
#[inline]
fn is_same_rule(first: Option<RuleNumber>, second: Option<RuleNumber>) -> bool
    ensures { result ≡ spec.is_same_rule first second }
{
    match first {
        Some(rule) => names_rule(rule, second),
        None => second.is_none(),
    }
}

/// Whether two states have the same keys.
#[inline]
fn have_same_keys(first: &State, second: &State) -> bool
    ensures { result ≡ spec.have_same_keys first.now second.now }
{
    first.wire == second.wire && first.stack == second.stack
}

/// Whether two bindings are the same.
#[inline]
fn is_same_binding(first: Binding, second: Binding) -> bool
    ensures { result ≡ spec.is_same_binding first second }
{
    match (first, second) {
        (Binding::All, Binding::All) => true,
        (Binding::To(place), Binding::To(other)) => place.0 == other.0,
        _ => false,
    }
}

/// Whether two states were made by the same filter rule and are bound to the same interfaces.
#[inline]
fn have_same_rules(first: &State, second: &State) -> bool
    ensures { result ≡ spec.have_same_rules first.now second.now }
{
    is_same_rule(first.rules.filter, second.rules.filter)
        && is_same_binding(first.rules.binding, second.rules.binding)
}

/// Whether two states have the same number, the same keys, the same filter rule and the same binding.
#[inline]
pub(crate) fn is_like(first: &State, second: &State) -> bool
    ensures { result ≡ spec.is_like first.now second.now }
{
    first.number == second.number && have_same_keys(first, second) && have_same_rules(first, second)
}

/// Whether a binding has all interfaces of a scope. A state with such a binding is the only one that the scope finds.
#[inline]
pub(crate) fn covers(binding: Binding, scope: Binding) -> bool
    ensures { result ≡ spec.covers binding scope }
{
    match (binding, scope) {
        (Binding::All, _) => true,
        (Binding::To(place), Binding::To(other)) => place.0 == other.0,
        (Binding::To(_), Binding::All) => false,
    }
}
