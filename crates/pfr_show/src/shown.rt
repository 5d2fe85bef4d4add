//! A packet with all that is shown of it.
use crate::joining::{Met, Run};
use crate::moment::Moment;
use pfr_net::RuleNumber;
use pfr_packet::Outcome;
use pfr_wording::RuleTold;

/// A rule that is named.
#[derive(Clone, Copy)]
pub(crate) struct Named<'a> {
    pub(crate) number: u64,
    pub(crate) told: RuleTold<'a>,
}

/// A packet with what it came to.
#[derive(Clone, Copy)]
pub(crate) struct Shown<'a> {
    pub(crate) met: Met<'a>,
    pub(crate) outcome: &'a Outcome,
    /// The filter rule.
    pub(crate) rule: Option<Named<'a>>,
    /// The translation rule.
    pub(crate) translation: Option<Named<'a>>,
    /// The name of the interface on which it was captured.
    pub(crate) interface: &'a str,
    pub(crate) moment: Moment,
}

/// The rule with a number, if one is named.
fn rule_at<'a>(rules: &[RuleTold<'a>], number: Option<RuleNumber>) -> Option<Named<'a>> {
    let RuleNumber(number) = number?;
    Some(Named {
        number: number as u64,
        told: rules.get(number).copied()?,
    })
}

impl<'a> Shown<'a> {
    /// A packet that came to this in a run.
    pub(crate) fn of(
        run: Run<'a>,
        met: Met<'a>,
        outcome: &'a Outcome,
        interface: &'a str,
        moment: Moment,
    ) -> Shown<'a> {
        Shown {
            met,
            outcome,
            rule: rule_at(run.rules.filter.as_slice(), outcome.rule),
            translation: rule_at(run.rules.translations.as_slice(), outcome.translation),
            interface,
            moment,
        }
    }
}
