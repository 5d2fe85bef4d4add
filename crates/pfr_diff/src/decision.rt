//! What a ruleset comes to for a packet, as it is told.
use pfr_listing::{reason_word, verdict_word};
use pfr_net::RuleNumber;
use pfr_packet::{Outcome, Reason, Verdict};
use pfr_wording::{RuleTold, RulesTold};

/// What is told of a packet's outcome.
#[derive(Clone, Copy, PartialEq, Eq, PartialOrd, Ord)]
pub(crate) struct Decision<'a> {
    pub(crate) verdict: &'static [u8],
    /// The reason, if it isn't a rule or a state.
    pub(crate) reason: Option<&'static [u8]>,
    /// The line of the filter rule.
    pub(crate) rule: Option<usize>,
    /// The kind of the translation rule, and its line.
    pub(crate) translation: Option<(&'a [u8], usize)>,
}

/// What a packet comes to in the old run and in the new one.
#[derive(Clone, Copy, PartialEq, Eq, PartialOrd, Ord)]
pub(crate) struct Pair<'a> {
    pub(crate) old: Decision<'a>,
    pub(crate) new: Decision<'a>,
}

impl Pair<'_> {
    /// Whether packets are newly let in.
    pub(crate) fn lets_in(&self) -> bool {
        let pass = verdict_word(Verdict::Pass);
        self.old.verdict != pass && self.new.verdict == pass
    }
}

/// The rule with a number.
fn rule_at<'a>(rules: &[RuleTold<'a>], number: Option<RuleNumber>) -> Option<RuleTold<'a>> {
    let RuleNumber(number) = number?;
    rules.get(number).copied()
}

/// The reason, if it is told. If a rule or a state decided, the rule shows it.
fn told_reason(reason: Reason) -> Option<&'static [u8]> {
    match reason {
        Reason::Rule | Reason::State | Reason::StateError | Reason::NatPass => None,
        other => Some(reason_word(other)),
    }
}

/// The words of a rule without its label, if there is one.
fn words_of<'a>(rule: Option<RuleTold<'a>>) -> Option<&'a [u8]> {
    match rule {
        Some(rule) => Some(rule.unlabelled),
        None => None,
    }
}

/// What a packet comes to by a ruleset with these rules.
#[derive(Clone, Copy)]
pub(crate) struct Meaning<'a> {
    verdict: &'static [u8],
    reason: Option<&'static [u8]>,
    rule: Option<RuleTold<'a>>,
    translation: Option<RuleTold<'a>>,
    /// The number of the packet that made the state which it met, or its own if it made one.
    pub(crate) maker: Option<u64>,
}

impl<'a> Meaning<'a> {
    pub(crate) fn of(rules: &RulesTold<'a>, outcome: &Outcome) -> Meaning<'a> {
        Meaning {
            verdict: verdict_word(outcome.verdict),
            reason: told_reason(outcome.reason),
            rule: rule_at(rules.filter.as_slice(), outcome.rule),
            translation: rule_at(rules.translations.as_slice(), outcome.translation),
            maker: match outcome.state {
                Some(state) => Some(state.0),
                None => None,
            },
        }
    }

    /// Whether another ruleset comes to another verdict.
    pub(crate) fn differs_in_verdict(&self, other: &Meaning<'_>) -> bool {
        self.verdict != other.verdict
    }

    /// Whether another ruleset comes to something else: another verdict, or by another reason or rule.
    pub(crate) fn differs(&self, other: &Meaning<'_>) -> bool {
        self.differs_in_verdict(other)
            || self.reason != other.reason
            || words_of(self.rule) != words_of(other.rule)
            || words_of(self.translation) != words_of(other.translation)
    }

    /// What is told of it.
    pub(crate) fn decision(&self) -> Decision<'a> {
        Decision {
            verdict: self.verdict,
            reason: self.reason,
            rule: match self.rule {
                Some(rule) => Some(rule.line),
                None => None,
            },
            translation: match self.translation {
                Some(rule) => Some((rule.kind(), rule.line)),
                None => None,
            },
        }
    }
}
