//! Numbers of rules.

/// The number of a rule: its place among all rules of its kind, from 0.
#[derive(Clone, Copy, Debug, PartialEq, Eq, PartialOrd, Ord, Hash)]
pub struct RuleNumber(pub usize);
