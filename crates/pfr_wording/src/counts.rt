//! What a run counts of rules.

/// What a run counted of a rule.
#[derive(Clone, Copy, Debug, PartialEq, Eq)]
pub struct Counted {
    /// For how many packets it was visited.
    pub evaluations: u64,
    /// How many packets count for it.
    pub packets: u64,
    /// How many bytes these have.
    pub bytes: u64,
}

/// What a run counted of each rule, by its number.
#[derive(Drop)]
pub struct RuleCounts {
    pub filter: Vec<Counted>,
    pub translations: Vec<Counted>,
}
