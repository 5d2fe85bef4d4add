//! A helper of `pfr_ruleset` and `pfr_rules`: jumps over the places of a list, to the next place with the same key and
//! to where a run of places ends.
#![tactic(auto)]

pub mod chains;
pub mod runs;

pub use chains::Chains;
pub use runs::run_ends;
