//! What one packet of a run comes to.
//!
//! [`step`] evaluates a packet under a [`Job`], by what a table of states answers. Its definition is a plan: done with
//! an outcome, or a question to the table or the filter, and how it goes on by the answer. So what a packet comes to,
//! and all questions on the way, are two readings of one definition.
#![tactic(auto)]

pub mod answers;
mod evaluation;
pub mod filtering;
mod found;
pub mod job;
pub mod keys;
pub mod laws;
pub mod making;
pub mod outcome;
pub mod passage;
pub mod picks;
mod taps;
pub mod verdict;

pub use answers::{Answers, Direct, lookup_of};
pub use evaluation::{step, step_into};
pub use job::Job;
pub use outcome::{Outcome, VisitedRules};
pub use pfr_rules::RuleRoom;
pub use pfr_states::Question;
pub use verdict::{Reason, Verdict};
