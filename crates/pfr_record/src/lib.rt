//! A helper of `pfr_commit` and `pfr_work`: what a packet was found to come to on some table, with the record of all
//! answers that this depends on.
//!
//! [`speculate`] evaluates a packet ahead, on a table that may change until the packet's turn comes. Its
//! [`Speculation`] is sound by its type: over every table that agrees with its record, the packet comes to its outcome.
#![tactic(auto)]

pub mod answer;
mod lookups;
mod recorder;
mod speculating;
pub mod speculation;
mod views;

pub use answer::Answer;
pub use speculating::speculate;
pub use speculation::Speculation;
