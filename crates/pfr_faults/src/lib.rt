//! All faults of a ruleset text at once, each at its word. A helper of `pfr_prepare`.
//!
//! The strict reader answers the first fault of a text, by its line. [`all_faults`] calls it again and again, each time
//! on the words that are left without the statement at fault. Each word stands on a line of its own, so that the line
//! says which word it is.
#![tactic(auto)]

mod faults;
pub mod laws;
mod leaving;
mod spread;

pub use faults::{Fault, all_faults};
pub use pfr_terms::{ConfError, ConfErrorKind};
