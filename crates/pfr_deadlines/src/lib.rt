//! A helper of `pfr_states`: deadlines by which states wait. A deadline is added at any time, and the first one is
//! known. The deadlines that have come are gone through without a look at the others.
#![tactic(auto)]

pub mod deadlines;
pub mod wait;
mod wheel;

pub use deadlines::Deadlines;
pub use pfr_places::Place;
pub use pfr_track::{Clock, Deadline, StateNumber};
pub use wait::Wait;
