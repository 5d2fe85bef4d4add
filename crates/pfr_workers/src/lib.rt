//! Workers that live as long as a run, and answer what they find out about the numbers of the batches that are opened.
//! A helper of `pfr_work`.
//!
//! Each worker is given a task for each batch, on a channel of its own: it draws numbers of the batch, each number by exactly one
//! worker, and sends what it answers in groups, on a channel of the batch's own. At its end it sends its pass back. Several
//! batches may be open at once, and their numbers never mix: each has its claims. A worker that can't be started or reached
//! answers nothing, and its passes are drawn to their ends once the others have answered.
#![tactic(auto)]

mod crew;
mod hand;
mod incomplete;
mod open_batch;
mod opening;
mod outbox;
mod task;

pub use crew::{Crew, hire};
pub use hand::Hand;
pub use incomplete::Incomplete;
pub use open_batch::{Finished, OpenBatch};
pub use opening::{OpenedClaims, Openings};
