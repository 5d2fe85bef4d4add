//! Runs over the batches of a feed: what a run is, the run by one thread, where its records come from, and how it ends.
//!
//! A helper of `pfr_work`, `pfr_out`, `pfr_diff` and `pfr_show`. A [`Feed`] gives the batches and takes what they add.
//! `specs/Runs.antt` says how its calls go, and how a run ends. [`Sources`] gives the records of captures, and [`Stop`] says
//! why a run ended before the end of them.
#![tactic(auto)]

mod alone;
mod feed;
mod packets;
mod reading;
pub mod report;
mod room;
pub mod sources;
pub mod turn;

pub use alone::run_alone;
pub use feed::Feed;
pub use packets::{Packets, viewed};
pub use reading::{give_back, wants_memory};
pub use report::{Output, Report, Stop, stop_for};
pub use room::Room;
pub use sources::Sources;
pub use turn::Turn;
