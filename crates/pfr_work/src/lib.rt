//! Runs of batches: each batch is evaluated ahead by workers, and taken in order by the calling thread.
//!
//! A helper of `pfr_out`. [`run_workers`] is the run. The laws say what it comes to: a state of the speculative
//! machine, to which a list of events leads from the start.
#![tactic(auto)]

mod batch;
mod beside;
mod course;
mod evaluator;
mod found;
pub mod laws;
mod oldest;
pub mod pace;
mod reading;
mod run;
mod running;
mod shown;
pub mod trace;
mod turns;
mod views;

pub use found::OfRun;
pub use pfr_commit::Gate;
pub use pfr_feed::Feed;
pub use pfr_history::Naming;
pub use run::run_workers;
pub use trace::{Histories, Trace};
