//! A standby over a stream of messages: what it holds behind the last one, a line for each state. A helper of
//! `pfr_out`.
//!
//! [`standby`] reads messages from a source to its end, has a standby take each, and writes the lines of the states that are held. Its
//! contract says which messages were taken, why the run stopped, and what was written, for any source and any sink.
#![tactic(auto)]

pub mod framing;
mod gathered;
mod held;
pub mod laws;
mod lines;
mod reading;
mod run;
pub mod stop;

pub use framing::Framing;
pub use pfr_messages::SyncError;
pub use run::standby;
pub use stop::StandbyStop;
