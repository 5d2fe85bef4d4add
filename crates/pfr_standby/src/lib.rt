//! A standby: what it holds of states, message by message. A helper of `pfr_sync` and `pfr_stream`.
//!
//! A [`Standby`] holds what messages say of states: their keys, direction, rule, ends and timeout, by number. It
//! [takes](Standby::take) a message whole or refuses it, and a refused message changes nothing.
#![tactic(auto)]

mod changes;
pub mod kept;
mod refusals;
pub mod standby;

pub use kept::Kept;
pub use standby::Standby;
