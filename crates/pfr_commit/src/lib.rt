//! Packets in the order of their capture: what they leave, and what they add to the outputs of a run.
//!
//! A [`Book`] takes one packet after the other, each with a result that was found ahead, or without one. Whatever
//! results it is given, it leaves the same states, counters, lines and bytes as if it evaluated the packets one by one.
#![tactic(auto)]

mod batch;
pub mod book;
pub mod changes;
mod counter_line;
pub mod counters;
pub mod emitted;
pub mod ending;
pub mod gate;
pub mod laws;
mod mark;
pub mod packet_texts;
mod results;
pub mod state_line;
pub mod verdict_line;

pub use book::Book;
pub use changes::Changes;
pub use counters::{Counters, RuleCounters, Totals};
pub use emitted::Emitted;
pub use ending::Ending;
pub use gate::{Gate, Unwatched};
pub use packet_texts::PacketTexts;
pub use state_line::StateLine;
pub use verdict_line::VerdictLine;
