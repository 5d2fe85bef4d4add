//! Captures through a ruleset: the lines that say what becomes of each packet, the packets that aren't blocked, the
//! counters of the rules, the states that are left, and the messages by which another firewall is told of the states.
//!
//! [`replay`] is the whole run, over any sources and any sinks. Its contract is the theorem of this crate, for all
//! sizes of a batch, numbers of workers and orders of their results. After a run to the end the sinks have grown by
//! exactly what one thread writes that takes the packets in the order of the captures. If a device fails, they have
//! grown by a beginning of that, which holds at least the packets that the stop reports as committed.
//!
//! [`standby`] reads the messages that a run writes, and writes the states that a reader of these messages holds. The
//! commands use this crate.
#![tactic(auto)]

mod channel;
mod feeding;
pub mod laws;
pub mod packet_sinks;
mod run;
pub mod settings;
pub mod sinks;
mod taking;

pub use packet_sinks::PacketSinks;
pub use pfr_conf::{ConfError, ConfErrorKind};
pub use pfr_feed::{Output, Report, Sources, Stop};
pub use pfr_stream::{Framing, StandbyStop, standby};
pub use pfr_work::Gate;
pub use run::{replay, replay_job};
pub use settings::{Form, RunSettings, Settings};
pub use sinks::Sinks;
