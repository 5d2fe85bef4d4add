//! What a standby is told: the checksum of the rules, and messages about states.
//!
//! [`checksum`] is the MD5 of a ruleset's text. Its contract holds for every text, of any length. No contract
//! says that texts with one checksum are the same: MD5 is broken as a cryptographic hash.
//!
//! A [`Queue`] takes [`Event`]s, in the order in which states are made, touched and removed. It holds what the open message
//! tells, one entry per state, and returns the messages that close. Its contracts hold for every list of events: the messages
//! are those of the list's parts, as the definition cuts it. [`encode`] spells a [`Message`], and [`decode`] reads one.
//!
//! A [`Standby`] that takes the messages of events holds the states that the events leave (`laws::standby_holds`).
//!
//! In a file each message follows an IP header, [`ip_header`]. Its checksum verifies (`laws::file_header_verifies`).
#![tactic(auto)]

mod digest;
mod edit;
mod entries;
pub mod event;
mod file;
pub mod laws;
mod names;
pub mod origin;
pub mod queue;
mod records;
mod sizes;
mod telling;

pub use digest::checksum;
pub use event::{Event, EventKind};
pub use file::ip_header;
pub use names::letters;
pub use origin::{MOST_INTERFACES, Origin};
pub use pfr_messages::{Message, SyncError, decode, encode, encode_onto};
pub use pfr_standby::{Kept, Standby};
pub use queue::Queue;
