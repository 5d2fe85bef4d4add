//! Messages to a standby: what they say of states, and their bytes.
//!
//! A [`Message`] holds records of states that came to be, moved on or are gone, after pfsync(4), version 5, in a layout of
//! this project's own. [`encode`] spells it, and [`decode`] reads the message at the front of bytes, or says what is wrong
//! with them first. Each message has one spelling, and none begins another one's, so a stream of messages is read in one
//! way ([`laws::readable`]).
#![tactic(auto)]

pub mod decoding;
pub mod encoding;
pub mod error;
mod fault;
mod fields;
mod kinds;
pub mod laws;
pub mod message;
mod reading;
pub mod records;
mod sections;
mod writing;

pub use decoding::decode;
pub use encoding::{encode, encode_onto};
pub use error::SyncError;
pub use message::Message;
pub use records::{Deletion, Insertion, Parties, Peer, Update};
