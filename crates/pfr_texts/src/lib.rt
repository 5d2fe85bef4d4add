//! Parts of lines, as the lines of packets and of states have them.
//!
//! Most are put before the rest of their line (`pfr_digits::Tail`). A line has at most 128 bytes at a time, and each part says how
//! long it gets at most. Numbers and addresses can be appended to a text too.
#![tactic(auto)]

mod appending;
mod texts;

pub use appending::{append_address, append_number};
pub use texts::{put_byte, put_direction, put_key, put_peer, put_rule, put_state, put_traffic};
