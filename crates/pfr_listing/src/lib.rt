//! What a run wrote, read again: its lines of states, of verdicts and of counters. States are printed as pfctl(8) shows
//! them, or as JSON.
//!
//! A helper of the crates that show something. [`listed`] reads the lines of a run's states and puts them in order;
//! [`put_pfctl`] and [`put_json`] print one of them. [`judged_in`] reads a line of verdicts, and [`counted_in`] one of
//! counters. Packets are shown by their [`Flow`].
//!
//! It is proved that what is read is what the line says, that the states are those of the text's lines, each once, and
//! what is printed of a state. Their order is tested, and that each line of a run is read.
#![tactic(auto)]

mod counted;
mod counters;
mod flow;
mod json;
mod judged;
mod line;
mod listing;
mod pfctl;
mod words;

pub use counted::{RuleKind, counted_in};
pub use counters::counters_in;
pub use flow::{End, Flow};
pub use json::{put_count, put_json, put_option, put_string};
pub use judged::{Judged, judged_in};
pub use line::{Bound, Listed, is_line};
pub use listing::{Refused, first_line, listed};
pub use pfctl::{protocol_name, put_pfctl};
pub use words::{reason_word, verdict_word};
