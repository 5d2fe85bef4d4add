//! A page of HTML about what a run made of the packets of captures.
//!
//! A [`Tally`] takes packets with their lines of verdicts, one by one, and counts them: by verdicts, by spans of time, by the lines of
//! the ruleset's file, and those that are blocked by their flows. [`print`] prints a page of what it counted.
//!
//! It is proved what stands for a text of a file ([`append_text`]), and that this opens no tag, closes none and ends no attribute
//! ([`every_text_is_harmless`]); and that [`Lines::add`](lines::Lines) counts a packet once for each line that it is given, and for no
//! other. What stands in the page, and which lines are given, is tested (`tests/reporting`).
#![tactic(auto)]

mod ages;
mod blocked;
mod count;
mod escape;
mod flows;
mod lines;
mod page;
mod picture;
mod printing;
mod rules;
mod spans;
mod style;
mod summary;
mod tables;
mod tally;

pub use ages::{Ages, ages_of};
pub use count::Count;
pub use escape::{append_text, every_text_is_harmless};
pub use printing::{Captured, Subject, print};
pub use tally::{Counted, Tally};
