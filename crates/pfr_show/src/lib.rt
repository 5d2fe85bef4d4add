//! Packets with what a run wrote of them.
//!
//! A helper of `pfr_report` and `pfr_views`. [`walk`] reads captures, and the lines of verdicts that a run wrote of
//! their packets. It joins the two one by one, and hands them to a [`Taker`]. A [`Printer`] is one: it prints the
//! selected packets, a line for each, as JSON, or as a capture as pflog(4) has it, or counts them.
//!
//! It is proved what is joined ([`join`]): the line is what a run writes of the packet with this number, at this clock
//! and on this interface, and it names rules that are there. It is tested that packets and lines are taken in turn,
//! which of them are shown, and what is printed of them (`tests/showing`).
#![tactic(auto)]

mod counts;
mod joining;
mod json;
mod moment;
mod pflog;
mod printer;
mod selection;
mod shown;
mod text;
mod walking;

pub use counts::Counts;
pub use joining::{Met, Misfit, Run, join};
pub use moment::Calendar;
pub use printer::{Asked, Form, Printer};
pub use selection::{Selection, Verdicts};
pub use walking::{Stopped, Taker, Walked, walk};
