//! What the text of a ruleset can't say by itself: the addresses of interfaces, the interfaces of groups, the names of
//! hosts(5) and of services(5), and the files of tables.
//!
//! A helper of the crates that rewrite texts: `pfr_spelling`, `pfr_rewrite` and `pfr_prepare`.
//!
//! A [`Given`] holds, for words of a ruleset, the texts that are written in their place. For a word as a [`Subject`],
//! [`count_of`] says how many texts stand for it, and [`joined`] what they are.
#![tactic(auto)]

pub mod entry;
mod forms;
mod hosts;
mod listing;
mod parts;
mod services;
mod tables;
mod written;

pub use entry::{Entry, Given, Subject, count_of};
pub use listing::joined;
