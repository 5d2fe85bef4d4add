//! What a standby is told of a table of states: each change of the table goes to the queue of messages. A helper of
//! `pfr_commit`.
//!
//! A [`Telling`] has the open message. For each packet it [begins](Telling::begin), [purges](Telling::purge) the table and applies
//! the packet's [change](Telling::change) to it; then it holds the messages that were closed meanwhile. Its contracts give what is
//! told as lists of events: first the states whose deadline has come are removed, by deadline and number, and then comes the
//! packet's own change. Nothing is told of states of rules with `no-sync`.
#![tactic(auto)]

pub mod laws;
pub mod telling;

pub use telling::Telling;
