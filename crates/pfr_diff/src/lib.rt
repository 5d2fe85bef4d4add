//! What another ruleset changes for the packets of captures.
//!
//! A helper of `pfr_views`. [`compare`] reads captures once, and has two runs take their packets, a batch at a time:
//! one with the old ruleset, and one with the new. It gathers the packets for which the two write something else
//! ([`Changes`]): those that change by themselves, and how many others follow each of them.
//!
//! It is proved of each batch that the lines compared are what the run with that ruleset writes of its packets, behind
//! those of the packets before ([`Side::take`]), as a run by itself does. What is gathered of them, and how it is told,
//! is tested (`tests/changes`).
#![tactic(auto)]

mod changes;
mod comparing;
mod decision;
mod json;
mod printing;
mod side;
mod telling;
mod unjudged;
mod untried;
mod witness;

pub use changes::{Changes, Told};
pub use comparing::{BothTold, Compared, Stopped, compare};
pub use side::Side;
