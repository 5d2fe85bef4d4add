//! Which rule of a ruleset decides on a packet. A helper of `pfr_packet`, `pfr_record` and `pfr_commit`.
//!
//! [`filter`] answers what pf.conf(5) says under "Packet filtering" and "Anchors": the last rule that hits decides,
//! unless a `quick` rule or anchor ends the walk before. A rule with `max` hits only if it has room for one more state,
//! which [`RuleRoom`] answers. The contract says so by the places of rules in a flat list. It also says which rules
//! were visited on the way, and which rules were asked for their room.
//!
//! [`translate`] answers what it says under "Translation": the first rule of a kind that holds decides.
#![tactic(auto)]

mod candidates;
pub mod counts;
pub mod decision;
pub mod evaluations;
pub mod hit;
pub mod laws;
pub mod room;
mod searching;
mod stretch;
mod translating;
pub mod visits;
mod walk;

pub use decision::Decision;
pub use evaluations::Evaluations;
pub use hit::{Hit, NewEnd, PortMapping};
pub use pfr_net::RuleNumber;
pub use room::RuleRoom;
pub use translating::translate;
pub use visits::Visits;
pub use walk::filter;
