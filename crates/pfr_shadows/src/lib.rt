//! Rules that never decide, since others come before them or after them and hold wherever they do.
//!
//! A helper of `pfr_wording`, `pfr_report` and `pfr_views`. [`shadows`] finds some of these rules. It is proved of each
//! that it names: another rule holds wherever it does, is tested wherever it is, and comes to decide (`IsShadow`). Two
//! rules are compared criterion by criterion. So there are rules that never decide and aren't found, for example if
//! several others together hold for all their packets.
#![tactic(auto)]

mod criteria;
mod finding;
mod hosts;
pub mod laws;
mod rules;
mod same;

pub use finding::{MOST_RULES, Shadow, shadows};
pub use rules::{covers, is_shadow};
