//! The commands of the program that run something: `run` replays captures through a ruleset, `check` and `adapt` read one, and `standby`
//! takes what a run tells a standby.
//!
//! A helper of `pfr_cli`. Each command works over any files, network, words and streams, and answers the status to end with.
#![tactic(auto)]

mod host;
mod replaying;
mod rulesets;
mod standby;
mod summary;

pub use host::Host;
pub use replaying::replay;
pub use rulesets::{adapt, check};
pub use standby::stand_by;
