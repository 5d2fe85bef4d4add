//! What differs between two rulesets, and which of it the packets of a run could have asked.
//!
//! A helper of `pfr_notices`, `pfr_diff` and `pfr_report`. What a run says of its packets is nothing about a rule that no packet could have asked, say
//! since no capture is of the rule's interface, or since no packet goes the rule's way. It is proved of a filter rule
//! that any other may stand in its place which no packet could have asked either, and nothing of the run changes.
//! [`Untried`] has the differences that no packet could have asked, and why, and those that none met.
#![tactic(auto)]

mod asking;
mod differences;
mod keys;
pub mod laws;
mod seen;
mod traffic;
mod unasked;
mod untried;

pub use asking::{came, interface_allows, is_allowed, opens};
pub use differences::{Kind, Which};
pub use keys::Told;
pub use seen::{Seen, add_packet, could_be_asked, none_seen};
pub use traffic::{Targets, Traffic, is_translated, targets_of};
pub use unasked::Why;
pub use untried::{Idle, NotAsked, Place, Unasked, Untried, not_asked};
