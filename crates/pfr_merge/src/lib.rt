//! Several captures as one: a gateway with several interfaces is captured on each, and a run takes the records of all
//! in the order of time. A helper of `pfr_out`, `pfr_diff` and `pfr_show`.
//!
//! [`Merge`] reads several captures, each from its source, and gives their records in the order of time. Its contract
//! says that the records given so far are the beginning of the merge of the captures. The laws say that they are all of
//! it at the end, or all that comes before a refusal.
#![tactic(auto)]

mod input;
pub mod laws;
pub mod merge;
pub mod time;

pub use merge::Merge;
pub use time::Time;
