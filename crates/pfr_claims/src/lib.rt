//! Workers draw the numbers of a batch, from 0, each number by exactly one worker. A helper of `pfr_workers` and
//! `pfr_work`.
//!
//! A batch has a count of packets and a pass for each worker. A worker claims the next number with its pass until the pass
//! ends, at its first number at or above the count. All ended passes together tell what was drawn: each number below the
//! word once, and in each pass's list the numbers rise.
#![tactic(auto)]

mod claims;
mod gathered;
mod passes;
mod rule;

pub use claims::Claims;
pub use gathered::Gathered;
pub use passes::{Claim, ClaimPass, EndedPass};
pub use rule::Sizes;
