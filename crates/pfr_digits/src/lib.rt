//! Short texts of words and numbers, written from their end to their beginning: a number gives its last digits first.
//!
//! A [`Tail`] is the end of a text of at most 160 bytes. One piece after the other is put before it, and then the whole
//! is read as bytes. Nothing is formatted, and no memory is allocated.
#![tactic(auto)]

mod digits;
pub mod tail;

pub use tail::Tail;
