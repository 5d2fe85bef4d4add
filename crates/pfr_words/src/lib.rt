//! The words of a ruleset text, as pf.conf(5) is written.
//!
//! [`words`] cuts a text into words with their lines. It fails only for want of memory: a part that is no word
//! becomes a [`Token::Bad`], so that the reader of the words meets the faults in the order of the text.
//! [`Bytes`] is a part of a text as contracts see it.
#![tactic(auto)]

pub mod braces;
pub mod bytes;
pub mod cutting;
pub mod laws;
pub mod names;
pub mod sign;
pub mod spelling;
pub mod word;

pub use bytes::Bytes;
pub use pfr_items::Items;
pub use sign::Sign;
pub use word::{Token, Word, WordFault};
