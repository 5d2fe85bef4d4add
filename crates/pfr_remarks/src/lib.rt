//! What pfctl(8) of FreeBSD 13 refuses of a ruleset text though this program accepts it. A helper of `pfr_prepare`.
//!
//! Nothing is rewritten: [`remarks`] finds the words, and each [`Remark`] is a warning. A text that uses none of the
//! words that pfctl may refuse has no remarks, and each remark is about a word of the text ([`laws`]).
#![tactic(auto)]

mod before;
mod finding;
pub mod laws;
mod protocols;
mod remark;
mod told;
mod why;

pub use finding::remarks;
pub use remark::Remark;
pub use why::Why;
