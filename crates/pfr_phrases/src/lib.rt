//! What is rewritten of a ruleset text by the words of a statement alone, without what macros, tables or surroundings
//! say.
//!
//! A helper of the crates that rewrite texts: `pfr_spelling`, `pfr_rewrite` and `pfr_prepare`.
//!
//! [`changing::change_at`] answers what is rewritten at the front of some words, as a [`change::Change`] with its
//! reason. [`applying::rewritten`] makes the text with all changes, and [`tracing::traced`] also says where its bytes
//! stood in the other text.
#![tactic(auto)]

pub mod applying;
pub mod change;
pub mod changing;
pub mod context;
pub mod inet6;
pub mod lengths;
pub mod options;
pub mod phrases;
pub mod reason;
mod settings;
pub mod statements;
pub mod tracing;
pub mod values;
