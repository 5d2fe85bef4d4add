//! A ruleset text as it is written, rewritten for the strict reader. A helper of `pfr_prepare`.
//!
//! [`adapt`] rewrites what a text says in words that the strict reader doesn't know, and says what it did.
//! [`rules_of_others`] finds the rules and anchors that name other interfaces than those that the text is for.
//!
//! A text that the strict reader accepts stays as it is, and so does a text that was adapted before. Else each change is
//! said of a word of the text, the bytes between changes stay, and each line of the new text has the line that it comes
//! from ([`laws`]).
#![tactic(auto)]

mod adapting;
mod antispoof;
mod elsewhere;
mod interfaces;
pub mod laws;
mod unseen;
mod unseen_list;
mod whole;

pub use adapting::{Adapted, Surroundings, adapt, rules_of_others};
pub use pfr_phrases::change::Finding;
pub use pfr_phrases::reason::{Kind, Reason};
pub use pfr_phrases::tracing::{Piece, old_place};
