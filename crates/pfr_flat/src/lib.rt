//! A helper of `pfr_expand`: the combinations that the lists of one statement make, each of which asks for one thing of
//! a kind, and the flat translation rules of them.
//!
//! [`lists_of`] gives the lists of a statement's criteria their elements, [`counted`] says how many rules they make
//! before any is made, and [`combinations`] makes a match of each choice from all of them.
#![tactic(auto)]

pub mod choices;
pub mod counts;
pub mod laws;
pub mod lists;
pub mod translations;

pub use choices::{Choices, combinations};
pub use counts::{MOST_RULES, counted, too_many};
pub use lists::{Lists, choices_or_fault, lists_of, lists_with, slice_of};
pub use translations::{all_fit, put_translations};
