//! The words of a ruleset text, with the places where they stand. A helper of the crates that rewrite texts.
//!
//! [`mark::marks`] answers the words of a text, its signs and the ends of its lines, each as a [`mark::Mark`].
//! [`braces::are_closed`] says whether each brace among them is closed.
#![tactic(auto)]

pub mod braces;
pub mod mark;
