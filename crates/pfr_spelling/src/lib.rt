//! What the words of a ruleset text are spelled out as: the values of macros, other names for tables, what the
//! surroundings give for names, and the first addresses of targets.
//!
//! A helper of `pfr_rewrite`.
//!
//! [`known::Known`] is what is known of a text beside a statement. [`replacing::value_here`],
//! [`replacing::macro_here`], [`replacing::file_here`] and [`targets::target_here`] answer what is rewritten by it at
//! the front of some marks.
#![tactic(auto)]

pub mod known;
pub mod macros;
pub mod replacing;
pub mod tables;
pub mod targets;
