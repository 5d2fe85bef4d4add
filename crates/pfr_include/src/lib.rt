//! A ruleset text with the texts of files in the place of the statements that name them. A helper of `pfr_prepare`.
//!
//! [`with_files`] puts a file's text in the place of `include "NAME"`, and as rules behind each anchor without rules
//! that `load anchor NAME from "NAME"` names, both as pf.conf(5) has them. For each line of the new text it says which
//! file and line it comes from.
#![tactic(auto)]

pub mod file;
pub mod laws;
mod position;
mod splices;
mod splicing;
mod statements;
mod turns;

pub use file::File;
pub use splicing::{Included, Origin, Spliced};
pub use turns::with_files;
