//! A list that only grows, of which several threads know beginnings. A helper of `pfr_workers`, `pfr_published` and
//! `pfr_work`.
//!
//! The list stands in the proofs alone: a running program has its length. [`History`] is the list under the name that a call picks,
//! and [`Front`] a beginning of it. Of any two beginnings of one list the shorter begins the longer, whatever threads they come
//! from.
#![tactic(auto)]

mod history;

pub use history::{Front, History, Naming, Opened};
