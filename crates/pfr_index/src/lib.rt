//! A helper of `pfr_states`: the places of values by hashes of their keys.
#![tactic(auto)]

mod folding;
pub mod hash;
pub mod index;
mod search;
mod slot;

pub use hash::Hash;
pub use index::{Guess, Index};
pub use pfr_places::Place;
