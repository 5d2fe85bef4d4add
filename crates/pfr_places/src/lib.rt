//! A helper of `pfr_states`, `pfr_index` and `pfr_deadlines`: values by rising numbers, each at a place of its own
//! where it stays until it is removed.
#![tactic(auto)]

mod order;
pub mod place;
mod places;
mod slab;

pub use place::Place;
pub use places::Places;
