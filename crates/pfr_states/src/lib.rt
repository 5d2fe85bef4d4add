//! The table of states: a finite map from number to state. No two states that are bound to one interface share a key,
//! and states go when their deadline comes.
#![tactic(auto)]

mod ahead;
pub mod change;
mod due;
mod indexed;
mod key_hash;
mod keyed;
pub mod laws;
mod likeness;
pub mod question;
mod rule_counts;
pub mod stored;
pub mod table;

pub use ahead::{AHEAD, Lookup};
pub use change::{Change, KnownChange, Side, TableChange, TableError};
pub use pfr_index::Guess;
pub use pfr_places::Place;
pub use question::Question;
pub use stored::Found;
pub use table::Table;
