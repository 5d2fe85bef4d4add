//! What the lists of a ruleset come to, once its macros, its tables and the run's interfaces are known. A helper of
//! `pfr_flat` and `pfr_expand`.
//!
//! A list stands in a statement as it is written. [`elements_of`] gives each of its elements a meaning: a form of an
//! interface means its address, a table's name its place, the use of a macro all elements of its value.
//! Where one address has to stand, [`written_single`] and [`single_sources`] say which, and leave out more than one.
#![tactic(auto)]

pub mod definition;
pub mod element;
mod faults;
pub mod hosts;
pub mod interface;
pub mod macros;
mod meanings;
pub mod names;
pub mod scope;
pub mod single;
pub mod terms;
pub mod text;
pub mod value;

pub use element::{Element, Elements, MOST_ELEMENTS, elements_of};
pub use macros::Macros;
pub use names::Names;
pub use scope::Scope;
pub use single::{single_sources, written_single};
pub use value::Value;
