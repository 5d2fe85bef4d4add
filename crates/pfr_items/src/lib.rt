//! Lists that own their elements, of which contracts see nothing but the elements.
#![tactic(auto)]

pub mod items;

pub use items::Items;
