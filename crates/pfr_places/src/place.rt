//! Where a value stands.

/// The place of a value: its index among the places, from 0.
#[derive(Clone, Copy, Debug, PartialEq, Eq, PartialOrd, Ord)]
pub struct Place(pub u32);
