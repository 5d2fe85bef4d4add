//! Policies that hold if a rule says nothing.

/// What becomes of a blocked packet: dropped, or answered.
#[derive(Clone, Copy, PartialEq, Eq)]
pub enum BlockPolicy {
    Drop,
    Return,
}

/// On which interfaces a state's packets may come.
#[derive(Clone, Copy, PartialEq, Eq)]
pub enum StatePolicy {
    IfBound,
    Floating,
}
