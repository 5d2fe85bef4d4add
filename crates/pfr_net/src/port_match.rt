//! Ports that a rule asks for.

/// How a port is compared with one that is written.
#[derive(Clone, Copy, PartialEq, Eq)]
pub enum Comparison {
    Equal,
    NotEqual,
    Less,
    LessOrEqual,
    Greater,
    GreaterOrEqual,
}

/// How a port is compared with two that are written.
#[derive(Clone, Copy, PartialEq, Eq)]
pub enum RangeOperator {
    /// `x:y`: from the first to the second.
    Inclusive,
    /// `x >< y`: above the first and below the second.
    Between,
    /// `x <> y`: below the first or above the second.
    Outside,
}

/// The ports that a packet may have.
#[derive(Clone, Copy, PartialEq, Eq)]
pub enum PortMatch {
    Compare(Comparison, u16),
    Range(RangeOperator, u16, u16),
}
