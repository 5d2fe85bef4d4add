//! How a run goes on.

/// How a run goes on after a turn.
#[derive(Clone, Copy)]
pub enum Turn {
    GoesOn,
    /// The reading has ended and all is taken, or a piece wasn't taken whole.
    IsOver,
    /// Memory was refused.
    IsRefused,
}
