//! Why a message is refused.
ghost use Rattle.std.specs.Prelude.{◌≡◌};
ghost use Rattle.pfr_messages.specs.declared.error.SyncError.TheVariants.{Memory};

use std::alloc::{AllocError, AllocFailed};
use thiserror::Error;

/// Why bytes don't begin with a message: what is wrong first, from the left. Or why a standby refuses a message.
#[derive(Clone, Copy, Debug, PartialEq, Eq, Drop, Error)]
pub enum SyncError {
    /// There are fewer bytes than a message has.
    #[error("short")]
    Short,
    /// The version isn't 5.
    #[error("version")]
    Version,
    /// The length is below 40 or above 1480.
    #[error("length")]
    Length,
    /// The action of a header isn't one of a message, isn't above the one before, or is the end with nothing before it.
    #[error("action {0}")]
    Action(u8),
    /// A count is 0, the end's count isn't 1, or there are fewer records than a count says.
    #[error("count")]
    Count,
    /// There is no end.
    #[error("no end")]
    NoEnd,
    /// Bytes of the message stand behind its end.
    #[error("trailing")]
    Trailing,
    /// The message updates or deletes a state that isn't held, or inserts one that is. No bytes are refused for it.
    #[error("unknown state")]
    UnknownState,
    #[error("no memory")]
    Memory,
    /// A byte that no message has there, by its place in the message.
    #[error("fixed {0}")]
    Fixed(usize),
}

impl From<AllocError> for SyncError {
    ghost from_gives = { λ _ e. e ≡ Memory };

    fn from(_refused: AllocError) -> SyncError {
        SyncError::Memory
    }
}
