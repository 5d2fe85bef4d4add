//! What is wrong with the bytes of a message behind its first header.
ghost use Rattle.std.specs.Prelude.{◌≡◌, ◌-◌};
ghost use Rattle.pfr_messages.specs.Messages as spec;
ghost use Rattle.pfr_messages.specs.declared.fault.ReadError.TheVariants as errors;

use crate::error::SyncError;
use std::alloc::{AllocError, AllocFailed};

/// The first fault from the left.
#[derive(Clone, Copy, Debug, PartialEq, Eq)]
pub(crate) enum Fault {
    /// The action of a header isn't one of a message, isn't above the one before, or is the end with nothing before it.
    Action(u8),
    /// A count is 0, the end's count isn't 1, or there are fewer records than a count says.
    Count,
    /// No header stands where a header or the end is wanted.
    NoEnd,
    /// Bytes stand behind the end.
    Trailing,
    /// A byte that no message has there, by the count of bytes from it on.
    Differs(usize),
}

/// Why records aren't read.
#[derive(Clone, Copy, Debug, PartialEq, Eq, Drop)]
pub(crate) enum ReadError {
    Memory,
    Fault(Fault),
}

impl Fault {
    /// What it is in a message of `len` bytes.
    fn in_message(self, len: usize) -> SyncError
        ensures { result ≡ spec.refusal len self }
    {
        match self {
            Fault::Action(action) => SyncError::Action(action),
            Fault::Count => SyncError::Count,
            Fault::NoEnd => SyncError::NoEnd,
            Fault::Trailing => SyncError::Trailing,
            Fault::Differs(left) => SyncError::Fixed(len.saturating_sub(left)),
        }
    }
}

impl ReadError {
    /// What it is in a message of `len` bytes.
    pub(crate) fn in_message(self, len: usize) -> SyncError
        ensures { result ≡ spec.refusal_of len self }
    {
        match self {
            ReadError::Memory => SyncError::Memory,
            ReadError::Fault(fault) => fault.in_message(len),
        }
    }
}

impl From<Fault> for ReadError {
    ghost from_gives = { λ fault e. e ≡ errors.Fault fault };

    fn from(fault: Fault) -> ReadError {
        ReadError::Fault(fault)
    }
}

impl From<AllocError> for ReadError {
    ghost from_gives = { λ _ e. e ≡ errors.Memory };

    fn from(_refused: AllocError) -> ReadError {
        ReadError::Memory
    }
}

impl<T: Drop> From<AllocFailed<T>> for ReadError {
    ghost from_gives = { λ _ e. e ≡ errors.Memory };

    fn from(_refused: AllocFailed<T>) -> ReadError {
        ReadError::Memory
    }
}
