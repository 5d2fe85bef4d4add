//! Why a stream of messages isn't taken to its end.
use pfr_messages::SyncError;
use thiserror::Error;

/// Why a run stopped. The number counts the messages that were taken; that of `Message` counts the refused message too.
#[derive(Clone, Copy, Debug, PartialEq, Eq, Drop, Error)]
pub enum StandbyStop {
    /// This message, counted from 1, is refused, and not for want of memory. The states that were held before it were written.
    #[error("message {0} refused: {1}")]
    Message(u64, SyncError),
    /// The source failed, or bytes stand behind 2^40 messages. The states that are held after these messages were written.
    #[error("read failed, after {0} messages")]
    Read(u64),
    /// The sink failed. It holds a beginning of what was to be written.
    #[error("write failed, after {0} messages")]
    Write(u64),
    /// Memory was refused, and nothing was written.
    #[error("no memory, after {0} messages")]
    Memory(u64),
}

/// How reading ends, behind the messages that were taken.
#[derive(Clone, Copy, Debug, PartialEq, Eq, Drop)]
pub(crate) enum Ending {
    /// No bytes are left.
    Clean,
    /// The next message is refused, and not for want of memory.
    Refused(SyncError),
    /// The source failed, or bytes stand behind 2^40 messages.
    Failed,
}
