//! What a capture consists of.
use crate::device::Fault;
use crate::order::ByteOrder;
use std::alloc::{AllocError, AllocFailed};
use thiserror::Error;

/// What the fractions of a second count.
#[derive(Clone, Copy)]
pub enum Resolution {
    Microseconds,
    Nanoseconds,
}

/// What a capture's header says of its records.
#[derive(Clone, Copy)]
pub struct Form {
    pub order: ByteOrder,
    pub resolution: Resolution,
    /// The link type of every record: 0 for BSD loopback, 1 for Ethernet, 101 for raw IP.
    pub link: u16,
}

/// How a capture ends: with a whole record, or inside one (or, after 2^40 records, with more bytes).
#[derive(Clone, Copy, PartialEq, Eq)]
pub enum Tail {
    Clean,
    Cut,
}

/// Why a capture can't be read, or can't be read on.
#[derive(Clone, Copy, Debug, PartialEq, Eq, Error)]
pub enum CaptureError {
    /// There are fewer than 24 bytes.
    #[error("header cut")]
    HeaderCut,
    /// The first four bytes are no magic number of a classic capture, in either byte order.
    #[error("bad magic")]
    BadMagic,
    /// The major version isn't 2.
    #[error("bad version")]
    BadVersion,
    /// The link type is none of 0, 1 and 101.
    #[error("link type {0}")]
    LinkType(u16),
    /// A record says that more than 262144 bytes of it were captured.
    #[error("record too long {0}")]
    RecordTooLong(u32),
    /// The source failed.
    #[error("read failed")]
    Read,
    /// Memory was refused.
    #[error("no memory")]
    Memory,
}

impl From<Fault> for CaptureError {
    ghost use Rattle.std.specs.Prelude.{◌≡◌};
    ghost use Rattle.pfr_capture.specs.declared.capture.CaptureError.TheVariants.{Read};

    ghost from_gives = { λ _ e. e ≡ Read };

    fn from(_fault: Fault) -> CaptureError {
        CaptureError::Read
    }
}

impl From<AllocError> for CaptureError {
    ghost use Rattle.std.specs.Prelude.{◌≡◌};
    ghost use Rattle.pfr_capture.specs.declared.capture.CaptureError.TheVariants.{Memory};

    ghost from_gives = { λ _ e. e ≡ Memory };

    fn from(_refused: AllocError) -> CaptureError {
        CaptureError::Memory
    }
}

/// One packet of a capture.
#[derive(Drop)]
pub struct Record {
    /// Which of a run's captures it is of, from 0 on. A reader knows of its own capture alone and writes 0.
    pub place: u8,
    /// The link type of its capture.
    pub link: u16,
    /// When it was captured: whole seconds since 1970.
    pub seconds: u32,
    /// The fraction of that second, counted as the capture's resolution says.
    pub fraction: u32,
    /// The 16 bytes of its header, as they were read.
    pub header: [u8; 16],
    /// The bytes that were captured of it, from the link header on.
    pub bytes: Vec<u8>,
}
