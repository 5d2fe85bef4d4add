//! How a run ends.
ghost use Rattle.std.specs.Prelude.{◌≡◌};
ghost use Rattle.pfr_feed.specs.Stops.{stop_for};

use pfr_capture::{CaptureError, Tail};
use pfr_terms::ConfError;
use thiserror::Error;

/// A run that went to the end of its captures.
#[derive(Clone, Copy, PartialEq, Eq)]
pub struct Report {
    /// How many packets were replayed.
    pub committed: u64,
    /// How the captures end: cut if one of them is.
    pub tail: Tail,
}

/// The outputs of a run.
#[derive(Clone, Copy, Debug, Error)]
pub enum Output {
    #[error("verdicts")]
    Verdicts,
    /// The packets of the capture at a place.
    #[error("packets")]
    Packets(usize),
    #[error("counters")]
    Counters,
    #[error("states")]
    States,
    #[error("messages")]
    Messages,
}

/// Why a run ended before the end of its captures. The last number counts the packets committed: the outputs of verdicts and packets
/// hold all that these write.
#[derive(Debug, Drop, Error)]
pub enum Stop {
    #[error("{0}")]
    Ruleset(ConfError),
    /// The capture at a place is refused.
    #[error("capture {0}: {1}, committed {2}")]
    Capture(usize, CaptureError, u64),
    /// The source at a place failed.
    #[error("read failed: capture {0}, committed {1}")]
    Read(usize, u64),
    #[error("write failed: {0}, committed {1}")]
    Write(Output, u64),
    #[error("no memory, committed {0}")]
    Memory(u64),
}

/// The stop for the refusal of the capture at a place.
pub fn stop_for(refusal: (usize, CaptureError), committed: u64) -> Stop
    ensures { result ≡ stop_for refusal committed }
{
    let (place, refusal) = refusal;
    match refusal {
        CaptureError::Read => Stop::Read(place, committed),
        CaptureError::Memory => Stop::Memory(committed),
        refusal => Stop::Capture(place, refusal, committed),
    }
}
