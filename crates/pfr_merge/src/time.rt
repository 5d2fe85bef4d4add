//! When records were captured.
ghost use Rattle.std.specs.Prelude.{◌≡◌};
ghost use Rattle.pfr_merge.specs.Arrivals.{is_before, nanoseconds_of};

use pfr_capture::Resolution;

/// When a record was captured, as its header says. The nanoseconds aren't checked and may pass one second.
#[derive(Clone, Copy)]
pub struct Time {
    /// Whole seconds since 1970.
    pub seconds: u32,
    /// The fraction of that second.
    pub nanoseconds: u64,
}

impl Time {
    /// Whether it is earlier than another: in an earlier second, or in the same one with fewer nanoseconds.
    #[inline]
    pub fn is_before(self, other: Time) -> bool
        ensures { result ≡ is_before self other }
    {
        self.seconds < other.seconds
            || (self.seconds == other.seconds && self.nanoseconds < other.nanoseconds)
    }
}

/// A fraction of a second in nanoseconds.
#[inline]
pub fn nanoseconds(resolution: Resolution, fraction: u32) -> u64
    ensures { result ≡ nanoseconds_of resolution fraction }
{
    match resolution {
        Resolution::Microseconds => u64::from(fraction) * 1000,
        Resolution::Nanoseconds => u64::from(fraction),
    }
}
