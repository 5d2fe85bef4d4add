//! Moments, in seconds as a capture counts them.
ghost use Rattle.std.specs.Prelude.{◌≡◌, ◌+◌, nat_le};

/// The clock at a packet: the greatest seconds value of the records so far.
#[derive(Clone, Copy, Debug, PartialEq, Eq, PartialOrd, Ord, Hash)]
pub struct Clock(pub u32);

/// The second from which on a state is no more.
#[derive(Clone, Copy, Debug, PartialEq, Eq, PartialOrd, Ord, Hash)]
pub struct Deadline(pub u64);

impl Deadline {
    /// The deadline that lies `seconds` seconds after the clock.
    #[inline]
    pub fn after(clock: Clock, seconds: u32) -> Deadline
        ensures { result.0 ≡ clock.0 + seconds }
    {
        Deadline(u64::from(clock.0) + u64::from(seconds))
    }

    /// Whether it has come at `clock`.
    #[inline]
    pub fn has_come(self, clock: Clock) -> bool
        ensures { result ≡ nat_le self.0 clock.0 }
    {
        self.0 <= u64::from(clock.0)
    }
}
