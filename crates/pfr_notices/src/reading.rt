//! The numbers that tell how far a command has come.
ghost use Rattle.std.specs.Prelude.{◌≡◌};
ghost use Rattle.pfr_notices.specs.Readings as spec;

use std::fmt;

/// How far a command has come.
#[derive(Clone, Copy, Debug, PartialEq, Eq)]
pub struct Reading {
    /// How many packets were taken.
    pub packets: u64,
    /// How many were taken a second.
    pub per_second: u64,
    /// Which part of the captures' files was read, in per cent, if that is known.
    pub share: Option<u64>,
    /// How many states were made.
    pub made: u64,
}

/// Packets a second, if `packets` packets took `milliseconds` milliseconds. Less than one counts as one.
pub fn per_second(packets: u64, milliseconds: u64) -> u64
    ensures { result ≡ spec.per_second packets milliseconds }
{
    packets.saturating_mul(1000) / milliseconds.max(1)
}

/// `read` bytes as a part of `size` bytes, in per cent. If they are more than `size`, it is 100.
pub fn share_of(read: u64, size: u64) -> u64
    ensures { result ≡ spec.share_of read size }
{
    if read >= size {
        return 100;
    }
    read.saturating_mul(100) / size
}

impl fmt::Display for Reading {
    fn fmt<W: fmt::Write>(&self, f: &mut fmt::Formatter<W>) -> fmt::Result {
        let packets = self.packets;
        let per_second = self.per_second;
        let made = self.made;
        write!(f, "{packets} packets, {per_second} a second")?;
        if let Some(share) = self.share {
            write!(f, ", {share} %")?;
        }
        write!(f, ", {made} states made")
    }
}
