//! Sequence numbers of TCP (RFC 9293, section 3.4).
ghost use Rattle.std.specs.Prelude.{◌≡◌};
ghost use Rattle.pfr_track.specs.Sequences as spec;

/// A sequence number: behind 2^32 - 1 comes 0.
#[derive(Clone, Copy, Debug, PartialEq, Eq, Hash)]
pub struct Sequence(pub u32);

impl Sequence {
    /// The number `count` places on.
    #[inline]
    pub(crate) fn plus(self, count: u32) -> Sequence
        ensures { result ≡ spec.plus self count }
    {
        Sequence(self.0.wrapping_add(count))
    }

    /// The number `count` places back.
    #[inline]
    pub(crate) fn minus(self, count: u32) -> Sequence
        ensures { result ≡ spec.minus self count }
    {
        Sequence(self.0.wrapping_sub(count))
    }

    /// The number of places from `other` on to this number.
    #[inline]
    pub(crate) fn since(self, other: Sequence) -> u32
        ensures { result ≡ spec.since self other }
    {
        self.0.wrapping_sub(other.0)
    }

    /// Whether this number is the other one or comes after it: it is fewer than 2^31 places on.
    #[inline]
    pub fn is_at_least(self, other: Sequence) -> bool
        ensures { result ≡ spec.is_at_least self other }
    {
        self.since(other) < 2147483648
    }
}
