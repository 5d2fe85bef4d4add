//! IPv4 networks.
ghost use Rattle.std.specs.Prelude.{◌≡◌};
ghost use Rattle.pfr_net.specs.Networks as spec;

use crate::address::Ipv4Address;
use crate::notation::{cut, dotted, number_within};

/// The network of the addresses that agree with `address` in their first `bits` bits. The other bits of `address`
/// are ignored (RFC 4632, section 3.1).
#[derive(Clone, Copy, Debug, PartialEq, Eq, Hash)]
pub struct Net {
    pub address: Ipv4Address,
    /// How many bits: 0 to 32, and more than 32 count as 32.
    pub bits: u8,
}

/// An address without the bits below a prefix of `bits` bits; more than 32 bits count as 32.
#[inline]
#[tactic(auto, unfolding(crate::specs::Networks::prefix))]
pub fn prefix(bits: u8, address: u32) -> u32
    ensures { result ≡ spec.prefix bits address }
{
    let ignored = 32u8.saturating_sub(bits);
    ((u64::from(address) >> ignored) << ignored) as u32
}

/// The number of bits of a prefix that is written, if it is at most 32.
fn bits_of(text: &[u8]) -> Option<u8>
    ensures { result ≡ spec.bits_of text.now }
{
    number_within(32, text)
}

impl Net {
    /// Whether the network holds an address.
    #[inline]
    pub fn holds(&self, address: Ipv4Address) -> bool
        ensures { result ≡ spec.holds self.now address }
    {
        prefix(self.bits, address.0) == prefix(self.bits, self.address.0)
    }

    /// The network that a text writes: `a.b.c.d/bits`, or `a.b.c.d` for a single address. Numbers may have
    /// leading zeros. `None` for any other text.
    #[tactic(auto, unfolding(crate::specs::Networks::net_of))]
    pub fn parse(text: &[u8]) -> Option<Net>
        ensures { result ≡ spec.net_of text.now }
    {
        match cut(b'/', text) {
            None => {
                let address = dotted(text)?;
                Some(Net { address, bits: 32 })
            }
            Some((front, bits)) => {
                let address = dotted(front)?;
                let bits = bits_of(bits)?;
                Some(Net { address, bits })
            }
        }
    }
}
