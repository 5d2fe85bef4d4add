//! Hashes of keys.
ghost use Rattle.std.specs.Prelude.{◌≡◌};
ghost use Rattle.pfr_states.specs.KeyHash as spec;

use pfr_index::Hash;
use pfr_track::Key;

/// The fraction of the golden ratio: odd, and its bits have no pattern.
const GOLDEN: u64 = 0x9e37_79b9_7f4a_7c15;

/// Another such factor.
const OTHER: u64 = 0xd1b5_4a32_d192_ed03;

/// Two numbers side by side, the first in the higher bits.
#[inline]
fn beside(high: u32, low: u32) -> u64
    ensures { result ≡ spec.beside high low }
{
    u64::from(high) * 4_294_967_296 + u64::from(low)
}

/// Two ports side by side.
#[inline]
fn ports(first: u16, second: u16) -> u32
    ensures { result ≡ spec.ports first second }
{
    u32::from(first) * 65_536 + u32::from(second)
}

/// The hash of a key. Products spread its addresses and its ports over the higher bits, and the highest bits are the
/// hash.
#[inline]
#[tactic(auto, unfolding(crate::specs::KeyHash::hash_of))]
pub(crate) fn hash_of(key: &Key) -> Hash
    ensures { result ≡ spec.hash_of key.now }
{
    let addresses = beside(key.outside.address.0, key.inside.address.0);
    let ports = ports(key.outside.port.0, key.inside.port.0);
    let rest = beside(u32::from(key.protocol.0), ports);
    let spread = addresses.wrapping_mul(GOLDEN);
    // bits that stand only in the higher half reach all of the second product
    let folded = spread.wrapping_add(spread / 4_294_967_296);
    let joined = folded.wrapping_add(rest).wrapping_mul(OTHER);
    Hash((joined / 4_294_967_296) as u32)
}
