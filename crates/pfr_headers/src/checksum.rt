//! Words and checksums in place.
ghost use Rattle.std.specs.Prelude.{◌≡◌, ◌≤◌, ◌<◌, ◌+◌, length};
ghost use Rattle.pfr_headers.specs.Checksum.{difference, difference_of, end_around, mended, mended_udp, with_word, with_words, word, word_at};
ghost use Rattle.pfr_headers.specs.Rewriting.{address_words};

use byteorder::{BigEndian, ByteOrder};
use pfr_net::Ipv4Address;

/// Writes a 16-bit word, and answers what that adds to the sums over it.
#[inline]
#[tactic(auto, unfolding(crate::specs::Checksum::with_word))]
pub fn put_word(bytes: &mut [u8], place: usize, value: u16) -> u32
    requires { place + 2 ≤ length bytes.old }
    ensures written { bytes.new ≡ with_word (word place value) bytes.old }
    ensures brings { result ≡ difference (word_at bytes.old place) value }
    ensures within { result ≤ 131070 }
{
    let old = BigEndian::read_u16(&bytes[place..]);
    BigEndian::write_u16(&mut bytes[place..place + 2], value);
    difference(old, value)
}

/// What a changed word adds to the sums over it (RFC 1624, equation 3).
#[inline]
fn difference(old: u16, new: u16) -> u32
    ensures brings { result ≡ difference old new }
    ensures within { result ≤ 131070 }
{
    if old == new {
        return 0;
    }
    u32::from(65535 - old) + u32::from(new)
}

/// Writes an address, and answers what that adds to the sums over it.
#[inline]
#[tactic(auto, using(crate::proofs::WordLemmas::next_kept))]
pub fn put_address(bytes: &mut [u8], place: usize, address: Ipv4Address) -> u32
    requires { place + 4 ≤ length bytes.old }
    ensures written { bytes.new ≡ with_words (address_words place address) bytes.old }
    ensures brings { result ≡ difference_of bytes.old (address_words place address) }
    ensures within { result ≤ 262140 }
{
    let high = put_word(bytes, place, (address.0 / 65536) as u16);
    let low = put_word(bytes, place + 2, (address.0 % 65536) as u16);
    high + low
}

/// A checksum mended for changed words under it, which add `sum`.
#[inline]
#[tactic(auto, unfolding(crate::specs::Checksum::mended))]
pub fn mended(checksum: u16, sum: u32) -> u16
    requires { sum < 2147483648 }
    ensures { result ≡ mended checksum sum }
{
    65535 - end_around(u32::from(65535 - checksum) + sum)
}

/// The sum with its carry added in at the low end, as often as there is one.
#[inline]
fn end_around(sum: u32) -> u16
    ensures { result ≡ end_around sum }
{
    if sum == 0 {
        return 0;
    }
    ((sum - 1) % 65535 + 1) as u16
}

/// A UDP checksum mended: 0 says that there is none, and stays, and what comes out as 0 is written as 65535.
#[inline]
#[tactic(auto, unfolding(crate::specs::Checksum::mended_udp))]
pub fn mended_udp(checksum: u16, sum: u32) -> u16
    requires { sum < 2147483648 }
    ensures { result ≡ mended_udp checksum sum }
{
    if checksum == 0 {
        return 0;
    }
    match mended(checksum, sum) {
        0 => 65535,
        mended => mended,
    }
}

/// Mends the checksum at a place, and answers what that adds to the sums over it.
#[inline]
pub fn mend(bytes: &mut [u8], place: usize, sum: u32) -> u32
    requires place { place + 2 ≤ length bytes.old }
    requires sum { sum < 2147483648 }
    ensures written { bytes.new ≡ with_word (word place (mended (word_at bytes.old place) sum)) bytes.old }
    ensures brings { result ≡ difference (word_at bytes.old place) (mended (word_at bytes.old place) sum) }
    ensures within { result ≤ 131070 }
{
    let checksum = BigEndian::read_u16(&bytes[place..]);
    put_word(bytes, place, mended(checksum, sum))
}

/// Mends the UDP checksum at a place, and answers what that adds to the sums over it.
#[inline]
pub fn mend_udp(bytes: &mut [u8], place: usize, sum: u32) -> u32
    requires place { place + 2 ≤ length bytes.old }
    requires sum { sum < 2147483648 }
    ensures written { bytes.new ≡ with_word (word place (mended_udp (word_at bytes.old place) sum)) bytes.old }
    ensures brings { result ≡ difference (word_at bytes.old place) (mended_udp (word_at bytes.old place) sum) }
    ensures within { result ≤ 131070 }
{
    let checksum = BigEndian::read_u16(&bytes[place..]);
    put_word(bytes, place, mended_udp(checksum, sum))
}
