//! IPv6 addresses in a text.
ghost use Rattle.std.specs.Prelude.{◌≡◌, ◌≤◌, length};
ghost use Rattle.pfr_phrases.specs.Inet6 as spec;

use crate::values::count_of;
use pfr_marks::mark::{Mark, begins_with, is};
use pfr_words::names::is_among;

/// The signs that end a word though no blank is between.
const SIGNS: [&[u8]; 10] = [b"{", b"}", b"(", b")", b",", b"=", b"!", b"<", b">", b"\n"];

/// Whether every byte may stand in an IPv6 address.
fn are_inet6(text: &[u8]) -> bool
    ensures { result ≡ spec.are_inet6 text.now }
{
    for byte in text {
        if !(byte.is_ascii_hexdigit() || *byte == b':' || *byte == b'.' || *byte == b'/') {
            return false;
        }
    }
    true
}

/// Whether a word is a sign that ends another one.
#[tactic(auto, unfolding(crate::specs::Inet6::is_sign))]
fn is_sign(word: &[u8]) -> bool
    ensures { result ≡ spec.is_sign word.now }
{
    is_among(&SIGNS, word)
}

/// How many marks stand right one behind the other from an offset on, up to a sign.
fn run_len(at: usize, marks: &[Mark<'_>]) -> usize
    ensures value { result ≡ spec.run_from 0 at marks.now }
    ensures within { result ≤ length marks.now }
{
    let mut next = at;
    for (before, mark) in marks.iter().enumerate() {
        if mark.start.offset != next || is_sign(mark.piece.as_slice()) {
            return before;
        }
        next = mark.end.offset;
    }
    marks.len()
}

/// Whether an IPv6 address begins with this mark, before others: it has two colons, or is one before another.
fn begins_inet6(first: &Mark<'_>, behind: &[Mark<'_>]) -> bool
    ensures { result ≡ spec.begins_inet6 first.now behind.now }
{
    let piece = first.piece.as_slice();
    if is(first, b":") {
        begins_with(behind, b":")
    } else {
        are_inet6(piece) && 2 <= count_of(b':', piece)
    }
}

/// How many marks the IPv6 address at the front has; none if there is none.
#[tactic(auto, unfolding(crate::specs::Inet6::inet6_len))]
pub fn inet6_len(marks: &[Mark<'_>]) -> usize
    ensures value { result ≡ spec.inet6_len marks.now }
    ensures within { result ≤ length marks.now }
{
    let Some(first) = marks.first() else {
        return 0;
    };
    if begins_inet6(first, &marks[1..]) {
        run_len(first.start.offset, marks)
    } else {
        0
    }
}
