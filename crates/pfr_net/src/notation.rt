//! Numbers and addresses as they are written.
ghost use Rattle.std.specs.Prelude.{◌≡◌, ◌≤◌, ◌==◌};
ghost use Rattle.std.specs.List.{position};
ghost use Rattle.std.specs.Option.{option_map};
ghost use Rattle.pfr_net.specs.Notation as spec;

use crate::address::Ipv4Address;

/// A number that is above every limit of a ruleset text.
pub const TOO_LARGE: u64 = 4294967296;

fn place_of(byte: u8, text: &[u8]) -> Option<usize>
    ensures { result ≡ position (λ b. b == byte) text.now }
{
    text.iter().position(|b| *b == byte)
}

/// What stands before the first `byte` and behind it, if the text has one.
#[tactic(auto, unfolding(crate::specs::Notation::cut_at))]
pub fn cut(byte: u8, text: &[u8]) -> Option<(&[u8], &[u8])>
    ensures { option_map (λ p. (p.0.now, p.1.now)) result ≡ spec.cut_at byte text.now }
{
    match place_of(byte, text) {
        None => None,
        Some(place) => Some((&text[..place], &text[place + 1..])),
    }
}

fn are_digits(text: &[u8]) -> bool
    ensures { result ≡ spec.are_digits text.now }
{
    for byte in text {
        if !byte.is_ascii_digit() {
            return false;
        }
    }
    true
}

/// The value of decimal digits, or [`TOO_LARGE`] if it is larger.
fn value(digits: &[u8]) -> u64
    ensures value { result ≡ spec.capped digits.now }
    ensures within { result ≤ 4294967296 }
{
    let mut value: u64 = 0;
    for digit in digits {
        value = (10 * value + u64::from(digit.saturating_sub(b'0'))).min(TOO_LARGE);
    }
    value
}

/// The number that a text of decimal digits writes, which may have leading zeros. [`TOO_LARGE`] stands for itself and
/// all larger numbers.
#[tactic(auto, unfolding(crate::specs::Notation::number))]
pub fn number(text: &[u8]) -> Option<u64>
    ensures { result ≡ spec.number text.now }
{
    if !text.is_empty() && are_digits(text) {
        Some(value(text))
    } else {
        None
    }
}

/// The number that a text of decimal digits writes, if it is at most the limit.
#[tactic(auto, using(crate::proofs::NumberLemmas::absent))]
pub(crate) fn number_within(limit: u8, text: &[u8]) -> Option<u8>
    ensures { result ≡ spec.number_within limit text.now }
{
    match number(text) {
        Some(value) if value <= u64::from(limit) => Some(value as u8),
        _ => None,
    }
}

/// A number from 0 to 255.
fn octet(text: &[u8]) -> Option<u8>
    ensures { result ≡ spec.octet text.now }
{
    number_within(255, text)
}

/// An address in dotted decimal.
#[tactic(auto, unfolding(crate::specs::Notation::dotted))]
pub fn dotted(text: &[u8]) -> Option<Ipv4Address>
    ensures { result ≡ spec.dotted text.now }
{
    let (first, rest) = cut(b'.', text)?;
    let (second, rest) = cut(b'.', rest)?;
    let (third, fourth) = cut(b'.', rest)?;
    let high = u32::from(octet(first)?) * 256 + u32::from(octet(second)?);
    let low = u32::from(octet(third)?) * 256 + u32::from(octet(fourth)?);
    Some(Ipv4Address(high * 65536 + low))
}
