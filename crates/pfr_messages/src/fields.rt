//! Fields at the front of bytes. Each reader answers the field and the bytes behind it, or the first fault.
ghost use Rattle.std.specs.Prelude.{◌≡◌, ◌-◌, false};
ghost use Rattle.std.specs.Int.{w8, w16, w32, w64};
ghost use Rattle.pfr_messages.specs.Fields as fields;
ghost use Rattle.pfr_messages.specs.Fields.{Gives, behind, number_at, zeros};
ghost use Rattle.pfr_messages.specs.Records as spec;

use crate::fault::Fault;
use pfr_net::{Direction, IfName, RuleNumber, Timeout};

/// What stands behind a text that each message has there.
pub(crate) fn behind<'a>(text: &[u8], bytes: &'a [u8]) -> Result<&'a [u8], Fault>
    ensures { Gives (λ rest. rest.now) result (behind text.now bytes.now) }
{
    let mut rest = bytes;
    for expected in text {
        let (byte, after) = u8_at(rest)?;
        if byte != *expected {
            return Err(Fault::Differs(rest.len()));
        }
        rest = after;
    }
    Ok(rest)
}

/// What stands behind `count` zeros.
pub(crate) fn behind_zeros(count: usize, bytes: &[u8]) -> Result<&[u8], Fault>
    ensures { Gives (λ rest. rest.now) result (behind (zeros count) bytes.now) }
{
    let mut rest = bytes;
    for _ in 0..count {
        let (byte, after) = u8_at(rest)?;
        if byte != 0 {
            return Err(Fault::Differs(rest.len()));
        }
        rest = after;
    }
    Ok(rest)
}

#[tactic(auto, unfolding(crate::specs::Fields::number_at))]
pub(crate) fn u8_at(bytes: &[u8]) -> Result<(u8, &[u8]), Fault>
    ensures { Gives (λ x. (x.0, x.1.now)) result (number_at w8 bytes.now) }
{
    match bytes {
        [byte, rest @ ..] => Ok((*byte, rest)),
        [] => Err(Fault::Count),
    }
}

#[tactic(auto, unfolding(crate::specs::Fields::number_at))]
pub(crate) fn u16_at(bytes: &[u8]) -> Result<(u16, &[u8]), Fault>
    ensures { Gives (λ x. (x.0, x.1.now)) result (number_at w16 bytes.now) }
{
    if bytes.len() < 2 {
        return Err(Fault::Count);
    }
    let (front, rest) = bytes.split_at(2);
    Ok((u16::from_be_bytes([front[0], front[1]]), rest))
}

#[tactic(auto, unfolding(crate::specs::Fields::number_at))]
pub(crate) fn u32_at(bytes: &[u8]) -> Result<(u32, &[u8]), Fault>
    ensures { Gives (λ x. (x.0, x.1.now)) result (number_at w32 bytes.now) }
{
    if bytes.len() < 4 {
        return Err(Fault::Count);
    }
    let (front, rest) = bytes.split_at(4);
    let number = u32::from_be_bytes([front[0], front[1], front[2], front[3]]);
    Ok((number, rest))
}

#[tactic(auto, unfolding(crate::specs::Fields::number_at))]
pub(crate) fn u64_at(bytes: &[u8]) -> Result<(u64, &[u8]), Fault>
    ensures { Gives (λ x. (x.0, x.1.now)) result (number_at w64 bytes.now) }
{
    if bytes.len() < 8 {
        return Err(Fault::Count);
    }
    let (front, rest) = bytes.split_at(8);
    let number = u64::from_be_bytes([
        front[0], front[1], front[2], front[3], front[4], front[5], front[6], front[7],
    ]);
    Ok((number, rest))
}

/// How far an end has come: at most 10.
pub(crate) fn end_code_at(bytes: &[u8]) -> Result<(u8, &[u8]), Fault>
    ensures { Gives (λ x. (x.0, x.1.now)) result (spec.end_code.reading bytes.now) }
{
    match bytes {
        [code, rest @ ..] if *code <= 10 => Ok((*code, rest)),
        [_, ..] => Err(Fault::Differs(bytes.len())),
        [] => Err(Fault::Count),
    }
}

/// The shift of an end's windows.
pub(crate) fn scale_at(bytes: &[u8]) -> Result<(Option<u8>, &[u8]), Fault>
    ensures { Gives (λ x. (x.0, x.1.now)) result (spec.scale.reading bytes.now) }
{
    match bytes {
        [0, rest @ ..] => Ok((None, rest)),
        [code, rest @ ..] if 128 <= *code && *code <= 142 => Ok((Some(*code - 128), rest)),
        [_, ..] => Err(Fault::Differs(bytes.len())),
        [] => Err(Fault::Count),
    }
}

pub(crate) fn direction_at(bytes: &[u8]) -> Result<(Direction, &[u8]), Fault>
    ensures { Gives (λ x. (x.0, x.1.now)) result (spec.direction.reading bytes.now) }
{
    match bytes {
        [1, rest @ ..] => Ok((Direction::In, rest)),
        [2, rest @ ..] => Ok((Direction::Out, rest)),
        [_, ..] => Err(Fault::Differs(bytes.len())),
        [] => Err(Fault::Count),
    }
}

pub(crate) fn timeout_at(bytes: &[u8]) -> Result<(Timeout, &[u8]), Fault>
    ensures { Gives (λ x. (x.0, x.1.now)) result (spec.timeout.reading bytes.now) }
{
    match bytes {
        [code, rest @ ..] => match Timeout::of_code(*code) {
            Some(timeout) => Ok((timeout, rest)),
            None => Err(Fault::Differs(bytes.len())),
        },
        [] => Err(Fault::Count),
    }
}

/// The number of a rule, None if it is 2^32 - 1.
pub(crate) fn rule_at(bytes: &[u8]) -> Result<(Option<RuleNumber>, &[u8]), Fault>
    ensures { Gives (λ x. (x.0, x.1.now)) result (spec.rule.reading bytes.now) }
{
    let (code, rest) = u32_at(bytes)?;
    if code == u32::MAX {
        Ok((None, rest))
    } else {
        Ok((Some(RuleNumber(code as usize)), rest))
    }
}

/// Whether a byte may stand at a place of a name; `ended` says whether the name ended before it.
fn may_stand(ended: bool, place: usize, byte: u8) -> bool
    ensures { result ≡ fields.may_stand ended (15 - place) byte }
{
    byte == 0 || (!ended && place < 15)
}

/// The sixteen bytes of a name and its zeros.
fn padded_at(bytes: &[u8]) -> Result<([u8; 16], &[u8]), Fault>
    ensures { Gives (λ x. (x.0, x.1.now)) result (fields.padded_at 16 false bytes.now) }
{
    let mut name = [0; 16];
    let mut rest = bytes;
    let mut ended = false;
    for place in 0..16 {
        let (byte, after) = u8_at(rest)?;
        if !may_stand(ended, place, byte) {
            return Err(Fault::Differs(rest.len()));
        }
        ended = byte == 0;
        name[place] = byte;
        rest = after;
    }
    Ok((name, rest))
}

/// The name of an interface, and zeros behind it.
pub(crate) fn name_at(bytes: &[u8]) -> Result<(IfName, &[u8]), Fault>
    ensures { Gives (λ x. (x.0, x.1.now)) result (fields.name.reading bytes.now) }
{
    let (bytes, rest) = padded_at(bytes)?;
    Ok((IfName { bytes }, rest))
}
