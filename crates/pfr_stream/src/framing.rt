//! How messages stand in a stream.
ghost use Rattle.std.specs.Prelude.{◌≡◌, ◌≤◌, ◌<◌, ◌+◌, length, IfOk, IfNone};
ghost use Rattle.pfr_messages.specs.Messages.{GivesMessage};
ghost use Rattle.pfr_stream.specs.Stream as spec;

use pfr_messages::{Message, SyncError, decode};
use std::alloc::Global;

/// How messages stand in a stream.
#[derive(Clone, Copy, Debug, PartialEq, Eq)]
pub enum Framing {
    /// Each behind an IPv4 header of 20 bytes.
    File,
    /// One after the other.
    Bare,
}

/// The bytes of the header before a message in a file.
const HEADER: usize = 20;

/// The big-endian number in two bytes.
fn number_at(place: usize, bytes: &[u8]) -> u16
    requires { place + 1 < length bytes.now }
    ensures { result ≡ spec.number_at place bytes.now }
{
    u16::from_be_bytes([bytes[place], bytes[place + 1]])
}

/// What is wrong first with the header before a message. If nothing is, the message's first four bytes are there too.
#[tactic(auto, unfolding(crate::specs::Stream::header_refusal))]
fn header_refusal(bytes: &[u8]) -> Option<SyncError>
    ensures refusal { result ≡ spec.header_refusal bytes.now }
    ensures long { IfNone result (24 ≤ length bytes.now) }
{
    if bytes.len() < 24 {
        return Some(SyncError::Short);
    }
    if bytes[0] != 0x45 {
        return Some(SyncError::Version);
    }
    if bytes[9] != 240 {
        return Some(SyncError::Version);
    }
    if usize::from(number_at(2, bytes)) != HEADER + usize::from(number_at(22, bytes)) {
        return Some(SyncError::Length);
    }
    None
}

/// The message behind a header at the front of bytes, and how many bytes both have.
#[tactic(auto, unfolding(crate::specs::Stream::framed_at))]
fn behind_header(alloc: Global, bytes: &[u8]) -> Result<(Message, usize), SyncError>
    ensures exact { GivesMessage (λ x. x) result (spec.framed_at Framing.File bytes.now) }
    ensures within { IfOk result (λ found. found.1 ≤ length bytes.now) }
{
    if let Some(refusal) = header_refusal(bytes) {
        return Err(refusal);
    }
    let (message, size) = decode(alloc, &bytes[HEADER..])?;
    Ok((message, HEADER + size))
}

/// The message at the front of bytes, and how many bytes it has with its header. It is refused with what is wrong first, from the left.
/// Bytes behind it aren't read.
#[tactic(auto, unfolding(crate::specs::Stream::framed_at))]
pub(crate) fn framed_at(
    alloc: Global,
    framing: Framing,
    bytes: &[u8],
) -> Result<(Message, usize), SyncError>
    ensures exact { GivesMessage (λ x. x) result (spec.framed_at framing bytes.now) }
    ensures within { IfOk result (λ found. found.1 ≤ length bytes.now) }
{
    match framing {
        Framing::File => behind_header(alloc, bytes),
        Framing::Bare => decode(alloc, bytes),
    }
}
