//! Messages from bytes.
ghost use Rattle.std.specs.Prelude.{◌≡◌, ◌≤◌, ◌++◌, List, ℕ, length, take, IfOk, Ok};
ghost use Rattle.pfr_messages.specs.Messages as spec;
ghost use Rattle.pfr_messages.specs.Messages.{Content};

use crate::error::SyncError;
use crate::message::Message;
use crate::sections::{Parts, sections_at};
use std::alloc::Global;

/// What the message at the front of bytes says, and how many bytes it has.
#[tactic(auto, unfolding(crate::specs::Messages::message_at))]
fn message_at(alloc: Global, bytes: &[u8]) -> Result<(Parts, usize), SyncError>
    ensures { spec.GivesMessage (λ x. (spec.content x.0, x.1)) result (spec.message_at bytes.now) }
{
    if bytes.len() < 20 {
        return Err(SyncError::Short);
    }
    if bytes[0] != 5 {
        return Err(SyncError::Version);
    }
    if bytes[1] != 0 {
        return Err(SyncError::Fixed(1));
    }
    let len = usize::from(u16::from_be_bytes([bytes[2], bytes[3]]));
    if len < 40 || len > 1480 {
        return Err(SyncError::Length);
    }
    if bytes.len() < len {
        return Err(SyncError::Short);
    }
    let mut checksum = [0; 16];
    checksum.copy_from_slice(&bytes[4..20]);
    match sections_at(alloc, checksum, &bytes[20..len]) {
        Ok(parts) => Ok((parts, len)),
        Err(refused) => Err(refused.in_message(len)),
    }
}

/// The message at the front of bytes, and how many bytes it has.
///
/// A refusal says what is wrong first, from the left. Bytes behind the message aren't read. Memory is taken for the
/// records that are there.
pub fn decode(alloc: Global, bytes: &[u8]) -> Result<(Message, usize), SyncError>
    // The bytes that are read spell the message.
    ensures found { IfOk result (λ x. (x.1 ≤ length bytes.now) × spec.Spells (take x.1 bytes.now) x.0) }
    // A message's spelling is read, whatever stands behind it, unless memory runs out.
    ensures only { (c : Content) (rest : List ℕ) → spec.Fits c → bytes.now ≡ spec.spelling c ++ rest → spec.GivesMessage (λ x. x) result (Ok (c, length (spec.spelling c))) }
    // Which refusal it is.
    ensures exact { spec.GivesMessage (λ x. x) result (spec.message_at bytes.now) }
{
    let (parts, len) = message_at(alloc, bytes)?;
    let message = Message::new(
        parts.checksum,
        parts.insertions,
        parts.updates,
        parts.deletions,
    );
    Ok((message, len))
}
