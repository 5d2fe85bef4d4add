//! Messages as bytes.
ghost use Rattle.std.specs.Prelude.{◌≡◌, ◌<◌, ◌≤◌, ◌^◌, ◌++◌, length, true, OnOk, IfOk};
ghost use Rattle.std.specs.List.{list_all};
ghost use Rattle.pfr_messages.specs.Fields.{Puts};
ghost use Rattle.pfr_messages.specs.Messages as spec;

use crate::kinds::Record;
use crate::message::Message;
use crate::writing::{put_bytes, put_u16};
use std::alloc::{AllocError, Global};

/// How many bytes a section of `count` records has, each record of `size` bytes.
fn section_len(size: usize, count: usize) -> usize
    requires record_size { size ≤ 242 }
    requires sixteen_bits { count < 2 ^ 16 }
    ensures { result ≡ spec.section_len size count }
{
    if count == 0 { 0 } else { 4 + size * count }
}

/// Spells a header and the records behind it, or nothing if there are no records.
fn put_section<R: Record>(out: &mut Vec<u8>, records: &[R]) -> Result<(), AllocError>
    requires fit { list_all R.kind.format.fits records.now ≡ true }
    requires short { length records.now < 2 ^ 16 }
    ensures { OnOk result (Puts out.old.items (spec.section R.kind records.now) out.new.items) }
{
    if records.is_empty() {
        return Ok(());
    }
    out.extend_from_slice(&[R::action(), 0])?;
    put_u16(out, records.len() as u16)?;
    for item in records {
        item.put(out)?;
    }
    Ok(())
}

/// Spells a message at the end of bytes. If memory is refused, a part of it may stand there.
pub fn encode_onto(message: &Message, out: &mut Vec<u8>) -> Result<(), AllocError>
    ensures { OnOk result (out.new.items ≡ out.old.items ++ spec.spelling message.now) }
{
    message.has_spelling();
    let insertions = message.insertions();
    let updates = message.updates();
    let deletions = message.deletions();
    let len = 24
        + section_len(242, insertions.len())
        + section_len(84, updates.len())
        + section_len(12, deletions.len());
    put_bytes(out, &[5, 0])?;
    put_u16(out, len as u16)?;
    put_bytes(out, message.checksum())?;
    put_section(out, insertions)?;
    put_section(out, updates)?;
    put_section(out, deletions)?;
    put_bytes(out, &[12, 0, 0, 1])?;
    Ok(())
}

/// The one spelling of a message.
pub fn encode(alloc: Global, message: &Message) -> Result<Vec<u8>, AllocError>
    ensures { IfOk result (λ bytes. spec.Spells bytes.items message.now) }
{
    message.has_spelling();
    let mut out = Vec::new(alloc);
    encode_onto(message, &mut out)?;
    Ok(out)
}
