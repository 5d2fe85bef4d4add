//! The sections of a message: records of a kind behind their header.
ghost use Rattle.std.specs.Prelude.{◌≡◌, None};
ghost use Rattle.pfr_messages.specs.Fields.{Gives};
ghost use Rattle.pfr_messages.specs.Messages as spec;

use crate::fault::{Fault, ReadError};
use crate::fields::u64_at;
use crate::kinds::Record;
use crate::records::{Deletion, Insertion, Update};
use std::alloc::Global;

/// A header that was read: its action and count, and what stands behind it.
#[derive(Clone, Copy)]
pub(crate) struct Head<'a> {
    pub action: u8,
    pub count: u16,
    pub rest: &'a [u8],
}

/// What the records of a message say.
#[derive(Drop)]
pub(crate) struct Parts {
    pub checksum: [u8; 16],
    pub insertions: Vec<Insertion>,
    pub updates: Vec<Update>,
    pub deletions: Vec<Deletion>,
}

/// Whether an action is one of a message and may follow the action `before`, 0 for none.
fn may_follow(before: u8, action: u8) -> bool
    ensures { result ≡ spec.may_follow before action }
{
    before < action && (action == 1 || action == 4 || action == 7 || (action == 12 && before != 0))
}

/// How many bytes a record of an action has.
fn size_of(action: u8) -> usize
    ensures { result ≡ spec.size_of action }
{
    match action {
        1 => 242,
        4 => 84,
        7 => 12,
        _ => 0,
    }
}

/// Whether a header may have the count `count` if `left` bytes stand behind it.
fn is_count(action: u8, count: u16, left: usize) -> bool
    ensures { result ≡ spec.is_count action count left }
{
    count != 0 && (action != 12 || count == 1) && usize::from(count) * size_of(action) <= left
}

/// The header behind a section of the action `before`, 0 for none.
#[tactic(auto, unfolding(crate::specs::Messages::head_at))]
fn head_at(before: u8, bytes: &[u8]) -> Result<Head<'_>, Fault>
    ensures { Gives spec.head result (spec.head_at before bytes.now) }
{
    match bytes {
        [action, pad, high, low, rest @ ..] => {
            if !may_follow(before, *action) {
                return Err(Fault::Action(*action));
            }
            if *pad != 0 {
                return Err(Fault::Differs(3 + rest.len()));
            }
            let count = 256 * u16::from(*high) + u16::from(*low);
            if !is_count(*action, count, rest.len()) {
                return Err(Fault::Count);
            }
            Ok(Head {
                action: *action,
                count,
                rest,
            })
        }
        _ => Err(Fault::NoEnd),
    }
}

/// Whether a number is above the last one, if there is one.
fn rises(last: Option<u64>, number: u64) -> bool
    ensures { result ≡ spec.rises last number }
{
    match last {
        None => true,
        Some(last) => last < number,
    }
}

/// The record at the front of bytes, whose number is above the last one.
fn record_at<R: Record>(last: Option<u64>, bytes: &[u8]) -> Result<(u64, R, &[u8]), Fault>
    ensures { Gives (λ x. (x.0, x.1, x.2.now)) result (spec.record_at R.kind last bytes.now) }
{
    let (number, _) = u64_at(bytes)?;
    if !rises(last, number) {
        return Err(Fault::Differs(bytes.len()));
    }
    let (record, rest) = R::at(bytes)?;
    Ok((number, record, rest))
}

/// `count` records whose numbers rise.
fn records_at<R: Record>(
    alloc: Global,
    count: u16,
    bytes: &[u8],
) -> Result<(Vec<R>, &[u8]), ReadError>
    ensures { spec.GivesRead (λ x. (x.0.items, x.1.now)) result (spec.records_at R.kind None count bytes.now) }
{
    let mut records = Vec::with_capacity(alloc, usize::from(count))?;
    let mut rest = bytes;
    let mut last = None;
    for _ in 0..count {
        let (number, item, after) = record_at(last, rest)?;
        records.push(item)?;
        last = Some(number);
        rest = after;
    }
    Ok((records, rest))
}

/// The records of a kind and the header behind them; no records if `head` is of another kind.
#[tactic(auto, unfolding(crate::specs::Messages::section_at))]
fn section_at<'a, R: Record>(alloc: Global, head: Head<'a>) -> Result<(Vec<R>, Head<'a>), ReadError>
    ensures { spec.GivesRead (λ x. (x.0.items, spec.head x.1)) result (spec.section_at R.kind (spec.head head.entry)) }
{
    if head.action != R::action() {
        return Ok((Vec::new(alloc), head));
    }
    let (records, rest) = records_at(alloc, head.count, head.rest)?;
    let next = head_at(R::action(), rest)?;
    Ok((records, next))
}

/// What the sections of a message say, which are all of the bytes.
#[tactic(auto, unfolding(crate::specs::Messages::sections_at))]
pub(crate) fn sections_at(
    alloc: Global,
    checksum: [u8; 16],
    bytes: &[u8],
) -> Result<Parts, ReadError>
    ensures { spec.GivesRead spec.content result (spec.sections_at checksum bytes.now) }
{
    let head = head_at(0, bytes)?;
    let (insertions, head) = section_at(alloc, head)?;
    let (updates, head) = section_at(alloc, head)?;
    let (deletions, head) = section_at(alloc, head)?;
    if !head.rest.is_empty() {
        return Err(ReadError::Fault(Fault::Trailing));
    }
    Ok(Parts {
        checksum,
        insertions,
        updates,
        deletions,
    })
}
