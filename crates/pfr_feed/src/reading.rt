//! Records from captures, a batch at a time.
ghost use Rattle.std.specs.Prelude.{◌≡◌, ◌≤◌, [], length};
ghost use Rattle.pfr_merge.specs.MergeReading.{NoneRefused};
ghost use Rattle.pfr_feed.specs.Reading.{ReadsBatch, wants_memory};

use pfr_capture::{CaptureError, Record, Source, Tail};
use pfr_headers::View;
use pfr_merge::Merge;

/// Gives the records of packets back, each to its capture.
pub fn give_back(merge: &mut Merge, packets: Vec<(Record, View)>)
    ensures { merge.new ≡ merge.old }
{
    for (packet, _view) in packets {
        merge.give_back(usize::from(packet.place), packet);
    }
}

/// Reads a batch of at most `most` records. It returns how the reading ends, if it does: at the end of the captures, or
/// with the refusal of a capture and its place.
pub(crate) fn read_batch<R: Source>(
    merge: &mut Merge,
    sources: &mut [R],
    most: usize,
    records: &mut Vec<Record>,
) -> Option<Result<Tail, (usize, CaptureError)>>
    requires reading { NoneRefused merge.old }
    requires captures { (length sources.old ≡ length merge.old) × (length merge.old ≤ 8) }
    requires most { 1 ≤ most }
    requires none { records.old.items ≡ [] }
    ensures { ReadsBatch R.told R.unread R.failures merge.old merge.new sources.old sources.new most records.new.items result }
{
    merge.begin_batch();
    while records.len() < most {
        match merge.next(sources) {
            Ok(Some((_place, given))) => match records.push(given) {
                Ok(()) => {}
                Err(_) => return Some(Err((0, CaptureError::Memory))),
            },
            Ok(None) => return Some(Ok(merge.tail())),
            Err(refusal) => return Some(Err(refusal)),
        }
    }
    None
}

/// Whether the reading ends because memory was refused.
pub fn wants_memory(end: &Option<Result<Tail, (usize, CaptureError)>>) -> bool
    ensures { result ≡ wants_memory end.now }
{
    match end {
        Some(Err((_, CaptureError::Memory))) => true,
        _ => false,
    }
}
