//! How far a command has come.
use crate::standard::is_standard;
use pfr_notices::Meter;
use pfr_values::CaptureWords;
use std::fs;
use std::rt::Files;

/// How many bytes the header of a capture has.
const HEADER: u64 = 24;

/// How many bytes the file of a capture has, if it is a regular one.
fn size_of<R: Files>(rt: &R, name: &str) -> Option<u64> {
    if is_standard(name) {
        return None;
    }
    let metadata = fs::metadata(rt, name).ok()?;
    if metadata.is_file() {
        Some(metadata.len())
    } else {
        None
    }
}

/// How many bytes the files of captures have, if all are regular ones.
fn sizes_of<R: Files>(rt: &R, captures: &[CaptureWords<'_>]) -> Option<u64> {
    let mut sum: u64 = 0;
    for words in captures {
        sum = sum.saturating_add(size_of(rt, words.capture)?);
    }
    Some(sum)
}

/// Has a meter say how far a command over captures has come, if the words ask for it.
pub fn begin_progress<R: Files, M: Meter>(
    rt: &R,
    asks: bool,
    captures: &[CaptureWords<'_>],
    meter: &M,
) {
    if asks {
        let headers = HEADER.saturating_mul(captures.len() as u64);
        meter.begin(headers, sizes_of(rt, captures));
    }
}
