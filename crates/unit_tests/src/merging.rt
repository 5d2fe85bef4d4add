//! Several captures as one: when a source has to be waited for.
use pfr_capture::memory::Mem;
use pfr_merge::Merge;
use std::alloc::{AllocError, Global};
use std::test::Fail;

/// The header of a capture: it counts microseconds, version 2.4, and raw packets.
const HEADER: [u8; 24] = [
    0xd4, 0xc3, 0xb2, 0xa1, 2, 0, 4, 0, 0, 0, 0, 0, 0, 0, 0, 0, 0, 0, 4, 0, 101, 0, 0, 0,
];

/// A capture of records of no bytes, by their seconds.
fn capture(alloc: Global, times: &[u32]) -> Result<Mem, AllocError> {
    let mut bytes = Vec::from_slice(alloc, &HEADER)?;
    for seconds in times {
        bytes.extend_from_slice(&seconds.to_le_bytes())?;
        bytes.extend_from_slice(&[0; 12])?;
    }
    Ok(Mem::new(bytes))
}

/// Whether a source may have to be waited for after each of five batches, of two records each. None if one of these
/// captures can't be opened.
fn waits(alloc: Global, mut sources: [Mem; 2]) -> Result<Option<Vec<bool>>, AllocError> {
    let Ok(mut merge) = Merge::open(alloc, &mut sources) else {
        return Ok(None);
    };
    let mut waits = Vec::new(alloc);
    for _batch in 0..5 {
        merge.begin_batch();
        let _ = merge.next(&mut sources);
        let _ = merge.next(&mut sources);
        waits.push(merge.may_wait())?;
    }
    Ok(Some(waits))
}

/// The first capture has one record. Once its end was read, only the second one may have to be waited for: if less of
/// it has come than a batch took of it.
#[test]
fn an_ended_capture_is_not_waited_for(rt: HostRuntime) -> Result<(), Fail> {
    let alloc = rt.alloc();
    let first = capture(alloc, &[0])?;
    let second = capture(alloc, &[1, 2, 3, 4, 5, 6, 7])?;
    match waits(alloc, [first, second])? {
        Some(found) => assert!(rt;
            found.as_slice() == [false, false, false, true, false].as_slice()
        ),
        None => assert!(rt; false),
    }
    Ok(())
}
