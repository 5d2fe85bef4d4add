//! Devices that fail under a standby, by a message written out byte by byte.
use pfr_capture::memory::Mem;
use pfr_stream::{Framing, StandbyStop, SyncError, standby};
use std::alloc::{AllocError, Global};
use std::test::Fail;

/// In a file, a message that inserts a state of TCP.
static INSERTED: [u8; 290] = [
    69, 16, 1, 34, 0, 0, 64, 0, 255, 240, 18, 52, 192, 0, 2, 1, 224, 0, 0, 240, 5, 0, 1, 14, //
    212, 29, 140, 217, 143, 0, 178, 4, 233, 128, 9, 152, 236, 248, 66, 126, 1, 0, 0, 1, 0, 0, 0, 0, //
    0, 0, 0, 1, 101, 109, 48, 0, 0, 0, 0, 0, 0, 0, 0, 0, 0, 0, 0, 0, 198, 51, 100, 7, //
    0, 0, 0, 0, 0, 0, 0, 0, 0, 0, 0, 0, 10, 0, 0, 5, 0, 0, 0, 0, 0, 0, 0, 0, //
    0, 0, 0, 0, 0, 80, 3, 232, 198, 51, 100, 7, 0, 0, 0, 0, 0, 0, 0, 0, 0, 0, 0, 0, //
    10, 0, 0, 5, 0, 0, 0, 0, 0, 0, 0, 0, 0, 0, 0, 0, 0, 80, 3, 232, 0, 0, 0, 0, //
    0, 0, 0, 0, 0, 0, 4, 77, 0, 0, 11, 185, 0, 0, 0, 0, 3, 232, 0, 0, 4, 0, 0, 0, //
    0, 0, 0, 0, 0, 0, 0, 0, 0, 0, 0, 0, 0, 0, 19, 137, 0, 0, 23, 113, 0, 0, 0, 0, //
    7, 208, 0, 0, 4, 0, 0, 0, 0, 0, 0, 0, 0, 0, 0, 0, 0, 0, 0, 0, 0, 0, 0, 0, //
    0, 0, 0, 0, 0, 0, 0, 0, 255, 255, 255, 255, 255, 255, 255, 255, 0, 0, 0, 0, 0, 1, 81, 128, //
    0, 0, 0, 0, 0, 0, 0, 1, 0, 0, 0, 0, 0, 0, 0, 0, 0, 0, 0, 0, 0, 0, 0, 40, //
    0, 0, 0, 0, 0, 0, 0, 0, 0, 0, 0, 1, 2, 6, 2, 0, 0, 0, 0, 2, 0, 0, 12, 0, //
    0, 1,
];

/// The line of that state.
static LINE: &[u8] =
    b"1 6 out 198.51.100.7:80,10.0.0.5:1000 198.51.100.7:80,10.0.0.5:1000 r=0 4/1101/3001/1000/- 4/5001/6001/2000/- 2\n";

/// A source of that message and some bytes more, of which it gives at most `most` at a time and fails after the first
/// time.
fn failing(alloc: Global, more: &[u8], most: usize) -> Result<Mem, AllocError> {
    let mut bytes = Vec::from_slice(alloc, &INSERTED)?;
    bytes.extend_from_slice(more)?;
    Ok(Mem::new(bytes).at_most(most).failing_after(1))
}

/// Whether a standby over a source writes the line of the first message and ends with `stop`.
fn stops(alloc: Global, mut source: Mem, stop: StandbyStop) -> bool {
    let mut sink = Mem::new(Vec::new(alloc));
    standby(alloc, &mut source, Framing::File, &mut sink) == Err(stop) && sink.bytes() == LINE
}

#[test]
fn a_source_fails(rt: HostRuntime) -> Result<(), Fail> {
    let source = failing(rt.alloc(), &INSERTED, 300)?;
    assert!(rt; stops(rt.alloc(), source, StandbyStop::Read(1)));
    Ok(())
}

/// If the bytes before a failure are wrong, that is reported, and not the failure.
#[test]
fn a_source_fails_behind_a_wrong_message(rt: HostRuntime) -> Result<(), Fail> {
    let source = failing(rt.alloc(), &[0x46; 30], 320)?;
    assert!(rt;
        stops(
            rt.alloc(),
            source,
            StandbyStop::Message(2, SyncError::Version)
        )
    );
    Ok(())
}

#[test]
fn a_sink_fails(rt: HostRuntime) -> Result<(), Fail> {
    let alloc = rt.alloc();
    let mut source = Mem::new(Vec::from_slice(alloc, &INSERTED)?);
    let mut sink = Mem::new(Vec::new(alloc)).at_most(10).failing_after(2);
    assert!(rt;
        standby(alloc, &mut source, Framing::File, &mut sink) == Err(StandbyStop::Write(1))
    );
    assert!(rt; sink.bytes() == &LINE[..20]);
    Ok(())
}
