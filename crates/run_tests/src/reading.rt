//! How far a source is read ahead of what is written.
ghost use Rattle.std.specs.Prelude.{◌≤◌};

use crate::inputs::{capture, replay_into};
use crate::told::rules;
use crate::turns::{Freely, Turns};
use pfr_capture::{Fault, Mem, Source};
use pfr_out::{Form, Output, Stop};
use std::alloc::{AllocError, AllocGlobal};
use std::sync::Wait;
use std::test::Fail;
use std::thread::Threads;
use std::time::Clock;

/// Gives the header of a capture of 28-byte datagrams by itself, then a record a read, and counts the reads.
#[derive(Drop)]
struct ByRecords {
    capture: Mem,
    reads: u64,
}

impl Source for ByRecords {
    ghost use Rattle.std.specs.Prelude.{[], false};

    ghost told = { λ _. false };

    ghost unread = { λ _. [] };

    ghost failures = { λ source. source.capture.failures };

    fn read(&mut self, buffer: &mut [u8]) -> Result<usize, Fault> {
        let most = if self.reads == 0 { 24 } else { 44 };
        self.reads = self.reads.saturating_add(1);
        let count = buffer.len().min(most);
        self.capture.read(&mut buffer[..count])
    }

    fn tells(&self) -> bool {
        false
    }
}

/// The first write of lines fails. By then the header and three records are read at most, as three batches may be held.
#[test]
fn reads_ahead(rt: HostRuntime) -> Result<(), Fail> {
    let alloc = rt.alloc();
    let source = ByRecords {
        capture: capture(alloc, 10, 0)?,
        reads: 0,
    };
    let (end, source) = replay_into(
        &rt,
        source,
        b"pass out\n",
        1,
        2,
        Form::File,
        Mem::new(Vec::new(alloc)).failing_after(0),
        &Turns::by(&rt, Freely),
    )?;
    let reads = source.reads;
    drop(source);
    assert!(rt; matches!(&end, Err(Stop::Write(Output::Verdicts, 0))));
    assert!(rt; reads <= 4, "{reads} reads");
    Ok(())
}

/// Replays a capture whose source fails at one read. A write of lines fails after `writes` writes. It answers whether that is how the run
/// stops, and whether the next read is the one that fails: if so, the run has made all reads before that one.
fn makes_all_reads<R: AllocGlobal + Threads + Wait + Clock + Sync>(
    rt: &R,
    source: Mem,
    text: &[u8],
    writes: u64,
    batch: usize,
    workers: u64,
) -> Result<bool, AllocError>
    requires batch { (1 ≤ batch) × (batch ≤ 4096) }
    requires workers { workers ≤ 64 }
{
    let (end, mut source) = replay_into(
        rt,
        source,
        text,
        batch,
        workers,
        Form::File,
        Mem::new(Vec::new(rt.alloc())).failing_after(writes),
        &Turns::by(rt, Freely),
    )?;
    let taken = writes.saturating_mul(batch as u64);
    let stops =
        matches!(&end, Err(Stop::Write(Output::Verdicts, committed)) if *committed == taken);
    let read = source.read(&mut [0; 44]).is_err();
    drop(source);
    Ok(stops && read)
}

/// The write of the second batch fails. With many rules several workers pay, and three batches are read ahead then: that one and two
/// more. One worker doesn't, and rests. A read gives 65536 bytes, which are the header and 1488 records, and a part of one more.
#[test]
fn three_batches_are_read_ahead_if_workers_pay(rt: HostRuntime) -> Result<(), Fail> {
    let text = rules(rt.alloc(), 200, &[])?;
    for (workers, reads) in [(0, 2), (1, 2), (2, 4), (8, 4)] {
        let source = capture(rt.alloc(), 6000, 0)?.failing_after(reads);
        assert!(rt;
            makes_all_reads(&rt, source, text.as_slice(), 1, 1400, workers)?,
            "{workers} workers"
        );
    }
    Ok(())
}

/// Until the first batch has told whether workers pay, no other one is read, if that one has packets enough to tell.
#[test]
fn reads_no_further_than_it_takes_to_tell(rt: HostRuntime) -> Result<(), Fail> {
    let text = rules(rt.alloc(), 200, &[])?;
    for workers in [0, 1, 2, 8] {
        let source = capture(rt.alloc(), 4500, 0)?.failing_after(1);
        assert!(rt;
            makes_all_reads(&rt, source, text.as_slice(), 0, 1400, workers)?,
            "{workers} workers"
        );
    }
    Ok(())
}

/// If a source is slow, what was read is written before more is requested. The first read gives the header and 20 bytes of the
/// first record, and each one more what is left of a record and 20 bytes of the next.
#[test]
fn a_slow_source_is_not_read_ahead(rt: HostRuntime) -> Result<(), Fail> {
    for workers in [0, 1, 2, 8] {
        let source = capture(rt.alloc(), 10, 0)?.at_most(44).failing_after(2);
        assert!(rt;
            makes_all_reads(&rt, source, b"pass out\n", 0, 1, workers)?,
            "{workers} workers"
        );
    }
    Ok(())
}
