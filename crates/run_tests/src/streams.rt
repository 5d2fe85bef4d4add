//! Runs over several batches, whose workers live as long as they do.
ghost use Rattle.std.specs.Prelude.{◌≤◌};

use crate::feeds::{Left, Run};
use crate::turns::{Freely, Plan, Told, Until};
use std::alloc::{AllocError, AllocGlobal, Global};
use std::sync::Wait;
use std::test::Fail;
use std::thread::Threads;
use std::time::Clock;

/// `count` pairs of datagrams that make states: of the ports 1000, 1001 and so on, two pairs of each.
fn pairs(alloc: Global, count: u16) -> Result<Vec<(u16, u32)>, AllocError>
    requires { count ≤ 100 }
{
    let mut packets = Vec::new(alloc);
    for pair in 0..count {
        let port = 1000 + pair / 2;
        packets.push((port, 0))?;
        packets.push((port, 1))?;
    }
    Ok(packets)
}

/// Runs over `count` pairs, a pair at a time, of which `takes` are taken whole.
fn run_of<R: AllocGlobal + Threads + Wait + Clock + Sync>(
    rt: &R,
    count: u16,
    takes: u64,
    workers: u64,
) -> Result<(Left, Told), AllocError>
    requires count { count ≤ 100 }
    requires workers { workers ≤ 64 }
{
    let packets = pairs(rt.alloc(), count)?;
    let run = Run {
        rules: b"pass keep state\n",
        packets: packets.as_slice(),
        size: 2,
        takes,
    };
    run.by(rt, workers, Freely)
}

/// How many lines a text has.
fn lines(text: &[u8]) -> usize {
    text.iter().filter(|byte| **byte == b'\n').count()
}

/// Without workers a batch is taken before the next one is requested, nobody is told of a packet's start, and no table is shown.
#[test]
fn a_run_without_workers_reads_nothing_ahead(rt: HostRuntime) -> Result<(), Fail> {
    let (left, told) = run_of(&rt, 20, 100, 0)?;
    assert!(rt; left.is_ok && left.own == 40 && left.most_held == 1 && left.rested == 40);
    assert!(rt; left.shown.is_none() && left.batches == 0);
    assert!(rt; told.starts.count == 0 && told.answered.count == 0 && told.again.count == 0);
    Ok(())
}

/// Workers evaluate each packet once, and the committer those whose results don't hold.
#[test]
fn each_packet_is_evaluated_ahead(rt: HostRuntime) -> Result<(), Fail> {
    let (left, told) = run_of(&rt, 30, 100, 3)?;
    assert!(rt; told.starts.count == 60 && told.answered.count == 60);
    assert!(rt; told.again.count == left.own && left.own < 60);
    Ok(())
}

/// What is left of a run that ends with a piece that isn't taken whole: how many pieces were taken before, how many lines there are
/// with those of this piece, how many states the book has, and how many the table that is shown.
const ENDS: [(u64, usize, usize, usize); 6] = [
    (0, 2, 1, 0),
    (1, 4, 1, 1),
    (2, 6, 2, 1),
    (3, 8, 2, 2),
    (4, 10, 3, 2),
    (5, 12, 3, 3),
];

/// If a piece isn't taken whole, the run ends, whatever the piece and the number of workers. The table shows what the batches
/// before it did.
#[test]
fn a_piece_is_taken_in_part(rt: HostRuntime) -> Result<(), Fail> {
    for (whole, count, states, shown) in ENDS {
        for workers in [0, 1, 2, 3, 8] {
            let (left, _told) = run_of(&rt, 7, whole, workers)?;
            assert!(rt; left.is_ok && lines(left.outputs.lines.as_slice()) == count);
            assert!(rt; left.states == states && left.shown == (workers > 0).then_some(shown));
        }
    }
    Ok(())
}

/// The piece of the first batch of three packets isn't taken whole. By then four workers have begun with all packets of the
/// second one and the first packet of the third, and they go on once the run has stopped.
#[derive(Clone, Copy)]
struct UntilStopped;

impl Plan for UntilStopped {
    fn start(&self, number: u64) -> Option<Until> {
        (number > 3).then_some(Until::Stopped)
    }

    fn take(&self, _batch: u64) -> Option<Until> {
        Some(Until::Started(7))
    }
}

/// After a stop nothing is evaluated that wasn't begun by then. The passes of all three batches come back.
#[test]
fn nothing_is_evaluated_behind_a_stop(rt: HostRuntime) -> Result<(), Fail> {
    let packets = pairs(rt.alloc(), 10)?;
    let run = Run {
        rules: b"pass out\n",
        packets: packets.as_slice(),
        size: 3,
        takes: 0,
    };
    let (left, told) = run.by(&rt, 4, UntilStopped)?;
    assert!(rt; told.all_came);
    assert!(rt; left.is_ok && left.batches == 3 && left.shown == Some(0));
    assert!(rt; told.starts.count == 7 && told.starts.sum == 28);
    Ok(())
}
