//! What the published table shows to workers, packet by packet: whether a result holds says which table it was found
//! on.
ghost use Rattle.std.specs.Prelude.{◌≤◌};

use crate::feeds::{Left, Run};
use crate::turns::{Calls, Freely, Plan, Until};
use std::alloc::{AllocError, AllocGlobal};
use std::sync::Wait;
use std::test::Fail;
use std::thread::Threads;
use std::time::Clock;

/// Runs with `workers` workers, as a plan has calls wait, and answers which packets the committer evaluated. There is
/// no answer if something didn't come that a call waited for, if a result is missing, or if a run without workers
/// leaves something else.
fn own_of<R: AllocGlobal + Threads + Wait + Clock + Sync, P: Plan + Sync + Drop>(
    rt: &R,
    run: Run<'_>,
    workers: u64,
    plan: P,
) -> Result<Option<Calls>, AllocError>
    requires workers { workers ≤ 64 }
{
    let (alone, _told) = run.by(rt, 0, Freely)?;
    let (left, told) = run.by(rt, workers, plan)?;
    let is_right = told.all_came && left.own == told.again.count && is_same(&left, &alone);
    Ok(is_right.then_some(told.again))
}

/// Whether a run with workers left what one without did, and its table shows that.
fn is_same(left: &Left, alone: &Left) -> bool {
    left.is_ok
        && alone.is_ok
        && left.outputs.are(&alone.outputs)
        && left.states == alone.states
        && left.shown == Some(alone.states)
}

/// The batch of the first packet is published before the fourth one is opened, which finds its state.
#[test]
fn sees_published(rt: HostRuntime) -> Result<(), Fail> {
    let packets = [(1000, 0), (1001, 0), (1002, 0), (1000, 0)];
    let (left, told) = Run::passing(&packets, 1).by(&rt, 2, Freely)?;
    assert!(rt; left.is_ok && left.own == 0 && told.answered.sum == 10);
    Ok(())
}

/// When a batch is the oldest, in a run of `batches` batches of a packet each: once the second one after it is
/// requested, since the one before it is published by then. After the last batch one more is requested, which there
/// isn't.
fn once_oldest(batch: u64, batches: u64) -> Option<Until> {
    let asked = batch.saturating_add(2).min(batches.saturating_add(1));
    Some(Until::Asked(asked))
}

/// A worker that has found out about a packet goes on once the packet's batch is the oldest.
#[derive(Clone, Copy)]
struct HeldUp {
    batches: u64,
}

impl Plan for HeldUp {
    fn answer(&self, number: u64) -> Option<Until> {
        once_oldest(number, self.batches)
    }
}

/// A worker that is held up holds up no batch but its own. While the gate is told of a packet, the worker looks at no
/// table, so no batch before has to wait until it is published.
#[test]
fn whoever_is_told_of_a_packet_holds_up_no_other_batch(rt: HostRuntime) -> Result<(), Fail> {
    let mut packets = Vec::new(rt.alloc());
    for port in 1000..1012 {
        packets.push((port, 0))?;
    }
    for workers in 1..4 {
        let run = Run::passing(packets.as_slice(), 1);
        let own = own_of(&rt, run, workers, HeldUp { batches: 12 })?;
        assert!(rt;
            own == Some(Calls { count: 0, sum: 0 }),
            "{workers} workers"
        );
    }
    Ok(())
}
