//! Which packets of a run workers evaluate, and which the committer does.
ghost use Rattle.std.specs.Prelude.{◌≤◌};

use crate::inputs::{capture, replay_into};
use crate::turns::{Freely, Turns};
use pfr_capture::Mem;
use pfr_out::{Form, Gate};
use std::alloc::{AllocError, AllocGlobal, Global};
use std::sync::Wait;
use std::sync::atomic::{AtomicU64, Ordering};
use std::test::Fail;
use std::thread::{Threads, sleep};
use std::time::{Clock, Duration};

/// `count` rules that block all, so no packet changes anything, and then others.
pub(crate) fn rules(alloc: Global, count: u64, others: &[u8]) -> Result<Vec<u8>, AllocError> {
    let mut text = Vec::new(alloc);
    for _rule in 0..count {
        text.extend_from_slice(b"block\n")?;
    }
    text.extend_from_slice(others)?;
    Ok(text)
}

/// What a gate is told in a run of `packets` packets through rules: the sum of the numbers of the packets that workers
/// start, of those that they answer, and of those that the committer evaluates.
fn told_by<R: AllocGlobal + Threads + Wait + Clock + Sync>(
    rt: &R,
    text: &[u8],
    packets: u32,
    batch: usize,
    workers: u64,
) -> Result<(u64, u64, u64), AllocError>
    requires batch { (1 ≤ batch) × (batch ≤ 4096) }
    requires workers { workers ≤ 64 }
{
    let alloc = rt.alloc();
    let source = capture(alloc, packets, packets)?;
    let turns = Turns::by(rt, Freely);
    let (end, source) = replay_into(
        rt,
        source,
        text,
        batch,
        workers,
        Form::None,
        Mem::new(Vec::new(alloc)),
        &turns,
    )?;
    drop(source);
    let seen = turns.told();
    match end {
        Ok(_) => Ok((seen.starts.sum, seen.answered.sum, seen.again.sum)),
        Err(_) => Err(AllocError),
    }
}

/// The same with `count` rules that block all.
fn told<R: AllocGlobal + Threads + Wait + Clock + Sync>(
    rt: &R,
    count: u64,
    packets: u32,
    batch: usize,
    workers: u64,
) -> Result<(u64, u64, u64), AllocError>
    requires batch { (1 ≤ batch) × (batch ≤ 4096) }
    requires workers { workers ≤ 64 }
{
    let text = rules(rt.alloc(), count, &[])?;
    told_by(rt, text.as_slice(), packets, batch, workers)
}

/// The sum of the numbers from one up to another, which is left out.
fn sum(first: u64, end: u64) -> u64 {
    let mut sum = 0u64;
    for number in first..end {
        sum = sum.saturating_add(number);
    }
    sum
}

/// Each packet has a result that holds, in the later batches too. Without workers nobody is told of any.
#[test]
fn workers_evaluate_each_batch(rt: HostRuntime) -> Result<(), Fail> {
    let all = sum(1, 9);
    assert!(rt; told(&rt, 1, 8, 2, 2)? == (all, all, 0));
    assert!(rt; told(&rt, 1, 8, 2, 0)? == (0, 0, 0));
    Ok(())
}

/// The sum of the numbers of the first 256 packets of these batches, which have 1024 packets each and are counted from
/// 0.
fn beginnings(batches: &[u64]) -> u64 {
    let mut all = 0u64;
    for batch in batches {
        let first = batch.saturating_mul(1024).saturating_add(1);
        all = all.saturating_add(sum(first, first.saturating_add(256)));
    }
    all
}

/// With one rule workers can't pay. They evaluate the beginning of the first batch, and no other one is opened before
/// that is judged. After it they are given up.
#[test]
fn workers_are_given_up_where_they_cannot_pay(rt: HostRuntime) -> Result<(), Fail> {
    let answered = beginnings(&[0]);
    let again = sum(1, 8193).saturating_sub(answered);
    assert!(rt; told(&rt, 1, 8192, 1024, 2)? == (answered, answered, again));
    Ok(())
}

/// With 60 rules two workers save as much as it takes to hand results over, and to begin each batch they need more.
/// They evaluate the beginning of the first batch, and rest for 1024 packets once it is judged: the batch 1. They
/// evaluate the beginning of the batch 2 then, and rest for 4096 packets: the batches 3 to 6. The batch 7 is opened
/// next, and they evaluate its beginning.
#[test]
fn workers_rest_where_they_do_not_pay(rt: HostRuntime) -> Result<(), Fail> {
    let answered = beginnings(&[0, 2, 7]);
    let again = sum(1, 8193).saturating_sub(answered);
    assert!(rt; told(&rt, 60, 8192, 1024, 2)? == (answered, answered, again));
    Ok(())
}

/// With many rules workers pay. They evaluate the beginning of the first batch. Once it is judged they evaluate all
/// batches that come.
#[test]
fn workers_go_on_where_they_pay(rt: HostRuntime) -> Result<(), Fail> {
    let answered = beginnings(&[0]).saturating_add(sum(1025, 5121));
    let again = sum(1, 5121).saturating_sub(answered);
    assert!(rt; told(&rt, 200, 5120, 1024, 2)? == (answered, answered, again));
    Ok(())
}

/// There are many rules, but the first one decides, so results save nothing. Workers evaluate the beginning of the
/// first batch, rest for the next one, and evaluate the beginning of the batch 2.
#[test]
fn workers_rest_where_few_rules_are_asked(rt: HostRuntime) -> Result<(), Fail> {
    let mut text = Vec::new(rt.alloc());
    text.extend_from_slice(b"block quick\n")?;
    text.extend_from_slice(rules(rt.alloc(), 200, &[])?.as_slice())?;
    let answered = beginnings(&[0, 2]);
    let again = sum(1, 5121).saturating_sub(answered);
    assert!(rt; told_by(&rt, text.as_slice(), 5120, 1024, 2)? == (answered, answered, again));
    Ok(())
}

/// The packets are those of one connection, so nearly no result holds, and each of them changes the table. Workers
/// evaluate the beginning of the first batch, rest for the next one, and evaluate the beginning of the batch 2. Once
/// that is judged enough packets have come to give them up.
#[test]
fn workers_are_given_up_where_packets_change_the_table(rt: HostRuntime) -> Result<(), Fail> {
    let started = beginnings(&[0, 2]);
    let text = rules(rt.alloc(), 200, b"pass out\n")?;
    assert!(rt; told_by(&rt, text.as_slice(), 12288, 1024, 2)?.0 == started);
    Ok(())
}

/// Counts how many packets workers evaluate at once, but for the first ones of a run. It holds each of them up for a
/// while.
#[derive(Drop)]
struct AtOnce<'a, R> {
    rt: &'a R,
    first: u64,
    now: AtomicU64,
    most: AtomicU64,
}

impl<'a, R: Clock + Sync> Gate for AtOnce<'a, R> {
    fn starts(&self, number: u64) {
        if number < self.first {
            return;
        }
        let others = self.now.fetch_add(1, Ordering::SeqCst);
        self.most
            .fetch_max(others.saturating_add(1), Ordering::SeqCst);
        sleep(self.rt, Duration::from_micros(100));
    }

    fn answered(&self, number: u64) {
        if number >= self.first {
            self.now.fetch_sub(1, Ordering::SeqCst);
        }
    }
}

/// The most packets that `workers` workers evaluate at once, in the two batches after the first one, of 1024 packets
/// each.
fn most_at_once<R: AllocGlobal + Threads + Wait + Clock + Sync>(
    rt: &R,
    text: &[u8],
    workers: u64,
) -> Result<u64, AllocError>
    requires workers { workers ≤ 64 }
{
    let alloc = rt.alloc();
    let source = capture(alloc, 3072, 3072)?;
    let gate = AtOnce {
        rt,
        first: 1025,
        now: AtomicU64::new(0),
        most: AtomicU64::new(0),
    };
    let (end, source) = replay_into(
        rt,
        source,
        text,
        1024,
        workers,
        Form::None,
        Mem::new(Vec::new(alloc)),
        &gate,
    )?;
    drop(source);
    match end {
        Ok(_) => Ok(gate.most.load(Ordering::SeqCst)),
        Err(_) => Err(AllocError),
    }
}

/// With 75 rules three workers evaluate packets more quickly than the committer takes them over. So no more of eight
/// are given the batches after the first one.
#[test]
fn no_more_workers_are_given_a_batch_than_it_takes(rt: HostRuntime) -> Result<(), Fail> {
    let text = rules(rt.alloc(), 75, &[])?;
    let most = most_at_once(&rt, text.as_slice(), 8)?;
    assert!(rt; most > 0 && most <= 3, "{most} at once");
    Ok(())
}
