//! One batch of packets. A gate keeps which of them are answered.

use crate::feeds::Run;
use crate::turns::Watch;
use pfr_work::Gate;
use std::sync::atomic::{AtomicBool, AtomicU64, Ordering};
use std::test::Fail;
use std::thread::sleep;
use std::time::{Clock, Duration};

/// How many turns, of a millisecond each, a packet waits for another one at most.
const TURNS: u32 = 10_000;

/// Keeps which of the first 64 packets are answered. One of them may have to wait for another one.
#[derive(Drop)]
struct Answers<'a, R> {
    rt: &'a R,
    /// A packet, and the one that is answered before the first one is evaluated.
    order: Option<(u64, u64)>,
    /// A bit for each packet.
    answered: AtomicU64,
    is_late: AtomicBool,
}

/// The bit of a packet, by its number.
fn bit_of(number: u64) -> u64 {
    match number {
        1..=64 => 1 << (number - 1),
        _ => 0,
    }
}

impl<'a, R: Clock> Answers<'a, R> {
    fn new(rt: &'a R, order: Option<(u64, u64)>) -> Answers<'a, R> {
        Answers {
            rt,
            order,
            answered: AtomicU64::new(0),
            is_late: AtomicBool::new(false),
        }
    }

    /// The packets that are answered, a bit for each.
    fn answered(&self) -> u64 {
        self.answered.load(Ordering::SeqCst)
    }

    /// Waits until a packet is answered, and keeps whether it wasn't in time.
    fn wait(&self, number: u64) {
        for _turn in 0..TURNS {
            if self.answered() & bit_of(number) != 0 {
                return;
            }
            sleep(self.rt, Duration::from_millis(1));
        }
        self.is_late.store(true, Ordering::SeqCst);
    }
}

impl<'a, R: Clock + Sync> Gate for Answers<'a, R> {
    fn starts(&self, number: u64) {
        match self.order {
            Some((second, first)) if second == number => self.wait(first),
            _ => {}
        }
    }

    fn answered(&self, number: u64) {
        let _ = self.answered.fetch_or(bit_of(number), Ordering::SeqCst);
    }
}

impl<'a, R: Clock> Watch for Answers<'a, R> {
    fn asks(&self, _batch: u64) {}

    fn takes(&self, _batch: u64) {}

    fn cuts(&self, _batch: u64) {}
}

/// Packet 1 is evaluated once packet 2 is answered, as two workers evaluate side by side.
#[test]
fn gate_crosses(rt: HostRuntime) -> Result<(), Fail> {
    let gate = Answers::new(&rt, Some((1, 2)));
    let left = Run::passing(&[(1000, 0), (1001, 0)], 2).under(&rt, 2, &gate)?;
    assert!(rt; !gate.is_late.load(Ordering::SeqCst));
    assert!(rt; left.is_ok && gate.answered() == 3);
    Ok(())
}

/// Packets of different connections don't depend on one another. Each has a result, which holds.
#[test]
fn none_again(rt: HostRuntime) -> Result<(), Fail> {
    let mut packets = Vec::new(rt.alloc());
    for port in 1000..1064 {
        packets.push((port, 0))?;
    }
    let gate = Answers::new(&rt, None);
    let left = Run::passing(packets.as_slice(), 64).under(&rt, 4, &gate)?;
    assert!(rt; left.is_ok && left.own == 0 && gate.answered() == u64::MAX);
    Ok(())
}
