//! A gate that counts what it is told, and may hold calls up.

use pfr_work::Gate;
use std::sync::atomic::{AtomicU64, Ordering};
use std::thread::sleep;
use std::time::{Clock, Duration};

/// The most turns that a call waits, of 50 microseconds or more each. A machine that others use too may leave one of two
/// threads alone for some seconds.
const TURNS: u32 = 400_000;

/// The milliseconds within which a run whose piece wasn't taken whole has its workers stop, however busy the machine
/// is.
const STOPPING: u64 = 1000;

/// How many calls there were, and the sum of the numbers that they told.
#[derive(Clone, Copy, PartialEq, Eq)]
pub(crate) struct Calls {
    pub(crate) count: u64,
    pub(crate) sum: u64,
}

/// Counts calls, which may come from several threads.
#[derive(Drop)]
struct Tally {
    count: AtomicU64,
    sum: AtomicU64,
}

impl Tally {
    fn new() -> Tally {
        Tally {
            count: AtomicU64::new(0),
            sum: AtomicU64::new(0),
        }
    }

    fn add(&self, number: u64) {
        let _ = self.sum.fetch_add(number, Ordering::SeqCst);
        let _ = self.count.fetch_add(1, Ordering::SeqCst);
    }

    fn count(&self) -> u64 {
        self.count.load(Ordering::SeqCst)
    }

    fn calls(&self) -> Calls {
        Calls {
            count: self.count(),
            sum: self.sum.load(Ordering::SeqCst),
        }
    }
}

/// What a gate was told, packet by packet, and whether everything came that a call waited for.
#[derive(Clone, Copy)]
pub(crate) struct Told {
    pub(crate) starts: Calls,
    pub(crate) answered: Calls,
    pub(crate) again: Calls,
    pub(crate) all_came: bool,
}

/// What a call may wait for.
#[derive(Clone, Copy)]
pub(crate) enum Until {
    /// This number of batches were requested. Each after the third is requested once what the one three before it did
    /// to the table is published.
    Asked(u64),
    /// This number of packets were started.
    Started(u64),
    /// A piece wasn't taken whole, and the run has stopped by then.
    Stopped,
}

/// Says which calls wait, and for what.
pub(crate) trait Plan {
    /// What a worker waits for before it evaluates a packet.
    fn start(&self, _number: u64) -> Option<Until> {
        None
    }

    /// What a worker waits for once it has found out about a packet.
    fn answer(&self, _number: u64) -> Option<Until> {
        None
    }

    /// What a feed waits for before it takes the piece of a batch.
    fn take(&self, _batch: u64) -> Option<Until> {
        None
    }
}

/// No call waits.
#[derive(Clone, Copy)]
pub(crate) struct Freely;

impl Plan for Freely {}

/// Is told of the calls of a feed. A call may wait.
pub(crate) trait Watch {
    /// The next batch is requested.
    fn asks(&self, batch: u64);

    /// The piece of a batch is about to be taken.
    fn takes(&self, batch: u64);

    /// The piece of a batch isn't taken whole.
    fn cuts(&self, batch: u64);
}

/// Counts what it is told, and has calls wait as a plan says.
#[derive(Drop)]
pub(crate) struct Turns<'a, R, P> {
    rt: &'a R,
    plan: P,
    starts: Tally,
    answered: Tally,
    again: Tally,
    asked: Tally,
    cut: Tally,
    late: Tally,
}

impl<'a, R: Clock, P: Plan> Turns<'a, R, P> {
    pub(crate) fn by(rt: &'a R, plan: P) -> Turns<'a, R, P> {
        Turns {
            rt,
            plan,
            starts: Tally::new(),
            answered: Tally::new(),
            again: Tally::new(),
            asked: Tally::new(),
            cut: Tally::new(),
            late: Tally::new(),
        }
    }

    /// What it was told so far.
    pub(crate) fn told(&self) -> Told {
        Told {
            starts: self.starts.calls(),
            answered: self.answered.calls(),
            again: self.again.calls(),
            all_came: self.all_came(),
        }
    }

    /// Whether everything came that was waited for.
    fn all_came(&self) -> bool {
        self.late.count() == 0
    }

    /// Whether what `until` says has come.
    fn has_come(&self, until: Until) -> bool {
        match until {
            Until::Asked(count) => self.asked.count() >= count,
            Until::Started(count) => self.starts.count() >= count,
            Until::Stopped => self.cut.count() > 0,
        }
    }

    /// Waits until it has come, for some seconds at most, and says whether it has. If something before didn't come, it
    /// doesn't wait.
    fn comes(&self, until: Until) -> bool {
        for _turn in 0..TURNS {
            if self.has_come(until) {
                return true;
            }
            if !self.all_came() {
                return false;
            }
            sleep(self.rt, Duration::from_micros(50));
        }
        false
    }

    /// Waits for it, if there is anything to wait for.
    fn wait(&self, until: Option<Until>) {
        let Some(until) = until else {
            return;
        };
        if !self.comes(until) {
            self.late.add(1);
        }
        if let Until::Stopped = until {
            sleep(self.rt, Duration::from_millis(STOPPING));
        }
    }
}

impl<'a, R: Clock + Sync, P: Plan + Sync> Gate for Turns<'a, R, P> {
    fn starts(&self, number: u64) {
        self.starts.add(number);
        self.wait(self.plan.start(number));
    }

    fn answered(&self, number: u64) {
        self.answered.add(number);
        self.wait(self.plan.answer(number));
    }

    fn ran_again(&self, number: u64) {
        self.again.add(number);
    }
}

impl<'a, R: Clock, P: Plan> Watch for Turns<'a, R, P> {
    fn asks(&self, batch: u64) {
        self.asked.add(batch);
    }

    fn takes(&self, batch: u64) {
        self.wait(self.plan.take(batch));
    }

    fn cuts(&self, batch: u64) {
        self.cut.add(batch);
    }
}
