//! Runs over datagrams, and what they leave.
ghost use Rattle.std.specs.Prelude.{◌≡◌, ◌≤◌, Some};
ghost use Rattle.pfr_commit.specs.Books.{StandsAt, job_of};
ghost use Rattle.pfr_commit.specs.World.{opening};

use crate::inputs::{book, datagrams};
use crate::turns::{Plan, Told, Turns, Watch};
use pfr_capture::Record;
use pfr_commit::{Book, Emitted};
use pfr_headers::View;
use pfr_work::{Feed, Gate, Histories, Naming, OfRun, run_workers};
use std::alloc::{AllocError, AllocGlobal, Global};
use std::marker::Brand;
use std::sync::Wait;
use std::thread::Threads;
use std::time::Clock;

/// The most records that a feed may give.
const MOST: u64 = 1 << 43;

/// What a feed has taken: verdict lines, the packets' bytes, and how many messages.
#[derive(Drop)]
pub(crate) struct Outputs {
    pub(crate) lines: Vec<u8>,
    packets: Vec<u8>,
    pub(crate) messages: usize,
}

impl Outputs {
    /// Puts a piece after the others.
    fn put(&mut self, piece: &Emitted) -> Result<(), AllocError> {
        self.lines.extend_from_slice(piece.verdicts.as_slice())?;
        for text in piece.packets.as_slice() {
            self.packets.extend_from_slice(text.as_slice())?;
        }
        self.messages = self.messages.saturating_add(piece.messages.len());
        Ok(())
    }

    /// Whether other outputs are the same.
    pub(crate) fn are(&self, others: &Outputs) -> bool {
        self.lines.as_slice() == others.lines.as_slice()
            && self.packets.as_slice() == others.packets.as_slice()
            && self.messages == others.messages
    }
}

/// Gives datagrams, `size` at a time, and keeps what it takes.
#[derive(Drop)]
struct Listed<'a, W> {
    alloc: Global,
    watch: &'a W,
    /// The datagrams that are left: the port and the second of each.
    left: &'a [(u16, u32)],
    size: usize,
    given: u64,
    /// How many batches were requested, how many were given and not taken yet, and the most of that.
    asked: u64,
    held: u64,
    most_held: u64,
    /// How many pieces came, and how many are taken whole.
    came: u64,
    takes: u64,
    /// How many packets came back.
    rested: usize,
    outputs: Outputs,
}

impl<W: Watch> Feed for Listed<'_, W> {
    ghost use Rattle.std.specs.Prelude.{⊤, true};

    ghost transitions = { record { gives = λ old records new. ⊤; ends = λ old new. ⊤; takes = λ old piece new. ⊤; cuts = λ old piece new. ⊤; rests = λ old new. ⊤ } };

    ghost told = { λ feed. true };

    ghost given = { λ feed. feed.given };

    ghost names = { λ feed. (0, 0) };

    fn batch(&mut self) -> Option<Vec<Record>> {
        self.asked = self.asked.saturating_add(1);
        self.watch.asks(self.asked);
        let (next, left) = self.left.split_at(self.size.min(self.left.len()));
        let records = datagrams(self.alloc, next).ok()?;
        let count = records.len() as u64;
        if count == 0 || count > 4096 || self.given > MOST - count {
            return None;
        }
        self.left = left;
        self.given += count;
        self.held = self.held.saturating_add(1);
        self.most_held = self.most_held.max(self.held);
        Some(records)
    }

    fn take(&mut self, piece: Emitted) -> bool {
        self.came = self.came.saturating_add(1);
        self.watch.takes(self.came);
        self.held = self.held.saturating_sub(1);
        let kept = self.outputs.put(&piece).is_ok();
        drop(piece);
        if self.came > self.takes {
            self.watch.cuts(self.came);
            return false;
        }
        kept
    }

    fn give_back(&mut self, packets: Vec<(Record, View)>) {
        self.rested = self.rested.saturating_add(packets.len());
        drop(packets);
    }

    fn tells(&self) -> bool {
        true
    }
}

/// A run: its rules, its datagrams, how many of these are in a batch, and how many pieces are taken whole.
#[derive(Clone, Copy)]
pub(crate) struct Run<'a> {
    pub(crate) rules: &'a [u8],
    pub(crate) packets: &'a [(u16, u32)],
    pub(crate) size: usize,
    pub(crate) takes: u64,
}

/// What a run over a feed left: whether it went well, its outputs, how many packets came back, how many states the book
/// has and how many are shown, how many batches it has claims of, the most batches that were held, how many packets the
/// committer evaluated, and how many rules were tested.
#[derive(Drop)]
pub(crate) struct Left {
    pub(crate) is_ok: bool,
    pub(crate) outputs: Outputs,
    pub(crate) rested: usize,
    pub(crate) states: usize,
    pub(crate) shown: Option<usize>,
    pub(crate) batches: usize,
    pub(crate) most_held: u64,
    pub(crate) own: u64,
    pub(crate) asked_rules: u64,
}

/// Runs over a feed, under the names that are picked.
fn streamed<
    J: OfRun + Send + Sync + 'static,
    K: Naming + Send + Sync + 'static,
    R: AllocGlobal + Threads + Wait + Sync,
    G: Gate + Watch,
>(rt: &R, book: Book, feed: Listed<'_, G>, workers: u64, gate: &G, histories: Histories) -> Left
    requires start { StandsAt book (opening (job_of book)) }
    requires job { J.job ≡ Some (job_of book) }
    requires limit { (job_of book).rules.options.state_limit ≡ J.limit }
    requires changes { histories.changes ≡ J.history }
    requires batches { histories.batches ≡ K.history }
    requires workers { workers ≤ 64 }
{
    let (book, feed, trace, outcome) = run_workers::<J, K, R, Listed<'_, G>, G>(
        rt, book, feed, workers, gate, histories,
    );
    let batches = trace.batches.len();
    let shown = trace.close(rt).map(|table| table.len());
    let (states, own, asked_rules) = (book.table().len(), book.own(), book.asked());
    drop(book);
    let Listed {
        most_held,
        rested,
        outputs,
        ..
    } = feed;
    Left {
        is_ok: outcome.is_ok(),
        outputs,
        rested,
        states,
        shown,
        batches,
        most_held,
        own,
        asked_rules,
    }
}

/// Runs over a feed.
fn ran<R: AllocGlobal + Threads + Wait + Sync, G: Gate + Watch>(
    rt: &R,
    book: Book,
    feed: Listed<'_, G>,
    workers: u64,
    gate: &G,
) -> Left
    requires start { StandsAt book (opening (job_of book)) }
    requires workers { workers ≤ 64 }
{
    streamed::<Brand, Brand, R, G>(rt, book, feed, workers, gate, Histories::new())
}

impl<'a> Run<'a> {
    /// A run by `pass out` whose pieces are all taken whole.
    pub(crate) fn passing(packets: &'a [(u16, u32)], size: usize) -> Run<'a> {
        Run {
            rules: b"pass out\n",
            packets,
            size,
            takes: u64::MAX,
        }
    }

    /// What feeds it, before anything was given.
    fn feed<W>(self, alloc: Global, watch: &'a W) -> Listed<'a, W> {
        Listed {
            alloc,
            watch,
            left: self.packets,
            size: self.size,
            given: 0,
            asked: 0,
            held: 0,
            most_held: 0,
            came: 0,
            takes: self.takes,
            rested: 0,
            outputs: Outputs {
                lines: Vec::new(alloc),
                packets: Vec::new(alloc),
                messages: 0,
            },
        }
    }

    /// Runs with `workers` workers, and tells a gate of their turns.
    pub(crate) fn under<R: AllocGlobal + Threads + Wait + Sync, G: Gate + Watch>(
        self,
        rt: &R,
        workers: u64,
        gate: &G,
    ) -> Result<Left, AllocError>
        requires workers { workers ≤ 64 }
    {
        let alloc = rt.alloc();
        let book = book(alloc, self.rules)?;
        Ok(ran(rt, book, self.feed(alloc, gate), workers, gate))
    }

    /// Runs with `workers` workers, and has calls wait as a plan says.
    pub(crate) fn by<R: AllocGlobal + Threads + Wait + Clock + Sync, P: Plan + Sync + Drop>(
        self,
        rt: &R,
        workers: u64,
        plan: P,
    ) -> Result<(Left, Told), AllocError>
        requires workers { workers ≤ 64 }
    {
        let turns = Turns::by(rt, plan);
        let left = self.under(rt, workers, &turns)?;
        Ok((left, turns.told()))
    }
}
