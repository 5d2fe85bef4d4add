//! The turns of a run with workers.
ghost use Rattle.std.specs.Prelude.{◌≡◌, ◌≤◌, ◌<◌, [], true, false, length, vec_len, OnOk, OnErr, Some};
ghost use Rattle.pfr_commit.specs.Books.{StandsAt, job_of};
ghost use Rattle.pfr_commit.specs.World.{opening};
ghost use Rattle.pfr_published.specs.Ends.{is_shown, list_of};
ghost use Rattle.pfr_feed.specs.declared.turn.Turn.TheVariants.{GoesOn};
ghost use Rattle.pfr_work.specs.Running.{AllRoom, FitsIn, HasRoom, IsTurn, left_of};
ghost use Rattle.pfr_work.specs.Seen.{seen_of};
ghost use Rattle.pfr_work.specs.Traces.{RunsRefused, RunsWell};

use crate::batch::Batch;
use crate::course::Course;
use crate::found::{FoundOut, OfRun};
use crate::running::Run;
use crate::trace::Trace;
use pfr_commit::{Book, Gate};
use pfr_feed::{Feed, Turn};
use pfr_history::{History, Naming};
use pfr_published::{Published, StoreWriter};
use pfr_states::Change;
use pfr_workers::Crew;
use std::alloc::{AllocError, Global};
use std::collections::VecDeque;
use std::sync::Wait;
use std::sync::atomic::AtomicBool;
use std::thread::Threads;

/// The most batches that are held at once: one that is taken, and two that were read ahead.
const HELD: usize = 3;

/// Whether a batch is read ahead next. The reading must go on, and fewer than three batches wait; none may wait if they
/// are taken one at a time.
fn reads_ahead<T: Drop>(is_over: bool, waiting: &VecDeque<T>, one_at_a_time: bool) -> bool
    ensures yes { result ≡ true → (is_over ≡ false) × (length waiting.now.items < 3) }
    ensures no { result ≡ false → waiting.now.items ≡ [] → is_over ≡ true }
{
    if one_at_a_time {
        !is_over && waiting.is_empty()
    } else {
        !is_over && waiting.len() < HELD
    }
}

impl<J: OfRun + Send + Sync, K: Naming + Send + Sync, F: Feed> Run<J, K, F> {
    /// One turn: reads a batch ahead, or takes the oldest one that waits.
    fn take_turn<R: Threads + Wait + Sync, G: Gate>(
        &mut self,
        rt: &R,
        alloc: Global,
        crew: &Crew<K, Batch<J>, FoundOut<J>>,
        history: &History<J, Change>,
        published: Published<StoreWriter<J>>,
        gate: &G,
    ) -> (Published<StoreWriter<J>>, Turn)
        requires job { J.job ≡ Some (job_of self.old.book) }
        requires workers { (0 < vec_len crew.now.desks) × (vec_len crew.now.desks ≤ 64) }
        requires fits { FitsIn (F.given self.old.feed) (vec_len crew.now.desks) self.old }
        requires room { HasRoom self.old }
        ensures told { F.told self.new.feed ≡ F.told self.old.feed }
        ensures names { F.names self.new.feed ≡ F.names self.old.feed }
        ensures job { self.new.book.job ≡ self.old.book.job }
        ensures fits { result.1 ≡ GoesOn → FitsIn (F.given self.new.feed) (vec_len crew.now.desks) self.new }
        ensures room { HasRoom self.new }
        ensures gave_up { self.new.course.gave_up ≡ false → self.old.course.gave_up ≡ false }
        ensures shown { self.new.course.gave_up ≡ false → is_shown result.0 ≡ is_shown published }
        ensures comes { IsTurn F.transitions (vec_len crew.now.desks) result.1 self.old self.new (list_of published) (list_of result.0) }
        ensures nearer { result.1 ≡ GoesOn → left_of (F.given self.new.feed) self.new < left_of (F.given self.old.feed) self.old }
    {
        let open = self.course.opened.saturating_sub(self.book.committed());
        // while workers rest, what one batch leaves in the processor's caches serves the next one
        let one_at_a_time = self.course.pace.rests()
            || self.course.pace.waits(open)
            || self.feed.may_wait();
        if reads_ahead(self.is_over, &self.waiting, one_at_a_time) {
            let told = published.tell();
            let turn = self.read_ahead(rt, alloc, crew, told);
            return (published, turn);
        }
        self.take_oldest(rt, alloc, history, published, gate)
    }
}

/// Takes the batches of a feed one after the other, while workers evaluate the packets of the next two.
pub(crate) fn run_turns<
    J: OfRun + Send + Sync,
    K: Naming + Send + Sync,
    R: Threads + Wait + Sync,
    F: Feed,
    G: Gate,
>(
    rt: &R,
    alloc: Global,
    book: Book,
    feed: F,
    course: Course<K>,
    crew: &Crew<K, Batch<J>, FoundOut<J>>,
    history: &History<J, Change>,
    mut published: Published<StoreWriter<J>>,
    gate: &G,
    stop: &AtomicBool,
) -> (Book, F, Trace<StoreWriter<J>, K>, Result<(), AllocError>)
    requires start { StandsAt book (opening (job_of book)) }
    requires job { J.job ≡ Some (job_of book) }
    requires workers { (0 < vec_len crew.now.desks) × (vec_len crew.now.desks ≤ 64) }
    requires openings { course.openings ≡ [] }
    requires entries { (course.entries.items ≡ []) × (course.lost.items ≡ []) }
    requires room { AllRoom 0 course.entries course.lost }
    requires published { (list_of published ≡ []) × (is_shown published ≡ true) }
    ensures job { result.0.job ≡ book.job }
    ensures told { F.told result.1 ≡ F.told feed }
    ensures names { F.names result.1 ≡ F.names feed }
    ensures ok { OnOk result.3 (RunsWell F.transitions (job_of book) (vec_len crew.now.desks) feed result.0 result.1 (seen_of list_of is_shown result.2)) }
    ensures err { OnErr result.3 (RunsRefused F.transitions (job_of book) (vec_len crew.now.desks) feed result.0 result.1 (seen_of list_of is_shown result.2)) }
{
    let mut run = Run {
        book,
        feed,
        course,
        waiting: VecDeque::new(alloc),
        is_over: false,
    };
    'turns: loop {
        let (shown, turn) = run.take_turn(rt, alloc, crew, history, published, gate);
        published = shown;
        match turn {
            Turn::GoesOn => {}
            Turn::IsOver => {
                let (book, feed, trace) = run.end(rt, alloc, published, stop);
                return (book, feed, trace, Ok(()));
            }
            Turn::IsRefused => {
                let (book, feed, trace) = run.end(rt, alloc, published, stop);
                return (book, feed, trace, Err(AllocError));
            }
        }
    }
}
