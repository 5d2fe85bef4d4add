//! A run with workers, between two turns.
ghost use Rattle.std.specs.Prelude.{◌≡◌, [], length, map, Some};
ghost use Rattle.pfr_work.specs.Running.{AllRoom, HasRoom, claims_in};
ghost use Rattle.pfr_work.specs.Turns.{ComesAfter, Extends};

use crate::batch::Batch;
use crate::course::Course;
use crate::found::{FoundOut, OfRun};
use crate::trace::Trace;
use pfr_commit::Book;
use pfr_history::Naming;
use pfr_published::{Published, StoreWriter};
use pfr_workers::{Finished, OpenBatch};
use std::alloc::Global;
use std::collections::VecDeque;
use std::sync::Wait;
use std::sync::atomic::{AtomicBool, Ordering};

/// A batch that the workers of a run draw from.
pub(crate) type Open<J, K> = OpenBatch<K, Batch<J>, FoundOut<J>>;

/// A run with workers, between two turns. The table that it publishes goes from turn to turn beside it.
pub(crate) struct Run<J: OfRun, K: Naming, F> {
    pub(crate) book: Book,
    pub(crate) feed: F,
    pub(crate) course: Course<K>,
    /// The batches that were opened and wait to be taken, the oldest first.
    pub(crate) waiting: VecDeque<Open<J, K>>,
    /// Whether the reading has ended.
    pub(crate) is_over: bool,
}

/// Waits for the workers of batches that are not taken any more, and keeps what comes back of each.
fn finish_all<J: OfRun + Send + Sync, K: Naming + Send + Sync, R: Wait>(
    rt: &R,
    alloc: Global,
    course: &mut Course<K>,
    mut waiting: VecDeque<Open<J, K>>,
)
    requires room { AllRoom (length waiting.items) course.old.entries course.old.lost }
    ensures came { ComesAfter course.old.entries.items course.new.entries.items course.old.lost.items course.new.lost.items (map claims_in waiting.items) }
    ensures more { Extends course.old.entries.items course.new.entries.items }
    ensures none { map claims_in waiting.items ≡ [] → course.new.lost.items ≡ course.old.lost.items }
    ensures others { (course.new.openings ≡ course.old.openings) × (course.new.gave_up ≡ course.old.gave_up) }
{
    while let Some(open_batch) = waiting.pop_front() {
        let Finished {
            groups: _,
            batch: _,
            gathered,
        } = open_batch.finish(rt, alloc);
        let _is_whole = course.put(gathered);
    }
}

impl<J: OfRun + Send + Sync, K: Naming + Send + Sync, F> Run<J, K, F> {
    /// Ends a run: nothing more is evaluated, and the passes of the batches that still wait are drawn to their ends.
    pub(crate) fn end<R: Wait>(
        self,
        rt: &R,
        alloc: Global,
        published: Published<StoreWriter<J>>,
        stop: &AtomicBool,
    ) -> (Book, F, Trace<StoreWriter<J>, K>)
        requires room { HasRoom self }
        ensures book { result.0 ≡ self.book }
        ensures feed { result.1 ≡ self.feed }
        ensures came { ComesAfter self.course.entries.items result.2.batches.items self.course.lost.items result.2.lost.items (map claims_in self.waiting.items) }
        ensures more { Extends self.course.entries.items result.2.batches.items }
        ensures none { map claims_in self.waiting.items ≡ [] → result.2.lost.items ≡ self.course.lost.items }
        ensures published { result.2.published ≡ Some published }
        ensures others { (result.2.openings ≡ self.course.openings) × (result.2.gave_up ≡ self.course.gave_up) }
    {
        stop.store(true, Ordering::Relaxed);
        let Run {
            book,
            feed,
            mut course,
            waiting,
            is_over: _,
        } = self;
        finish_all(rt, alloc, &mut course, waiting);
        let Course {
            openings,
            entries,
            lost,
            pace: _,
            gave_up,
            room: _,
            changed: _,
            opened: _,
            clock: _,
        } = course;
        let trace = Trace {
            batches: entries,
            published: Some(published),
            lost,
            openings,
            gave_up,
        };
        (book, feed, trace)
    }
}
