//! Batches that are read ahead, and opened to workers.
ghost use Rattle.std.specs.Prelude.{◌≡◌, ℕ, ◌≤◌, ◌<◌, ◌+◌, false, length, vec_len, List, IfOk, OnOk};
ghost use Rattle.std.specs.Arc.{arc_value};
ghost use Rattle.std.specs.VecDeque.{deque_len, deque_capacity};
ghost use Rattle.pfr_states.specs.declared.change.Change.{Change};
ghost use Rattle.pfr_feed.specs.declared.turn.Turn.TheVariants.{GoesOn};
ghost use Rattle.pfr_work.specs.Running.{AllRoom, FitsIn, HasRoom, IsTurn, OpensOne, claims_in, count_in, left_of, records_in, workers_in};
ghost use Rattle.pfr_work.specs.Traces.{IsOpenedFor};

use crate::batch::{Batch, clocks, viewed_for};
use crate::course::Course;
use crate::found::{FoundOut, OfRun};
use crate::running::{Open, Run};
use pfr_capture::Record;
use pfr_feed::{Feed, Turn};
use pfr_history::Naming;
use pfr_published::Told;
use pfr_workers::Crew;
use std::alloc::{AllocError, Global};
use std::collections::VecDeque;
use std::sync::Wait;
use std::thread::Threads;

/// Opens a batch of records. The workers are told how far the published table has come, and draw its packets, unless
/// they rest.
fn open_batch<J: OfRun + Send + Sync, K: Naming + Send + Sync, R: Threads + Wait + Sync>(
    rt: &R,
    alloc: Global,
    crew: &Crew<K, Batch<J>, FoundOut<J>>,
    course: &mut Course<K>,
    told: Told<J>,
    records: Vec<Record>,
) -> Result<Open<J, K>, AllocError>
    requires count { length records.items ≤ 4096 }
    requires workers { (0 < vec_len crew.now.desks) × (vec_len crew.now.desks ≤ 64) }
    ensures records { IfOk result (λ it. records_in it ≡ records.items) }
    ensures told { IfOk result (λ it. (arc_value it.batch).told ≡ told) }
    ensures sizes { IfOk result (λ it. (count_in it ≡ length records.items) × (workers_in it ≡ vec_len crew.now.desks)) }
    ensures opened_for { IfOk result (λ it. IsOpenedFor (vec_len crew.now.desks) (claims_in it) records.items) }
    ensures opened { OpensOne course.old.openings course.new.openings result }
    ensures entries { (course.new.entries ≡ course.old.entries) × (course.new.lost ≡ course.old.lost) }
    ensures gave_up { course.new.gave_up ≡ course.old.gave_up }
{
    let count = records.len() as u64;
    let most = course.pace.ahead();
    let packets = viewed_for(rt, alloc, records, most)?;
    let clocks = clocks(alloc, course.clock, packets.as_slice())?;
    let first = course.opened.saturating_add(1);
    course.opened = course.opened.saturating_add(count);
    if let Some(last) = clocks.last() {
        course.clock = *last;
    }
    let batch = Batch {
        packets,
        clocks,
        first,
        most,
        told,
    };
    let workers = course.pace.workers() as usize;
    crew.open(rt, alloc, &mut course.openings, batch, count, workers)
}

/// Makes room for one batch more beside those that wait, and for what comes back of all.
fn make_room<T: Drop, K: Naming>(
    waiting: &mut VecDeque<T>,
    course: &mut Course<K>,
) -> Result<(), AllocError>
    ensures waiting { waiting.new.items ≡ waiting.old.items }
    ensures room { OnOk result (deque_len waiting.new < deque_capacity waiting.new) }
    ensures course_room { OnOk result (AllRoom (length waiting.old.items + 1) course.new.entries course.new.lost) }
    ensures stays { (n : ℕ) → AllRoom n course.old.entries course.old.lost → AllRoom n course.new.entries course.new.lost }
    ensures items { (course.new.entries.items ≡ course.old.entries.items) × (course.new.lost.items ≡ course.old.lost.items) }
    ensures others { (course.new.openings ≡ course.old.openings) × (course.new.gave_up ≡ course.old.gave_up) }
{
    waiting.reserve(1)?;
    course.reserve(waiting.len() + 1)
}

impl<J: OfRun + Send + Sync, K: Naming + Send + Sync, F: Feed> Run<J, K, F> {
    /// Asks the feed for the next batch, and opens it after those that wait.
    pub(crate) fn read_ahead<R: Threads + Wait + Sync>(
        &mut self,
        rt: &R,
        alloc: Global,
        crew: &Crew<K, Batch<J>, FoundOut<J>>,
        told: Told<J>,
    ) -> Turn
        requires workers { (0 < vec_len crew.now.desks) × (vec_len crew.now.desks ≤ 64) }
        requires open { self.old.is_over ≡ false }
        requires few { length self.old.waiting.items < 3 }
        requires fits { FitsIn (F.given self.old.feed) (vec_len crew.now.desks) self.old }
        requires room { HasRoom self.old }
        ensures told { F.told self.new.feed ≡ F.told self.old.feed }
        ensures names { F.names self.new.feed ≡ F.names self.old.feed }
        ensures book { self.new.book ≡ self.old.book }
        ensures gave_up { self.new.course.gave_up ≡ self.old.course.gave_up }
        ensures fits { result ≡ GoesOn → FitsIn (F.given self.new.feed) (vec_len crew.now.desks) self.new }
        ensures room { HasRoom self.new }
        ensures comes { (shown : List Change) → IsTurn F.transitions (vec_len crew.now.desks) result self.old self.new shown shown }
        ensures nearer { result ≡ GoesOn → left_of (F.given self.new.feed) self.new < left_of (F.given self.old.feed) self.old }
    {
        let Ok(()) = make_room(&mut self.waiting, &mut self.course) else {
            return Turn::IsRefused;
        };
        let Some(records) = self.feed.batch() else {
            self.is_over = true;
            return Turn::GoesOn;
        };
        match open_batch(rt, alloc, crew, &mut self.course, told, records) {
            Ok(open_batch) => {
                self.waiting.push_back_reserved(open_batch);
                Turn::GoesOn
            }
            Err(_) => Turn::IsRefused,
        }
    }
}
