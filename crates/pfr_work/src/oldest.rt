//! The oldest batch that waits: it is taken, handed on and shown.
ghost use Rattle.std.specs.Prelude.{◌≡◌, ◌≤◌, ◌<◌, ◌+◌, ◌^◌, ℕ, [], true, false, Some, length, IfOk, OnOk, OnErr};
ghost use Rattle.pfr_commit.specs.Books.{job_of};
ghost use Rattle.pfr_commit.specs.Emissions.{are_kept, listed, texts_of};
ghost use Rattle.pfr_published.specs.Ends.{is_shown, list_of};
ghost use Rattle.pfr_feed.specs.declared.turn.Turn.TheVariants.{GoesOn};
ghost use Rattle.pfr_feed.specs.Turns.{IsRefusedAt, TakesBatch};
ghost use Rattle.pfr_work.specs.Running.{AllRoom, FitsIn, HasRoom, IsTurn, StillFit, claims_in, left_of, records_in};
ghost use Rattle.pfr_work.specs.Turns.{ComesBack, ComesWhole, TakesPiece};

use crate::batch::Batch;
use crate::course::Course;
use crate::evaluator::speculations;
use crate::found::OfRun;
use crate::pace::BatchReport;
use crate::running::{Open, Run};
use crate::shown::show;
use pfr_commit::{Book, Changes, Emitted, Gate};
use pfr_feed::{Feed, Turn};
use pfr_history::{History, Naming};
use pfr_published::{Published, StoreWriter};
use pfr_states::Change;
use pfr_workers::Finished;
use std::alloc::{AllocError, Global};
use std::sync::{Arc, Wait};

/// A batch that a book took, what it adds, and what it did to the table.
#[derive(Drop)]
struct Committed<J: OfRun> {
    batch: Arc<Batch<J>>,
    piece: Emitted,
    changes: Changes,
}

/// Waits for the workers of a batch, and has a book take it with what they found out.
fn commit_oldest<J: OfRun + Send + Sync, K: Naming + Send + Sync, R: Wait, G: Gate>(
    rt: &R,
    alloc: Global,
    book: &mut Book,
    course: &mut Course<K>,
    oldest: Open<J, K>,
    gate: &G,
) -> Result<Committed<J>, AllocError>
    requires job { J.job ≡ Some (job_of book.old) }
    requires few { book.old.count + length (records_in oldest) ≤ 2 ^ 43 }
    requires room { AllRoom 1 course.old.entries course.old.lost }
    ensures job { book.new.job ≡ book.old.job }
    ensures taken { IfOk result (λ it. TakesBatch book.old book.new (records_in oldest) (texts_of it.piece) (listed it.changes)) }
    ensures kept { IfOk result (λ it. course.old.gave_up ≡ false → are_kept it.changes ≡ true) }
    ensures counted { OnOk result (book.new.count ≡ book.old.count + length (records_in oldest)) }
    ensures whole { OnOk result (ComesWhole (claims_in oldest) course.old.entries.items course.new.entries.items course.old.lost.items course.new.lost.items) }
    ensures back { ComesBack (claims_in oldest) course.old.entries.items course.new.entries.items course.old.lost.items course.new.lost.items }
    ensures refused { OnErr result (IsRefusedAt book.old book.new (records_in oldest)) }
    ensures stays { (n : ℕ) → AllRoom (n + 1) course.old.entries course.old.lost → AllRoom n course.new.entries course.new.lost }
    ensures openings { course.new.openings ≡ course.old.openings }
    ensures gave_up { course.new.gave_up ≡ false → course.old.gave_up ≡ false }
{
    let Finished {
        groups,
        batch,
        gathered,
    } = oldest.finish(rt, alloc);
    if !course.put(gathered) {
        return Err(AllocError);
    }
    let groups = speculations(alloc, groups)?;
    let mut piece = course.room.piece(alloc);
    piece.changes = Some(course.no_changes(alloc)?);
    let (own, asked) = (book.own(), book.asked());
    let packets = batch.packets.as_slice();
    book.commit_batch_of_job(packets, groups, gate, &mut piece)?;
    let Some(changes) = piece.changes.take() else {
        unreachable!()
    };
    let count = packets.len() as u64;
    let report = BatchReport {
        packets: count,
        evaluated_ahead: batch.most.min(count),
        rerun: book.own().saturating_sub(own),
        changes: changes.len() as u64,
        asked_rules: book.asked().saturating_sub(asked),
    };
    course.note(&piece, report);
    Ok(Committed {
        batch,
        piece,
        changes,
    })
}

/// Hands a feed what a batch adds, and says whether it took all of it. Then the feed gets the packets back, unless somebody still
/// shares them.
fn hand_on<J: OfRun, F: Feed>(feed: &mut F, piece: Emitted, batch: Arc<Batch<J>>) -> bool
    ensures told { F.told feed.new ≡ F.told feed.old }
    ensures names { F.names feed.new ≡ F.names feed.old }
    ensures given { F.given feed.new ≡ F.given feed.old }
    ensures taken { result ≡ true → TakesPiece F.transitions feed.old (texts_of piece) feed.new }
    ensures cut { result ≡ false → F.transitions.cuts feed.old (texts_of piece) feed.new }
{
    if !feed.take(piece) {
        return false;
    }
    if let Some(
        Batch {
            packets,
            clocks: _,
            first: _,
            most: _,
            told: _,
        },
    ) = Arc::into_inner(batch)
    {
        feed.give_back(packets);
    }
    true
}

impl<J: OfRun + Send + Sync, K: Naming + Send + Sync, F: Feed> Run<J, K, F> {
    /// Takes the oldest batch that waits, passes what it adds to the feed, and publishes what it did to the table. If none waits the run is
    /// over.
    pub(crate) fn take_oldest<R: Wait, G: Gate>(
        &mut self,
        rt: &R,
        alloc: Global,
        history: &History<J, Change>,
        published: Published<StoreWriter<J>>,
        gate: &G,
    ) -> (Published<StoreWriter<J>>, Turn)
        requires job { J.job ≡ Some (job_of self.old.book) }
        requires over { self.old.waiting.items ≡ [] → self.old.is_over ≡ true }
        requires fits { (workers : ℕ) × FitsIn (F.given self.old.feed) workers self.old }
        requires room { HasRoom self.old }
        ensures told { F.told self.new.feed ≡ F.told self.old.feed }
        ensures names { F.names self.new.feed ≡ F.names self.old.feed }
        ensures job { self.new.book.job ≡ self.old.book.job }
        ensures fits { result.1 ≡ GoesOn → StillFit (F.given self.old.feed) (F.given self.new.feed) self.old self.new }
        ensures room { HasRoom self.new }
        ensures gave_up { self.new.course.gave_up ≡ false → self.old.course.gave_up ≡ false }
        ensures shown { self.new.course.gave_up ≡ false → is_shown result.0 ≡ is_shown published }
        ensures comes { (workers : ℕ) → IsTurn F.transitions workers result.1 self.old self.new (list_of published) (list_of result.0) }
        ensures nearer { result.1 ≡ GoesOn → left_of (F.given self.new.feed) self.new < left_of (F.given self.old.feed) self.old }
    {
        let Some(oldest) = self.waiting.pop_front() else {
            return (published, Turn::IsOver);
        };
        let Ok(
            Committed {
                batch,
                piece,
                changes,
            },
        ) = commit_oldest(rt, alloc, &mut self.book, &mut self.course, oldest, gate)
        else {
            return (published, Turn::IsRefused);
        };
        if !hand_on(&mut self.feed, piece, batch) {
            return (published, Turn::IsOver);
        }
        let (published, outcome) = show(
            rt,
            alloc,
            history,
            published,
            changes,
            self.course.gave_up,
        );
        match outcome {
            Ok(()) => (published, Turn::GoesOn),
            Err(_) => (published, Turn::IsRefused),
        }
    }
}
