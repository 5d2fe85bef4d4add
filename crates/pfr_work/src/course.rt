//! What a run with workers knows of the batches so far.
ghost use Rattle.std.specs.Prelude.{◌≡◌, ◌+◌, ℕ, [], true, false, IfOk, IsOk, IsTrue, OnOk, ◌↔◌};
ghost use Rattle.pfr_commit.specs.Emissions.{are_kept, listed};
ghost use Rattle.pfr_work.specs.Turns.{HasRoomFor, WithEntry, WithLost};

use crate::pace::{BatchReport, Pace};
use pfr_claims::Gathered;
use pfr_commit::{Changes, Emitted};
use pfr_feed::Room;
use pfr_history::Naming;
use pfr_packet::Job;
use pfr_track::Clock;
use pfr_workers::{Incomplete, Openings};
use std::alloc::{AllocError, Global};

/// What a run with workers knows of the batches so far.
#[derive(Drop)]
pub(crate) struct Course<K: Naming> {
    /// The history of the batches that were opened.
    pub(crate) openings: Openings<K>,
    /// The claims of the batches whose passes all came back, and the other batches.
    pub(crate) entries: Vec<Gathered>,
    pub(crate) lost: Vec<Incomplete>,
    pub(crate) pace: Pace,
    /// Whether workers were given up.
    pub(crate) gave_up: bool,
    /// The room of the next piece.
    pub(crate) room: Room,
    /// How many changes of the table the last batch made.
    pub(crate) changed: usize,
    /// How many packets the opened batches have, and the clock after them.
    pub(crate) opened: u64,
    pub(crate) clock: Clock,
}

/// How many rules a job's ruleset has, of the filter and of translation.
fn rules_of(job: &Job) -> u64 {
    let (filter, translation) = job.rules().counts();
    u64::from(filter).saturating_add(u64::from(translation))
}

impl<K: Naming> Course<K> {
    /// No batch so far.
    pub(crate) fn new(alloc: Global, job: &Job, workers: u64, openings: Openings<K>) -> Course<K>
        ensures openings { result.openings ≡ openings }
        ensures entries { result.entries.items ≡ [] }
        ensures lost { result.lost.items ≡ [] }
        ensures gave_up { result.gave_up ≡ false }
        ensures room { HasRoomFor 0 result.entries × HasRoomFor 0 result.lost }
    {
        Course {
            openings,
            entries: Vec::new(alloc),
            lost: Vec::new(alloc),
            pace: Pace::new(rules_of(job), workers),
            gave_up: false,
            room: Room::first(),
            changed: 0,
            opened: 0,
            clock: Clock(0),
        }
    }

    /// Makes room for what comes back of `count` batches, so that nothing of it is ever dropped.
    pub(crate) fn reserve(&mut self, count: usize) -> Result<(), AllocError>
        ensures made { OnOk result (HasRoomFor count self.new.entries × HasRoomFor count self.new.lost) }
        ensures stays { (n : ℕ) → HasRoomFor n self.old.entries → HasRoomFor n self.new.entries }
        ensures lost_stays { (n : ℕ) → HasRoomFor n self.old.lost → HasRoomFor n self.new.lost }
        ensures items { (self.new.entries.items ≡ self.old.entries.items) × (self.new.lost.items ≡ self.old.lost.items) }
        ensures others { (self.new.openings ≡ self.old.openings) × (self.new.gave_up ≡ self.old.gave_up) }
    {
        self.entries.reserve(count)?;
        self.lost.reserve(count)
    }

    /// Takes what came back of a batch, for which there is room, and says whether all its passes did.
    pub(crate) fn put(&mut self, gathered: Result<Gathered, Incomplete>) -> bool
        requires room { HasRoomFor 1 self.old.entries }
        requires lost_room { HasRoomFor 1 self.old.lost }
        ensures told { IsTrue result ↔ IsOk gathered }
        ensures entries { WithEntry self.old.entries.items self.new.entries.items gathered }
        ensures lost { WithLost self.old.lost.items self.new.lost.items gathered }
        ensures stays { (n : ℕ) → HasRoomFor (n + 1) self.old.entries → HasRoomFor n self.new.entries }
        ensures lost_stays { (n : ℕ) → HasRoomFor (n + 1) self.old.lost → HasRoomFor n self.new.lost }
        ensures others { (self.new.openings ≡ self.old.openings) × (self.new.gave_up ≡ self.old.gave_up) }
    {
        match gathered {
            Ok(entry) => {
                self.entries.push_reserved(entry);
                true
            }
            Err(incomplete) => {
                self.lost.push_reserved(incomplete);
                false
            }
        }
    }

    /// No changes, with room for as many as the batch before made. Once workers are given up nobody is shown them: then the proofs
    /// alone know which they are.
    pub(crate) fn no_changes(&self, alloc: Global) -> Result<Changes, AllocError>
        ensures none { IfOk result (λ changes. listed changes ≡ []) }
        ensures kept { IfOk result (λ changes. self.now.gave_up ≡ false → are_kept changes ≡ true) }
    {
        if self.gave_up {
            let known = Vec::with_capacity(alloc, self.changed)?;
            Ok(Changes::Known(known))
        } else {
            let kept = Vec::with_capacity(alloc, self.changed)?;
            Ok(Changes::Kept(kept))
        }
    }

    /// Takes note of what a batch came to, and of its piece.
    pub(crate) fn note(&mut self, piece: &Emitted, report: BatchReport)
        ensures items { (self.new.entries ≡ self.old.entries) × (self.new.lost ≡ self.old.lost) }
        ensures openings { self.new.openings ≡ self.old.openings }
        ensures gave_up { self.new.gave_up ≡ false → self.old.gave_up ≡ false }
    {
        self.changed = report.changes as usize;
        self.room = Room::of(piece);
        self.pace.note(report);
        self.gave_up = self.gave_up || self.pace.has_given_up();
    }
}
