//! Where the captures come from.
ghost use Rattle.std.specs.Prelude.{◌≡◌, ◌≤◌, [], IfErr, IfOk, OnOk, length, map};
ghost use Rattle.std.specs.List.{list_all};
ghost use Rattle.pfr_merge.specs.MergeReading.{AllTold, HasPassedOn, NoneRefused};
ghost use Rattle.pfr_merge.specs.Opening.{MergeOpens, OpeningFails, OpeningStops};
ghost use Rattle.pfr_feed.specs.Reading.{ReadsBatch};

use crate::reading::read_batch;
use pfr_capture::{CaptureError, Record, Source, Tail};
use pfr_merge::Merge;
use std::alloc::Global;
use std::marker::Model;

/// The sources of the captures, each at the place of its capture. Contracts see the list of them.
#[derive(Drop)]
pub struct Sources<R> {
    sources: Vec<R>,
}

impl<R> Model for Sources<R> {
    ghost use Rattle.std.specs.Prelude.{List};

    ghost Value = { List R };

    ghost view = { λ a. a.sources.items };
}

impl<R> Sources<R> {
    /// These sources, each at the place of its capture.
    pub fn new(sources: Vec<R>) -> Sources<R>
        ensures { result ≡ sources.items }
    {
        Sources { sources }
    }

    /// The sources, by the places of their captures.
    pub fn into_vec(self) -> Vec<R>
        ensures { result.items ≡ self }
    {
        self.sources
    }
}

impl<R: Source> Sources<R> {
    /// Whether all tell their bytes.
    pub fn tell(&self) -> bool
        ensures { result ≡ list_all R.told self.now }
    {
        self.sources.iter().all(|source| source.tells())
    }

    /// Opens their captures, in the order of the places. It ends at the first one that is refused, and answers its
    /// place and the refusal.
    pub fn open(&mut self, alloc: Global) -> Result<Merge, (usize, CaptureError)>
        ensures told { map R.told self.new ≡ map R.told self.old }
        ensures starts { IfOk result (λ merge. NoneRefused merge × HasPassedOn 0 merge × (length merge ≡ length self.old)) }
        ensures long { length self.new ≡ length self.old }
        ensures opens { IfOk result (λ merge. AllTold (map R.told self.old) → MergeOpens (map R.unread self.old) (map R.unread self.new) merge) }
        ensures ok { OnOk result (map R.failures self.new ≡ map R.failures self.old) }
        ensures stops { IfErr result (λ stop. AllTold (map R.told self.old) → OpeningStops (map R.unread self.old) (map R.unread self.new) stop) }
        ensures failed { IfErr result (OpeningFails (map R.failures self.old) (map R.failures self.new)) }
    {
        Merge::open(alloc, self.sources.as_mut_slice())
    }

    /// Reads a batch of their captures' records.
    pub fn read_batch(
        &mut self,
        merge: &mut Merge,
        most: usize,
        records: &mut Vec<Record>,
    ) -> Option<Result<Tail, (usize, CaptureError)>>
        requires reading { NoneRefused merge.old }
        requires captures { (length self.old ≡ length merge.old) × (length merge.old ≤ 8) }
        requires most { 1 ≤ most }
        requires none { records.old.items ≡ [] }
        ensures { ReadsBatch R.told R.unread R.failures merge.old merge.new self.old self.new most records.new.items result }
    {
        read_batch(merge, self.sources.as_mut_slice(), most, records)
    }
}
