//! The batches of captures, and how what they add is written into the outputs.
ghost use Rattle.std.specs.Prelude.{◌≡◌, ◌≤◌, ◌+◌, min, length, None, Some, IfErr, IfSome, IsSome, OnOk};
ghost use Rattle.pfr_commit.specs.Books.{StandsAt, job_of};
ghost use Rattle.pfr_commit.specs.World.{opening};
ghost use Rattle.pfr_commit.specs.Emissions.{texts_of};
ghost use Rattle.pfr_merge.specs.MergeReading.{HasPassedOn, NoneRefused};
ghost use Rattle.pfr_out.specs.Outputs.{KeepsMessages, Stay, each_of};
ghost use Rattle.pfr_out.specs.Spelling.{source_of};
ghost use Rattle.pfr_feed.specs.declared.report.Stop.TheVariants.{Memory};

use crate::channel::Channel;
use crate::sinks::Sinks;
use crate::taking::conclude;
use pfr_capture::{CaptureError, Record, Sink, Source, Tail};
use pfr_commit::{Book, Emitted};
use pfr_feed::{Output, Report, Sources, Stop, give_back, wants_memory};
use pfr_headers::View;
use pfr_merge::Merge;
use pfr_net::Ipv4Address;
use pfr_work::{Feed, Gate, Histories, Naming, OfRun, run_workers};
use std::alloc::{AllocGlobal, Global};
use std::sync::Wait;
use std::thread::Threads;

/// Why a piece wasn't taken whole.
#[derive(Clone, Copy)]
pub(crate) enum Cut {
    /// Memory was refused for its messages.
    Memory,
    /// This output wasn't written whole.
    Write(Output),
}

/// Reads captures, a batch at a time, and writes what each batch adds.
#[derive(Drop)]
pub(crate) struct Feeding<'a, R, S> {
    pub(crate) alloc: Global,
    /// The captures, each with the source at its place.
    pub(crate) merge: &'a mut Merge,
    pub(crate) sources: &'a mut Sources<R>,
    /// The most records of a batch.
    pub(crate) most: usize,
    pub(crate) channel: &'a mut Channel,
    /// The address from which messages come.
    pub(crate) address: Ipv4Address,
    pub(crate) sinks: &'a mut Sinks<S>,
    /// How many records were given, and how many of them are written. Batches are read ahead.
    pub(crate) given: u64,
    pub(crate) committed: u64,
    /// How the reading has ended, if it has.
    pub(crate) end: Option<Result<Tail, (usize, CaptureError)>>,
    /// Why the run stopped before that, if it did.
    pub(crate) cut: Option<Cut>,
    ghost batch: { (1 ≤ most) × (most ≤ 4096) },
    ghost captures: { (length sources.now ≡ length merge.now) × (length merge.now ≤ 8) },
    ghost reading: { end ≡ None → NoneRefused merge.now },
    ghost counted: { (committed ≤ given) × HasPassedOn given merge.now },
}

impl<R: Source, S: Sink> Feeding<'_, R, S> {
    ghost use Rattle.pfr_out.specs.Feedings.{CutFails, CutsPiece, GrewByPiece, Writes};

    /// Writes what a batch adds.
    fn write(&mut self, piece: &Emitted) -> Result<(), Cut>
        ensures writes { Writes S.told self.old self.new }
        ensures committed { self.new.committed ≡ self.old.committed }
        ensures cut { self.new.cut ≡ self.old.cut }
        ensures names { (self.new.sources.ghost_name ≡ self.old.sources.ghost_name) × (self.new.sinks.ghost_name ≡ self.old.sinks.ghost_name) }
        ensures grew { OnOk result (GrewByPiece S.told S.written self.old (texts_of piece.now) self.new) }
        ensures no_failure { OnOk result (Stay S.failures self.old.sinks.now self.new.sinks.now) }
        ensures off { IfErr result (λ cut. CutsPiece S.told S.written self.old (texts_of piece.now) self.new cut) }
        ensures failure { IfErr result (λ cut. CutFails S.failures self.old self.new cut) }
    {
        match self.channel.spell(self.address, piece.messages.as_slice()) {
            Ok(()) => {}
            Err(_) => return Err(Cut::Memory),
        }
        match self.sinks.write_batch(piece, self.channel.text()) {
            Ok(()) => Ok(()),
            Err(output) => Err(Cut::Write(output)),
        }
    }

    /// How many records there are up to the end of the next batch. The last batch may have fewer than `most`.
    fn behind_next(&self) -> u64
        ensures { result ≡ min (self.now.committed + self.now.most) self.now.given }
    {
        self.given.min(self.committed + self.most as u64)
    }
}

impl<R: Source, S: Sink> Feed for Feeding<'_, R, S> {
    ghost use Rattle.std.specs.Prelude.{◌&&◌};
    ghost use Rattle.std.specs.List.{list_all};
    ghost use Rattle.pfr_out.specs.Feedings.{transitions_of};
    ghost use Rattle.pfr_out.specs.Outputs.{all_told};

    ghost transitions = { transitions_of R.told R.unread R.failures S.told S.written S.failures };

    ghost told = { λ feeding. list_all R.told feeding.sources.now && all_told S.told feeding.sinks.now };

    ghost given = { λ feeding. feeding.given };

    ghost names = { λ feeding. (feeding.sources.ghost_name, feeding.sinks.ghost_name) };

    fn batch(&mut self) -> Option<Vec<Record>> {
        if self.end.is_some() {
            return None;
        }
        let mut records = Vec::new(self.alloc);
        // if room is refused here, so is the room of a record
        let _ = records.reserve(self.most);
        self.end = self.sources.read_batch(self.merge, self.most, &mut records);
        if records.is_empty() {
            return None;
        }
        if wants_memory(&self.end) {
            return None;
        }
        self.given += records.len() as u64;
        Some(records)
    }

    fn take(&mut self, piece: Emitted) -> bool {
        match self.write(&piece) {
            Ok(()) => {
                self.committed = self.behind_next();
                true
            }
            Err(cut) => {
                self.cut = Some(cut);
                false
            }
        }
    }

    fn give_back(&mut self, packets: Vec<(Record, View)>) {
        give_back(self.merge, packets);
    }

    fn may_wait(&self) -> bool {
        self.merge.may_wait()
    }

    fn tells(&self) -> bool {
        self.sources.tell() && self.sinks.tell()
    }
}

impl<'a, R: Source, S: Sink> Feeding<'a, R, S> {
    ghost use Rattle.pfr_out.specs.Feedings.{Breaks, Finishes, Fresh, RunEnds, RunStops, TellAsBefore, stop_of};

    /// Notes that memory was refused.
    fn without_memory(mut self) -> Feeding<'a, R, S>
        ensures names { (result.sources.ghost_name ≡ self.entry.sources.ghost_name) × (result.sinks.ghost_name ≡ self.entry.sinks.ghost_name) }
        ensures sources { result.sources.now ≡ self.entry.sources.now }
        ensures sinks { result.sinks.now ≡ self.entry.sinks.now }
        ensures form { result.channel.now.form ≡ self.entry.channel.now.form }
        ensures stop { stop_of result ≡ Some (Memory self.entry.committed) }
    {
        self.cut = Some(Cut::Memory);
        self
    }

    /// Has a book take the packets of the captures, and writes what they add, a batch at a time. If there are
    /// `workers`, they evaluate the packets of the next batches ahead. `last` is the book at the end, unless memory was
    /// refused.
    pub(crate) fn run<
        J: OfRun + Send + Sync + 'static,
        K: Naming + Send + Sync + 'static,
        H: AllocGlobal + Threads + Wait + Sync,
        G: Gate,
    >(
        self,
        rt: &H,
        book: Book,
        workers: u64,
        gate: &G,
        histories: Histories,
        last: &mut Option<Book>,
    ) -> Feeding<'a, R, S>
        requires fresh { Fresh self }
        requires world { StandsAt book (opening (job_of book)) }
        requires address { self.address ≡ source_of (job_of book) }
        requires job { J.job ≡ Some (job_of book) }
        requires limit { (job_of book).rules.options.state_limit ≡ J.limit }
        requires changes { histories.changes ≡ J.history }
        requires batches { histories.batches ≡ K.history }
        requires workers { workers ≤ 64 }
        ensures sources { result.sources.ghost_name ≡ self.entry.sources.ghost_name }
        ensures sinks { result.sinks.ghost_name ≡ self.entry.sinks.ghost_name }
        ensures told { TellAsBefore R.told S.told self.entry result }
        ensures form { result.channel.now.form ≡ self.entry.channel.now.form }
        ensures messages { KeepsMessages self.entry.channel.now.form self.entry.sinks.now result.sinks.now }
        ensures over { result.cut ≡ None → RunEnds R.told R.unread R.failures S.told S.written S.failures book self.entry result last.new }
        ensures stopped { IfSome (stop_of result) (RunStops R.told R.unread R.failures S.told S.written S.failures book self.entry result) }
    {
        let (book, feeding, trace, result) = run_workers::<J, K, H, Feeding<'a, R, S>, G>(
            rt, book, self, workers, gate, histories,
        );
        drop(trace.close(rt));
        match result {
            Ok(()) => {
                drop(last.replace(book));
                feeding
            }
            Err(_) => {
                drop(book);
                feeding.without_memory()
            }
        }
    }

    /// Why the run stopped before the end of the reading, if it did.
    fn stop(&self) -> Option<Stop>
        ensures { result ≡ stop_of self.now }
    {
        match self.cut? {
            Cut::Memory => Some(Stop::Memory(self.committed)),
            Cut::Write(output) => Some(Stop::Write(output, self.committed)),
        }
    }

    /// Ends a run: if the reading has ended it writes the last texts, and it reports a stop that came before.
    pub(crate) fn finish(&mut self, last: Option<Book>) -> Result<Report, Stop>
        requires over { self.old.cut ≡ None → IsSome self.old.end × IsSome last }
        ensures sources { self.new.sources.ghost_name ≡ self.old.sources.ghost_name }
        ensures sources_stay { self.new.sources.now ≡ self.old.sources.now }
        ensures sinks { self.new.sinks.ghost_name ≡ self.old.sinks.ghost_name }
        ensures told { each_of S.told self.new.sinks.now ≡ each_of S.told self.old.sinks.now }
        ensures messages { KeepsMessages self.old.channel.now.form self.old.sinks.now self.new.sinks.now }
        ensures stopped { Breaks self.old self.new.sinks.now result }
        ensures concluded { Finishes S.told S.written S.failures self.old last self.new.sinks.now result }
    {
        if let Some(stop) = self.stop() {
            drop(last);
            return Err(stop);
        }
        match last {
            Some(book) => match self.end {
                Some(end) => conclude(book, end, self.channel, self.sinks),
                None => unreachable!(),
            },
            None => unreachable!(),
        }
    }
}
