//! The merge of several captures.
ghost use Rattle.std.specs.Prelude.{◌≡◌, ◌<◌, ◌+◌, ℕ, List, Option, Some, None, Ok, Err, length, map, slice_get, IfErr, IfNone, IfOk, IfSome, OnOk};
ghost use Rattle.pfr_capture.specs.declared.capture.CaptureError.{CaptureError};
ghost use Rattle.pfr_merge.specs.MergeReading.{AllRefilled, AllTold, Answer, AreOver, AreSettled, FailsAt, HasForm, HasPassedOn, IsOfCapture, IsOverWith, LacksRecordAt, MergeReads, NoneRefused, StopsAt, form_in, header_in, merged_tail, none_waits, records_in, time_in};
ghost use Rattle.pfr_capture.specs.declared.capture.Form.{Form};
ghost use Rattle.pfr_capture.specs.Reading.{FieldsOf, bytes_of};
ghost use Rattle.pfr_merge.specs.MergeStepping.{HaveNone, LeastSo, TakesNext};
ghost use Rattle.pfr_merge.specs.Opening.{AreFresh, MergeOpens, OpeningFails, OpeningStops, OpensEach};
ghost use Rattle.pfr_merge.specs.declared.time.Time.{Time};

use crate::input::Input;
use crate::time::Time;
use pfr_capture::{Capture, CaptureError, Record, Source, Tail};
use std::alloc::{AllocError, Global};
use std::marker::Model;

/// Several captures, whose records it gives in the order of time.
///
/// Of the next records of all captures it takes the earliest one, and of equally early ones that of the first
/// capture. The records of one capture stay in their order. A capture that is refused ends the merge behind that
/// capture's last record.
#[derive(Drop)]
pub struct Merge {
    inputs: Vec<Input>,
}

impl Model for Merge {
    ghost use Rattle.std.specs.Prelude.{List};
    ghost use Rattle.pfr_merge.specs.MergeReading.{Waiting};

    ghost Value = { List Waiting };

    ghost view = { λ a. a.inputs.items };
}

/// Opens the captures of sources, in their order. It stops at the first that is refused, whose place it returns.
fn open_each<S: Source>(
    alloc: Global,
    sources: &mut [S],
) -> Result<Vec<Capture>, (usize, CaptureError)>
    ensures told { map S.told sources.new ≡ map S.told sources.old }
    ensures fresh { IfOk result (λ captures. AreFresh captures.items × (length captures.items ≡ length sources.old)) }
    ensures opens { IfOk result (λ captures. OpensEach (map S.told sources.old) (map S.unread sources.old) (map S.unread sources.new) captures.items) }
    ensures ok { OnOk result (map S.failures sources.new ≡ map S.failures sources.old) }
    ensures stops { IfErr result (λ stop. AllTold (map S.told sources.old) → OpeningStops (map S.unread sources.old) (map S.unread sources.new) stop) }
    ensures failed { IfErr result (OpeningFails (map S.failures sources.old) (map S.failures sources.new)) }
{
    let mut captures = Vec::new(alloc);
    for place in 0..sources.len() {
        match Capture::open(alloc, &mut sources[place]) {
            Ok(capture) => match captures.push(capture) {
                Ok(()) => {}
                Err(_) => return Err((place, CaptureError::Memory)),
            },
            Err(e) => return Err((place, e)),
        }
    }
    Ok(captures)
}

impl Merge {
    /// Opens the captures of sources, in their order. It stops at the first that is refused, and returns its place.
    pub fn open<S: Source>(alloc: Global, sources: &mut [S]) -> Result<Merge, (usize, CaptureError)>
        ensures told { map S.told sources.new ≡ map S.told sources.old }
        ensures starts { IfOk result (λ merge. NoneRefused merge × HasPassedOn 0 merge × (length merge ≡ length sources.old)) }
        ensures opens { IfOk result (λ merge. AllTold (map S.told sources.old) → MergeOpens (map S.unread sources.old) (map S.unread sources.new) merge) }
        ensures ok { OnOk result (map S.failures sources.new ≡ map S.failures sources.old) }
        ensures stops { IfErr result (λ stop. AllTold (map S.told sources.old) → OpeningStops (map S.unread sources.old) (map S.unread sources.new) stop) }
        ensures failed { IfErr result (OpeningFails (map S.failures sources.old) (map S.failures sources.new)) }
    {
        let captures = open_each(alloc, sources)?;
        match Merge::new(alloc, captures) {
            Ok(merge) => Ok(merge),
            Err(_) => Err((0, CaptureError::Memory)),
        }
    }

    /// A merge of these captures, of which no record was read yet.
    pub fn new(alloc: Global, captures: Vec<Capture>) -> Result<Merge, AllocError>
        ensures { IfOk result (λ merge. merge ≡ map none_waits captures.items) }
    {
        let mut inputs = Vec::new(alloc);
        for capture in captures {
            inputs.push(Input::new(capture))?;
        }
        Ok(Merge { inputs })
    }

    /// The next record, with the place of its capture, which the record names too, or None after the last one. A refusal
    /// comes with the place of the capture that is refused.
    ///
    /// Captures of which no record waits are read first, in their order, each from the source at its place. An answer
    /// of None and a refusal are for good: each further call gives the same, and reads nothing.
    pub fn next<S: Source>(
        &mut self,
        sources: &mut [S],
    ) -> Result<Option<(usize, Record)>, (usize, CaptureError)>
        requires { length sources.old ≡ length self.old }
        ensures told { map S.told sources.new ≡ map S.told sources.old }
        ensures length { length self.new ≡ length self.old }
        ensures forms { map form_in self.new ≡ map form_in self.old }
        ensures headers { map header_in self.new ≡ map header_in self.old }
        ensures counted { (count : ℕ) → HasPassedOn count self.old → HasPassedOn (count + records_in result) self.new }

        // Once the merge is over.
        ensures again { (answer : Answer) → IsOverWith self.old answer → result ≡ answer }
        ensures stays { (answer : Answer) → IsOverWith self.old answer → (self.new ≡ self.old) × (sources.new ≡ sources.old) }

        // What was given is always what the captures begin with, merged.
        ensures form { IfOk result (λ found. IfSome found (HasForm self.old)) }
        ensures reads { AllTold (map S.told sources.old) → MergeReads self.old self.new (map S.unread sources.old) (map S.unread sources.new) result }
        ensures end { IfOk result (λ found. IfNone found (AreOver self.new)) }
        ensures running { OnOk result (NoneRefused self.new) }
        ensures refused { IfErr result (StopsAt self.new) }
        ensures lacks { NoneRefused self.old → IfErr result (LacksRecordAt self.new) }
        ensures ok { OnOk result (map S.failures sources.new ≡ map S.failures sources.old) }
        ensures failed { NoneRefused self.old → IfErr result (FailsAt (map S.failures sources.old) (map S.failures sources.new)) }
    {
        match refill_all(self.inputs.as_mut_slice(), sources) {
            Ok(()) => Ok(take_next(self.inputs.as_mut_slice())),
            Err(stop) => Err(stop),
        }
    }

    /// How the captures end, once `next` has answered None: cut if one of them is.
    pub fn tail(&self) -> Tail
        ensures { result ≡ merged_tail self.now }
    {
        joint_tail(self.inputs.as_slice())
    }

    /// The headers of the captures, by their places.
    pub fn headers(&self, alloc: Global) -> Result<Vec<[u8; 24]>, AllocError>
        ensures { IfOk result (λ headers. headers.items ≡ map header_in self.now) }
    {
        let mut headers = Vec::new(alloc);
        for input in self.inputs.as_slice() {
            headers.push(input.capture().header())?;
        }
        Ok(headers)
    }

    /// The capture at a place.
    pub fn capture(&self, place: usize) -> &Capture
        requires { place < length self.now }
        ensures { IfSome (slice_get self.now place) (λ w. result.now ≡ w.reading) }
    {
        self.inputs[place].capture()
    }

    /// Notes that a batch of its records begins.
    pub fn begin_batch(&mut self)
        ensures { self.new ≡ self.old }
    {
        for place in 0..self.inputs.len() {
            self.inputs[place].begin_batch();
        }
    }

    /// Whether reading the next batch may have to wait for a source, if it has no more bytes of any capture than that
    /// capture's largest batch so far. Nothing depends on it: a source may have more by now, or have ended.
    pub fn may_wait(&self) -> bool {
        self.inputs.iter().any(|input| input.may_wait())
    }

    /// Takes back a record of the capture at a place that isn't needed any more. Its buffer may serve for a later
    /// record.
    pub fn give_back(&mut self, place: usize, packet: Record)
        ensures { self.new ≡ self.old }
    {
        if place < self.inputs.len() {
            self.inputs[place].give_back(packet);
        }
    }
}

/// How captures end, as far as they were read: cut if one of them is.
fn joint_tail(inputs: &[Input]) -> Tail
    ensures { result ≡ merged_tail inputs.now }
{
    for input in inputs {
        match input.tail() {
            Tail::Cut => return Tail::Cut,
            Tail::Clean => {}
        }
    }
    Tail::Clean
}

/// Reads the next record of each capture of which none waits, in the order of the captures. It stops at one that
/// is refused.
fn refill_all<S: Source>(
    inputs: &mut [Input],
    sources: &mut [S],
) -> Result<(), (usize, CaptureError)>
    requires { length sources.old ≡ length inputs.old }
    ensures told { map S.told sources.new ≡ map S.told sources.old }
    ensures reads { AllTold (map S.told sources.old) → AllRefilled inputs.old inputs.new (map S.unread sources.old) (map S.unread sources.new) }
    ensures forms { map form_in inputs.new ≡ map form_in inputs.old }
    ensures headers { map header_in inputs.new ≡ map header_in inputs.old }
    ensures counted { (count : ℕ) → HasPassedOn count inputs.old → HasPassedOn count inputs.new }
    ensures settled { OnOk result (AreSettled inputs.new) }
    ensures stopped { IfErr result (StopsAt inputs.new) }
    ensures stays { AreSettled inputs.old → (inputs.new ≡ inputs.old) × (sources.new ≡ sources.old) }
    ensures again { (stop : ℕ × CaptureError) → StopsAt inputs.old stop → result ≡ Err stop }
    ensures still { (stop : ℕ × CaptureError) → StopsAt inputs.old stop → (inputs.new ≡ inputs.old) × (sources.new ≡ sources.old) }
    ensures ok { OnOk result (map S.failures sources.new ≡ map S.failures sources.old) }
    ensures lacks { NoneRefused inputs.old → IfErr result (LacksRecordAt inputs.new) }
    ensures failed { NoneRefused inputs.old → IfErr result (FailsAt (map S.failures sources.old) (map S.failures sources.new)) }
{
    for place in 0..inputs.len() {
        match inputs[place].refill(&mut sources[place]) {
            Ok(()) => {}
            Err(e) => return Err((place, e)),
        }
    }
    Ok(())
}

/// The earlier of the earliest record so far and the record of the capture at a place, if it has one.
fn better(best: Option<(usize, Time)>, time: Option<Time>, place: usize) -> Option<(usize, Time)>
    ensures { (times : List (Option Time)) → slice_get times place ≡ Some time → LeastSo times place best → LeastSo times (place + 1) result }
{
    match time {
        None => best,
        Some(time) => match best {
            None => Some((place, time)),
            Some(least) => {
                if time.is_before(least.1) {
                    return Some((place, time));
                }
                best
            }
        },
    }
}

/// The place of the earliest record that waits, the first of equally early ones.
fn least(inputs: &[Input]) -> Option<(usize, Time)>
    ensures { LeastSo (map time_in inputs.now) (length inputs.now) result }
{
    let mut best = None;
    for place in 0..inputs.len() {
        best = better(best, inputs[place].time(), place);
    }
    best
}

/// The record, as one of the capture at a place.
fn placed(place: usize, packet: Record) -> Record
    ensures bytes { bytes_of result ≡ bytes_of packet }
    ensures fields { (form : Form) → FieldsOf form packet → IsOfCapture place form result }
{
    Record {
        place: place.min(255) as u8,
        ..packet
    }
}

/// Takes the earliest record that waits.
fn take_next(inputs: &mut [Input]) -> Option<(usize, Record)>
    ensures none { IfNone result (HaveNone inputs.old × (inputs.new ≡ inputs.old)) }
    ensures taken { IfSome result (λ found. TakesNext inputs.old inputs.new found.0 found.1) }
{
    let Some(found) = least(inputs) else {
        return None;
    };
    match inputs[found.0].take() {
        None => None,
        Some(record) => Some((found.0, placed(found.0, record))),
    }
}
