//! One of the captures of a merge.
ghost use Rattle.std.specs.Prelude.{◌≡◌, ◌⊎◌, IsTrue, None, Err, IfErr, IfSome, IsOk, OnOk};
ghost use Rattle.std.specs.Option.{option_map};
ghost use Rattle.pfr_capture.specs.Reading.{FieldsOf, LacksRecord, NextFails, bytes_of, tail_of};
ghost use Rattle.pfr_capture.specs.declared.capture.CaptureError.{CaptureError};
ghost use Rattle.pfr_merge.specs.MergeReading.{IsSettled, IsStopped, RefillCounts, Refilled, time_in};

use crate::time::{Time, nanoseconds};
use pfr_capture::{Capture, CaptureError, Record, Source, Tail};
use std::marker::Model;

/// A capture, and its record that waits for its turn.
#[derive(Drop)]
pub struct Input {
    capture: Capture,
    head: Option<Record>,
    /// Whether its end was read. Then no call waits for its source.
    has_ended: bool,
    /// How many bytes its records had taken when the last batch began, and the most that they took in a batch before.
    begun: usize,
    most: usize,
}

impl Model for Input {
    ghost use Rattle.std.specs.Prelude.{◌≡◌, IfSome, None};
    ghost use Rattle.std.specs.Option.{option_map};
    ghost use Rattle.pfr_capture.specs.Reading.{FieldsOf, bytes_of};
    ghost use Rattle.pfr_merge.specs.MergeReading.{Waiting};

    ghost Value = { Waiting };

    ghost view = { λ a. record { reading = a.capture; head = option_map bytes_of a.head } };

    ghost invariant = { λ a. IfSome a.head (λ r. FieldsOf a.capture.form r × (a.capture.over ≡ None)) };
}

impl Input {
    /// A capture of which no record waits.
    pub fn new(capture: Capture) -> Input
        ensures { result ≡ record { reading = capture; head = None } }
    {
        Input {
            capture,
            head: None,
            has_ended: false,
            begun: 0,
            most: 0,
        }
    }

    /// Reads the next record, unless one waits.
    pub fn refill<S: Source>(&mut self, source: &mut S) -> Result<(), CaptureError>
        ensures told { S.told source.new ≡ S.told source.old }
        ensures reads { IsTrue (S.told source.old) → Refilled self.old self.new (S.unread source.old) (S.unread source.new) }
        ensures form { self.new.reading.form ≡ self.old.reading.form }
        ensures header { self.new.reading.header ≡ self.old.reading.header }
        ensures counts { RefillCounts self.old self.new }
        ensures settled { OnOk result (IsSettled self.new) }
        ensures stopped { IfErr result (λ e. IsStopped e self.new) }
        ensures stays { IsSettled self.old → IsOk result × (self.new ≡ self.old) × (source.new ≡ source.old) }
        ensures again { (e : CaptureError) → IsStopped e self.old → (result ≡ Err e) × (self.new ≡ self.old) × (source.new ≡ source.old) }
        ensures ends { IfErr result (λ e. (self.old.reading.over ≡ None) ⊎ IsStopped e self.old) }
        ensures ok { OnOk result (S.failures source.new ≡ S.failures source.old) }
        ensures lacks { self.old.reading.over ≡ None → IfErr result (LacksRecord self.new.reading) }
        ensures failed { self.old.reading.over ≡ None → IfErr result (λ e. NextFails e (S.failures source.old) (S.failures source.new)) }
    {
        if self.head.is_some() {
            return Ok(());
        }
        match self.capture.next(source) {
            Ok(found) => {
                self.has_ended = found.is_none();
                self.head = found;
                Ok(())
            }
            Err(e) => Err(e),
        }
    }

    /// The capture.
    pub fn capture(&self) -> &Capture
        ensures { result.now ≡ self.now.reading }
    {
        &self.capture
    }

    /// Takes back a record of it that isn't needed any more.
    pub fn give_back(&mut self, packet: Record)
        ensures { self.new ≡ self.old }
    {
        self.capture.give_back(packet);
    }

    /// How many bytes its records have taken with their headers since the last batch began, modulo 2^64.
    fn taken(&self) -> usize {
        self.capture.taken().wrapping_sub(self.begun)
    }

    /// Notes that a batch begins.
    pub fn begin_batch(&mut self)
        ensures { self.new ≡ self.old }
    {
        self.most = self.most.max(self.taken());
        self.begun = self.capture.taken();
    }

    /// Whether reading its records of the next batch may have to wait for its source, if they take no more bytes than
    /// those of the largest batch so far.
    pub fn may_wait(&self) -> bool {
        !self.has_ended && self.capture.may_wait(self.most.max(self.taken()))
    }

    /// How the capture ends, as far as it was read.
    pub fn tail(&self) -> Tail
        ensures { result ≡ tail_of self.now.reading.over }
    {
        self.capture.tail()
    }

    /// When the record that waits was captured.
    pub fn time(&self) -> Option<Time>
        ensures { result ≡ time_in self.now }
    {
        match &self.head {
            None => None,
            Some(record) => Some(Time {
                seconds: record.seconds,
                nanoseconds: nanoseconds(self.capture.form().resolution, record.fraction),
            }),
        }
    }

    /// Takes the record that waits.
    pub fn take(&mut self) -> Option<Record>
        ensures taken { option_map bytes_of result ≡ self.old.head }
        ensures fields { IfSome result (FieldsOf self.old.reading.form) }
        ensures rest { self.new ≡ record self.old { head = None } }
    {
        self.head.take()
    }
}
