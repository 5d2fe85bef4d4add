//! A device over bytes in memory, which can be told to move few bytes a call and to fail.
ghost use Rattle.std.specs.Prelude.{◌≡◌, ◌≤◌, ◌<◌, ◌+◌, ◌-◌, ◌++◌, true, [], length, min, drop, IsTrue, IfOk, IsErr, None, Some};
ghost use Rattle.pfr_capture.specs.Device.{moved, one_more, after_read, after_write};
ghost use Rattle.pfr_capture.specs.Memory.{fails_first, after_call};

use crate::device::{Fault, Sink, Source};
use std::marker::Model;

/// A source and a sink over bytes in memory. What is read comes from the front of its bytes, and what is
/// written goes to their end. It tells its bytes.
#[derive(Drop)]
pub struct Mem {
    bytes: Vec<u8>,
    place: usize,
    most: usize,
    until_failure: Option<u64>,
    failures: u64,
}

impl Model for Mem {
    ghost use Rattle.std.specs.Prelude.{◌≤◌, length};
    ghost use Rattle.pfr_capture.specs.Memory.{Memory};

    ghost Value = { Memory };

    ghost view = { λ m. record { bytes = m.bytes.items; place = m.place; most = m.most; until_failure = m.until_failure; failures = m.failures } };

    ghost invariant = { λ m. m.place ≤ length m.bytes.items };
}

impl Mem {
    /// A device over these bytes, that moves all that it is asked to and never fails.
    pub fn new(bytes: Vec<u8>) -> Mem
        ensures { result ≡ record { bytes = bytes.items; place = 0; most = usize.MAX; until_failure = None; failures = 0 } }
    {
        Mem {
            bytes,
            place: 0,
            most: usize::MAX,
            until_failure: None,
            failures: 0,
        }
    }

    /// The same device, moving at most `most` bytes a call. With 0 a write takes nothing, and a read of
    /// bytes that are there fails.
    pub fn at_most(self, most: usize) -> Mem
        ensures { result ≡ record self { most = most } }
    {
        Mem { most, ..self }
    }

    /// The same device, failing at one call: the first after `calls` reads and writes that go well.
    pub fn failing_after(self, calls: u64) -> Mem
        ensures { result ≡ record self { until_failure = Some calls } }
    {
        Mem {
            until_failure: Some(calls),
            ..self
        }
    }

    /// All its bytes, those that were read too.
    pub fn bytes(&self) -> &[u8]
        ensures { result.now ≡ self.now.bytes }
    {
        self.bytes.as_slice()
    }

    /// Counts a call, and answers whether it is the one that is to fail.
    fn fails_now(&mut self) -> bool
        ensures fails { result ≡ fails_first self.old.until_failure }
        ensures counted { self.new ≡ record self.old { until_failure = after_call self.old.until_failure } }
    {
        match self.until_failure {
            None => false,
            Some(0) => {
                self.until_failure = None;
                true
            }
            Some(calls) => {
                self.until_failure = Some(calls - 1);
                false
            }
        }
    }

    fn fail(&mut self) -> Fault
        ensures { self.new ≡ record self.old { failures = one_more self.old.failures } }
    {
        self.failures = self.failures.saturating_add(1);
        Fault
    }
}

impl Source for Mem {
    ghost told = { λ _. true };

    ghost unread = { λ m. drop m.place m.bytes };

    ghost failures = { λ m. m.failures };

    fn read(&mut self, buffer: &mut [u8]) -> Result<usize, Fault>
        ensures unread { drop self.old.place self.old.bytes ≡ moved result buffer.new ++ drop self.new.place self.new.bytes }
        ensures within { IfOk result (λ count. count ≤ length buffer.old) }
        ensures end { IfOk result (λ count. count ≡ 0 → 0 < length buffer.old → drop self.old.place self.old.bytes ≡ []) }
        ensures failures { self.new.failures ≡ after_read result self.old.failures }
        ensures counted { self.new.until_failure ≡ after_call self.old.until_failure }
        ensures fails { IsTrue (fails_first self.old.until_failure) → IsErr result }
        ensures most { IfOk result (λ count. count ≤ self.old.most) }
    {
        if self.fails_now() {
            return Err(self.fail());
        }
        let left = self.bytes.len() - self.place;
        let count = left.min(buffer.len()).min(self.most);
        if count == 0 && left > 0 && !buffer.is_empty() {
            return Err(self.fail());
        }
        let end = self.place + count;
        buffer[..count].copy_from_slice(&self.bytes[self.place..end]);
        self.place = end;
        Ok(count)
    }

    fn tells(&self) -> bool {
        true
    }
}

impl Sink for Mem {
    ghost told = { λ _. true };

    ghost written = { λ m. m.bytes };

    ghost failures = { λ m. m.failures };

    /// Want of memory is a failure like any other.
    fn write(&mut self, piece: &[u8]) -> Result<usize, Fault>
        ensures within { IfOk result (λ count. count ≤ length piece.now) }
        ensures written { self.new.bytes ≡ self.old.bytes ++ moved result piece.now }
        ensures failures { self.new.failures ≡ after_write result piece.now self.old.failures }
        ensures counted { self.new.until_failure ≡ after_call self.old.until_failure }
        ensures fails { IsTrue (fails_first self.old.until_failure) → IsErr result }
        ensures most { IfOk result (λ count. count ≤ self.old.most) }
    {
        if self.fails_now() {
            return Err(self.fail());
        }
        let count = piece.len().min(self.most);
        if count == 0 && !piece.is_empty() {
            self.failures = self.failures.saturating_add(1);
            return Ok(0);
        }
        match self.bytes.extend_from_slice(&piece[..count]) {
            Ok(()) => Ok(count),
            Err(_) => Err(self.fail()),
        }
    }

    fn tells(&self) -> bool {
        true
    }
}
