//! A source over one of std's readers. It doesn't tell its bytes: nothing can promise what a file, a socket
//! or a terminal gives. It hands on what the reader gave, and counts its failures.
ghost use Rattle.std.specs.Prelude.{◌≡◌, ◌≤◌, false, [], length, IfOk};
ghost use Rattle.std.specs.Io.KnownBytes.{ReadConsumes};
ghost use Rattle.pfr_capture.specs.Device.{after_read};

use crate::device::{Fault, Source};
use std::io::Read;

/// A source that reads from a reader.
#[derive(Drop)]
pub struct ReaderSource<R: Read + Drop> {
    reader: R,
    failures: u64,
}

impl<R: Read + Drop> ReaderSource<R> {
    pub fn new(reader: R) -> ReaderSource<R>
        ensures { ⟦<ReaderSource<R> as Source>⟧.failures result ≡ 0 }
    {
        ReaderSource {
            reader,
            failures: 0,
        }
    }
}

impl<R: Read + Drop> Source for ReaderSource<R> {
    ghost told = { λ _. false };

    ghost unread = { λ _. [] };

    ghost failures = { λ s. s.failures };

    fn read(&mut self, buffer: &mut [u8]) -> Result<usize, Fault>
        ensures within { IfOk result (λ count. count ≤ length buffer.old) }
        ensures failures { self.new.failures ≡ after_read result self.old.failures }
        ensures passes_on { ReadConsumes (R.remaining self.old.reader) (R.remaining self.new.reader) result buffer.new }
    {
        match self.reader.read(buffer) {
            Ok(count) => Ok(count),
            Err(_) => {
                self.failures = self.failures.saturating_add(1);
                Err(Fault)
            }
        }
    }

    fn tells(&self) -> bool {
        false
    }
}
