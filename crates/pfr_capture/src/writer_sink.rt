//! A sink over one of std's writers. It doesn't tell its bytes: nothing can promise what a file, a socket
//! or a terminal holds. It hands on what it is given, and counts its failures.
ghost use Rattle.std.specs.Prelude.{◌≡◌, ◌≤◌, false, [], length, IfOk};
ghost use Rattle.std.specs.Io.KnownBytes.{WriteAppends};
ghost use Rattle.pfr_capture.specs.Device.{after_write};

use crate::device::{Fault, Sink};
use std::io::Write;

/// A sink that writes to a writer.
#[derive(Drop)]
pub struct WriterSink<W: Write + Drop> {
    writer: W,
    failures: u64,
}

impl<W: Write + Drop> WriterSink<W> {
    pub fn new(writer: W) -> WriterSink<W>
        ensures { ⟦<WriterSink<W> as Sink>⟧.failures result ≡ 0 }
    {
        WriterSink {
            writer,
            failures: 0,
        }
    }
}

impl<W: Write + Drop> Sink for WriterSink<W> {
    ghost told = { λ _. false };

    ghost written = { λ _. [] };

    ghost failures = { λ s. s.failures };

    fn write(&mut self, piece: &[u8]) -> Result<usize, Fault>
        ensures within { IfOk result (λ count. count ≤ length piece.now) }
        ensures failures { self.new.failures ≡ after_write result piece.now self.old.failures }
        ensures passes_on { WriteAppends (W.contents self.old.writer) (W.contents self.new.writer) result piece.now }
    {
        match self.writer.write(piece) {
            Ok(0) if !piece.is_empty() => {
                self.failures = self.failures.saturating_add(1);
                Ok(0)
            }
            Ok(count) => Ok(count),
            Err(_) => {
                self.failures = self.failures.saturating_add(1);
                Err(Fault)
            }
        }
    }

    fn tells(&self) -> bool {
        false
    }
}
