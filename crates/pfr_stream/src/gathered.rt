//! Lines on their way to a sink.
ghost use Rattle.std.specs.Prelude.{◌≡◌, ◌≤◌, ◌+◌, ◌++◌, [], length, IsTrue, IfOk, OnOk, OnErr};
ghost use Rattle.pfr_capture.specs.Device.{Rose};
ghost use Rattle.pfr_stream.specs.Writing.{Appends, Breaks};

use crate::held::room;
use pfr_capture::{Fault, Sink, write_all};
use std::alloc::{AllocError, Global};
use std::marker::Model;

/// How many bytes are gathered at most.
const ROOM: usize = 4096;

/// Bytes that are gathered for a sink, so that it isn't called for each line. Contracts see the bytes that it doesn't have yet.
#[derive(Drop)]
pub(crate) struct Gathered {
    buffer: Vec<u8>,
    /// Where they end. What is behind them is room.
    end: usize,
}

impl Model for Gathered {
    ghost use Rattle.std.specs.Prelude.{◌≡◌, ◌≤◌, List, ℕ, length, take};

    ghost Value = { List ℕ };

    ghost view = { λ g. take g.end g.buffer.items };

    ghost invariant = { λ g. (g.end ≤ length g.buffer.items) × (length g.buffer.items ≡ 4096) };
}

impl Gathered {
    /// No bytes yet, with room for all that are gathered at a time.
    pub(crate) fn new(alloc: Global) -> Result<Gathered, AllocError>
        ensures { IfOk result (λ gathered. gathered ≡ []) }
    {
        Ok(Gathered {
            buffer: room(alloc, ROOM)?,
            end: 0,
        })
    }

    /// How many bytes there is room for.
    fn left(&self) -> usize
        ensures { length self.now + result ≡ 4096 }
    {
        ROOM - self.end
    }

    /// Puts bytes behind those that are there.
    fn put(&mut self, piece: &[u8])
        requires { length self.old + length piece.now ≤ 4096 }
        ensures { self.new ≡ self.old ++ piece.now }
    {
        let end = self.end + piece.len();
        self.buffer[self.end..end].copy_from_slice(piece);
        self.end = end;
    }

    /// Writes what is gathered.
    pub(crate) fn write<S: Sink>(&mut self, sink: &mut S) -> Result<(), Fault>
        ensures told { S.told sink.new ≡ S.told sink.old }
        ensures empty { OnOk result (self.new ≡ []) }
        ensures written { OnOk result (IsTrue (S.told sink.old) → Appends [] self.old [] (S.written sink.old) (S.written sink.new)) }
        ensures part { OnErr result (IsTrue (S.told sink.old) → Breaks [] self.old (S.written sink.old) (S.written sink.new)) }
        ensures ok { OnOk result (S.failures sink.new ≡ S.failures sink.old) }
        ensures failed { OnErr result (Rose (S.failures sink.old) (S.failures sink.new)) }
    {
        write_all(sink, &self.buffer[..self.end])?;
        self.end = 0;
        Ok(())
    }

    /// Appends bytes to those on their way. If there is no room, what is gathered is written before.
    pub(crate) fn append<S: Sink>(&mut self, piece: &[u8], sink: &mut S) -> Result<(), Fault>
        requires { length piece.now ≤ 4096 }
        ensures told { S.told sink.new ≡ S.told sink.old }
        ensures appended { OnOk result (IsTrue (S.told sink.old) → Appends piece.now self.old self.new (S.written sink.old) (S.written sink.new)) }
        ensures part { OnErr result (IsTrue (S.told sink.old) → Breaks piece.now self.old (S.written sink.old) (S.written sink.new)) }
        ensures ok { OnOk result (S.failures sink.new ≡ S.failures sink.old) }
        ensures failed { OnErr result (Rose (S.failures sink.old) (S.failures sink.new)) }
    {
        if self.left() < piece.len() {
            self.write(sink)?;
        }
        self.put(piece);
        Ok(())
    }
}
