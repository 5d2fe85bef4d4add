//! Bytes that came from a source and weren't taken yet.
ghost use Rattle.std.specs.Prelude.{◌≡◌, ◌≤◌, ◌<◌, ◌+◌, ◌-◌, ◌++◌, true, false, [], length, take, drop, IsTrue, IfOk, OnOk, OnErr};
ghost use Rattle.pfr_capture.specs.Ahead.{CameBehind};
ghost use Rattle.pfr_capture.specs.Device.{Rose, moved};

use pfr_capture::{Fault, Source};
use std::alloc::{AllocError, Global};
use std::marker::Model;

/// How many bytes are held at most.
const ROOM: usize = 4096;

/// Bytes that came from a source and weren't taken yet. Contracts see those bytes.
#[derive(Drop)]
pub(crate) struct Held {
    buffer: Vec<u8>,
    /// Where in the buffer they begin.
    start: usize,
    /// Where they end. What is behind them is room.
    end: usize,
}

impl Model for Held {
    ghost use Rattle.std.specs.Prelude.{◌≡◌, ◌≤◌, List, ℕ, length, drop, take};

    ghost Value = { List ℕ };

    ghost view = { λ h. drop h.start (take h.end h.buffer.items) };

    ghost invariant = { λ h. (h.start ≤ h.end) × (h.end ≤ length h.buffer.items) × (length h.buffer.items ≡ 4096) };
}

impl Held {
    /// No bytes yet, with room for all that will be held.
    pub(crate) fn new(alloc: Global) -> Result<Held, AllocError>
        ensures { IfOk result (λ held. held ≡ []) }
    {
        Ok(Held {
            buffer: room(alloc, ROOM)?,
            start: 0,
            end: 0,
        })
    }

    #[tactic(auto, using(std::proofs::lemmas::Slice::between_is))]
    pub(crate) fn bytes(&self) -> &[u8]
        ensures bytes { result.now ≡ self.now }
        ensures within { length self.now ≤ 4096 }
    {
        &self.buffer[self.start..self.end]
    }

    /// Takes bytes from the front.
    pub(crate) fn take(&mut self, count: usize)
        requires { count ≤ length self.old }
        ensures { self.new ≡ drop count self.old }
    {
        self.start += count;
    }

    /// Reads once into the room behind the bytes that are held, and answers whether any came: none does at the source's end.
    pub(crate) fn read_on<R: Source>(&mut self, source: &mut R) -> Result<bool, Fault>
        requires { length self.old < 4096 }
        ensures told { R.told source.new ≡ R.told source.old }
        ensures came { IsTrue (R.told source.old) → CameBehind self.old self.new (R.unread source.old) (R.unread source.new) }
        ensures within { length self.new ≤ 4096 }
        ensures more { IfOk result (λ more. more ≡ true → length self.old < length self.new) }
        ensures none { IfOk result (λ more. more ≡ false → self.new ≡ self.old) }
        ensures end { IfOk result (λ more. more ≡ false → IsTrue (R.told source.old) → R.unread source.new ≡ []) }
        ensures same { OnErr result (self.new ≡ self.old) }
        ensures ok { OnOk result (R.failures source.new ≡ R.failures source.old) }
        ensures failed { OnErr result (Rose (R.failures source.old) (R.failures source.new)) }
    {
        move_to_front(&mut self.buffer, self.start, self.end);
        self.end -= self.start;
        self.start = 0;
        let came = read_behind(&mut self.buffer, self.end, source)?;
        self.end += came;
        Ok(came > 0)
    }
}

/// A buffer of `count` bytes.
pub(crate) fn room(alloc: Global, count: usize) -> Result<Vec<u8>, AllocError>
    ensures { IfOk result (λ buffer. length buffer.items ≡ count) }
{
    let mut buffer = Vec::new(alloc);
    buffer.resize(count, 0)?;
    Ok(buffer)
}

/// Moves what stands between two places to the front.
fn move_to_front(buffer: &mut Vec<u8>, start: usize, end: usize)
    requires { (start ≤ end) × (end ≤ length buffer.old.items) }
    ensures length { length buffer.new.items ≡ length buffer.old.items }
    ensures moved { take (end - start) buffer.new.items ≡ drop start (take end buffer.old.items) }
{
    if start == 0 {
        return;
    }
    buffer.copy_within(start..end, 0);
}

/// Reads once behind the first `held` bytes, which stay, and answers how many came.
fn read_behind<R: Source>(buffer: &mut Vec<u8>, held: usize, source: &mut R) -> Result<usize, Fault>
    requires { held < length buffer.old.items }
    ensures told { R.told source.new ≡ R.told source.old }
    ensures length { length buffer.new.items ≡ length buffer.old.items }
    ensures within { IfOk result (λ came. held + came ≤ length buffer.new.items) }
    ensures stay { take held buffer.new.items ≡ take held buffer.old.items }
    ensures came { IsTrue (R.told source.old) → R.unread source.old ≡ moved result (drop held buffer.new.items) ++ R.unread source.new }
    ensures end { IfOk result (λ came. came ≡ 0 → IsTrue (R.told source.old) → R.unread source.old ≡ []) }
    ensures ok { OnOk result (R.failures source.new ≡ R.failures source.old) }
    ensures failed { OnErr result (Rose (R.failures source.old) (R.failures source.new)) }
{
    source.read(&mut buffer[held..])
}
