//! Bytes that are read ahead of a source, in pieces.
ghost use Rattle.std.specs.Prelude.{◌≡◌, ◌≤◌, ◌<◌, ◌+◌, ◌-◌, true, false, [], length, take, drop, IsTrue, IfOk, OnOk, OnErr, IfErr};
ghost use Rattle.pfr_capture.specs.Ahead.{CameBehind, Extends, FailsBy};
ghost use Rattle.pfr_capture.specs.Device.{Rose, moved};
ghost use Rattle.pfr_capture.specs.declared.capture.CaptureError.TheVariants.{Read};

use crate::capture::CaptureError;
use crate::device::Source;
use std::alloc::{AllocError, Global};
use std::marker::Model;

/// How many bytes one call requests from the source, and the most by which the buffer grows before they come.
const PIECE: usize = 65536;

/// The bytes that came from a source and were not taken yet. Behind them the buffer has room for the next
/// piece. The room is cleared as the buffer grows, not before each read.
#[derive(Drop)]
pub struct Pieces {
    buffer: Vec<u8>,
    /// Where in the buffer they begin.
    start: usize,
    /// Where they end.
    end: usize,
    /// Whether the last read brought less than it asked for.
    came_short: bool,
    /// How many bytes were taken so far, modulo 2^64.
    taken: usize,
}

impl Model for Pieces {
    ghost use Rattle.std.specs.Prelude.{◌≤◌, List, ℕ, length, drop, take};

    ghost Value = { List ℕ };

    ghost view = { λ p. drop p.start (take p.end p.buffer.items) };

    ghost invariant = { λ p. (p.start ≤ p.end) × (p.end ≤ length p.buffer.items) };
}

impl Pieces {
    pub fn new(alloc: Global) -> Pieces
        ensures { result ≡ [] }
    {
        Pieces {
            buffer: Vec::new(alloc),
            start: 0,
            end: 0,
            came_short: false,
            taken: 0,
        }
    }

    /// Whether `bytes` bytes may not be there yet: fewer are held, and the last read brought less than it asked for.
    pub fn may_lack(&self, bytes: usize) -> bool {
        self.came_short && self.bytes().len() < bytes
    }

    /// How many bytes were taken so far, modulo 2^64.
    pub fn taken(&self) -> usize {
        self.taken
    }

    #[inline]
    #[tactic(auto, using(std::proofs::lemmas::Slice::between_is))]
    pub fn bytes(&self) -> &[u8]
        ensures { result.now ≡ self.now }
    {
        &self.buffer[self.start..self.end]
    }

    /// Takes bytes from the front.
    #[inline]
    pub fn take(&mut self, count: usize)
        requires { count ≤ length self.old }
        ensures { self.new ≡ drop count self.old }
    {
        self.start += count;
        self.taken = self.taken.wrapping_add(count);
    }

    /// Reads one more piece, behind what is there, and answers whether any byte came: none does at the
    /// source's end. An error changes nothing. It is called once for many records, and isn't inlined, so that
    /// a call to `fill` that finds its bytes there is quick.
    #[inline(never)]
    pub fn read_on<S: Source>(&mut self, source: &mut S) -> Result<bool, CaptureError>
        ensures told { S.told source.new ≡ S.told source.old }
        ensures extends { Extends self.old self.new }
        ensures came { IsTrue (S.told source.old) → CameBehind self.old self.new (S.unread source.old) (S.unread source.new) }
        ensures more { IfOk result (λ more. more ≡ true → length self.old < length self.new) }
        ensures end { IfOk result (λ more. more ≡ false → (length self.new ≡ length self.old) × (IsTrue (S.told source.old) → S.unread source.new ≡ [])) }
        ensures err { OnErr result (self.new ≡ self.old) }
        ensures ok { OnOk result (S.failures source.new ≡ S.failures source.old) }
        ensures failed { IfErr result (λ e. FailsBy e (S.failures source.old) (S.failures source.new)) }
    {
        move_to_front(&mut self.buffer, self.start, self.end);
        self.end -= self.start;
        self.start = 0;
        make_room(&mut self.buffer, self.end)?;
        let came = read_behind(&mut self.buffer, self.end, source)?;
        self.end += came;
        self.came_short = came < PIECE;
        Ok(came > 0)
    }

    /// Reads on until `wanted` bytes are there, and answers whether they are: they aren't if the source
    /// ended.
    #[inline]
    pub fn fill<S: Source>(&mut self, source: &mut S, wanted: usize) -> Result<bool, CaptureError>
        ensures told { S.told source.new ≡ S.told source.old }
        ensures extends { Extends self.old self.new }
        ensures came { IsTrue (S.told source.old) → CameBehind self.old self.new (S.unread source.old) (S.unread source.new) }
        ensures filled { IfOk result (λ filled. filled ≡ true → wanted ≤ length self.new) }
        ensures end { IfOk result (λ filled. filled ≡ false → (length self.new < wanted) × (IsTrue (S.told source.old) → S.unread source.new ≡ [])) }
        ensures ok { OnOk result (S.failures source.new ≡ S.failures source.old) }
        ensures early { OnErr result (length self.new < wanted) }
        ensures failed { IfErr result (λ e. FailsBy e (S.failures source.old) (S.failures source.new)) }
    {
        while self.bytes().len() < wanted {
            if !self.read_on(source)? {
                return Ok(false);
            }
        }
        Ok(true)
    }
}

/// Moves what stands between two places to the front.
fn move_to_front(buffer: &mut Vec<u8>, start: usize, end: usize)
    requires { (start ≤ end) × (end ≤ length buffer.old.items) }
    ensures length { length buffer.new.items ≡ length buffer.old.items }
    ensures moved { take (end - start) buffer.new.items ≡ drop start (take end buffer.old.items) }
{
    if start == 0 {
        return;
    }
    buffer.copy_within(start..end, 0);
}

/// Makes room for a piece behind the first `held` bytes, which stay.
fn make_room(buffer: &mut Vec<u8>, held: usize) -> Result<(), AllocError>
    requires { held ≤ length buffer.old.items }
    ensures held { take held buffer.new.items ≡ take held buffer.old.items }
    ensures longer { length buffer.old.items ≤ length buffer.new.items }
    ensures room { OnOk result (held + 65536 ≤ length buffer.new.items) }
{
    if buffer.len() - held < PIECE {
        buffer.resize(held + PIECE, 0)?;
    }
    Ok(())
}

/// Reads one piece behind the first `held` bytes, which stay, and answers how many bytes came.
fn read_behind<S: Source>(
    buffer: &mut Vec<u8>,
    held: usize,
    source: &mut S,
) -> Result<usize, CaptureError>
    requires { held + 65536 ≤ length buffer.old.items }
    ensures told { S.told source.new ≡ S.told source.old }
    ensures length { length buffer.new.items ≡ length buffer.old.items }
    ensures within { IfOk result (λ came. held + came ≤ length buffer.new.items) }
    ensures extends { IfOk result (λ came. Extends (take held buffer.old.items) (take (held + came) buffer.new.items)) }
    ensures came { IfOk result (λ came. IsTrue (S.told source.old) → CameBehind (take held buffer.old.items) (take (held + came) buffer.new.items) (S.unread source.old) (S.unread source.new)) }
    ensures end { IfOk result (λ came. came ≡ 0 → IsTrue (S.told source.old) → S.unread source.new ≡ []) }
    ensures kept { OnErr result (take held buffer.new.items ≡ take held buffer.old.items) }
    ensures none { OnErr result (IsTrue (S.told source.old) → S.unread source.new ≡ S.unread source.old) }
    ensures ok { OnOk result (S.failures source.new ≡ S.failures source.old) }
    ensures failed { IfErr result (λ e. (e ≡ Read) × Rose (S.failures source.old) (S.failures source.new)) }
{
    match source.read(&mut buffer[held..held + PIECE]) {
        Ok(came) => Ok(came),
        Err(_) => Err(CaptureError::Read),
    }
}
