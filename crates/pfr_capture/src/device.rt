//! Where bytes come from and go to.
ghost use Rattle.std.specs.Prelude.{◌≡◌, ◌≤◌, ◌<◌, ◌++◌, List, ℕ, Bool, [], length, IsTrue, IfOk};
ghost use Rattle.pfr_capture.specs.Device.{moved, after_read, after_write};

use thiserror::Error;

/// A device failed to read or write. It says no more: the caller knows which device it was.
#[derive(Clone, Copy, Debug, Error)]
#[error("the device failed")]
pub struct Fault;

/// What takes bytes.
///
/// `written` is what it has taken so far, if it tells (see [`Sink::tells`]), and `failures` counts
/// the calls that failed; a count at its last value stays there.
pub trait Sink {
    ghost told: { Self → Bool };

    ghost written: { Self → List ℕ };

    ghost failures: { Self → ℕ };

    /// Takes bytes from the front of the piece and answers how many. A fault takes none. Both a fault and
    /// an answer of 0 for a piece that isn't empty count as a failure.
    fn write(&mut self, piece: &[u8]) -> Result<usize, Fault>
        ensures within { IfOk result (λ count. count ≤ length piece.now) }
        ensures told { told self.new ≡ told self.old }
        ensures written { IsTrue (told self.old) → written self.new ≡ written self.old ++ moved result piece.now }
        ensures failures { failures self.new ≡ after_write result piece.now (failures self.old) };

    /// Whether contracts speak of its bytes: a sink in memory tells, a file or a socket does not, since
    /// nothing can promise what it holds.
    fn tells(&self) -> bool
        ensures { result ≡ told self.now };
}

/// What gives bytes.
///
/// `unread` is what it has still to give, if it tells, and `failures` counts the calls that failed;
/// a count at its last value stays there.
pub trait Source {
    ghost told: { Self → Bool };

    ghost unread: { Self → List ℕ };

    ghost failures: { Self → ℕ };

    /// Puts the next bytes at the front of the buffer and answers how many. An answer of 0 for a buffer
    /// that isn't empty is the end of its bytes. A fault gives none, and counts as a failure.
    fn read(&mut self, buffer: &mut [u8]) -> Result<usize, Fault>
        ensures within { IfOk result (λ count. count ≤ length buffer.old) }
        ensures told { told self.new ≡ told self.old }
        ensures unread { IsTrue (told self.old) → unread self.old ≡ moved result buffer.new ++ unread self.new }
        ensures end { IfOk result (λ count. count ≡ 0 → IsTrue (told self.old) → 0 < length buffer.old → unread self.old ≡ []) }
        ensures failures { failures self.new ≡ after_read result (failures self.old) };

    /// Whether contracts speak of its bytes, as for a [`Sink`].
    fn tells(&self) -> bool
        ensures { result ≡ told self.now };
}
