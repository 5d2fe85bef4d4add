//! A whole piece into a sink.
ghost use Rattle.std.specs.Prelude.{◌≡◌, ◌++◌, IsTrue, OnOk, OnErr};
ghost use Rattle.pfr_capture.specs.Device.{Rose, GrewByBeginning, GrewByPart};

use crate::device::{Fault, Sink};

/// Writes the whole piece: one call as long as the sink takes all that it is offered, and none for an
/// empty piece. On a fault the sink has taken a beginning that lacks at least the last byte.
pub fn write_all<S: Sink>(sink: &mut S, piece: &[u8]) -> Result<(), Fault>
    ensures told { S.told sink.new ≡ S.told sink.old }
    ensures whole { OnOk result (IsTrue (S.told sink.old) → S.written sink.new ≡ S.written sink.old ++ piece.now) }
    ensures part { OnErr result (IsTrue (S.told sink.old) → GrewByPart (S.written sink.old) (S.written sink.new) piece.now) }
    ensures beginning { IsTrue (S.told sink.old) → GrewByBeginning (S.written sink.old) (S.written sink.new) piece.now }
    ensures no_failure { OnOk result (S.failures sink.new ≡ S.failures sink.old) }
    ensures failure { OnErr result (Rose (S.failures sink.old) (S.failures sink.new)) }
{
    let mut rest = piece;
    while !rest.is_empty() {
        let taken = sink.write(rest)?;
        if taken == 0 {
            return Err(Fault);
        }
        rest = rest.split_at(taken).1;
    }
    Ok(())
}
