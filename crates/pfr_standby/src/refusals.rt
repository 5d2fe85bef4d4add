//! Why a standby refuses a message.
ghost use Rattle.std.specs.Prelude.{◌≡◌};
ghost use Rattle.pfr_standby.specs.Standby as spec;

use crate::standby::Standby;
use pfr_messages::{Insertion, Message};
use pfr_track::StateNumber;

/// Whether a message inserts a state of the number. A message has at most six insertions.
fn inserts(message: &Message, number: StateNumber) -> bool
    ensures { result ≡ spec.inserts message.now number.0 }
{
    message
        .insertions()
        .iter()
        .any(|insertion| insertion.number.0 == number.0)
}

/// Whether the state of a number is held, or a message inserts it.
fn is_known(standby: &Standby, message: &Message, number: StateNumber) -> bool
    ensures { result ≡ spec.is_known message.now standby.now number.0 }
{
    standby.holds(number) || inserts(message, number)
}

/// Whether a state is held that is to be inserted.
pub(crate) fn some_is_held(standby: &Standby, insertions: &[Insertion]) -> bool
    ensures { result ≡ spec.some_is_held insertions.now standby.now }
{
    insertions
        .iter()
        .any(|insertion| standby.holds(insertion.number))
}

/// Whether a message updates a state that is neither held nor inserted by it.
pub(crate) fn updates_unknown(standby: &Standby, message: &Message) -> bool
    ensures { result ≡ spec.updates_unknown message.now standby.now }
{
    message
        .updates()
        .iter()
        .any(|update| !is_known(standby, message, update.number))
}

/// Whether a message deletes a state that is neither held nor inserted by it.
pub(crate) fn deletes_unknown(standby: &Standby, message: &Message) -> bool
    ensures { result ≡ spec.deletes_unknown message.now standby.now }
{
    message
        .deletions()
        .iter()
        .any(|deletion| !is_known(standby, message, deletion.number))
}
