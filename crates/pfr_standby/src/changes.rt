//! What messages change of the states that are held.
ghost use Rattle.std.specs.Prelude.{◌≡◌, false, fold, OnOk, OnErr};
ghost use Rattle.pfr_standby.specs.Bound as bound;
ghost use Rattle.pfr_standby.specs.Standby as spec;

use crate::kept::Kept;
use pfr_messages::{Deletion, Insertion, Update};
use pfr_track::StateNumber;
use std::alloc::AllocError;
use std::collections::BTreeMap;

/// Removes the state of a number, if there is one. Takes no memory.
fn remove(states: &mut BTreeMap<u64, Kept>, number: StateNumber)
    ensures { states.new.entries ≡ spec.without states.old.entries number.0 }
{
    states.remove(&number.0);
}

/// Removes states that were inserted.
fn remove_inserted(states: &mut BTreeMap<u64, Kept>, insertions: &[Insertion])
    ensures { states.new.entries ≡ fold (λ standing r. spec.without standing r.number.0) states.old.entries insertions.now }
{
    for insertion in insertions {
        remove(states, insertion.number);
    }
}

/// Adds states, of which none is held. If memory is refused, the states are as before.
pub(crate) fn insert_all(
    states: &mut BTreeMap<u64, Kept>,
    insertions: &[Insertion],
) -> Result<(), AllocError>
    requires { spec.some_is_held insertions.now states.old.entries ≡ false }
    ensures added { OnOk result (states.new.entries ≡ fold spec.with_insertion states.old.entries insertions.now) }
    ensures kept { OnErr result (states.new.entries ≡ states.old.entries) }
{
    for (count, insertion) in insertions.iter().enumerate() {
        match states.insert(insertion.number.0, Kept::of(insertion)) {
            Ok(_) => {}
            Err(_) => {
                remove_inserted(states, &insertions[..count]);
                return Err(AllocError);
            }
        }
    }
    Ok(())
}

/// The greatest of a number and the numbers of insertions.
pub(crate) fn greatest_of(number: u64, insertions: &[Insertion]) -> u64
    ensures { result ≡ bound.greatest_of number insertions.now }
{
    let mut greatest = number;
    for insertion in insertions {
        greatest = greatest.max(insertion.number.0);
    }
    greatest
}

/// Moves the state of an update on, if it is held.
fn move_on(states: &mut BTreeMap<u64, Kept>, update: &Update)
    ensures { states.new.entries ≡ spec.with_update states.old.entries update.now }
{
    if let Some(kept) = states.get_mut(&update.number.0) {
        *kept = kept.moved_by(update);
    }
}

/// Moves the states of updates on.
pub(crate) fn update_all(states: &mut BTreeMap<u64, Kept>, updates: &[Update])
    ensures { states.new.entries ≡ fold spec.with_update states.old.entries updates.now }
{
    for update in updates {
        move_on(states, update);
    }
}

/// Removes the states of deletions.
pub(crate) fn delete_all(states: &mut BTreeMap<u64, Kept>, deletions: &[Deletion])
    ensures { states.new.entries ≡ fold spec.without_deletion states.old.entries deletions.now }
{
    for deletion in deletions {
        remove(states, deletion.number);
    }
}
