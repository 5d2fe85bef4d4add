//! Going through all places under a hash.
ghost use Rattle.pfr_index.specs.Folds as spec;
ghost use Rattle.pfr_index.specs.Slots.{AreReached, entries_of};
ghost use Rattle.pfr_index.specs.Index.{times_in};

use crate::hash::Hash;
use crate::slot::{Slot, home};
use pfr_places::Place;

/// Goes through the places under a hash in slots, up to the first free one. Says whether there was a free one.
fn fold<B, F: Fn(B, Place) -> B>(slots: &[Slot], hash: Hash, start: B, step: &F) -> (B, bool)
    requires { F.IsAlwaysCallable step.now }
    ensures { spec.GoesThrough (λ before place after. F.post step.now before place after) start hash slots.now result.0 result.1 }
{
    let mut last = start;
    for slot in slots {
        if slot.is_free() {
            return (last, true);
        }
        if slot.is_under(hash) {
            last = step(last, slot.place);
        }
    }
    (last, false)
}

/// Goes through the places under a hash, from its home on to the end, and then from the start to the home. A free slot
/// ends it.
pub(crate) fn fold_under<B, F: Fn(B, Place) -> B>(
    slots: &[Slot],
    hash: Hash,
    start: B,
    step: &F,
) -> B
    requires callable { F.IsAlwaysCallable step.now }
    requires reached { AreReached slots.now }
    ensures { spec.FoldsUnder (λ before place after. F.post step.now before place after) start hash (times_in (entries_of slots.now)) result }
{
    let home = home(hash, slots.len());
    let (first, was_free) = fold(&slots[home..], hash, start, step);
    if was_free {
        return first;
    }
    let (last, _) = fold(&slots[..home], hash, first, step);
    last
}
