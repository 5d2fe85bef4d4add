//! The search for a place under a hash.
ghost use Rattle.std.specs.Prelude.{IfSome, IfNone};
ghost use Rattle.pfr_index.specs.Searches as spec;
ghost use Rattle.pfr_index.specs.Slots.{AreReached};

use crate::hash::Hash;
use crate::slot::{Slot, home};
use pfr_places::Place;

/// What a search of some slots finds.
pub(crate) enum Outcome {
    /// A place for which the test answered true.
    At(Place),
    /// A free slot; the place doesn't stand behind it.
    Nowhere,
    /// The end of the slots.
    NotYet,
}

/// Searches slots, up to the first free one, for a place under a hash for which a test answers true.
// A call would keep the test, and what it looks at, in memory.
#[inline(always)]
fn search<F: Fn(Place) -> bool>(slots: &[Slot], hash: Hash, is_it: &F) -> Outcome
    requires { F.IsAlwaysCallable is_it.now }
    ensures { spec.ComesTo (F.post is_it.now) hash slots.now result }
{
    for slot in slots {
        if slot.is_free() {
            return Outcome::Nowhere;
        }
        if slot.is_under(hash) && is_it(slot.place) {
            return Outcome::At(slot.place);
        }
    }
    Outcome::NotYet
}

/// A place under a hash for which a test answers true, or None if there is no such place.
#[inline(always)]
pub(crate) fn find<F: Fn(Place) -> bool>(slots: &[Slot], hash: Hash, is_it: &F) -> Option<Place>
    requires callable { F.IsAlwaysCallable is_it.now }
    requires reached { AreReached slots.now }
    ensures some { IfSome result (λ place. spec.IsFound (F.post is_it.now) hash slots.now place) }
    ensures none { IfNone result (spec.IsNone (F.post is_it.now) hash slots.now) }
{
    let home = home(hash, slots.len());
    match search(&slots[home..], hash, is_it) {
        Outcome::At(place) => Some(place),
        Outcome::Nowhere => None,
        Outcome::NotYet => match search(&slots[..home], hash, is_it) {
            Outcome::At(place) => Some(place),
            Outcome::Nowhere => None,
            Outcome::NotYet => None,
        },
    }
}
