//! Slots, in each of which a place may stand under a hash.
ghost use Rattle.std.specs.Prelude.{◌≡◌, ◌≤◌, ◌<◌, true, false, length, IfSome};
ghost use Rattle.std.specs.List.{position, count_by};
ghost use Rattle.pfr_index.specs.Slots as spec;

use crate::hash::Hash;
use pfr_places::Place;

/// Marks a slot in which nothing stood so far: a search ends there.
const FREE: u32 = u32::MAX;

/// Marks a slot in which something stood and left: a search goes on.
const LEFT: u32 = u32::MAX - 1;

/// A place under a hash, or none.
#[derive(Clone, Copy)]
pub(crate) struct Slot {
    pub(crate) hash: Hash,
    pub(crate) place: Place,
}

impl Slot {
    /// A slot in which nothing stood so far.
    pub(crate) fn free() -> Slot
        ensures free { spec.is_free result ≡ true }
        ensures unheld { spec.is_held result ≡ false }
    {
        Slot {
            hash: Hash(0),
            place: Place(FREE),
        }
    }

    /// A slot that something left.
    pub(crate) fn left() -> Slot
        ensures free { spec.is_free result ≡ false }
        ensures unheld { spec.is_held result ≡ false }
    {
        Slot {
            hash: Hash(0),
            place: Place(LEFT),
        }
    }

    /// Whether nothing stood in it so far.
    #[inline]
    pub(crate) fn is_free(&self) -> bool
        ensures { result ≡ spec.is_free self.now }
    {
        self.place.0 == FREE
    }

    /// Whether a place stands in it.
    #[inline]
    pub(crate) fn is_held(&self) -> bool
        ensures { result ≡ spec.is_held self.now }
    {
        self.place.0 < LEFT
    }

    /// Whether a place stands in it under a hash.
    #[inline]
    pub(crate) fn is_under(&self, hash: Hash) -> bool
        ensures { result ≡ spec.is_under hash self.now }
    {
        self.hash.0 == hash.0 && self.is_held()
    }

    /// Whether a given entry stands in it; the entry is given as the slot that holds it.
    pub(crate) fn holds(&self, entry: &Slot) -> bool
        ensures { result ≡ spec.holds (spec.entry_of entry.now) self.now }
    {
        self.is_held() && self.hash.0 == entry.hash.0 && self.place.0 == entry.place.0
    }
}

/// The slot where a search for a hash begins, among `count` slots. It rises with the hash: if slots are gone through in
/// order, they are put elsewhere nearly in order.
#[inline]
#[tactic(auto, unfolding(crate::specs::Slots::home_of))]
pub(crate) fn home(hash: Hash, count: usize) -> usize
    ensures is { result ≡ spec.home_of hash count }
    ensures within { result ≤ count }
{
    let scaled = u64::from(hash.0).wrapping_mul(count as u64) >> 32;
    (scaled as usize).min(count)
}

/// The first slot that isn't held.
fn first_unheld_in(slots: &[Slot]) -> Option<usize>
    ensures is { result ≡ position spec.is_unheld slots.now }
    ensures within { IfSome result (λ index. index < length slots.now) }
{
    slots.iter().position(|slot| !slot.is_held())
}

/// The first slot that isn't held, in the order from a home on.
#[tactic(auto, unfolding(crate::specs::Slots::first_from))]
fn first_unheld(slots: &[Slot], home: usize) -> Option<usize>
    requires { home ≤ length slots.now }
    ensures is { result ≡ spec.first_from spec.is_unheld slots.now home }
    ensures within { IfSome result (λ index. index < length slots.now) }
{
    match first_unheld_in(&slots[home..]) {
        Some(index) => Some(home + index),
        None => first_unheld_in(&slots[..home]),
    }
}

/// The first slot that is free or holds an entry.
fn first_end_in(slots: &[Slot], entry: &Slot) -> Option<usize>
    ensures is { result ≡ position (spec.ends (spec.entry_of entry.now)) slots.now }
    ensures within { IfSome result (λ index. index < length slots.now) }
{
    slots
        .iter()
        .position(|slot| slot.is_free() || slot.holds(entry))
}

/// The first slot that is free or holds an entry, in the order from a home on.
#[tactic(auto, unfolding(crate::specs::Slots::first_from))]
fn first_end(slots: &[Slot], home: usize, entry: &Slot) -> Option<usize>
    requires { home ≤ length slots.now }
    ensures is { result ≡ spec.first_from (spec.ends (spec.entry_of entry.now)) slots.now home }
    ensures within { IfSome result (λ index. index < length slots.now) }
{
    match first_end_in(&slots[home..], entry) {
        Some(index) => Some(home + index),
        None => first_end_in(&slots[..home], entry),
    }
}

/// Puts a slot in the place of the first one that isn't held, in the order from its home on. Says whether that slot was
/// free.
pub(crate) fn put(slots: &mut [Slot], slot: Slot) -> bool
    requires held { spec.is_held slot ≡ true }
    requires room { count_by spec.is_held slots.old < length slots.old }
    requires reached { spec.AreReached slots.old }
    ensures { spec.IsPut slots.old slot result slots.new }
{
    let home = home(slot.hash, slots.len());
    match first_unheld(slots, home) {
        Some(index) => {
            let was_free = slots[index].is_free();
            slots[index] = slot;
            was_free
        }
        None => unreachable!(),
    }
}

/// Marks the first slot that holds an entry as left, in the order from its home on. Says whether there was one.
pub(crate) fn leave(slots: &mut [Slot], entry: Slot) -> bool
    requires { spec.AreReached slots.old }
    ensures { spec.Leaves slots.old (spec.entry_of entry) result slots.new }
{
    let home = home(entry.hash, slots.len());
    match first_end(slots, home, &entry) {
        Some(index) => {
            let held = slots[index].is_held();
            if held {
                slots[index] = Slot::left();
            }
            held
        }
        None => false,
    }
}
