//! Which places stand under which hashes.
ghost use Rattle.std.specs.Prelude.{◌≡◌, ◌+◌, ◌<◌, ◌≤◌, true, false, OnOk, OnErr, IfOk, IfSome, IfNone};
ghost use Rattle.std.specs.List.{count_by};
ghost use Rattle.pfr_index.specs.Folds.{FoldsUnder};
ghost use Rattle.pfr_index.specs.Index as spec;
ghost use Rattle.pfr_index.specs.Index.{Entry};
ghost use Rattle.pfr_index.specs.Slots.{entries_of, is_held};
ghost use Rattle.pfr_places.specs.declared.place.Place.{Place};

use crate::hash::Hash;
use crate::slot::{Slot, home, leave, put};
use crate::{folding, search};
use pfr_places::Place;
use std::alloc::{AllocError, Global};
use std::marker::Model;

/// The fewest slots that there are once there are any.
const FEWEST: usize = 8;

/// The most entries for whose slots there could be memory.
const MOST: usize = 1 << 56;

/// The number of slots that are wanted for `held` entries and one more, so that at most half of the slots are held.
fn wanted(held: usize) -> Result<usize, AllocError>
    ensures { IfOk result (λ count. held < count) }
{
    if held >= MOST {
        return Err(AllocError);
    }
    Ok(((held + 1) * 2).next_power_of_two().max(FEWEST))
}

/// What stands where a search begins: mostly the place that the search would find. It is a hint alone.
#[derive(Clone, Copy)]
pub struct Guess {
    slot: Slot,
}

impl Guess {
    /// The place, if it stands there under this hash.
    #[inline]
    pub fn under(self, hash: Hash) -> Option<Place> {
        if self.slot.hash.0 == hash.0 {
            Some(self.slot.place)
        } else {
            None
        }
    }
}

/// The places of values by hashes of their keys. Contracts see how often each place stands under each hash, and how
/// many more there is room for.
#[derive(Drop)]
pub struct Index {
    alloc: Global,
    slots: Vec<Slot>,
    /// How many slots are held.
    held: usize,
    /// The number of slots in which nothing stood so far.
    free: usize,
}

impl Model for Index {
    ghost use Rattle.pfr_index.specs.Index.{Indexed, indexed_code};
    ghost use Rattle.pfr_index.specs.Slots.{IsIndex, indexed_of};

    ghost Value = { Indexed };

    ghost coded = { indexed_code };

    ghost view = { λ index. indexed_of index.slots.items };

    ghost invariant = { λ index. IsIndex index.slots.items index.held index.free };
}

impl Index {
    /// An empty index. It takes memory only once room is made.
    pub fn new(alloc: Global) -> Index
        ensures { (entry : Entry) → result.times entry ≡ 0 }
    {
        Index {
            alloc,
            slots: Vec::new(alloc),
            held: 0,
            free: 0,
        }
    }

    /// An index of free slots alone.
    fn of_free_slots(alloc: Global, count: usize) -> Result<Index, AllocError>
        ensures times { IfOk result (λ index. (entry : Entry) → index.times entry ≡ 0) }
        ensures room { IfOk result (λ index. index.room ≡ count) }
    {
        let slots = vec![in alloc; Slot::free(); count]?;
        Ok(Index {
            alloc,
            slots,
            held: 0,
            free: count,
        })
    }

    /// Puts a place under a hash.
    pub fn insert(&mut self, hash: Hash, place: Place)
        requires room { 0 < self.old.room }
        requires place { place.0 < spec.places }
        ensures times { (entry : Entry) → self.new.times entry ≡ spec.with_entry (record { hash = hash; place = place }) self.old.times entry }
        ensures room { self.new.room + 1 ≡ self.old.room }
    {
        let was_free = put(self.slots.as_mut_slice(), Slot { hash, place });
        self.free -= usize::from(was_free);
        self.held += 1;
    }

    /// Takes a place under a hash out, once; if it isn't there, nothing changes. It takes no memory.
    pub fn remove(&mut self, hash: Hash, place: Place)
        ensures times { (entry : Entry) → self.new.times entry ≡ spec.without_entry (record { hash = hash; place = place }) self.old.times entry }
        ensures room { self.old.room ≤ self.new.room }
    {
        let was_there = leave(self.slots.as_mut_slice(), Slot { hash, place });
        self.held -= usize::from(was_there);
    }

    /// What stands where a search for a hash begins. Several such questions in a row are answered fast: none of them
    /// uses what it reads, so none waits for the memory that the one before reads.
    #[inline]
    pub fn guess(&self, hash: Hash) -> Option<Guess> {
        match self.slots.get(home(hash, self.slots.len())) {
            Some(slot) => Some(Guess { slot: *slot }),
            None => None,
        }
    }

    /// A place under a hash for which the test answers true, or None if there is no such place.
    #[inline(always)]
    pub fn find<F: Fn(Place) -> bool>(&self, hash: Hash, is_it: F) -> Option<Place>
        requires { F.IsAlwaysCallable is_it }
        ensures some { IfSome result (λ place. (0 < self.now.times (record { hash = hash; place = place })) × F.post is_it place true) }
        ensures none { IfNone result ((place : Place) → 0 < self.now.times (record { hash = hash; place = place }) → F.post is_it place false) }
    {
        search::find(self.slots.as_slice(), hash, &is_it)
    }

    /// Goes through the places under a hash, in no order: each at least once, and no other place. The step gets what
    /// the step before it answered.
    pub fn fold_under<B, F: Fn(B, Place) -> B>(&self, hash: Hash, start: B, step: F) -> B
        requires { F.IsAlwaysCallable step }
        ensures { FoldsUnder (λ before place after. F.post step before place after) start hash self.now.times result }
    {
        folding::fold_under(self.slots.as_slice(), hash, start, &step)
    }

    /// The index of the entries of some slots, with `count` slots.
    fn rebuilt(alloc: Global, slots: &[Slot], count: usize) -> Result<Index, AllocError>
        requires { count_by is_held slots.now < count }
        ensures times { IfOk result (λ index. (entry : Entry) → index.times entry ≡ spec.times_in (entries_of slots.now) entry) }
        ensures room { IfOk result (λ index. 0 < index.room) }
    {
        let mut index = Index::of_free_slots(alloc, count)?;
        for slot in slots {
            if slot.is_held() {
                index.insert(slot.hash, slot.place);
            }
        }
        Ok(index)
    }

    /// Makes room for one more entry.
    pub fn reserve(&mut self) -> Result<(), AllocError>
        ensures same { (entry : Entry) → self.new.times entry ≡ self.old.times entry }
        ensures room { OnOk result (0 < self.new.room) }
        ensures kept { OnErr result (self.new ≡ self.old) }
    {
        if self.free > self.slots.len() / 4 {
            return Ok(());
        }
        let count = wanted(self.held)?;
        let index = Index::rebuilt(self.alloc, self.slots.as_slice(), count)?;
        *self = index;
        Ok(())
    }
}
