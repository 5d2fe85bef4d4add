//! The entries of the open message.
ghost use Rattle.std.specs.Prelude.{◌≡◌, ◌+◌, ◌≤◌, ◌<◌, ◌++◌, [], ◌∷◌, take, drop, length, slice_index_or, slice_set, OnOk, OnErr};
ghost use Rattle.pfr_sync.specs.Entries as spec;

use crate::queue::{Action, QueuedState};
use pfr_track::State;
use std::alloc::{AllocError, Global};
use std::marker::Model;

/// Entries in order. An entry is large, so it stays in its slot: only slot numbers move.
#[derive(Drop)]
pub struct Entries {
    /// The entries, and free slots.
    slots: Vec<QueuedState>,
    /// The numbers of all slots: those of the entries in order, and then the free ones.
    order: Vec<usize>,
    /// The number of entries.
    count: usize,
}

impl Model for Entries {
    ghost use Rattle.std.specs.Prelude.{◌≤◌, List, length, take};
    ghost use Rattle.pfr_sync.specs.declared.queue.QueuedState.{QueuedState};
    ghost use Rattle.pfr_sync.specs.Entries.{AreSlots, in_order};

    ghost Value = { List QueuedState };

    ghost view = { λ e. in_order (take e.count e.order.items) e.slots.items };

    ghost invariant = { λ e. AreSlots (length e.slots.items) e.order.items × (e.count ≤ length e.order.items) };
}

impl Entries {
    /// No entries. The first one takes memory.
    pub fn new(alloc: Global) -> Entries
        ensures { result ≡ [] }
    {
        Entries {
            slots: Vec::new(alloc),
            order: Vec::new(alloc),
            count: 0,
        }
    }

    /// The number of entries.
    #[inline]
    pub fn len(&self) -> usize
        ensures { result ≡ length self.now }
    {
        self.count
    }

    /// The entry at a place.
    #[inline]
    pub fn get(&self, place: usize) -> &QueuedState
        requires { place < length self.now }
        ensures { result.now ≡ slice_index_or self.now place result.now }
    {
        let slot = self.order[place];
        &self.slots[slot]
    }

    /// Inserts an entry at a place, before those from there on. If memory is refused nothing changes.
    pub fn insert(&mut self, place: usize, action: Action, state: &State) -> Result<(), AllocError>
        requires { place ≤ length self.old }
        ensures entries { OnOk result (self.new ≡ take place self.old ++ record { action = action; state = state.now } ∷ drop place self.old) }
        ensures kept { OnErr result (self.new ≡ self.old) }
    {
        make_room(&mut self.slots, &mut self.order, self.count, action, state)?;
        let slot = self.order[self.count];
        self.order.copy_within(place..self.count, place + 1);
        self.order[place] = slot;
        self.count += 1;
        let entry = &mut self.slots[slot];
        entry.action = action;
        entry.state = *state;
        Ok(())
    }

    /// Replaces the entry at a place.
    pub fn write(&mut self, place: usize, action: Action, state: &State)
        requires { place < length self.old }
        ensures { self.new ≡ slice_set self.old place (record { action = action; state = state.now }) }
    {
        let slot = self.order[place];
        let entry = &mut self.slots[slot];
        entry.action = action;
        entry.state = *state;
    }

    /// Removes the entry at a place.
    pub fn remove(&mut self, place: usize)
        requires { place < length self.old }
        ensures { self.new ≡ take place self.old ++ drop (place + 1) self.old }
    {
        let slot = self.order[place];
        let last = self.count - 1;
        self.order.copy_within(place + 1..self.count, place);
        self.order[last] = slot;
        self.count = last;
    }

    /// Removes the entries from a place on.
    pub fn truncate(&mut self, place: usize)
        requires { place ≤ length self.old }
        ensures { self.new ≡ take place self.old }
    {
        self.count = place;
    }
}

/// Makes a free slot if there is none. The entries stay.
fn make_room(
    slots: &mut Vec<QueuedState>,
    order: &mut Vec<usize>,
    count: usize,
    action: Action,
    state: &State,
) -> Result<(), AllocError>
    requires slots { spec.AreSlots (length slots.old.items) order.old.items }
    requires count { count ≤ length order.old.items }
    ensures free { OnOk result (count < length order.new.items) }
    ensures count { count ≤ length order.new.items }
    ensures slots { spec.AreSlots (length slots.new.items) order.new.items }
    ensures entries { spec.in_order (take count order.new.items) slots.new.items ≡ spec.in_order (take count order.old.items) slots.old.items }
{
    if count < order.len() {
        return Ok(());
    }
    add_slot(slots, order, action, state)
}

/// Adds a free slot. Each slot holds some entry, so it gets this one.
// It is seldom called and has large locals.
#[inline(never)]
fn add_slot(
    slots: &mut Vec<QueuedState>,
    order: &mut Vec<usize>,
    action: Action,
    state: &State,
) -> Result<(), AllocError>
    requires { spec.AreSlots (length slots.old.items) order.old.items }
    ensures free { OnOk result (length order.old.items < length order.new.items) }
    ensures count { length order.old.items ≤ length order.new.items }
    ensures slots { spec.AreSlots (length slots.new.items) order.new.items }
    ensures entries { spec.in_order (take (length order.old.items) order.new.items) slots.new.items ≡ spec.in_order order.old.items slots.old.items }
{
    order.reserve(1)?;
    let slot = slots.len();
    slots.push(QueuedState {
        action,
        state: *state,
    })?;
    order.push(slot)?;
    Ok(())
}
