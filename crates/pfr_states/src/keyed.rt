//! States at their places, which are found by their keys and by their numbers, and counted by their filter rules.
ghost use Rattle.std.specs.Prelude.{◌≡◌, ◌<◌, [], length, None, Some, true, false, IfOk, IfSome, OnOk, OnErr};
ghost use Rattle.std.specs.List.{list_any};
ghost use Rattle.std.specs.Option.{option_copied};
ghost use Rattle.pfr_index.specs.Index.{Entry, with_entry, without_entry};
ghost use Rattle.pfr_places.specs.Places as slab;
ghost use Rattle.pfr_states.specs.Indexed as lookups;
ghost use Rattle.pfr_states.specs.Keyed as spec;
ghost use Rattle.pfr_states.specs.Awaited as awaited;
ghost use Rattle.pfr_states.specs.KeyHash.{hash_of};
ghost use Rattle.pfr_states.specs.States as states;

use crate::change::Side;
use crate::key_hash::hash_of;
use crate::rule_counts::RuleCounts;
use crate::stored::Stored;
use pfr_deadlines::Wait;
use pfr_index::{Guess, Index};
use pfr_places::{Place, Places};
use pfr_track::{Binding, Clock, Key, RuleNumber, State, StateNumber};
use std::alloc::{AllocError, Global};
use std::marker::Model;

/// States under their numbers, no two of which share a key on an interface, each at a place of its own where it stays.
/// Contracts see the list of states by rising number.
#[derive(Drop)]
pub(crate) struct Keyed {
    places: Places<Stored>,
    wire: Index,
    stack: Index,
    counts: RuleCounts,
}

impl Model for Keyed {
    ghost use Rattle.std.specs.Prelude.{List};
    ghost use Rattle.pfr_places.specs.Places.{Placed};
    ghost use Rattle.pfr_states.specs.declared.stored.Stored.{Stored};
    ghost use Rattle.pfr_states.specs.Keyed.{AreKeyed};

    ghost Value = { List (Placed Stored) };

    ghost view = { λ k. k.places };

    ghost invariant = { λ k. AreKeyed k.places k.wire.times k.stack.times k.counts };
}

/// The key of a state on a side.
#[inline]
fn key_on(state: &State, side: Side) -> &Key
    ensures { result.now ≡ states.key_on side state.now }
{
    match side {
        Side::Wire => &state.wire,
        Side::Stack => &state.stack,
    }
}

/// Whether a state has a key on a side and is bound to an interface of a scope.
#[inline]
fn is_found(state: &State, side: Side, key: &Key, scope: Binding) -> bool
    ensures { result ≡ states.is_found side key.now scope state.now }
{
    key_on(state, side) == key && state.rules.binding.meets(scope)
}

/// Whether the state at a place has a key on a side and is bound to an interface of a scope.
#[inline]
fn is_found_at(places: &Places<Stored>, place: Place, side: Side, key: &Key, scope: Binding) -> bool
    ensures { result ≡ spec.passes_at (states.is_found side key.now scope) place places.now }
{
    match places.get(place) {
        Some(stored) => is_found(&stored.state, side, key, scope),
        None => false,
    }
}

/// The same, for a state with another number than `number`.
fn is_another_at(
    places: &Places<Stored>,
    place: Place,
    number: StateNumber,
    side: Side,
    key: &Key,
    scope: Binding,
) -> bool
    ensures { result ≡ spec.passes_at (lookups.is_another number side key.now scope) place places.now }
{
    match places.get(place) {
        Some(stored) => {
            stored.state.number != number && is_found(&stored.state, side, key, scope)
        }
        None => false,
    }
}

/// The number of the state at a place, if that state is found at a clock.
fn number_alive(
    places: &Places<Stored>,
    place: Place,
    side: Side,
    key: &Key,
    scope: Binding,
    clock: Clock,
) -> Option<StateNumber>
    ensures { result ≡ spec.number_alive side key.now scope clock place places.now }
{
    match places.get(place) {
        Some(stored) => {
            let state = &stored.state;
            if is_found(state, side, key, scope) && !state.deadline.has_come(clock) {
                Some(state.number)
            } else {
                None
            }
        }
        None => None,
    }
}

/// The lesser one of two numbers, if there are two.
fn lesser(least: Option<StateNumber>, other: Option<StateNumber>) -> Option<StateNumber>
    ensures { result ≡ lookups.lesser least other }
{
    match (least, other) {
        (None, other) => other,
        (least, None) => least,
        (Some(number), Some(other)) => {
            if other < number {
                Some(other)
            } else {
                Some(number)
            }
        }
    }
}

/// Tells the proofs of the places: their numbers rise, no two are the same, and they are counted.
fn are_places(places: &Places<Stored>)
    ensures in_order { slab.rise places.now ≡ true }
    ensures own_places { slab.have_own_places places.now ≡ true }
    ensures few { length places.now < 18446744073709551616 }
{
    let _ = places.len();
}

/// Puts a place under another key in an index.
fn move_place(index: &mut Index, from: &Key, to: &Key, place: Place)
    requires room { 0 < index.old.room }
    requires place { place.0 < 4294967294 }
    ensures times { (entry : Entry) → index.new.times entry ≡ with_entry (record { hash = hash_of to.now; place = place }) (without_entry (record { hash = hash_of from.now; place = place }) index.old.times) entry }
{
    index.remove(hash_of(from), place);
    index.insert(hash_of(to), place);
}

impl Keyed {
    /// No states. It takes memory only once states are added.
    pub(crate) fn new(alloc: Global) -> Keyed
        ensures { result ≡ [] }
    {
        Keyed {
            places: Places::new(alloc),
            wire: Index::new(alloc),
            stack: Index::new(alloc),
            counts: RuleCounts::new(alloc),
        }
    }

    /// The index of the places by the hashes of the keys on a side.
    #[inline]
    fn index_on(&self, side: Side) -> &Index
        ensures { (entry : Entry) → result.now.times entry ≡ spec.times_on side self.now entry }
    {
        match side {
            Side::Wire => &self.wire,
            Side::Stack => &self.stack,
        }
    }

    /// The number of states.
    #[inline]
    pub(crate) fn len(&self) -> usize
        ensures count { result ≡ length self.now }
        ensures few { length self.now < 18446744073709551616 }
        ensures states { spec.AreStates self.now }
    {
        self.places.len()
    }

    /// The number of states that a filter rule made.
    #[inline]
    pub(crate) fn count_of_rule(&self, rule: RuleNumber) -> usize
        ensures { result ≡ states.count_of_rule rule.0 (spec.states_of self.now) }
    {
        self.counts.get(rule)
    }

    /// What stands at a place.
    #[inline]
    pub(crate) fn get(&self, place: Place) -> Option<&Stored>
        ensures stored { option_copied result ≡ slab.value_of (slab.at place self.now) }
        ensures states { spec.AreStates self.now }
    {
        self.places.get(place)
    }

    /// A guess at the place of the state with a key on a side.
    #[inline]
    pub(crate) fn guess_at(&self, side: Side, key: &Key) -> Option<Guess> {
        self.index_on(side).guess(hash_of(key))
    }

    /// A place under the hash of a key on a side for which a test answers true, or None if there is no such place.
    #[inline(always)]
    fn place_under<F: Fn(Place) -> bool>(&self, side: Side, key: &Key, is_it: F) -> Option<Place>
        requires { F.IsAlwaysCallable is_it }
        ensures place { spec.IsPlaceBy side key.now (F.post is_it) self.now result }
        ensures states { spec.AreStates self.now }
    {
        // no two places are the same
        let _ = self.len();
        self.index_on(side).find(hash_of(key), is_it)
    }

    /// The place of a state with a key on a side that is bound to an interface of a scope.
    #[inline(always)]
    pub(crate) fn place_at(&self, side: Side, key: &Key, scope: Binding) -> Option<Place>
        ensures place { spec.IsPlaceOf (states.is_found side key.now scope) self.now result }
        ensures states { spec.AreStates self.now }
    {
        let places = &self.places;
        self.place_under(
            side,
            key,
            |place| -> bool
                ensures { result ≡ spec.passes_at (states.is_found side key.entry.now scope) place places.entry.now }
            { is_found_at(places, place, side, key, scope) },
        )
    }

    /// The same, for a state with another number than `number`.
    pub(crate) fn another_at(
        &self,
        number: StateNumber,
        side: Side,
        key: &Key,
        scope: Binding,
    ) -> Option<Place>
        ensures place { spec.IsPlaceOf (lookups.is_another number side key.now scope) self.now result }
        ensures states { spec.AreStates self.now }
    {
        let places = &self.places;
        self.place_under(
            side,
            key,
            |place| -> bool
                ensures { result ≡ spec.passes_at (lookups.is_another number side key.entry.now scope) place places.entry.now }
            { is_another_at(places, place, number, side, key, scope) },
        )
    }

    /// The least number of the states with a key on a side that are bound to an interface of a scope and whose deadline
    /// hasn't come. All states under the key's hash are looked at.
    #[cold]
    pub(crate) fn least_at(
        &self,
        side: Side,
        key: &Key,
        scope: Binding,
        clock: Clock,
    ) -> Option<StateNumber>
        ensures number { result ≡ lookups.number_at side key.now scope (states.purged clock (spec.states_of self.now)) }
        ensures states { spec.AreStates self.now }
    {
        let places = &self.places;
        let index = self.index_on(side);
        let least = index.fold_under(
            hash_of(key),
            None,
            |least, place| -> Option<StateNumber>
                ensures { result ≡ lookups.lesser least (spec.number_alive side key.entry.now scope clock place places.entry.now) }
            { lesser(least, number_alive(places, place, side, key, scope, clock)) },
        );
        least
    }

    /// What [`Keyed::place_at`] answers, but a place where the state may stand is looked at first.
    #[inline(always)]
    pub(crate) fn place_near(
        &self,
        side: Side,
        key: &Key,
        scope: Binding,
        hint: Option<Place>,
    ) -> Option<Place>
        ensures place { spec.IsPlaceOf (states.is_found side key.now scope) self.now result }
        ensures states { spec.AreStates self.now }
    {
        if let Some(place) = hint {
            if is_found_at(&self.places, place, side, key, scope) {
                return Some(place);
            }
        }
        self.place_at(side, key, scope)
    }

    /// The same, but the guessed place is looked at first.
    #[inline]
    pub(crate) fn place_by(
        &self,
        side: Side,
        key: &Key,
        scope: Binding,
        guess: Option<Guess>,
    ) -> Option<Place>
        ensures place { spec.IsPlaceOf (states.is_found side key.now scope) self.now result }
        ensures states { spec.AreStates self.now }
    {
        let hint = match guess {
            Some(guess) => guess.under(hash_of(key)),
            None => None,
        };
        self.place_near(side, key, scope, hint)
    }

    /// The place of the state with a number.
    pub(crate) fn place_of(&self, number: StateNumber) -> Option<Place>
        ensures place { result ≡ slab.place_of (slab.of_number number.0 self.now) }
        ensures states { spec.AreStates self.now }
    {
        self.places.place_of(number.0)
    }

    /// The state with a number.
    pub(crate) fn of_number(&self, number: StateNumber) -> Option<&Stored>
        ensures stored { option_copied result ≡ slab.value_of (slab.of_number number.0 self.now) }
        ensures states { spec.AreStates self.now }
    {
        let place = self.place_of(number)?;
        self.get(place)
    }

    /// The state that waits by exactly this deadline.
    pub(crate) fn kept_by(&self, wait: Wait) -> Option<&Stored>
        ensures stored { option_copied result ≡ awaited.kept_by wait (slab.value_of (slab.at wait.2 self.now)) }
        ensures states { spec.AreStates self.now }
    {
        let stored = self.get(wait.2)?;
        if stored.waits == wait.0 && stored.state.number == wait.1 {
            Some(stored)
        } else {
            None
        }
    }

    /// Whether a state waits by exactly this deadline.
    pub(crate) fn keeps(&self, wait: Wait) -> bool
        ensures { result ≡ awaited.is_kept_at wait self.now }
    {
        self.kept_by(wait).is_some()
    }

    /// The state with the least number.
    pub(crate) fn first(&self) -> Option<&Stored>
        ensures { option_copied result ≡ slab.value_of (slab.first self.now) }
    {
        self.places.first()
    }

    /// The state with the least number above `number`.
    pub(crate) fn after(&self, number: StateNumber) -> Option<&Stored>
        ensures stored { option_copied result ≡ slab.value_of (slab.after number.0 self.now) }
        ensures states { spec.AreStates self.now }
    {
        self.places.after(number.0)
    }

    /// Adds a state with a new number, and with keys that no other state has. It waits by its own deadline. If memory
    /// is refused, nothing changes.
    pub(crate) fn add(&mut self, state: &State) -> Result<Place, AllocError>
        requires number { slab.of_number state.now.number.0 self.old ≡ None }
        requires keys { list_any (states.shares_key state.now) (spec.states_of self.old) ≡ false }
        ensures done { IfOk result (λ place. self.new ≡ slab.with_placed (spec.held (record { state = state.now; waits = state.now.deadline }) place) self.old) }
        ensures kept { OnErr result (self.new ≡ self.old) }
    {
        self.wire.reserve()?;
        self.stack.reserve()?;
        self.counts.reserve(state.rules.filter)?;
        let place = self.places.insert(
            state.number.0,
            Stored {
                state: *state,
                waits: state.deadline,
            },
        )?;
        // whatever the places are, they are in order
        are_places(&self.places);
        self.wire.insert(hash_of(&state.wire), place);
        self.stack.insert(hash_of(&state.stack), place);
        self.counts.add(state.rules.filter);
        Ok(place)
    }

    /// Writes another state over the one at a place; its number, keys, filter rule and binding are the same.
    #[inline]
    pub(crate) fn write(&mut self, place: Place, stored: Stored)
        requires { IfSome (slab.at place self.old) (λ placed. spec.IsLike placed.value.state stored.state) }
        ensures { self.new ≡ slab.with_value place stored self.old }
    {
        self.places.set(place, stored);
        // whatever the places are, they are in order
        are_places(&self.places);
    }

    /// Writes another state with the same number over the one at a place; no other state has its keys. If memory is
    /// refused, nothing changes.
    pub(crate) fn replace(
        &mut self,
        place: Place,
        before: &Stored,
        stored: Stored,
    ) -> Result<(), AllocError>
        requires there { slab.value_of (slab.at place self.old) ≡ Some before.now }
        requires number { before.now.state.number.0 ≡ stored.state.number.0 }
        requires keys { states.another_shares stored.state (spec.states_of self.old) ≡ false }
        ensures done { OnOk result (self.new ≡ slab.with_value place stored self.old) }
        ensures kept { OnErr result (self.new ≡ self.old) }
    {
        self.wire.reserve()?;
        self.stack.reserve()?;
        self.counts.reserve(stored.state.rules.filter)?;
        let (from, to) = (&before.state, &stored.state);
        move_place(&mut self.wire, &from.wire, &to.wire, place);
        move_place(&mut self.stack, &from.stack, &to.stack, place);
        self.places.set(place, stored);
        // whatever the places are, they are in order
        are_places(&self.places);
        self.counts.move_one(from.rules.filter, to.rules.filter);
        Ok(())
    }

    /// Takes the state with a number out, if there is one.
    pub(crate) fn remove(&mut self, number: StateNumber)
        ensures states { self.new ≡ slab.without number.0 self.old }
        ensures by_number { spec.AreNumbered self.old }
    {
        let Some(place) = self.places.place_of(number.0) else {
            return;
        };
        let Some(stored) = self.places.get(place) else {
            return;
        };
        let wire = hash_of(&stored.state.wire);
        let stack = hash_of(&stored.state.stack);
        let rule = stored.state.rules.filter;
        self.wire.remove(wire, place);
        self.stack.remove(stack, place);
        self.counts.remove(rule);
        self.places.remove(number.0);
        // whatever the places are, they are in order
        are_places(&self.places);
    }
}
