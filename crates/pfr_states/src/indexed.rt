//! States in the order of their numbers, which are also found by their keys and deadlines.
ghost use Rattle.std.specs.Prelude.{◌≡◌, ◌<◌, ◌&&◌, ◌||◌, not, true, false, [], length, Some, None, IfOk, OnOk, OnErr};
ghost use Rattle.std.specs.List.{Contains, filter, list_any};
ghost use Rattle.std.specs.Option.{option_copied, option_map};
ghost use Rattle.pfr_places.specs.Places.{at};
ghost use Rattle.pfr_states.specs.Awaited as awaited;
ghost use Rattle.pfr_states.specs.Indexed as index;
ghost use Rattle.pfr_states.specs.Keyed.{AreStates, states_of};
ghost use Rattle.pfr_states.specs.States as spec;
ghost use Rattle.pfr_deadlines.specs.Waits.{Wait};

use crate::change::Side;
use crate::due::{due_by, is_rule_due_by, left_of_rule, sooner};
use crate::keyed::Keyed;
use crate::likeness::is_like;
use crate::stored::{Found, Stored};
use pfr_deadlines::{Deadlines, Wait};
use pfr_places::Place;
use pfr_track::{Binding, Clock, Key, RuleNumber, State, StateNumber};
use std::alloc::{AllocError, Global};
use std::marker::Model;

/// States by their numbers, no two of which share a key on an interface. Contracts see the list of states by rising
/// number.
///
/// Each state waits by a deadline that isn't later than its own. If its own moves later, the state stays at the old one
/// until that comes, and then waits by its own. So there may be a deadline by which no state waits any more.
#[derive(Drop)]
pub(crate) struct IndexedStates {
    keyed: Keyed,
    deadlines: Deadlines,
}

impl Model for IndexedStates {
    ghost use Rattle.std.specs.Prelude.{List};
    ghost use Rattle.pfr_track.specs.declared.state.State.{State};
    ghost use Rattle.pfr_states.specs.Awaited.{AreAwaited};
    ghost use Rattle.pfr_states.specs.Keyed.{states_of};

    ghost Value = { List State };

    ghost view = { λ t. states_of t.keyed };

    ghost invariant = { λ t. AreAwaited t.deadlines.waits t.keyed };
}

/// Makes room for one more deadline.
fn make_room(deadlines: &mut Deadlines, keyed: &Keyed) -> Result<(), AllocError>
    ensures kept { (wait : Wait) → Contains deadlines.old.waits wait → awaited.is_kept_at wait keyed.now ≡ true → Contains deadlines.new.waits wait }
    ensures room { OnOk result (0 < deadlines.new.room) }
    ensures states { AreStates keyed.now }
{
    if deadlines.are_many(keyed.len()) {
        deadlines.sweep(
            |wait| -> bool
                ensures { result ≡ awaited.is_kept_at wait keyed.entry.now }
            { keyed.keeps(wait) },
        );
        return deadlines.reserve();
    }
    deadlines.reserve()
}

impl IndexedStates {
    /// No states. It takes memory only once states are added.
    pub(crate) fn new(alloc: Global) -> IndexedStates
        ensures { result ≡ [] }
    {
        IndexedStates {
            keyed: Keyed::new(alloc),
            deadlines: Deadlines::new(alloc),
        }
    }

    /// The number of states.
    pub(crate) fn len(&self) -> usize
        ensures { result ≡ length self.now }
    {
        self.keyed.len()
    }

    /// The state with a number.
    pub(crate) fn get(&self, number: StateNumber) -> Option<&State>
        ensures state { option_copied result ≡ spec.state_of number self.now }
        ensures in_order { spec.rise self.now ≡ true }
    {
        match self.keyed.of_number(number) {
            Some(stored) => Some(&stored.state),
            None => None,
        }
    }

    /// The states with their places, for hints of a state's place.
    #[inline]
    pub(crate) fn keyed(&self) -> &Keyed
        ensures { states_of result.now ≡ self.now }
    {
        &self.keyed
    }

    /// A state with a key on a side that is bound to an interface of a scope, with its place; any of them if there are
    /// several. If a place is named, the state is looked for there first.
    #[inline(always)]
    pub(crate) fn find(
        &self,
        side: Side,
        key: &Key,
        scope: Binding,
        hint: Option<Place>,
    ) -> Option<Found<'_>>
        ensures state { index.IsAnswer (spec.is_found side key.now scope) self.now (option_map (λ found. found.state.now) result) }
        ensures own_keys { spec.have_own_keys self.now ≡ true }
    {
        match self.keyed.place_near(side, key, scope, hint) {
            Some(place) => match self.keyed.get(place) {
                Some(stored) => Some(Found {
                    state: &stored.state,
                    place,
                }),
                None => None,
            },
            None => None,
        }
    }

    /// The state with the least number among all that are found at a clock.
    #[cold]
    pub(crate) fn find_least(
        &self,
        side: Side,
        key: &Key,
        scope: Binding,
        clock: Clock,
    ) -> Option<Found<'_>>
        ensures { option_map (λ found. found.state.now) result ≡ spec.at side key.now scope (spec.purged clock self.now) }
    {
        let number = self.keyed.least_at(side, key, scope, clock)?;
        let place = self.keyed.place_of(number)?;
        match self.keyed.get(place) {
            Some(stored) => Some(Found {
                state: &stored.state,
                place,
            }),
            None => None,
        }
    }

    /// Of the states whose deadline has come the one with the least deadline; of equal deadlines the one with the least
    /// number.
    ///
    /// It is found at once if the deadlines have been brought up to the clock and the first one by which a state waits
    /// is the state's own, as [`IndexedStates::settle`] leaves them. Else all deadlines that have come are looked at.
    // Mostly nothing is due, which takes a few steps to find. A call would clear the room for a state first.
    #[inline(always)]
    pub(crate) fn due(&self, clock: Clock) -> Option<State>
        ensures state { result ≡ spec.due clock self.now }
        ensures in_order { spec.rise self.now ≡ true }
    {
        // the places' numbers rise, and no two are the same
        let _ = self.keyed.len();
        let Some(first) = self.deadlines.first() else {
            if self.deadlines.are_ahead_of(clock) {
                return None;
            }
            return self.search_due(clock);
        };
        if !first.0.has_come(clock) {
            return None;
        }
        if let Some(stored) = self.keyed.kept_by(first) {
            if stored.state.deadline == first.0 {
                return Some(stored.state);
            }
        }
        self.search_due(clock)
    }

    /// The same by a look at all deadlines that have come.
    #[cold]
    fn search_due(&self, clock: Clock) -> Option<State>
        ensures state { result ≡ spec.due clock self.now }
        ensures in_order { spec.rise self.now ≡ true }
    {
        // the places' numbers rise, and no two are the same
        let _ = self.keyed.len();
        let keyed = &self.keyed;
        let first = self.deadlines.fold_come(
            clock,
            None,
            |first, wait| -> Option<&State>
                ensures { option_copied result ≡ awaited.sooner (option_copied first.entry) (awaited.due_by clock keyed.entry.now wait) }
            { sooner(first, due_by(keyed, wait, clock)) },
        );
        first.copied()
    }

    /// Whether there are fewer than `most` states of a filter rule, without those whose deadline has come.
    ///
    /// Mostly the count of the rule's states decides. If the rule has `most` states or more, the deadlines that have
    /// come are looked at.
    #[inline]
    #[tactic(auto, unfolding(crate::specs::States::has_rule_room))]
    pub(crate) fn rule_room(&self, rule: RuleNumber, most: u32, clock: Clock) -> bool
        ensures { result ≡ spec.has_rule_room rule.0 most (spec.purged clock self.now) }
    {
        let most = most as usize;
        let count = self.keyed.count_of_rule(rule);
        if count < most {
            return true;
        }
        if !self.is_rule_due(rule, clock) {
            return false;
        }
        if count == most {
            return true;
        }
        self.count_left(rule, clock) < most
    }

    /// Whether the deadline of a state of filter rule `rule` has come, by a look at all deadlines that have come.
    fn is_rule_due(&self, rule: RuleNumber, clock: Clock) -> bool
        ensures { result ≡ list_any (λ state. not (spec.lives clock state)) (filter (spec.is_of_rule rule.0) self.now) }
    {
        // no two places are the same
        let _ = self.keyed.len();
        let keyed = &self.keyed;
        self.deadlines.fold_come(
            clock,
            false,
            |is_due, wait| -> bool
                ensures { result ≡ (is_due || awaited.is_some_of_rule rule.0 (awaited.due_by clock keyed.entry.now wait)) }
            { is_due || is_rule_due_by(keyed, wait, rule, clock) },
        )
    }

    /// The number of states of a filter rule, without those whose deadline has come, by a look at all states. A rule
    /// has more states than its limit only if a caller names another limit than before.
    #[cold]
    fn count_left(&self, rule: RuleNumber, clock: Clock) -> usize
        ensures { result ≡ spec.count_of_rule rule.0 (spec.purged clock self.now) }
    {
        // the numbers rise, and the states are counted
        let _ = self.keyed.len();
        let mut count = 0;
        let mut next = self.first();
        while let Some(state) = next {
            count += left_of_rule(&state, rule, clock);
            next = self.after(state.number);
        }
        count
    }

    /// Settles the first deadline if it has come and isn't a state's own. A deadline by which no state waits is
    /// dropped; a state whose own deadline has moved waits by that. Says whether it has settled one.
    fn settle_first(&mut self, clock: Clock) -> bool
        ensures { self.new ≡ self.old }
    {
        let Some(first) = self.deadlines.first() else {
            return false;
        };
        if !first.0.has_come(clock) {
            return false;
        }
        let Some(&stored) = self.keyed.kept_by(first) else {
            self.deadlines.drop_first();
            return true;
        };
        let own = stored.state.deadline;
        if own == first.0 {
            return false;
        }
        self.deadlines.put_off(own);
        self.keyed.write(
            first.2,
            Stored {
                state: stored.state,
                waits: own,
            },
        );
        true
    }

    /// Settles the deadlines that have come, so that at this clock what is due is found at once.
    pub(crate) fn settle(&mut self, clock: Clock)
        ensures { self.new ≡ self.old }
    {
        self.deadlines.advance(clock);
        for _turn in 0..self.deadlines.near_count() {
            if !self.settle_first(clock) {
                return;
            }
        }
    }

    /// The state with the least number.
    pub(crate) fn first(&self) -> Option<State>
        ensures { result ≡ spec.first self.now }
    {
        match self.keyed.first() {
            Some(stored) => Some(stored.state),
            None => None,
        }
    }

    /// The state with the least number above `number`.
    pub(crate) fn after(&self, number: StateNumber) -> Option<State>
        ensures { result ≡ spec.after number self.now }
    {
        match self.keyed.after(number) {
            Some(stored) => Some(stored.state),
            None => None,
        }
    }

    /// Whether there is a state with a key on a side that is bound to an interface of a scope.
    fn is_found(&self, side: Side, key: &Key, scope: Binding) -> bool
        ensures { result ≡ list_any (spec.is_found side key.now scope) self.now }
    {
        self.keyed.place_at(side, key, scope).is_some()
    }

    /// Whether some state has a key in common with this one, on an interface to which both are bound.
    pub(crate) fn shares_key(&self, state: &State) -> bool
        ensures { result ≡ list_any (spec.shares_key state.now) self.now }
    {
        let scope = state.rules.binding;
        self.is_found(Side::Wire, &state.wire, scope)
            || self.is_found(Side::Stack, &state.stack, scope)
    }

    /// Whether there is such a state with another number than `number`.
    fn is_another_found(&self, number: StateNumber, side: Side, key: &Key, scope: Binding) -> bool
        ensures { result ≡ list_any (index.is_another number side key.now scope) self.now }
    {
        self.keyed.another_at(number, side, key, scope).is_some()
    }

    /// Whether some state of another number has a key in common with this one, on an interface to which both are bound.
    pub(crate) fn another_shares_key(&self, state: &State) -> bool
        ensures { result ≡ spec.another_shares state.now self.now }
    {
        let scope = state.rules.binding;
        self.is_another_found(state.number, Side::Wire, &state.wire, scope)
            || self.is_another_found(state.number, Side::Stack, &state.stack, scope)
    }

    /// Adds a state with a new number, and with keys that no other state has. If memory is refused, nothing changes.
    fn add(&mut self, state: &State) -> Result<(), AllocError>
        requires number { list_any (spec.is_number state.now.number) self.old ≡ false }
        requires keys { list_any (spec.shares_key state.now) self.old ≡ false }
        ensures done { OnOk result (self.new ≡ spec.with_state state.now self.old) }
        ensures kept { OnErr result (self.new ≡ self.old) }
    {
        make_room(&mut self.deadlines, &self.keyed)?;
        let place = self.keyed.add(state)?;
        self.deadlines.add((state.deadline, state.number, place));
        Ok(())
    }

    /// Replaces the state with the same number; the keys may change, and no other state has the new ones. If there is
    /// no state with the number, or if memory is refused, nothing changes.
    pub(crate) fn replace(&mut self, state: &State) -> Result<(), AllocError>
        requires { spec.another_shares state.now self.old ≡ false }
        ensures done { OnOk result (self.new ≡ spec.with_touched state.now self.old) }
        ensures kept { OnErr result (self.new ≡ self.old) }
    {
        let Some(place) = self.keyed.place_of(state.number) else {
            return Ok(());
        };
        let Some(&before) = self.keyed.get(place) else {
            return Ok(());
        };
        make_room(&mut self.deadlines, &self.keyed)?;
        let waits = state.deadline;
        self.keyed.replace(
            place,
            &before,
            Stored {
                state: *state,
                waits,
            },
        )?;
        self.deadlines.add((waits, state.number, place));
        Ok(())
    }

    /// Puts a state, whose keys no other state has, in its place by number; a state with the same number is replaced.
    /// If memory is refused, nothing changes.
    pub(crate) fn put(&mut self, state: &State) -> Result<(), AllocError>
        requires { list_any (spec.shares_key state.now) self.old ≡ false }
        ensures done { OnOk result (self.new ≡ spec.with_state state.now self.old) }
        ensures kept { OnErr result (self.new ≡ self.old) }
    {
        match self.get(state.number) {
            Some(_) => self.replace(state),
            None => self.add(state),
        }
    }

    /// Writes a state over the one at a place if that has its number, its keys, its filter rule and its binding, and
    /// says whether it did. If memory is refused nothing changes.
    #[inline]
    pub(crate) fn renew(&mut self, state: &State, place: Place) -> Result<bool, AllocError>
        ensures done { IfOk result (λ is_done. is_done ≡ true → self.new ≡ spec.with_touched state.now self.old) }
        ensures free { IfOk result (λ is_done. is_done ≡ true → spec.another_shares state.now self.old ≡ false) }
        ensures same { IfOk result (λ is_done. is_done ≡ false → self.new ≡ self.old) }
        ensures kept { OnErr result (self.new ≡ self.old) }
    {
        let Some(stored) = self.keyed.get(place) else {
            return Ok(false);
        };
        if !is_like(&stored.state, state) {
            return Ok(false);
        }
        let waits = stored.waits;
        if waits <= state.deadline {
            let state = *state;
            self.keyed.write(place, Stored { state, waits });
            return Ok(true);
        }
        make_room(&mut self.deadlines, &self.keyed)?;
        self.deadlines.add((state.deadline, state.number, place));
        self.keyed.write(
            place,
            Stored {
                state: *state,
                waits: state.deadline,
            },
        );
        Ok(true)
    }

    /// Takes the state with a number out, if there is one.
    pub(crate) fn remove(&mut self, number: StateNumber)
        ensures { self.new ≡ filter (λ state. not (spec.is_number number state)) self.old }
    {
        self.keyed.remove(number);
    }

    /// The state that is due first, once the deadlines are settled.
    fn next_due(&mut self, clock: Clock) -> Option<State>
        ensures state { result ≡ spec.due clock self.old }
        ensures in_order { spec.rise self.old ≡ true }
        ensures same { self.new ≡ self.old }
    {
        self.settle(clock);
        self.due(clock)
    }

    /// Takes the states out whose deadline has come, one after the other.
    pub(crate) fn purge(&mut self, clock: Clock)
        ensures { self.new ≡ spec.purged clock self.old }
    {
        while let Some(state) = self.next_due(clock) {
            self.remove(state.number);
        }
    }
}
