//! The table of states.
ghost use Rattle.std.specs.Prelude.{◌≡◌, ◌≢◌, length, Some, None, OnOk, OnErr, IfErr, IsOk};
ghost use Rattle.std.specs.Option.{option_map};
ghost use Rattle.pfr_track.specs.declared.state.StateNumber.{StateNumber};
ghost use Rattle.pfr_states.specs.declared.change.TableError.TheVariants.{Memory};
ghost use Rattle.pfr_states.specs.declared.change.TableChange.TheVariants.{Made, Touched, Removed};
ghost use Rattle.pfr_states.specs.States as spec;

use crate::change::{Side, TableChange, TableError};
use crate::indexed::IndexedStates;
use crate::likeness::covers;
use crate::stored::Found;
use pfr_index::Guess;
use pfr_places::Place;
use pfr_track::{Binding, Clock, Key, RuleNumber, State, StateNumber};
use std::alloc::Global;
use std::marker::Model;

/// States by their numbers, at most `limit` of them. No two states that are bound to one interface share a key.
/// Contracts see the list of states by rising number, and the limit.
#[derive(Drop)]
pub struct Table {
    states: IndexedStates,
    limit: usize,
}

impl Model for Table {
    ghost use Rattle.pfr_states.specs.States.{IsTable, StateTable};

    ghost Value = { StateTable };

    ghost view = { λ t. record { states = t.states; limit = t.limit } };

    ghost invariant = { λ t. IsTable (record { states = t.states; limit = t.limit }) };
}

impl Table {
    /// An empty table for at most `limit` states. It takes memory only once states are made.
    pub fn new(alloc: Global, limit: usize) -> Table
        ensures { result ≡ spec.empty limit }
    {
        Table {
            states: IndexedStates::new(alloc),
            limit,
        }
    }

    /// The number of states; those whose deadline has come count until they are purged. The numbers of the states rise,
    /// no two states share a key on an interface, and there are no more than the limit.
    pub fn len(&self) -> usize
        ensures count { result ≡ length self.now.states }
        ensures table { spec.IsTable self.now }
    {
        self.states.len()
    }

    /// The state with this key on a side that is bound to an interface of the scope; of several the one with the least
    /// number. A state whose deadline has come isn't answered, purged or not.
    // A call would clear the room for a state first, and copy it.
    #[inline(always)]
    pub fn at(&self, side: Side, key: &Key, scope: Binding, clock: Clock) -> Option<State>
        ensures { result ≡ spec.at side key.now scope (spec.purged clock self.now.states) }
    {
        match self.find_near(side, key, scope, clock, None) {
            Some(found) => Some(*found.state),
            None => None,
        }
    }

    /// What [`Table::at`] answers, as a reference, because a state is large. If a place is named, as by
    /// [`Table::place_by`], the state is looked for there first, which saves a search. The place is a mere hint.
    ///
    /// Mostly one look is enough: a state that is found and is bound to all interfaces of the scope is the only one.
    /// There may be others only if the scope is all interfaces and the state that is found is bound to one of them.
    #[inline(always)]
    pub fn find_near(
        &self,
        side: Side,
        key: &Key,
        scope: Binding,
        clock: Clock,
        hint: Option<Place>,
    ) -> Option<Found<'_>>
        ensures { option_map (λ found. found.state.now) result ≡ spec.at side key.now scope (spec.purged clock self.now.states) }
    {
        match self.states.find(side, key, scope, hint) {
            Some(found) => {
                if !covers(found.state.rules.binding, scope) {
                    return self.states.find_least(side, key, scope, clock);
                }
                if found.state.deadline.has_come(clock) {
                    None
                } else {
                    Some(found)
                }
            }
            None => None,
        }
    }

    /// A guess at the place of the state with this key on a side. It is a mere hint, for [`Table::place_by`]. If
    /// several keys are asked first, none of them waits for the memory that the one before reads.
    #[inline]
    pub fn guess_at(&self, side: Side, key: &Key) -> Option<Guess> {
        self.states.keyed().guess_at(side, key)
    }

    /// The place of a state with this key on a side that is bound to an interface of the scope, if there is one,
    /// whether its deadline has come or not: a hint for [`Table::find_near`]. The guessed place is looked at first.
    #[inline]
    pub fn place_by(
        &self,
        side: Side,
        key: &Key,
        scope: Binding,
        guess: Option<Guess>,
    ) -> Option<Place> {
        self.states.keyed().place_by(side, key, scope, guess)
    }

    /// Whether there is room for one more state once the states whose deadline has come are gone.
    pub fn room(&self, clock: Clock) -> bool
        ensures { result ≡ spec.has_room self.now.limit (spec.purged clock self.now.states) }
    {
        self.len() < self.limit || self.states.due(clock).is_some()
    }

    /// Whether there are fewer than `most` states of a filter rule, without those whose deadline has come.
    #[inline]
    pub fn rule_room(&self, rule: RuleNumber, most: u32, clock: Clock) -> bool
        ensures { result ≡ spec.has_rule_room rule.0 most (spec.purged clock self.now.states) }
    {
        self.states.rule_room(rule, most, clock)
    }

    /// Of the states whose deadline has come the one with the least deadline; of equal deadlines the one with the least
    /// number.
    #[inline]
    pub fn due(&self, clock: Clock) -> Option<State>
        ensures { result ≡ spec.due clock self.now.states }
    {
        self.states.due(clock)
    }

    /// The state with the least number.
    pub fn first(&self) -> Option<State>
        ensures { result ≡ spec.first self.now.states }
    {
        self.states.first()
    }

    /// The state with the least number above `number`.
    pub fn after(&self, number: StateNumber) -> Option<State>
        ensures { result ≡ spec.after number self.now.states }
    {
        self.states.after(number)
    }

    /// The state with a number.
    pub fn get(&self, number: StateNumber) -> Option<State>
        ensures { result ≡ spec.state_of number self.now.states }
    {
        self.states.get(number).copied()
    }

    /// Settles the deadlines that have come at a clock, so that [`Table::due`] and [`Table::room`] answer at once for
    /// this clock and for earlier ones. The states stay as they are. It may take memory for deadlines that come up; if
    /// memory is refused, some aren't settled.
    ///
    /// A state whose deadline moves later isn't moved among the deadlines at once: it is looked at again when the
    /// deadline by which it waited comes. Without settling at a clock, `due` may have to look at all deadlines.
    pub fn settle(&mut self, clock: Clock)
        ensures { self.new ≡ self.old }
    {
        self.states.settle(clock);
    }

    /// Takes out the states whose deadline has come.
    pub fn purge(&mut self, clock: Clock)
        ensures states { self.new.states ≡ spec.purged clock self.old.states }
        ensures limit { self.new.limit ≡ self.old.limit }
    {
        self.states.purge(clock);
    }

    /// Adds a new state.
    fn make(&mut self, state: &State) -> Result<(), TableError>
        ensures done { OnOk result (self.new.states ≡ spec.with_change (Made state.now) self.old.states) }
        ensures allowed { OnOk result (spec.refusal (Made state.now) self.old.limit self.old.states ≡ None) }
        ensures refused { IfErr result (λ e. e ≢ Memory → spec.refusal (Made state.now) self.old.limit self.old.states ≡ Some e) }
        ensures kept { OnErr result (self.new ≡ self.old) }
        ensures limit { self.new.limit ≡ self.old.limit }
    {
        if self.states.shares_key(state) {
            return Err(TableError::KeyTaken);
        }
        if self.len() >= self.limit {
            return Err(TableError::Full);
        }
        self.states.put(state)?;
        Ok(())
    }

    /// Puts a state in place of the one with its number, as a packet leaves it; its keys may have changed.
    fn move_state(&mut self, state: &State) -> Result<(), TableError>
        ensures done { OnOk result (self.new.states ≡ spec.with_change (Touched state.now) self.old.states) }
        ensures allowed { OnOk result (spec.refusal (Touched state.now) self.old.limit self.old.states ≡ None) }
        ensures refused { IfErr result (λ e. e ≢ Memory → spec.refusal (Touched state.now) self.old.limit self.old.states ≡ Some e) }
        ensures kept { OnErr result (self.new ≡ self.old) }
        ensures limit { self.new.limit ≡ self.old.limit }
    {
        if self.states.another_shares_key(state) {
            return Err(TableError::KeyTaken);
        }
        self.states.replace(state)?;
        Ok(())
    }

    /// Puts a state in place of the one with its number, as a packet leaves it. It may stand at the place that is
    /// named.
    fn touch(&mut self, state: &State, place: Option<Place>) -> Result<(), TableError>
        ensures done { OnOk result (self.new.states ≡ spec.with_change (Touched state.now) self.old.states) }
        ensures allowed { OnOk result (spec.refusal (Touched state.now) self.old.limit self.old.states ≡ None) }
        ensures refused { IfErr result (λ e. e ≢ Memory → spec.refusal (Touched state.now) self.old.limit self.old.states ≡ Some e) }
        ensures kept { OnErr result (self.new ≡ self.old) }
        ensures limit { self.new.limit ≡ self.old.limit }
    {
        let place = match place {
            Some(place) => Some(place),
            None => {
                let keyed = self.states.keyed();
                keyed.place_at(Side::Wire, &state.wire, state.rules.binding)
            }
        };
        if let Some(place) = place {
            if self.states.renew(state, place)? {
                return Ok(());
            }
        }
        self.move_state(state)
    }

    /// Takes the state with a number out.
    fn remove(&mut self, number: StateNumber)
        ensures states { self.new.states ≡ spec.with_change (Removed number) self.old.states }
        ensures limit { self.new.limit ≡ self.old.limit }
    {
        self.states.remove(number);
    }

    /// Makes a change. If it is refused, the table stays as it was. The first reason is a key that another state has on
    /// an interface to which both are bound; the second is too many states. States count until they are purged, whether
    /// their deadline has come or not. A made or touched state may be refused memory. A removal is never refused. If no
    /// state has the number of a touched or removed one, the table stays as it was.
    pub fn apply(&mut self, change: TableChange) -> Result<(), TableError>
        ensures done { OnOk result (self.new.states ≡ spec.with_change change self.old.states) }
        ensures allowed { OnOk result (spec.refusal change self.old.limit self.old.states ≡ None) }
        ensures refused { IfErr result (λ e. e ≢ Memory → spec.refusal change self.old.limit self.old.states ≡ Some e) }
        ensures kept { OnErr result (self.new ≡ self.old) }
        ensures limit { self.new.limit ≡ self.old.limit }
        ensures removes { (number : StateNumber) → change ≡ Removed number → IsOk result }
    {
        self.take_over(&change, None)
    }

    /// What [`Table::apply`] does, with a change by reference, because a state is large. If a place is named, a touched
    /// state is looked for there, which saves a search. The place is a mere hint.
    pub fn take_over(
        &mut self,
        change: &TableChange,
        place: Option<Place>,
    ) -> Result<(), TableError>
        ensures done { OnOk result (self.new.states ≡ spec.with_change change.now self.old.states) }
        ensures allowed { OnOk result (spec.refusal change.now self.old.limit self.old.states ≡ None) }
        ensures refused { IfErr result (λ e. e ≢ Memory → spec.refusal change.now self.old.limit self.old.states ≡ Some e) }
        ensures kept { OnErr result (self.new ≡ self.old) }
        ensures limit { self.new.limit ≡ self.old.limit }
        ensures removes { (number : StateNumber) → change.now ≡ Removed number → IsOk result }
    {
        match change {
            TableChange::Made(state) => self.make(state),
            TableChange::Touched(state) => self.touch(state, place),
            TableChange::Removed(number) => {
                self.remove(*number);
                Ok(())
            }
        }
    }
}
