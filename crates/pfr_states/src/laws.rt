//! Laws of the definitions, each the contract of a function that does nothing.
ghost use Rattle.std.specs.Prelude.{◌≡◌, ◌≤◌, List, [], None, true};
ghost use Rattle.std.specs.List.{Contains};
ghost use Rattle.pfr_track.specs.declared.state.State.{State};
ghost use Rattle.pfr_track.specs.declared.time.Clock.{Clock};
ghost use Rattle.pfr_states.specs.Laws.{AnswersDue, BoundElsewhereSayNothing, DueGoesFirst, OneStateLess, OtherRulesSayNothing, PurgeLeavesRoom, PurgeLeavesTheSame, RemovalLeavesATable};
ghost use Rattle.pfr_states.specs.States.{IsTable, StateTable, all_due, due, purged, shares_key};

/// States that are purged at a clock are purged at a later one as well: to purge at both is to purge at the later.
pub fn purge_twice_is_purge_at_the_later()
    ensures { (states : List State) (first later : Clock) → first.0 ≤ later.0 → purged later (purged first states) ≡ purged later states }
{}

/// No two states of a table that are bound to one interface have the same key on the wire, or the same key on the
/// stack.
pub fn one_state_answers_a_key()
    ensures { (table : StateTable) (a b : State) → IsTable table → Contains table.states a → Contains table.states b → shares_key a b ≡ true → a ≡ b }
{}

/// A state that is bound elsewhere doesn't matter to a look-up for an interface: whether it is there or not, the answer
/// is the same.
pub fn states_bound_elsewhere_say_nothing()
    ensures { BoundElsewhereSayNothing }
{}

/// The state that is due is one whose deadline has come, and no other such state goes before it. If no state is due, no
/// deadline has come.
pub fn due_is_the_first()
    ensures { (states : List State) (clock : Clock) → AnswersDue clock states (due clock states) }
{}

/// To take out the state that is due, one after the other until none is, is to purge. The states go in the order in
/// which they are due.
pub fn a_purge_goes_state_by_state()
    // what is due first is the first of them, and the others are those of the table without it
    ensures next { DueGoesFirst }
    // a purge of that table leaves what a purge leaves
    ensures kept { PurgeLeavesTheSame }
    // that table is a table and has one state less
    ensures table { RemovalLeavesATable }
    ensures fewer { OneStateLess }
    // if nothing is due, nothing is left to take out
    ensures over { (states : List State) (clock : Clock) → due clock states ≡ None → (all_due clock states ≡ []) × (purged clock states ≡ states) }
{}

/// The states of other rules don't matter to a rule's room, and a purge leaves a rule its room.
pub fn room_of_a_rule_is_its_own()
    ensures others { OtherRulesSayNothing }
    ensures purged { PurgeLeavesRoom }
{}
