//! What an event does to the entries of the open message.
ghost use Rattle.std.specs.Prelude.{◌≡◌, ◌+◌, ◌≤◌, ◌<◌, true, length, slice_index_or, [], ◌∷◌, OnOk, OnErr, IfNone, IsSome};
ghost use Rattle.pfr_track.specs.declared.state.State.{State as S};
ghost use Rattle.pfr_track.specs.declared.time.Clock.{Clock as C};
ghost use Rattle.pfr_sync.specs.declared.queue.QueuedState.{QueuedState as N};
ghost use Rattle.pfr_sync.specs.Edits.{edited};
ghost use Rattle.pfr_sync.specs.Edits as edits;
ghost use Rattle.pfr_sync.specs.Queues.{with_entry};
ghost use Rattle.pfr_sync.specs.Queues as spec;
ghost use Rattle.pfr_sync.specs.Sizes as sizes;

use crate::entries::Entries;
use crate::event::EventKind;
use crate::queue::Action;
use pfr_track::{State, StateNumber};
use std::alloc::AllocError;

/// The action told of a state if nothing was told of it before.
pub fn begun(kind: EventKind) -> Action
    ensures { (state : S) (clock : C) → record { action = result; state = state } ≡ spec.begun (record { kind = kind; state = state; clock = clock }) }
{
    match kind {
        EventKind::Made => Action::Insert,
        EventKind::Touched => Action::Update,
        EventKind::Removed => Action::Delete,
    }
}

/// The action that follows one already told of the state; None if nothing is told any more.
fn followed(action: Action, kind: EventKind) -> Option<Action>
    ensures { (state : S) (clock : C) → edits.entry_of state result ≡ spec.followed action (record { kind = kind; state = state; clock = clock }) }
{
    let action = match (action, kind) {
        (Action::Insert, EventKind::Removed) => return None,
        (Action::Insert, _) => Action::Insert,
        (_, EventKind::Removed) => Action::Delete,
        _ => Action::Update,
    };
    Some(action)
}

/// One edit of the entries: at `place`, the action `new` replaces `old`.
#[derive(Clone, Copy)]
pub struct Edit {
    pub place: usize,
    /// The action of the entry at the place. None if that is another state's entry: then the new one goes before it.
    pub old: Option<Action>,
    /// None if nothing is told any more.
    pub new: Option<Action>,
}

/// The first place whose entry's number isn't below this one.
fn place_of(entries: &Entries, number: StateNumber) -> usize
    requires { spec.rise entries.now ≡ true }
    ensures within { result ≤ length entries.now }
    ensures entries { edits.IsPlaceOf number result entries.now }
    ensures above { (other : N) → result < length entries.now → number.0 ≤ spec.number_of (slice_index_or entries.now result other) }
{
    let mut low = 0;
    let mut high = entries.len();
    while low < high {
        let middle = low + (high - low) / 2;
        if entries.get(middle).state.number.0 < number.0 {
            low = middle + 1;
        } else {
            high = middle;
        }
    }
    low
}

/// The edit that an event makes to the entries. It doesn't depend on the clock.
pub fn edit_of(entries: &Entries, kind: EventKind, state: &State) -> Edit
    requires { spec.rise entries.now ≡ true }
    ensures entries { (clock : C) → with_entry (record { kind = kind; state = state.now; clock = clock }) entries.now ≡ edited state.now result entries.now }
    ensures within { edits.behind result.place result.old ≤ length entries.now }
    ensures gone { IfNone result.new (IsSome result.old) }
    ensures counts { sizes.Exchanges result.old result.new (sizes.counts_of entries.now) (sizes.counts_of (edited state.now result entries.now)) }
{
    let place = place_of(entries, state.number);
    if place == entries.len() || state.number.0 < entries.get(place).state.number.0 {
        Edit {
            place,
            old: None,
            new: Some(begun(kind)),
        }
    } else {
        let action = entries.get(place).action;
        Edit {
            place,
            old: Some(action),
            new: followed(action, kind),
        }
    }
}

/// Edits the entries. If memory is refused nothing changes.
pub fn apply(entries: &mut Entries, edit: Edit, state: &State) -> Result<(), AllocError>
    requires within { edits.behind edit.place edit.old ≤ length entries.old }
    requires gone { IfNone edit.new (IsSome edit.old) }
    ensures entries { OnOk result (entries.new ≡ edited state.now edit entries.old) }
    ensures kept { OnErr result (entries.new ≡ entries.old) }
{
    match edit.new {
        None => entries.remove(edit.place),
        Some(action) => {
            if edit.old.is_some() {
                entries.write(edit.place, action, state);
            } else {
                entries.insert(edit.place, action, state)?;
            }
        }
    }
    Ok(())
}

/// Replaces all entries with the one of an event.
pub fn start(entries: &mut Entries, action: Action, state: &State)
    requires { 0 < length entries.old }
    ensures { entries.new ≡ record { action = action; state = state.now } ∷ [] }
{
    entries.truncate(1);
    entries.write(0, action, state);
}
