//! Where states stand that changes are about to touch.
use pfr_states::{AHEAD, Change, Lookup, Place, Side, Table, TableChange};

/// For each change of a part of a list the place of the state that it touches, if that is known. Nothing depends on it.
#[derive(Clone, Copy)]
pub(crate) struct Hints {
    places: [Option<Place>; AHEAD],
}

/// The key on the wire of a state that is made or touched.
fn wire_lookup(change: &Change) -> Option<Lookup> {
    match change {
        Change::Apply(TableChange::Made(state)) => Some((
            Side::Wire,
            state.wire,
            state.rules.binding,
        )),
        Change::Apply(TableChange::Touched(state)) => Some((
            Side::Wire,
            state.wire,
            state.rules.binding,
        )),
        _ => None,
    }
}

/// The key on the stack of a state that is made. A touched one is found by its key on the wire.
fn stack_lookup(change: &Change) -> Option<Lookup> {
    match change {
        Change::Apply(TableChange::Made(state)) => Some((
            Side::Stack,
            state.stack,
            state.rules.binding,
        )),
        _ => None,
    }
}

impl Hints {
    pub(crate) fn new() -> Hints {
        Hints {
            places: [None; AHEAD],
        }
    }

    /// The hint for the change at this index of a list.
    #[inline]
    pub(crate) fn at(&self, index: usize) -> Option<Place> {
        self.places[index % AHEAD]
    }

    /// Looks up the states of the first changes, if the table is so large that reading it has to wait for memory. The
    /// keys of states that are made are looked up too: what their making reads in memory comes with the rest.
    pub(crate) fn look_up(table: &Table, changes: &[Change]) -> Hints {
        if !table.is_large() {
            return Hints::new();
        }
        let mut on_wire = [None; AHEAD];
        let mut on_stack = [None; AHEAD];
        for ((wire, stack), change) in on_wire.iter_mut().zip(on_stack.iter_mut()).zip(changes) {
            *wire = wire_lookup(change);
            *stack = stack_lookup(change);
        }
        let mut places = table.look_ahead(&on_wire);
        let others = table.look_ahead(&on_stack);
        for (place, other) in places.iter_mut().zip(others.iter()) {
            *place = place.or(*other);
        }
        Hints { places }
    }
}
