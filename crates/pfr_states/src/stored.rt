//! States at their places, and the deadlines by which they wait.
use pfr_places::Place;
use pfr_track::{Deadline, State};

/// A state, with the deadline by which it waits, which isn't later than its own.
#[derive(Clone, Copy)]
pub(crate) struct Stored {
    pub(crate) state: State,
    pub(crate) waits: Deadline,
}

/// A state that is found, with its place: a hint for the next change of the state.
#[derive(Clone, Copy)]
pub struct Found<'a> {
    pub state: &'a State,
    pub place: Place,
}
