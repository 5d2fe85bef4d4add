//! Events of states.
use pfr_track::{Clock, State};

/// What happened to a state.
#[derive(Clone, Copy, Debug, PartialEq, Eq)]
pub enum EventKind {
    Made,
    Touched,
    Removed,
}

/// What happened to a state, and at which clock.
#[derive(Clone, Copy)]
pub struct Event {
    pub kind: EventKind,
    /// The state after the event; a removed state as it was before.
    pub state: State,
    pub clock: Clock,
}
