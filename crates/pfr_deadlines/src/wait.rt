//! What waits, and until when.
use pfr_places::Place;
use pfr_track::{Deadline, StateNumber};

/// A deadline, the number of the state that waits by it, and the place where that state stands.
pub type Wait = (Deadline, StateNumber, Place);
