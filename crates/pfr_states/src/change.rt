//! Questions to a table, and changes of it.
ghost use Rattle.std.specs.Prelude.{◌≡◌};

use pfr_track::{Clock, State, StateNumber};
use std::alloc::AllocError;
use std::marker::Model;
use std::snapshot::Snapshot;
use thiserror::Error;

/// The sides of the firewall on which packets are looked up: packets that come in on the wire, packets that go out on
/// the stack.
#[derive(Clone, Copy, Debug, PartialEq, Eq, Hash)]
pub enum Side {
    Wire,
    Stack,
}

/// What a packet changes in the table.
#[derive(Clone, Copy)]
pub enum TableChange {
    /// A new state.
    Made(State),
    /// A state as a packet leaves it.
    Touched(State),
    /// The state with this number is no more.
    Removed(StateNumber),
}

/// One thing that a packet does to the table.
#[derive(Clone, Copy)]
pub enum Change {
    /// The states whose deadline has come at this clock go.
    Purge(Clock),
    /// The table makes this change.
    Apply(TableChange),
}

/// A change that the proofs alone see. A running program has one byte for it, as a list of elements without a size
/// can't be gone through.
#[derive(Drop)]
pub struct KnownChange {
    change: Snapshot<Change>,
    byte: u8,
}

impl Model for KnownChange {
    ghost use Rattle.pfr_states.specs.declared.change.Change.{Change};

    ghost Value = { Change };

    ghost view = { λ known. known.change.value };
}

impl KnownChange {
    /// A change, as the proofs know it.
    #[inline]
    pub fn of(change: &Change) -> KnownChange
        ensures { result ≡ change.now }
    {
        KnownChange {
            change: Snapshot::of(change),
            byte: 0,
        }
    }

    /// What the proofs know.
    #[inline]
    pub fn snapshot(&self) -> &Snapshot<Change>
        ensures { result.now.value ≡ self.now }
    {
        &self.change
    }
}

/// Why a table refuses a change.
#[derive(Clone, Copy, Debug, PartialEq, Eq, Error)]
pub enum TableError {
    /// Another state has one of the state's keys, on an interface to which both are bound.
    #[error("key taken")]
    KeyTaken,
    /// The table has as many states as its limit allows.
    #[error("full")]
    Full,
    #[error("no memory")]
    Memory,
}

impl From<AllocError> for TableError {
    ghost use Rattle.std.specs.Prelude.{◌≡◌};
    ghost use Rattle.pfr_states.specs.declared.change.TableError.TheVariants.{Memory};

    ghost from_gives = { λ _ e. e ≡ Memory };

    fn from(_refused: AllocError) -> TableError {
        TableError::Memory
    }
}
