//! A standby.
ghost use Rattle.std.specs.Prelude.{◌≡◌, [], if◌then◌else◌, true, Ok, OnOk, OnErr, IfErr};
ghost use Rattle.pfr_messages.specs.declared.error.SyncError.TheVariants.{Memory, UnknownState};
ghost use Rattle.pfr_standby.specs.Standby as spec;

use crate::changes::{delete_all, greatest_of, insert_all, update_all};
use crate::kept::Kept;
use crate::refusals::{deletes_unknown, some_is_held, updates_unknown};
use pfr_messages::{Message, SyncError};
use pfr_track::StateNumber;
use std::alloc::Global;
use std::collections::BTreeMap;
use std::marker::Model;

/// What a standby holds of states. Contracts see the states with their numbers, by rising number.
#[derive(Drop)]
pub struct Standby {
    states: BTreeMap<u64, Kept>,
    /// No greater number was ever inserted. A run numbers its states by rising numbers, so most insertions need no
    /// search to see that there is no such state.
    greatest: u64,
}

impl Model for Standby {
    ghost use Rattle.pfr_standby.specs.Bound.{NoneAbove};
    ghost use Rattle.pfr_standby.specs.Standby.{Standing};

    ghost Value = { Standing };

    ghost view = { λ standby. standby.states.entries };

    ghost invariant = { λ standby. NoneAbove standby.greatest standby.states.entries };
}

impl Standby {
    /// A standby that holds no state.
    pub fn new(alloc: Global) -> Standby
        ensures { result ≡ [] }
    {
        Standby {
            states: BTreeMap::new(alloc),
            greatest: 0,
        }
    }

    /// Whether a state of the number is held.
    pub(crate) fn holds(&self, number: StateNumber) -> bool
        ensures { result ≡ spec.holds number.0 self.now }
    {
        number.0 <= self.greatest && self.states.contains_key(&number.0)
    }

    /// Takes a message whole, or refuses it and stays as it was. Each record costs two searches among
    /// the states, or one if its number is greater than all that were inserted before the message.
    pub fn take(&mut self, message: &Message) -> Result<(), SyncError>
        ensures taken { OnOk result (spec.taken self.old message.now ≡ Ok self.new) }
        ensures same { OnErr result (self.new ≡ self.old) }
        // Which refusal it is.
        ensures which { IfErr result (λ refusal. refusal ≡ (if spec.refuses message.now self.old then UnknownState else Memory)) }
    {
        if some_is_held(self, message.insertions()) {
            return Err(SyncError::UnknownState);
        }
        if updates_unknown(self, message) {
            return Err(SyncError::UnknownState);
        }
        if deletes_unknown(self, message) {
            return Err(SyncError::UnknownState);
        }
        insert_all(&mut self.states, message.insertions())?;
        self.greatest = greatest_of(self.greatest, message.insertions());
        update_all(&mut self.states, message.updates());
        delete_all(&mut self.states, message.deletions());
        Ok(())
    }

    /// The states that are held, by rising number.
    pub fn states(&self) -> &BTreeMap<u64, Kept>
        ensures states { result.now.entries ≡ self.now }
        ensures rising { spec.rises self.now ≡ true }
    {
        // a call on the map gives the prover its order
        let _ = self.states.len();
        &self.states
    }
}
