//! Messages.
ghost use Rattle.std.specs.Prelude.{◌≡◌};
ghost use Rattle.pfr_messages.specs.Messages as spec;

use crate::records::{Deletion, Insertion, Update};
use std::marker::Model;

/// What a standby is told at once. Contracts see what it says.
///
/// It always has a spelling: it is about some state; numbers rise within each kind of records; codes and numbers are
/// such as states have; it has at most 1480 bytes.
#[derive(Drop)]
pub struct Message {
    checksum: [u8; 16],
    insertions: Vec<Insertion>,
    updates: Vec<Update>,
    deletions: Vec<Deletion>,
}

impl Model for Message {
    ghost use Rattle.pfr_messages.specs.Messages.{Content, Fits};

    ghost Value = { Content };

    ghost view = { λ m. record { checksum = m.checksum; insertions = m.insertions.items; updates = m.updates.items; deletions = m.deletions.items } };

    ghost invariant = { λ m. Fits (record { checksum = m.checksum; insertions = m.insertions.items; updates = m.updates.items; deletions = m.deletions.items }) };
}

impl Message {
    /// The message of these records under the checksum of a ruleset's text.
    pub fn new(
        checksum: [u8; 16],
        insertions: Vec<Insertion>,
        updates: Vec<Update>,
        deletions: Vec<Deletion>,
    ) -> Message
        requires { spec.Fits (record { checksum = checksum; insertions = insertions.items; updates = updates.items; deletions = deletions.items }) }
        ensures { result ≡ record { checksum = checksum; insertions = insertions.items; updates = updates.items; deletions = deletions.items } }
    {
        Message {
            checksum,
            insertions,
            updates,
            deletions,
        }
    }

    /// A message has a spelling, of at most 1480 bytes. This does nothing: its contract says so.
    pub fn has_spelling(&self)
        ensures { spec.Fits self.now }
    {
        let _checksum = &self.checksum;
    }

    /// The checksum of the ruleset's text.
    pub fn checksum(&self) -> &[u8; 16]
        ensures { result.now ≡ self.now.checksum }
    {
        &self.checksum
    }

    /// The states that came to be, by rising number.
    pub fn insertions(&self) -> &[Insertion]
        ensures { result.now ≡ self.now.insertions }
    {
        &self.insertions
    }

    /// The states that moved on, by rising number.
    pub fn updates(&self) -> &[Update]
        ensures { result.now ≡ self.now.updates }
    {
        &self.updates
    }

    /// The states that are gone, by rising number.
    pub fn deletions(&self) -> &[Deletion]
        ensures { result.now ≡ self.now.deletions }
    {
        &self.deletions
    }
}
