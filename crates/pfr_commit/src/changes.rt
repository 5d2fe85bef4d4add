//! What packets did to the table of states.
ghost use Rattle.std.specs.Prelude.{◌≡◌, ◌++◌, ◌∷◌, [], length, take, OnOk, OnErr};
ghost use Rattle.pfr_states.specs.declared.change.Change.TheVariants.{Apply, Purge};
ghost use Rattle.pfr_commit.specs.Emissions.{are_kept, changes_by, listed};

use pfr_states::{Change, KnownChange, TableChange};
use pfr_track::Clock;
use std::alloc::AllocError;

/// What packets did to the table of states, one change after the other. A purge is here only if it removes a state.
#[derive(Drop)]
pub enum Changes {
    /// Each change.
    Kept(Vec<Change>),
    /// As the proofs alone know them: a program can't read them.
    Known(Vec<KnownChange>),
}

impl Changes {
    /// How many there are.
    pub fn len(&self) -> usize
        ensures { result ≡ length (listed self.now) }
    {
        match self {
            Changes::Kept(list) => list.len(),
            Changes::Known(list) => list.len(),
        }
    }

    /// Forgets all, and keeps the room.
    pub fn clear(&mut self)
        ensures none { listed self.new ≡ [] }
        ensures kind { are_kept self.new ≡ are_kept self.old }
    {
        match self {
            Changes::Kept(list) => list.clear(),
            Changes::Known(list) => list.clear(),
        }
    }

    /// Keeps the first `count`.
    pub(crate) fn truncate(&mut self, count: usize)
        ensures first { listed self.new ≡ take count (listed self.old) }
        ensures kind { are_kept self.new ≡ are_kept self.old }
    {
        match self {
            Changes::Kept(list) => list.truncate(count),
            Changes::Known(list) => list.truncate(count),
        }
    }

    /// Appends a purge. If memory is refused nothing changes.
    fn put_purge(&mut self, clock: Clock) -> Result<(), AllocError>
        ensures done { OnOk result (listed self.new ≡ listed self.old ++ Purge clock ∷ []) }
        ensures kept { OnErr result (listed self.new ≡ listed self.old) }
        ensures kind { are_kept self.new ≡ are_kept self.old }
    {
        match self {
            Changes::Kept(list) => list.push(Change::Purge(clock))?,
            Changes::Known(list) => list.push(KnownChange::of(&Change::Purge(clock)))?,
        }
        Ok(())
    }

    /// Appends a change that the table takes over. If memory is refused nothing changes.
    fn put_apply(&mut self, change: &TableChange) -> Result<(), AllocError>
        ensures done { OnOk result (listed self.new ≡ listed self.old ++ Apply change.now ∷ []) }
        ensures kept { OnErr result (listed self.new ≡ listed self.old) }
        ensures kind { are_kept self.new ≡ are_kept self.old }
    {
        match self {
            Changes::Kept(list) => list.push(Change::Apply(*change))?,
            Changes::Known(list) => list.push(KnownChange::of(&Change::Apply(*change)))?,
        }
        Ok(())
    }

    /// Appends what a packet did to the table: a purge, and the packet's change. If memory is refused nothing changes.
    pub(crate) fn put(
        &mut self,
        purge: Option<Clock>,
        change: &Option<TableChange>,
    ) -> Result<(), AllocError>
        ensures done { OnOk result (listed self.new ≡ listed self.old ++ changes_by purge change.now) }
        ensures kept { OnErr result (listed self.new ≡ listed self.old) }
        ensures kind { are_kept self.new ≡ are_kept self.old }
    {
        let start = self.len();
        if let Some(clock) = purge {
            self.put_purge(clock)?;
        }
        if let Some(change) = change {
            if let Err(refused) = self.put_apply(change) {
                self.truncate(start);
                return Err(refused);
            }
        }
        Ok(())
    }
}
