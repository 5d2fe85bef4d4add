//! What is added to the list of changes.
ghost use Rattle.std.specs.Prelude.{◌≡◌, ◌-◌, ◌<◌, ◌++◌, [], ◌∷◌, drop, length, IfOk, IfSome, IsTrue};
ghost use Rattle.std.specs.Arc.{arc_value};
ghost use Rattle.pfr_published.specs.Entries.{entry_at};

use crate::copy::TableNaming;
use pfr_history::{Front, History};
use pfr_states::{Change, KnownChange};
use std::alloc::{AllocError, Global};
use std::sync::Arc;

/// One thing that is done to each copy of the table.
#[derive(Drop)]
pub enum Added<J: TableNaming> {
    /// A copy takes one change over.
    OneChange(AddedChange<J>),
    /// A copy drops its table, and the list goes on to this beginning.
    Hiding(Front<J, Change>),
}

/// A change that was added, as it stands in a list that both copies read, and the beginning of the history that ends with it.
#[derive(Drop)]
pub struct AddedChange<J: TableNaming> {
    pub(crate) changes: Arc<Vec<Change>>,
    pub(crate) index: usize,
    pub(crate) front: Front<J, Change>,
    ghost inside: { index < length (arc_value changes).items },
    ghost last: { drop (length front - 1) front ≡ entry_at (arc_value changes).items index },
}

impl<J: TableNaming> AddedChange<J> {
    /// Adds one change of a list to the history, after a beginning that grows by it. It answers None if the history
    /// goes on after that beginning already, if it is as long as 64 bits can say, or if the list has too many owners.
    #[tactic(auto, using(crate::proofs::Entries::entry_is))]
    pub(crate) fn next(
        front: &mut Front<J, Change>,
        history: &History<J, Change>,
        changes: &Arc<Vec<Change>>,
        index: usize,
    ) -> Option<AddedChange<J>>
        requires { index < length (arc_value changes.now).items }
        ensures front { IfSome result (λ added. added.front ≡ front.new) }
        ensures longer { IfSome result (λ _. front.new ≡ front.old ++ entry_at (arc_value changes.now).items index) }
    {
        if !front.add(history, &changes[index]) {
            return None;
        }
        Some(AddedChange {
            changes: Arc::try_clone(changes).ok()?,
            index,
            front: front.again(),
        })
    }

    /// The change itself.
    #[inline]
    #[tactic(auto, using(crate::proofs::Entries::entry_is))]
    pub(crate) fn change(&self) -> &Change
        ensures { drop (length self.now.front - 1) self.now.front ≡ result.now ∷ [] }
    {
        &self.changes[self.index]
    }

    /// The changes of its list from this one on.
    pub(crate) fn from_here(&self) -> &[Change] {
        &self.changes[self.index..]
    }
}

/// Adds changes that the proofs alone know to the history, after a beginning that grows by them, and says whether it
/// did.
pub(crate) fn add_known<J: TableNaming>(
    front: &mut Front<J, Change>,
    history: &History<J, Change>,
    changes: &[KnownChange],
) -> bool
    ensures { IsTrue result → front.new ≡ front.old ++ changes.now }
{
    for change in changes {
        if !front.add_known(history, change.snapshot()) {
            return false;
        }
    }
    true
}

/// Changes as the proofs alone know them.
pub fn known(alloc: Global, changes: &[Change]) -> Result<Vec<KnownChange>, AllocError>
    ensures { IfOk result (λ known. known.items ≡ changes.now) }
{
    let mut known = Vec::new(alloc);
    for change in changes {
        known.push(KnownChange::of(change))?;
    }
    Ok(known)
}
