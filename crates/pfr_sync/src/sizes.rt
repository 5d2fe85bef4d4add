//! The size of a message in bytes.
ghost use Rattle.std.specs.Prelude.{◌≡◌, ◌+◌, ◌≤◌};
ghost use Rattle.pfr_sync.specs.Sizes as spec;

use crate::queue::Action;

/// The number of records of each kind in a message.
#[derive(Clone, Copy)]
pub struct Counts {
    pub insertions: usize,
    pub updates: usize,
    pub deletions: usize,
}

/// The counts of one action, or of none.
pub fn one_of(action: Option<Action>) -> Counts
    ensures counts { result ≡ spec.one_of action }
    ensures one { result.insertions + (result.updates + result.deletions) ≤ 1 }
{
    let (insertions, updates, deletions) = match action {
        None => (0, 0, 0),
        Some(Action::Insert) => (1, 0, 0),
        Some(Action::Update) => (0, 1, 0),
        Some(Action::Delete) => (0, 0, 1),
    };
    Counts {
        insertions,
        updates,
        deletions,
    }
}

/// The counts after the action told of a state is replaced by another.
pub fn exchanged(counts: Counts, old: Option<Action>, new: Option<Action>) -> Counts
    requires few { counts.insertions + (counts.updates + counts.deletions) ≤ 1000 }
    requires insertions { (spec.one_of old).insertions ≤ counts.insertions + (spec.one_of new).insertions }
    requires updates { (spec.one_of old).updates ≤ counts.updates + (spec.one_of new).updates }
    requires deletions { (spec.one_of old).deletions ≤ counts.deletions + (spec.one_of new).deletions }
    ensures counts { result ≡ spec.exchanged counts old new }
    ensures few { result.insertions + (result.updates + result.deletions) ≤ 1001 }
{
    let gone = one_of(old);
    let come = one_of(new);
    Counts {
        insertions: counts.insertions + come.insertions - gone.insertions,
        updates: counts.updates + come.updates - gone.updates,
        deletions: counts.deletions + come.deletions - gone.deletions,
    }
}

fn section_size(size: usize, count: usize) -> usize
    requires size { size ≤ 242 }
    requires count { count ≤ 1001 }
    ensures { result ≡ spec.section_size size count }
{
    if count == 0 { 0 } else { 4 + size * count }
}

fn size_of(counts: Counts) -> usize
    requires { counts.insertions + (counts.updates + counts.deletions) ≤ 1001 }
    ensures { result ≡ spec.size_of counts }
{
    24 + section_size(242, counts.insertions)
        + section_size(84, counts.updates)
        + section_size(12, counts.deletions)
}

/// Whether one message has room for records of these counts.
pub fn has_room(counts: Counts) -> bool
    requires { counts.insertions + (counts.updates + counts.deletions) ≤ 1001 }
    ensures { result ≡ spec.fits counts }
{
    size_of(counts) <= 1480
}
