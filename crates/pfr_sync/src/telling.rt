//! The message that tells entries.
ghost use Rattle.std.specs.Prelude.{◌≡◌, true, map, IfOk};
ghost use Rattle.std.specs.Option.{option_to_list};
ghost use Rattle.std.specs.List.{All, filter, list_all};
ghost use Rattle.pfr_messages.specs.Fields.{name};
ghost use Rattle.pfr_messages.specs.Records as records;
ghost use Rattle.pfr_sync.specs.Events as events;
ghost use Rattle.pfr_sync.specs.Messages as messages;
ghost use Rattle.pfr_sync.specs.Queues.{IsQueue};

use crate::entries::Entries;
use crate::origin::Origin;
use crate::queue::Action;
use crate::records::{deletion_of, insertion_of, update_of};
use crate::sizes::Counts;
use pfr_messages::{Deletion, Insertion, Message, Update};
use pfr_track::Clock;
use std::alloc::{AllocError, Global};

/// The insertions. Room for `count` of them is made at once.
fn insertions_of(
    alloc: Global,
    origin: &Origin,
    clock: Clock,
    entries: &Entries,
    count: usize,
) -> Result<Vec<Insertion>, AllocError>
    requires { All (λ n. name.fits n ≡ true) origin.now.interfaces }
    ensures records { IfOk result (λ v. v.items ≡ map (λ entry. events.insertion_of origin.now clock entry.state) (filter messages.is_insert entries.now)) }
    ensures fits { IfOk result (λ v. list_all records.insertion.fits v.items ≡ true) }
{
    let mut found = Vec::with_capacity(alloc, count)?;
    for place in 0..entries.len() {
        let entry = entries.get(place);
        if let Action::Insert = entry.action {
            found.push(insertion_of(origin, clock, entry.state))?;
        }
    }
    Ok(found)
}

/// The updates. Room for `count` of them is made at once.
fn updates_of(
    alloc: Global,
    origin: &Origin,
    clock: Clock,
    entries: &Entries,
    count: usize,
) -> Result<Vec<Update>, AllocError>
    ensures records { IfOk result (λ v. v.items ≡ map (λ entry. events.update_of origin.now clock entry.state) (filter messages.is_update entries.now)) }
    ensures fits { IfOk result (λ v. list_all records.update.fits v.items ≡ true) }
{
    let mut found = Vec::with_capacity(alloc, count)?;
    for place in 0..entries.len() {
        let entry = entries.get(place);
        if let Action::Update = entry.action {
            found.push(update_of(origin, clock, entry.state))?;
        }
    }
    Ok(found)
}

/// The deletions. Room for `count` of them is made at once.
fn deletions_of(
    alloc: Global,
    origin: &Origin,
    entries: &Entries,
    count: usize,
) -> Result<Vec<Deletion>, AllocError>
    ensures records { IfOk result (λ v. v.items ≡ map (λ entry. events.deletion_of origin.now entry.state) (filter messages.is_delete entries.now)) }
    ensures fits { IfOk result (λ v. list_all records.deletion.fits v.items ≡ true) }
{
    let mut found = Vec::with_capacity(alloc, count)?;
    for place in 0..entries.len() {
        let entry = entries.get(place);
        if let Action::Delete = entry.action {
            found.push(deletion_of(origin, entry.state))?;
        }
    }
    Ok(found)
}

/// The message that tells entries at a clock; None if there are none. Room for `counts` records of each kind is made at once.
pub fn message_of(
    alloc: Global,
    origin: &Origin,
    clock: Clock,
    entries: &Entries,
    counts: Counts,
) -> Result<Option<Message>, AllocError>
    requires { IsQueue origin.now entries.now }
    ensures { IfOk result (λ message. option_to_list message ≡ messages.messages_by origin.now clock entries.now) }
{
    if entries.len() == 0 {
        return Ok(None);
    }
    let insertions = insertions_of(alloc, origin, clock, entries, counts.insertions)?;
    let updates = updates_of(alloc, origin, clock, entries, counts.updates)?;
    let deletions = deletions_of(alloc, origin, entries, counts.deletions)?;
    Ok(Some(Message::new(origin.checksum, insertions, updates, deletions)))
}
