//! What packets add to the outputs of a run.
ghost use Rattle.std.specs.Prelude.{◌≡◌, [], ◌++◌, length, take, IfSome, OnSome, OnOk, OnErr, None};
ghost use Rattle.std.specs.Option.{option_map, option_map_or};
ghost use Rattle.pfr_headers.specs.declared.packet.View.TheVariants.{Ipv4};
ghost use Rattle.pfr_headers.specs.View.{view_of};
ghost use Rattle.pfr_states.specs.States.{due};
ghost use Rattle.pfr_commit.specs.Emissions.{AddsRecord, changes_by, held_changes, items_of, line_text, purges_at, texts_of, with_more};
ghost use Rattle.pfr_commit.specs.World as spec;

use crate::changes::Changes;
use crate::packet_texts::{PacketTexts, room_for};
use crate::verdict_line::VerdictLine;
use pfr_capture::Record;
use pfr_states::{Table, TableChange};
use pfr_sync::Message;
use pfr_track::Clock;
use std::alloc::{AllocError, Global};

/// What packets add to the outputs: their verdict lines, the records of those that aren't blocked, and the messages to
/// a standby that they close. It may also hold what they did to the table of states.
#[derive(Drop)]
pub struct Emitted {
    pub verdicts: Vec<u8>,
    /// By the places of the interfaces on which the packets are.
    pub packets: PacketTexts,
    pub messages: Vec<Message>,
    /// What they did to the table, if that is requested.
    pub changes: Option<Changes>,
}

/// Appends what a packet did to the table, if that is requested: a purge, and the packet's change. If memory is refused
/// nothing changes.
fn put_changes(
    changes: &mut Option<Changes>,
    purge: Option<Clock>,
    change: &Option<TableChange>,
) -> Result<(), AllocError>
    ensures done { OnOk result (items_of changes.new ≡ with_more (items_of changes.old) (changes_by purge change.now)) }
    ensures kept { OnErr result (items_of changes.new ≡ items_of changes.old) }
{
    match changes {
        Some(changes) => changes.put(purge, change),
        None => Ok(()),
    }
}

/// How many changes there are: none if they aren't requested.
fn count_of(changes: &Option<Changes>) -> usize
    ensures { result ≡ option_map_or (λ it. length it.1) (items_of changes.now) 0 }
{
    match changes {
        Some(changes) => changes.len(),
        None => 0,
    }
}

/// Keeps the first `count` changes.
fn cut_changes(changes: &mut Option<Changes>, count: usize)
    ensures { items_of changes.new ≡ option_map (λ it. (it.0, take count it.1)) (items_of changes.old) }
{
    if let Some(changes) = changes {
        changes.truncate(count);
    }
}

impl Emitted {
    /// Nothing yet. What is done to the table isn't requested.
    pub fn new(alloc: Global) -> Emitted
        ensures texts { texts_of result ≡ spec.no_texts }
        ensures changes { result.changes ≡ None }
    {
        Emitted {
            verdicts: Vec::new(alloc),
            packets: PacketTexts::new(alloc),
            messages: Vec::new(alloc),
            changes: None,
        }
    }

    /// Nothing yet, with room for `verdicts` bytes of verdict lines, and for `packets[place]` bytes of records at each
    /// place. If that is refused, room is made as they come. What is done to the table isn't requested.
    pub fn with_room(alloc: Global, verdicts: usize, packets: &[usize]) -> Emitted
        ensures texts { texts_of result ≡ spec.no_texts }
        ensures changes { result.changes ≡ None }
    {
        Emitted {
            verdicts: room_for(alloc, verdicts),
            packets: PacketTexts::with_room(alloc, packets),
            messages: Vec::new(alloc),
            changes: None,
        }
    }

    /// Forgets all, and keeps the room. Changes of the table are still requested if they were.
    pub fn clear(&mut self)
        ensures texts { texts_of self.new ≡ spec.no_texts }
        ensures changes { held_changes self.new ≡ option_map (λ it. (it.0, [])) (held_changes self.old) }
    {
        self.verdicts.clear();
        self.packets.clear();
        self.messages.clear();
        cut_changes(&mut self.changes, 0);
    }

    /// The clock of the purge, if a purge at `clock` removes a state of the table. If no changes are requested it isn't
    /// looked for.
    pub(crate) fn purge_at(&self, table: &Table, clock: Clock) -> Option<Clock>
        ensures { OnSome self.now.changes (purges_at result ≡ spec.purge_by clock (due clock table.now.states)) }
    {
        if self.changes.is_none() {
            return None;
        }
        match table.due(clock) {
            Some(_) => Some(clock),
            None => None,
        }
    }

    /// Appends a line and messages, and takes the messages. If memory is refused nothing changes.
    fn put_texts(
        &mut self,
        line: &VerdictLine<'_>,
        messages: &mut Vec<Message>,
    ) -> Result<(), AllocError>
        ensures verdicts { OnOk result (self.new.verdicts.items ≡ self.old.verdicts.items ++ line_text line.now) }
        ensures messages { OnOk result (self.new.messages.items ≡ self.old.messages.items ++ messages.old.items) }
        ensures kept { OnErr result (texts_of self.new ≡ texts_of self.old) }
        ensures packets { self.new.packets ≡ self.old.packets }
        ensures changes { self.new.changes ≡ self.old.changes }
    {
        let start = self.verdicts.len();
        line.put(&mut self.verdicts)?;
        if let Err(refused) = self.messages.append(messages) {
            self.verdicts.truncate(start);
            return Err(refused);
        }
        Ok(())
    }

    /// Appends what is written of a packet: its line, its record and the messages that it closed, which it takes. If
    /// memory is refused nothing changes.
    fn put_written(
        &mut self,
        line: &VerdictLine<'_>,
        packet: &Record,
        messages: &mut Vec<Message>,
    ) -> Result<(), AllocError>
        requires { IfSome line.now.outcome.now.bytes (λ change. view_of packet.now.link packet.now.bytes.items ≡ Ipv4 change.packet) }
        ensures verdicts { OnOk result (self.new.verdicts.items ≡ self.old.verdicts.items ++ line_text line.now) }
        ensures packets { OnOk result (AddsRecord self.old.packets self.new.packets packet.now line.now.outcome.now) }
        ensures messages { OnOk result (self.new.messages.items ≡ self.old.messages.items ++ messages.old.items) }
        ensures kept { OnErr result (texts_of self.new ≡ texts_of self.old) }
        ensures changes { self.new.changes ≡ self.old.changes }
    {
        let place = usize::from(packet.place);
        let start = self.packets.len_at(place);
        self.packets.put(packet, line.outcome)?;
        if let Err(refused) = self.put_texts(line, messages) {
            self.packets.truncate_at(place, start);
            return Err(refused);
        }
        Ok(())
    }

    /// Appends what a packet adds: its line, its record and the messages that it closed, which it takes. If changes are
    /// requested, it also appends what the packet did to the table: a purge and its own change. If memory is refused
    /// nothing changes.
    pub(crate) fn put(
        &mut self,
        line: &VerdictLine<'_>,
        packet: &Record,
        purge: Option<Clock>,
        messages: &mut Vec<Message>,
    ) -> Result<(), AllocError>
        requires { IfSome line.now.outcome.now.bytes (λ change. view_of packet.now.link packet.now.bytes.items ≡ Ipv4 change.packet) }
        ensures verdicts { OnOk result (self.new.verdicts.items ≡ self.old.verdicts.items ++ line_text line.now) }
        ensures packets { OnOk result (AddsRecord self.old.packets self.new.packets packet.now line.now.outcome.now) }
        ensures messages { OnOk result (self.new.messages.items ≡ self.old.messages.items ++ messages.old.items) }
        ensures changes { OnOk result (held_changes self.new ≡ with_more (held_changes self.old) (changes_by purge line.now.outcome.now.change)) }
        ensures kept { OnErr result ((texts_of self.new ≡ texts_of self.old) × (held_changes self.new ≡ held_changes self.old)) }
    {
        let start = count_of(&self.changes);
        put_changes(&mut self.changes, purge, &line.outcome.change)?;
        if let Err(refused) = self.put_written(line, packet, messages) {
            cut_changes(&mut self.changes, start);
            return Err(refused);
        }
        Ok(())
    }
}
