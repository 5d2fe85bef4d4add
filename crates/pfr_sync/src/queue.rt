//! The open message.
ghost use Rattle.std.specs.Prelude.{◌≡◌, ◌≤◌, ◌<◌, [], length, IfOk, OnOk, OnErr};
ghost use Rattle.std.specs.Option.{option_to_list};
ghost use Rattle.pfr_sync.specs.Events.{event_of};
ghost use Rattle.pfr_sync.specs.Messages as messages;
ghost use Rattle.pfr_sync.specs.Queues as spec;

use crate::edit::{apply, begun, edit_of, start};
use crate::entries::Entries;
use crate::event::{Event, EventKind};
use crate::names::plain_names;
use crate::origin::Origin;
use crate::sizes::{Counts, exchanged, has_room, one_of};
use crate::telling::message_of;
use pfr_messages::Message;
use pfr_net::IfName;
use pfr_track::{Clock, State};
use std::alloc::{AllocError, Global};
use std::marker::Model;

/// What a message tells a standby to do with a state.
#[derive(Clone, Copy, Debug, PartialEq, Eq)]
pub enum Action {
    /// The state was made.
    Insert,
    /// The state changed.
    Update,
    /// The state was removed.
    Delete,
}

/// A state of which the open message tells.
// The state is the first field: a copy of it is aligned as the state itself.
#[derive(Clone, Copy)]
pub struct QueuedState {
    pub state: State,
    pub action: Action,
}

/// What the open message tells so far, one entry per state. In contracts the entries stand by rising state number.
///
/// Events come in the order of their clocks. An event of a later clock closes the open message first, at the message's own clock.
#[derive(Drop)]
pub struct Queue {
    alloc: Global,
    origin: Origin,
    /// The clock of the last event: the open message's, if anything is told.
    clock: Clock,
    entries: Entries,
    /// The number of entries of each kind.
    counts: Counts,
}

impl Model for Queue {
    ghost use Rattle.std.specs.Prelude.{◌≡◌};
    ghost use Rattle.pfr_sync.specs.Queues.{IsQueue, Queued};
    ghost use Rattle.pfr_sync.specs.Sizes.{counts_of};

    ghost Value = { Queued };

    ghost view = { λ q. record { origin = q.origin; clock = q.clock; entries = q.entries } };

    ghost invariant = { λ q. IsQueue q.origin q.entries × (q.counts ≡ counts_of q.entries) };
}

impl Queue {
    /// A queue in which nothing is told yet. It takes memory only once something is. Its messages name interfaces by their places in
    /// `interfaces`, of which the first eight count.
    pub fn new(alloc: Global, interfaces: &[IfName], checksum: [u8; 16], creator: u32) -> Queue
        ensures { result ≡ spec.new_queue (record { interfaces = spec.plain_names interfaces.now; checksum = checksum; creator = creator }) }
    {
        Queue {
            alloc,
            origin: Origin {
                interfaces: plain_names(interfaces),
                checksum,
                creator,
            },
            clock: Clock(0),
            entries: Entries::new(alloc),
            counts: one_of(None),
        }
    }

    /// The number of states that the open message tells of.
    pub fn len(&self) -> usize
        ensures count { result ≡ length self.now.entries }
        ensures few { result ≤ 121 }
    {
        self.entries.len()
    }

    /// Takes an event, and returns the message that closes before it, if one does: an event of a later clock closes the open message,
    /// and so does one for which the message has no room. If memory is refused nothing changes.
    pub fn add(&mut self, event: &Event) -> Result<Option<Message>, AllocError>
        ensures message { IfOk result (λ message. option_to_list message ≡ spec.closed_before self.old event.now) }
        ensures entries { OnOk result (self.new.entries ≡ spec.after self.old event.now) }
        ensures clock { OnOk result (self.new.clock ≡ event.now.clock) }
        ensures origin { self.new.origin ≡ self.old.origin }
        ensures kept { OnErr result (self.new ≡ self.old) }
        // for every list of events that the queue tells: it then tells the longer list, and the message is what that list closes
        ensures events { IfOk result (λ message. spec.Takes self.old event.now self.new (option_to_list message)) }
    {
        self.tell(event.kind, &event.state, event.clock)
    }

    /// Does what [`Queue::add`] does, with the parts of an event: a state is large, and stays where it is.
    pub fn tell(
        &mut self,
        kind: EventKind,
        state: &State,
        clock: Clock,
    ) -> Result<Option<Message>, AllocError>
        ensures message { IfOk result (λ message. option_to_list message ≡ spec.closed_before self.old (event_of kind state.now clock)) }
        ensures entries { OnOk result (self.new.entries ≡ spec.after self.old (event_of kind state.now clock)) }
        ensures clock { OnOk result (self.new.clock ≡ clock) }
        ensures origin { self.new.origin ≡ self.old.origin }
        ensures kept { OnErr result (self.new ≡ self.old) }
        // for every list of events that the queue tells, as above
        ensures events { IfOk result (λ message. spec.Takes self.old (event_of kind state.now clock) self.new (option_to_list message)) }
    {
        if self.has_older(clock) {
            return self.restart(self.clock, kind, state, clock);
        }
        let edit = edit_of(&self.entries, kind, state);
        let counts = exchanged(self.counts, edit.old, edit.new);
        if !has_room(counts) {
            return self.restart(clock, kind, state, clock);
        }
        apply(&mut self.entries, edit, state)?;
        self.counts = counts;
        self.clock = clock;
        Ok(None)
    }

    /// Whether something is told that is older than a clock.
    fn has_older(&self, clock: Clock) -> bool
        ensures { result ≡ spec.has_older self.now clock }
    {
        self.entries.len() > 0 && self.clock.0 < clock.0
    }

    /// Closes the open message at the clock `end`, and begins the next one with an event alone. If memory is refused nothing changes.
    fn restart(
        &mut self,
        end: Clock,
        kind: EventKind,
        state: &State,
        clock: Clock,
    ) -> Result<Option<Message>, AllocError>
        requires { 0 < length self.old.entries }
        ensures restarts { IfOk result (λ message. spec.Restarts self.old end (event_of kind state.now clock) self.new (option_to_list message)) }
        ensures origin { self.new.origin ≡ self.old.origin }
        ensures kept { OnErr result (self.new ≡ self.old) }
    {
        let message = message_of(self.alloc, &self.origin, end, &self.entries, self.counts)?;
        let action = begun(kind);
        start(&mut self.entries, action, state);
        self.counts = one_of(Some(action));
        self.clock = clock;
        Ok(message)
    }

    /// Closes the open message at its clock, and returns it if anything is told. If memory is refused nothing changes.
    pub fn close(&mut self, clock: Clock) -> Result<Option<Message>, AllocError>
        ensures message { IfOk result (λ message. option_to_list message ≡ messages.messages_by self.old.origin clock self.old.entries) }
        ensures entries { OnOk result (self.new.entries ≡ []) }
        ensures origin { self.new.origin ≡ self.old.origin }
        ensures kept { OnErr result (self.new ≡ self.old) }
        // for every list of events whose open part the queue has: the message is what a later clock closes, and the list's last one
        ensures later { IfOk result (λ message. spec.ClosesLater self.old clock self.new (option_to_list message)) }
        ensures last { IfOk result (λ message. spec.ClosesLast self.old clock (option_to_list message)) }
    {
        let message = message_of(self.alloc, &self.origin, clock, &self.entries, self.counts)?;
        self.entries.truncate(0);
        self.counts = one_of(None);
        Ok(message)
    }
}
