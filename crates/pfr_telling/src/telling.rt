//! What a standby is told of a packet.
ghost use Rattle.std.specs.Prelude.{◌≡◌, ◌≤◌, None, Some, IfOk, IfSome, OnOk};
ghost use Rattle.pfr_states.specs.declared.change.TableChange.TheVariants.{Removed};
ghost use Rattle.pfr_states.specs.States.{purged, refusal, with_change};
ghost use Rattle.pfr_sync.specs.Queues.{new_queue, plain_names};
ghost use Rattle.pfr_telling.specs.Telling as spec;

use pfr_net::IfName;
use pfr_states::laws::{a_purge_goes_state_by_state, due_is_the_first};
use pfr_states::{Place, Table, TableChange, TableError};
use pfr_sync::{EventKind, Message, Queue};
use pfr_track::{Clock, State, StateNumber};
use std::alloc::{AllocError, Global};

/// What a standby is told.
#[derive(Drop)]
pub struct Telling {
    pub(crate) queue: Queue,
    /// The messages that the current packet has closed.
    pub closed: Vec<Message>,
}

/// Removes a state from a table, and settles what is due next at a clock.
fn remove(table: &mut Table, number: StateNumber, clock: Clock)
    ensures { table.new ≡ record { states = with_change (Removed number) table.old.states; limit = table.old.limit } }
{
    // a removal takes no memory
    let _ = table.apply(TableChange::Removed(number));
    table.settle(clock);
}

/// Applies a packet's change to a table. `place` may name the place of a state that is touched.
fn apply(table: &mut Table, change: &TableChange, place: Option<Place>) -> Result<(), AllocError>
    requires { refusal change.now table.old.limit table.old.states ≡ None }
    ensures { OnOk result (table.new ≡ record { states = with_change change.now table.old.states; limit = table.old.limit }) }
{
    match table.take_over(change, place) {
        Ok(()) => Ok(()),
        Err(TableError::Memory) => Err(AllocError),
        Err(TableError::KeyTaken) => unreachable!(),
        Err(TableError::Full) => unreachable!(),
    }
}

impl Telling {
    ghost use Rattle.pfr_telling.specs.Telling.{BeginsAt, ClosesBefore, ClosesOpen, TellsChange, TellsEvent, TellsPurge};

    /// Nothing is told yet. Messages name interfaces, by their places, the checksum of the rules and the firewall's number. Of the
    /// interfaces the first eight count.
    pub fn new(alloc: Global, interfaces: &[IfName], checksum: [u8; 16], creator: u32) -> Telling
        ensures queue { result.queue ≡ new_queue (record { interfaces = plain_names interfaces.now; checksum = checksum; creator = creator }) }
    {
        Telling {
            queue: Queue::new(alloc, interfaces, checksum, creator),
            closed: Vec::new(alloc),
        }
    }

    /// Begins with the next packet, at the clock `later`. If that is above the last one, the open message is closed.
    pub fn begin(&mut self, clock: Clock, later: Clock) -> Result<(), AllocError>
        requires { clock.0 ≤ later.0 }
        ensures told { OnOk result (BeginsAt clock later self.old self.new) }
        ensures origin { self.new.queue.origin ≡ self.old.queue.origin }
    {
        self.closed.clear();
        self.close_before(clock, later)
    }

    /// Tells an event of a state, unless its rule says `no-sync`.
    fn tell(&mut self, kind: EventKind, state: &State, clock: Clock) -> Result<(), AllocError>
        ensures told { OnOk result (TellsEvent (record { kind = kind; state = state.now; clock = clock }) self.old self.new) }
        ensures origin { self.new.queue.origin ≡ self.old.queue.origin }
    {
        if !state.rules.is_synchronised {
            return Ok(());
        }
        if let Some(message) = self.queue.tell(kind, state, clock)? {
            self.closed.push(message)?;
        }
        Ok(())
    }

    /// Closes the open message at its clock if the next clock is later.
    fn close_before(&mut self, clock: Clock, later: Clock) -> Result<(), AllocError>
        requires { clock.0 ≤ later.0 }
        ensures told { OnOk result (ClosesBefore clock later self.old self.new) }
        ensures origin { self.new.queue.origin ≡ self.old.queue.origin }
    {
        if clock < later {
            if let Some(message) = self.queue.close(clock)? {
                self.closed.push(message)?;
            }
        }
        Ok(())
    }

    /// Removes the states whose deadline has come, one after the other, and tells of each.
    pub fn purge(&mut self, table: &mut Table, clock: Clock) -> Result<(), AllocError>
        ensures table { OnOk result (table.new ≡ record { states = purged clock table.old.states; limit = table.old.limit }) }
        ensures told { OnOk result (TellsPurge clock table.old.states table.new.states self.old self.new) }
        ensures origin { self.new.queue.origin ≡ self.old.queue.origin }
    {
        // the state that is due first is in the table, and a purge removes it until none is due
        due_is_the_first();
        a_purge_goes_state_by_state();
        // a call on the table gives the prover its invariant
        let _ = table.len();
        while let Some(state) = table.due(clock) {
            self.tell(EventKind::Removed, &state, clock)?;
            remove(table, state.number, clock);
        }
        Ok(())
    }

    /// Tells of a change before it is applied to the table.
    fn tell_change(
        &mut self,
        table: &Table,
        clock: Clock,
        change: &TableChange,
    ) -> Result<(), AllocError>
        ensures told { OnOk result (TellsChange clock (Some change.now) table.now.states self.old self.new) }
        ensures origin { self.new.queue.origin ≡ self.old.queue.origin }
    {
        match change {
            TableChange::Made(state) => self.tell(EventKind::Made, state, clock),
            TableChange::Touched(state) => self.tell(EventKind::Touched, state, clock),
            TableChange::Removed(number) => match table.get(*number) {
                Some(state) => self.tell(EventKind::Removed, &state, clock),
                None => Ok(()),
            },
        }
    }

    /// Tells of a packet's change, and applies it to the table. `place` may name the place of a state that is touched: a hint, which
    /// may be wrong.
    pub fn change(
        &mut self,
        table: &mut Table,
        clock: Clock,
        change: &Option<TableChange>,
        place: Option<Place>,
    ) -> Result<(), AllocError>
        requires { IfSome change.now (λ change. refusal change table.old.limit table.old.states ≡ None) }
        ensures table { OnOk result (table.new ≡ spec.changed change.now table.old) }
        ensures told { OnOk result (TellsChange clock change.now table.old.states self.old self.new) }
        ensures origin { self.new.queue.origin ≡ self.old.queue.origin }
    {
        let Some(change) = change else {
            return Ok(());
        };
        self.tell_change(table, clock, change)?;
        apply(table, change, place)
    }

    /// Closes the open message at the end of a run, and returns it if anything is told.
    pub fn close(&mut self, clock: Clock) -> Result<Option<Message>, AllocError>
        ensures { IfOk result (λ message. ClosesOpen clock self.old message) }
    {
        self.queue.close(clock)
    }
}
