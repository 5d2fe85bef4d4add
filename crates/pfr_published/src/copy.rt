//! One copy of the table, with how far the list of changes has come in it.
ghost use Rattle.std.specs.Prelude.{◌≡◌, ◌≢◌, ◌-◌, [], None, Some, length, is_some, true, false, IfErr, IsOk, MatchResult, OnErr, OnOk};
ghost use Rattle.std.specs.Option.{ForSome, option_map};
ghost use Rattle.pfr_states.specs.declared.change.TableError.TheVariants.{Memory};
ghost use Rattle.pfr_states.specs.States.{stepped, table_of};
ghost use Rattle.pfr_published.specs.Refusals.{refusal_of, IsRefusal};

use crate::added::{Added, AddedChange};
use crate::hints::Hints;
use left_right::Absorb;
use pfr_history::{Front, Naming};
use pfr_states::{AHEAD, Change, Place, Table, TableError};
use std::alloc::{AllocError, Global};
use std::marker::Brand;

/// Which list of changes it is, and how many states the table that they make may have. A call of a program picks both.
pub trait TableNaming: Naming {
    ghost use Rattle.std.specs.Prelude.{ℕ};

    ghost limit: { ℕ };
}

impl TableNaming for Brand {
    ghost limit = { 0 };
}

/// A table of states, and the beginning of the list that has made it of the empty table. There is no table once it is
/// hidden.
#[derive(Drop)]
pub struct TableCopy<J: TableNaming> {
    pub(crate) table: Option<Table>,
    pub(crate) front: Front<J, Change>,
    pub(crate) hints: Hints,
    ghost kept: { ForSome table (λ table. table ≡ table_of J.limit front) },
}

/// What both copies have in common: the list of changes so far, and whether the table is shown. No value of it is made.
pub struct Progress {
    pub changes: [Change; 0],
    pub is_shown: bool,
}

/// Applies a change to a table. A table that refuses it stays as it was. `place` may name the place of a state that is
/// touched.
fn apply(table: &mut Table, change: &Change, place: Option<Place>) -> Result<(), TableError>
    ensures taken { OnOk result (table.new ≡ stepped table.old change.now) }
    ensures kept { OnErr result (table.new ≡ table.old) }
    ensures refused { IfErr result (λ e. e ≢ Memory → refusal_of change.now table.old ≡ Some e) }
{
    match change {
        Change::Purge(clock) => {
            table.purge(*clock);
            Ok(())
        }
        Change::Apply(change) => table.take_over(change, place),
    }
}

/// [`apply`], if there is a table.
fn apply_to(
    table: &mut Option<Table>,
    change: &Change,
    place: Option<Place>,
) -> Result<(), TableError>
    ensures taken { OnOk result (table.new ≡ option_map (λ table. stepped table change.now) table.old) }
    ensures kept { OnErr result (table.new ≡ table.old) }
    ensures refused { IfErr result (λ e. e ≢ Memory → ForSome table.old (λ table. refusal_of change.now table ≡ Some e)) }
    ensures hidden { table.old ≡ None → IsOk result }
{
    match table {
        Some(table) => apply(table, change, place),
        None => Ok(()),
    }
}

impl<J: TableNaming> TableCopy<J> {
    /// The empty table, before any change.
    pub(crate) fn new(alloc: Global, limit: usize, front: Front<J, Change>) -> TableCopy<J>
        requires limit { limit ≡ J.limit }
        requires front { front ≡ [] }
        ensures front { result.front ≡ [] }
        ensures shown { is_some result.table ≡ true }
    {
        TableCopy {
            table: Some(Table::new(alloc, limit)),
            front,
            hints: Hints::new(),
        }
    }

    /// Takes over the change that is next. If the table refuses it, or memory is refused, all stays as it was. A copy without a table
    /// goes on in the list alone.
    fn take(&mut self, added: &AddedChange<J>) -> Result<(), TableError>
        requires next { length added.now.front - length self.old.front ≡ 1 }
        ensures taken { MatchResult result (λ _. self.new.front ≡ added.now.front) (λ _. self.new.front ≡ self.old.front) }
        ensures shown { is_some self.new.table ≡ is_some self.old.table }
        ensures kept { OnErr result (self.new.table ≡ self.old.table) }
        ensures refused { IfErr result (λ e. e ≢ Memory → IsRefusal J.limit self.old.front added.now.front e) }
        ensures hidden { self.old.table ≡ None → IsOk result }
    {
        if added.index % AHEAD == 0 {
            self.look_up(added);
        }
        apply_to(&mut self.table, added.change(), self.hints.at(added.index))?;
        self.front = self.front.longer(&added.front);
        Ok(())
    }

    /// Looks up the states of the next changes.
    fn look_up(&mut self, added: &AddedChange<J>)
        ensures table { self.new.table ≡ self.old.table }
        ensures front { self.new.front ≡ self.old.front }
    {
        if let Some(table) = &self.table {
            self.hints = Hints::look_up(table, added.from_here());
        }
    }

    /// Drops the table, and keeps a beginning of the list alone.
    fn hide(&mut self, front: &Front<J, Change>)
        ensures front { self.new.front ≡ front.now }
        ensures hidden { is_some self.new.table ≡ false }
    {
        self.table = None;
        self.front = front.again();
    }
}

impl<J: TableNaming> Absorb<Added<J>> for TableCopy<J> {
    ghost use Rattle.pfr_published.specs.Steps.{applied};
    ghost use Rattle.pfr_published.specs.Copies.{progress};

    type State = Progress;

    ghost state = { progress };

    ghost applied = { applied };

    // A change that isn't the next one is left out: no memory was refused.
    fn absorb_first(&mut self, added: &Added<J>, _other: &TableCopy<J>) -> Result<(), AllocError> {
        match added {
            Added::Hiding(front) => {
                self.hide(front);
                Ok(())
            }
            Added::OneChange(change) => {
                if change.front.len().saturating_sub(self.front.len()) != 1 {
                    return Ok(());
                }
                self.take(change).map_err(|_refusal| AllocError)
            }
        }
    }
}
