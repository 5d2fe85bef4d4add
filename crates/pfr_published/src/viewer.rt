//! Those who look at the published table.
ghost use Rattle.std.specs.Prelude.{◌≡◌, is_some, true, IfOk, IfErr, OnErr};
ghost use mathlib.Core.List.{IsPrefix};
ghost use Rattle.pfr_states.specs.States.{table_of};

use crate::copy::{TableCopy, TableNaming};
use crossbeam_utils::rule::Unruled;
use left_right::reader::{Reader, Reading};
use pfr_history::Front;
use pfr_states::{Change, Table};
use std::marker::Model;

/// How far the list had come when it was told. Contracts see the changes.
#[derive(Drop)]
pub struct Told<J: TableNaming> {
    pub(crate) front: Front<J, Change>,
}

impl<J: TableNaming> Model for Told<J> {
    ghost use Rattle.std.specs.Prelude.{List};
    ghost use Rattle.pfr_states.specs.declared.change.Change.{Change};

    ghost Value = { List Change };

    ghost view = { λ told. told.front };
}

impl<J: TableNaming> Told<J> {
    /// The same once more.
    pub fn again(&self) -> Told<J>
        ensures { result ≡ self.now }
    {
        Told {
            front: self.front.again(),
        }
    }
}

/// Someone who may look at the table. Contracts see the changes that the viewer knows to be in it.
#[derive(Drop)]
pub struct Viewer<J: TableNaming> {
    pub(crate) reader: Reader<TableCopy<J>, (), Unruled>,
    pub(crate) known: Front<J, Change>,
}

impl<J: TableNaming> Model for Viewer<J> {
    ghost use Rattle.std.specs.Prelude.{List};
    ghost use Rattle.pfr_states.specs.declared.change.Change.{Change};

    ghost Value = { List Change };

    ghost view = { λ viewer. viewer.known };
}

/// A viewer while it looks at the table, which stays the same until it leaves. Contracts see the changes that are in it.
/// It is not `Drop`: end it by [`Showing::leave`].
pub struct Showing<J: TableNaming> {
    reading: Reading<TableCopy<J>, (), Unruled>,
    known: Front<J, Change>,
}

impl<J: TableNaming> Model for Showing<J> {
    ghost use Rattle.std.specs.Prelude.{◌≡◌, IsSome, List};
    ghost use Rattle.pfr_states.specs.declared.change.Change.{Change};

    ghost Value = { List Change };

    ghost view = { λ showing. showing.known };

    ghost invariant = { λ showing. (showing.known ≡ showing.reading.part.value.front) × IsSome showing.reading.part.value.table };
}

impl<J: TableNaming> Viewer<J> {
    /// Learns how far the list had come. What was known stays known, even if that was more.
    pub fn learn(&mut self, told: Told<J>)
        ensures kept { IsPrefix self.old self.new }
        ensures told { IsPrefix told self.new }
    {
        self.known = self.known.longer(&told.front);
    }

    /// Looks at the table that was published last. The table has all changes that the viewer knew, and from now on the
    /// viewer knows all of the table's. If the table is hidden or no more, the viewer comes back as it was.
    pub fn enter(self) -> Result<Showing<J>, Viewer<J>>
        ensures begins { IfOk result (λ showing. IsPrefix self showing) }
        ensures kept { IfErr result (λ viewer. viewer ≡ self) }
    {
        let Viewer { reader, known } = self;
        match reader.enter_as::<Unruled>() {
            Ok(reading) => Viewer::look(reading, known),
            Err(reader) => Err(Viewer { reader, known }),
        }
    }

    /// Looks at the copy that is read, unless its table is hidden or it lacks changes in `known`.
    fn look(
        reading: Reading<TableCopy<J>, (), Unruled>,
        known: Front<J, Change>,
    ) -> Result<Showing<J>, Viewer<J>>
        ensures begins { IfOk result (λ showing. IsPrefix known showing) }
        ensures kept { IfErr result (λ viewer. viewer ≡ known) }
        ensures refused { OnErr result (is_some reading.part.value.table ≡ true → IsPrefix known reading.part.value.front → ⊥) }
    {
        let front = reading.get().front.again();
        if reading.get().table.is_some() && known.begins(&front) {
            Ok(Showing {
                reading,
                known: front,
            })
        } else {
            Err(Viewer {
                reader: reading.leave(),
                known,
            })
        }
    }
}

impl<J: TableNaming> Showing<J> {
    /// The table: what the known changes make of the empty table.
    pub fn table(&self) -> &Table
        ensures { result.now ≡ table_of J.limit self.now }
    {
        match &self.reading.get().table {
            Some(table) => table,
            None => unreachable!(),
        }
    }

    /// Looks away. What is known stays known.
    pub fn leave(self) -> Viewer<J>
        ensures { result ≡ self }
    {
        let Showing { reading, known } = self;
        Viewer {
            reader: reading.leave(),
            known,
        }
    }
}
