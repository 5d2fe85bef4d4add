//! The thread that changes the table.
ghost use Rattle.std.specs.Prelude.{◌≡◌, ◌^◌, ◌<◌, ◌++◌, [], length, IfOk, IsErr, IsTrue, MatchOption, MatchResult, true, false};
ghost use Rattle.std.specs.Arc.{arc_value};
ghost use Rattle.pfr_states.specs.States.{table_of};
ghost use Rattle.pfr_published.specs.Entries.{entry_at};

use crate::added::{Added, AddedChange, add_known};
use crate::copy::{TableCopy, TableNaming};
use crate::viewer::{Told, Viewer};
use crossbeam_utils::rule::Unruled;
use left_right::writer::Writer;
use pfr_history::{Front, History};
use pfr_states::{Change, KnownChange, Table};
use std::alloc::{AllocError, Global};
use std::sync::{Arc, Wait};

/// What writes a table of this name.
pub type StoreWriter<J> = Writer<TableCopy<J>, Added<J>, (), Unruled>;

/// A table that is changed while others look at it. It is not `Drop`: end it by [`Published::close`].
pub struct Published<W> {
    writer: W,
    refused: bool,
}

impl<J: TableNaming> Published<StoreWriter<J>> {
    ghost use Rattle.pfr_published.specs.Ends.{is_shown, kept_by, list_of, shown_by, shown_next};
    ghost use Rattle.pfr_published.specs.Steps.{applied, with_next};

    /// The empty table, for `limit` states, with places for `viewers` viewers at once. Only memory can be refused.
    pub fn new(
        alloc: Global,
        history: &History<J, Change>,
        limit: usize,
        viewers: usize,
    ) -> Result<Published<StoreWriter<J>>, AllocError>
        requires limit { limit ≡ J.limit }
        requires viewers { (0 < viewers) × (viewers < 2 ^ 32) }
        ensures list { IfOk result (λ published. (list_of published ≡ []) × (published.refused ≡ false)) }
        ensures shown { IfOk result (λ published. is_shown published ≡ true) }
    {
        let first = TableCopy::new(alloc, limit, history.start());
        let second = TableCopy::new(alloc, limit, history.start());
        let writer = Writer::new(alloc, first, second, viewers)?;
        Ok(Published {
            writer,
            refused: false,
        })
    }

    /// How far the published list has come.
    pub fn tell(&self) -> Told<J>
        ensures { result ≡ list_of self.now }
    {
        Told {
            front: self.writer.published().front.again(),
        }
    }

    /// A viewer that knows nothing yet. It is refused if there are as many viewers as there may be, or no memory.
    pub fn viewer(&self, history: &History<J, Change>) -> Result<Viewer<J>, AllocError>
        ensures { IfOk result (λ viewer. viewer ≡ []) }
    {
        Ok(Viewer {
            reader: self.writer.factory().reader()?,
            known: history.start(),
        })
    }

    /// Adds changes, all of them or none, and shows the table after them. It is refused if the table refuses a change, or if memory
    /// is refused. Then nothing is published any more, and viewers are shown the table that they were shown before. It
    /// waits for viewers that still look at an earlier table than the one shown when it is called. A table that is
    /// hidden stays so.
    pub fn publish<R: Wait>(
        self,
        rt: &R,
        history: &History<J, Change>,
        changes: Vec<Change>,
    ) -> (Published<StoreWriter<J>>, Result<(), AllocError>)
        ensures list { MatchResult result.1 (λ _. list_of result.0 ≡ list_of self ++ changes.items) (λ _. list_of result.0 ≡ list_of self) }
        ensures shown { is_shown result.0 ≡ is_shown self }
        ensures refuses { MatchResult result.1 (λ _. result.0.refused ≡ false) (λ _. result.0.refused ≡ true) }
        ensures refused { self.refused ≡ true → IsErr result.1 }
    {
        let Published {
            mut writer,
            refused,
        } = self;
        let is_refused = refused || writer.has_pending_operations();
        if is_refused || !Self::append_all(&mut writer, history, changes) {
            return Self::refuse(writer);
        }
        Self::show(rt, writer)
    }

    /// Adds changes that the proofs alone know, all of them or none, and hides the table: nobody is shown it any more, and it
    /// takes no memory. Its list alone goes on, which costs little. Else as [`Published::publish`].
    pub fn publish_hidden<R: Wait>(
        self,
        rt: &R,
        history: &History<J, Change>,
        changes: &[KnownChange],
    ) -> (Published<StoreWriter<J>>, Result<(), AllocError>)
        ensures list { MatchResult result.1 (λ _. list_of result.0 ≡ list_of self ++ changes.now) (λ _. list_of result.0 ≡ list_of self) }
        ensures shown { MatchResult result.1 (λ _. is_shown result.0 ≡ false) (λ _. is_shown result.0 ≡ is_shown self) }
        ensures refuses { MatchResult result.1 (λ _. result.0.refused ≡ false) (λ _. result.0.refused ≡ true) }
        ensures refused { self.refused ≡ true → IsErr result.1 }
    {
        let Published {
            mut writer,
            refused,
        } = self;
        let is_refused = refused || writer.has_pending_operations();
        if is_refused || !Self::append_hiding(&mut writer, history, changes) {
            return Self::refuse(writer);
        }
        Self::show(rt, writer)
    }

    /// Nothing is published any more.
    fn refuse(writer: StoreWriter<J>) -> (Published<StoreWriter<J>>, Result<(), AllocError>)
        ensures kept { shown_by result.0.writer ≡ shown_by writer }
        ensures refused { result.0.refused ≡ true }
        ensures err { IsErr result.1 }
    {
        let published = Published {
            writer,
            refused: true,
        };
        (published, Err(AllocError))
    }

    /// Applies what the writer keeps to the copies, and shows the table after it.
    fn show<R: Wait>(
        rt: &R,
        writer: StoreWriter<J>,
    ) -> (Published<StoreWriter<J>>, Result<(), AllocError>)
        ensures shown { MatchResult result.1 (λ _. shown_by result.0.writer ≡ shown_next writer) (λ _. shown_by result.0.writer ≡ shown_by writer) }
        ensures refuses { MatchResult result.1 (λ _. result.0.refused ≡ false) (λ _. result.0.refused ≡ true) }
    {
        let (writer, shown) = writer.publish_as::<Unruled, R>(rt);
        let published = Published {
            writer,
            refused: shown.is_err(),
        };
        (published, shown)
    }

    /// Adds changes to the history and has the writer keep each of them, and says whether it did.
    fn append_all(
        writer: &mut StoreWriter<J>,
        history: &History<J, Change>,
        changes: Vec<Change>,
    ) -> bool
        requires { kept_by writer.old ≡ [] }
        ensures desk { writer.new.desk ≡ writer.old.desk }
        ensures list { IsTrue result → (shown_next writer.new).changes ≡ (shown_by writer.old).changes ++ changes.items }
        ensures shown { IsTrue result → (shown_next writer.new).is_shown ≡ (shown_by writer.old).is_shown }
    {
        let alloc = *changes.allocator();
        let Ok(changes) = Arc::new(alloc, changes) else {
            return false;
        };
        let mut front = writer.published().front.again();
        for index in 0..changes.len() {
            if !Self::append_next(writer, &mut front, history, &changes, index) {
                return false;
            }
        }
        true
    }

    /// Adds the change at this index to the history and has the writer keep it, and says whether it did.
    fn append_next(
        writer: &mut StoreWriter<J>,
        front: &mut Front<J, Change>,
        history: &History<J, Change>,
        changes: &Arc<Vec<Change>>,
        index: usize,
    ) -> bool
        requires inside { index < length (arc_value changes.now).items }
        ensures desk { writer.new.desk ≡ writer.old.desk }
        ensures longer { IsTrue result → front.new ≡ front.old ++ entry_at (arc_value changes.now).items index }
        ensures next { IsTrue result → shown_next writer.new ≡ with_next (shown_next writer.old) front.new }
    {
        match AddedChange::next(front, history, changes, index) {
            Some(added) => Self::append(writer, Added::OneChange(added)),
            None => false,
        }
    }

    /// Has the writer keep what is added, and says whether it did.
    fn append(writer: &mut StoreWriter<J>, added: Added<J>) -> bool
        ensures desk { writer.new.desk ≡ writer.old.desk }
        ensures next { IsTrue result → shown_next writer.new ≡ applied (shown_next writer.old) added }
    {
        writer.append(added).is_ok()
    }

    /// Adds changes that the proofs alone know to the history, has the writer keep that the table is hidden, and says
    /// whether it did.
    fn append_hiding(
        writer: &mut StoreWriter<J>,
        history: &History<J, Change>,
        changes: &[KnownChange],
    ) -> bool
        requires { kept_by writer.old ≡ [] }
        ensures desk { writer.new.desk ≡ writer.old.desk }
        ensures list { IsTrue result → (shown_next writer.new).changes ≡ (shown_by writer.old).changes ++ changes.now }
        ensures shown { IsTrue result → (shown_next writer.new).is_shown ≡ false }
    {
        let mut front = writer.published().front.again();
        add_known(&mut front, history, changes) && Self::append(writer, Added::Hiding(front))
    }

    /// The table as it was published last, unless it is hidden. It waits until nobody looks at it any more; viewers are shown none
    /// from then on.
    pub fn close<R: Wait>(self, rt: &R) -> Option<Table>
        ensures { MatchOption result (is_shown self ≡ false) (λ table. table ≡ table_of J.limit (list_of self)) }
    {
        let Published { writer, refused: _ } = self;
        let TableCopy {
            table,
            front: _,
            hints: _,
        } = Box::into_inner(writer.take(rt));
        table
    }
}
