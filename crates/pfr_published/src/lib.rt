//! The published table of states: one thread changes it, and others look at it meanwhile. A helper of `pfr_work` and
//! `pfr_out`.
//!
//! Each change of the table is added to one list, which only grows. A table that is shown is what a beginning of that list
//! makes of the empty table. The list stands in the proofs alone: no memory is taken for it. [`Published`] adds changes and
//! shows the table after them, and [`Told`] says how far the list had come. A [`Viewer`] that has learned it is shown no
//! earlier table. If nobody is to look at the table any more it is hidden, and the list alone goes on.
#![tactic(auto)]

mod added;
mod copy;
mod hints;
mod published;
mod viewer;

pub use added::{Added, AddedChange, known};
pub use copy::{Progress, TableCopy, TableNaming};
pub use published::{Published, StoreWriter};
pub use viewer::{Showing, Told, Viewer};
