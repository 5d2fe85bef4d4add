//! What a run leaves beside its outputs.
ghost use Rattle.std.specs.Prelude.{◌≡◌, IfSome};
ghost use Rattle.pfr_states.specs.States.{table_of};
ghost use Rattle.pfr_published.specs.Ends.{list_of};

use pfr_claims::Gathered;
use pfr_history::{Naming, Opened};
use pfr_published::{Published, StoreWriter, TableNaming};
use pfr_states::{Change, Table};
use pfr_workers::{Incomplete, OpenedClaims, Openings};
use std::sync::Wait;

/// The two histories by which the proofs follow a run with workers: what packets did to the table, and which batches were opened. A
/// running program has their lengths alone.
pub struct Histories {
    pub changes: Opened<Change>,
    pub batches: Opened<OpenedClaims>,
}

impl Histories {
    /// Two new histories.
    pub fn new() -> Histories {
        Histories {
            changes: Opened::new(),
            batches: Opened::new(),
        }
    }
}

/// What a run leaves beside its outputs: the claims of the batches whose passes all came back, in order, and with workers the table
/// at which they looked. It is not `Drop`: end the table by [`Trace::close`].
pub struct Trace<W, K: Naming> {
    pub batches: Vec<Gathered>,
    pub published: Option<Published<W>>,
    /// The batches whose passes didn't all come back.
    pub lost: Vec<Incomplete>,
    /// The history of all batches that were opened.
    pub openings: Openings<K>,
    /// Whether workers were given up.
    pub gave_up: bool,
}

impl<J: TableNaming, K: Naming> Trace<StoreWriter<J>, K> {
    /// Ends the trace: the table as it was published last, if there is one and it isn't hidden.
    pub fn close<R: Wait>(self, rt: &R) -> Option<Table>
        ensures { IfSome self.published (λ published. IfSome result (λ table. table ≡ table_of J.limit (list_of published))) }
    {
        let Trace {
            batches: _,
            published,
            lost: _,
            openings: _,
            gave_up: _,
        } = self;
        match published {
            Some(published) => published.close(rt),
            None => None,
        }
    }
}
