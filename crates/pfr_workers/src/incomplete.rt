//! Batches whose passes didn't all come back.
ghost use Rattle.std.specs.Prelude.{◌≢◌};

use pfr_claims::Claims;
use std::snapshot::Snapshot;

/// A batch whose passes didn't all come back: a worker was refused memory to send its own. Only [`OpenBatch::finish`] makes
/// one.
///
/// [`OpenBatch::finish`]: crate::OpenBatch::finish
#[derive(Drop)]
pub struct Incomplete {
    /// The claims of the batch, as contracts see them.
    pub claims: Snapshot<Claims>,
    /// How many passes came back.
    pub(crate) came: u64,
    pub ghost missing: { came ≢ claims.value.sizes.workers },
}

impl Incomplete {
    /// How many passes came back: not as many as there were workers.
    pub fn came(&self) -> u64 {
        self.came
    }
}
