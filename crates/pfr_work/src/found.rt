//! What workers find out about packets of the run's job.
ghost use Rattle.std.specs.Prelude.{◌≡◌, Some};
ghost use Rattle.std.specs.Arc.{arc_value};
ghost use Rattle.std.specs.List.{All};

use pfr_published::TableNaming;
use pfr_record::Speculation;
use std::marker::{Brand, PhantomData};

/// Names a run, to contracts alone: its job, the list of changes that its packets make to the table, and how many
/// states the table may have. What crosses from a worker to the committer has this name in its type, so it is of the
/// same run. A call of a program picks all three.
pub trait OfRun: TableNaming {
    ghost use Rattle.std.specs.Prelude.{Option};
    ghost use Rattle.pfr_packet.specs.Job.{RunJob};

    ghost job: { Option RunJob };
}

impl OfRun for Brand {
    ghost use Rattle.std.specs.Prelude.{None};

    ghost job = { None };
}

/// What a worker found out about packets of the run's job.
#[derive(Drop)]
pub(crate) struct FoundOut<J: OfRun> {
    pub(crate) speculations: Vec<Speculation>,
    pub(crate) of: PhantomData<J>,
    pub ghost own: { All (λ speculation. J.job ≡ Some (arc_value speculation.job)) speculations.items },
}

impl<J: OfRun> FoundOut<J> {
    /// Puts what was found out about one more packet after the others, and says whether there was memory for it.
    pub(crate) fn put(&mut self, speculation: Speculation) -> bool
        requires { J.job ≡ Some (arc_value speculation.job) }
    {
        self.speculations.push(speculation).is_ok()
    }
}
