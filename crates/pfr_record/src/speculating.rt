//! Packets that are evaluated ahead.
ghost use Rattle.std.specs.Prelude.{◌≡◌, IfOk};
ghost use Rattle.std.specs.Arc.{arc_value};
ghost use Rattle.pfr_states.specs.Answers.{purged_at};
ghost use Rattle.pfr_record.specs.Record.{Agrees};

use crate::recorder::Recorder;
use crate::speculation::Speculation;
use pfr_headers::View;
use pfr_packet::{Job, step};
use pfr_states::Table;
use pfr_track::{Clock, InterfacePlace};
use std::alloc::{AllocError, Global};
use std::sync::Arc;

/// Evaluates packet `number` of a job, captured on an interface, at a clock on a table, and records all questions to
/// the table and its answers.
pub fn speculate(
    alloc: Global,
    job: &Arc<Job>,
    number: u64,
    clock: Clock,
    place: InterfacePlace,
    view: View,
    table: &Table,
) -> Result<Speculation, AllocError>
    ensures job { IfOk result (λ s. arc_value s.job ≡ arc_value job.now) }
    ensures packet { IfOk result (λ s. (s.number ≡ number) × (s.clock ≡ clock) × (s.place ≡ place) × (s.view ≡ view)) }
    ensures agrees { IfOk result (λ s. Agrees (purged_at clock table.now) s.answers) }
{
    let mut recorder = Recorder::new(alloc, table, clock);
    let outcome = step(alloc, job, number, clock, place, &view, &mut recorder)?;
    let job = Arc::try_clone(job)?;
    Ok(Speculation {
        job,
        number,
        clock,
        place,
        view,
        outcome,
        answers: recorder.answers,
    })
}
