//! Outcomes of packets that were evaluated ahead.
ghost use Rattle.std.specs.Prelude.{◌≡◌, ◌↔◌, true, IsTrue, IsSome, IfSome, length};
ghost use Rattle.std.specs.Arc.{arc_value};
ghost use Rattle.pfr_states.specs.Answers.{purged_at};
ghost use Rattle.pfr_packet.specs.Steps.{step_of};
ghost use Rattle.pfr_record.specs.Record.{Agrees, IsSound};

use crate::lookups::Lookups;
use crate::views::is_same_view;
use pfr_headers::View;
use pfr_packet::{Job, Outcome};
use pfr_states::{Place, Table};
use pfr_track::{Clock, InterfacePlace};
use std::sync::Arc;

/// What a packet of a job was found to come to on some table, with all questions to that table and its answers. Over
/// every table that gives these answers the packet comes to the same.
#[derive(Drop)]
pub struct Speculation {
    pub(crate) job: Arc<Job>,
    pub(crate) number: u64,
    pub(crate) clock: Clock,
    /// The interface on which the packet was captured.
    pub(crate) place: InterfacePlace,
    pub(crate) view: View,
    pub(crate) outcome: Outcome,
    pub(crate) answers: Lookups,
    ghost sound: { IsSound (arc_value job) number clock place view outcome answers },
}

impl Speculation {
    ghost use Rattle.pfr_record.specs.Speculations.{Fits};

    /// The number of the packet that was evaluated.
    pub fn number(&self) -> u64
        ensures { result ≡ self.now.number }
    {
        self.number
    }

    /// The number of questions in its record. A pick among many taken ports asks one for each of them, so a record may
    /// grow large, and a caller that keeps many speculations may drop a large one.
    pub fn questions(&self) -> usize
        ensures { result ≡ length self.now.answers }
    {
        self.answers.len()
    }

    /// Whether a table gives each recorded answer at a clock: states are the same in all fields. For the first question
    /// the place of the hint is looked at first.
    fn holds_near(&self, table: &Table, clock: Clock, hint: Option<Place>) -> bool
        ensures { IsTrue result ↔ Agrees (purged_at clock table.now) self.now.answers }
    {
        self.answers.hold_near(table, clock, hint)
    }

    /// Whether a table gives each recorded answer at a clock: states are the same in all fields.
    pub fn holds_in(&self, table: &Table, clock: Clock) -> bool
        ensures { IsTrue result ↔ Agrees (purged_at clock table.now) self.now.answers }
    {
        self.holds_near(table, clock, None)
    }

    /// Whether this is the speculation for such a packet of a job, and its record holds in a table. The jobs are
    /// compared unless `is_of_job`, because to compare them takes as long as their text is.
    fn fits(
        &self,
        is_of_job: bool,
        job: &Job,
        number: u64,
        clock: Clock,
        place: InterfacePlace,
        view: &View,
        table: &Table,
        hint: Option<Place>,
    ) -> bool
        requires { is_of_job ≡ true → arc_value self.now.job ≡ job.now }
        ensures { IsTrue result ↔ Fits self.now job.now number clock place view.now table.now }
    {
        self.number == number
            && self.clock == clock
            && self.place == place
            && is_same_view(&self.view, view)
            && (is_of_job || self.job.is_same(job))
            && self.holds_near(table, clock, hint)
    }

    /// The outcome for a packet of a job over a table, if this is the speculation for exactly that packet, and its
    /// record holds in the table.
    pub fn outcome_for(
        self,
        job: &Job,
        number: u64,
        clock: Clock,
        place: InterfacePlace,
        view: &View,
        table: &Table,
    ) -> Option<Outcome>
        ensures some { IsSome result ↔ Fits self job.now number clock place view.now table.now }
        ensures outcome { IfSome result (λ outcome. outcome ≡ step_of job.now number clock place view.now table.now) }
    {
        if self.fits(false, job, number, clock, place, view, table, None) {
            Some(self.outcome)
        } else {
            None
        }
    }

    /// The same, but the speculation is left as it is. If `is_of_job`, it is known to be of the job, and the jobs
    /// aren't compared. The state of the first question may stand at the place of the hint, as [`Table::place_by`]
    /// names one. A wrong hint costs time alone.
    pub fn outcome_near(
        &self,
        is_of_job: bool,
        job: &Job,
        number: u64,
        clock: Clock,
        place: InterfacePlace,
        view: &View,
        table: &Table,
        hint: Option<Place>,
    ) -> Option<&Outcome>
        requires { is_of_job ≡ true → arc_value self.now.job ≡ job.now }
        ensures some { IsSome result ↔ Fits self.now job.now number clock place view.now table.now }
        ensures outcome { IfSome result (λ outcome. outcome.now ≡ step_of job.now number clock place view.now table.now) }
    {
        if self.fits(is_of_job, job, number, clock, place, view, table, hint) {
            Some(&self.outcome)
        } else {
            None
        }
    }
}
