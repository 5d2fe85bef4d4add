//! How a worker evaluates packets ahead.
ghost use Rattle.std.specs.Prelude.{◌≡◌, IfOk, IfSome, Some, vec_len};
ghost use Rattle.std.specs.Arc.{arc_value};
ghost use Rattle.std.specs.List.{All};
ghost use Rattle.pfr_work.specs.Learning.{HasLearned};

use crate::batch::Batch;
use crate::found::{FoundOut, OfRun};
use pfr_commit::Gate;
use pfr_history::History;
use pfr_packet::Job;
use pfr_published::{Published, StoreWriter, Viewer};
use pfr_record::{Speculation, speculate};
use pfr_states::Change;
use pfr_track::InterfacePlace;
use pfr_workers::Hand;
use std::alloc::{AllocError, Global};
use std::marker::PhantomData;
use std::sync::Arc;
use std::sync::atomic::{AtomicBool, Ordering};

/// The most questions of a result that is kept. A pick among taken ports asks one question for each port, and such a
/// record is large. The committer then evaluates the packet.
const MOST_QUESTIONS: usize = 1024;

/// What a worker evaluates packets with: the job, the published table that it looks at, and the gate.
#[derive(Drop)]
pub(crate) struct Evaluator<'a, J: OfRun, G> {
    alloc: Global,
    job: Arc<Job>,
    /// It is missing only while the worker looks at the table.
    viewer: Option<Viewer<J>>,
    gate: &'a G,
    /// Whether the run has come to its end, so that nothing more is evaluated.
    stop: &'a AtomicBool,
    ghost own: { J.job ≡ Some (arc_value job) },
}

impl<'a, J: OfRun, G> Evaluator<'a, J, G> {
    /// What one worker evaluates packets with. There is none if memory is refused for it.
    fn new(
        alloc: Global,
        published: &Published<StoreWriter<J>>,
        history: &History<J, Change>,
        job: &Arc<Job>,
        gate: &'a G,
        stop: &'a AtomicBool,
    ) -> Option<Evaluator<'a, J, G>>
        requires { J.job ≡ Some (arc_value job.now) }
    {
        let job = Arc::try_clone(job).ok()?;
        let viewer = published.viewer(history).ok()?;
        Some(Evaluator {
            alloc,
            job,
            viewer: Some(viewer),
            gate,
            stop,
        })
    }

    /// The speculation of the packet at `place`, evaluated on the published table; none if the worker is shown no
    /// table. The worker knows at least what it was told with the batch.
    fn speculation_at(&mut self, batch: &Batch<J>, place: u64) -> Option<Speculation>
        requires { HasLearned self.old.viewer batch.now.told }
        ensures own { IfSome result (λ speculation. J.job ≡ Some (arc_value speculation.job)) }
        ensures learned { HasLearned self.new.viewer batch.now.told }
    {
        let (record, view) = batch.packets.get(place as usize)?;
        let clock = batch.clocks.get(place as usize)?;
        let number = number_at(batch, place);
        let viewer = self.viewer.take()?;
        match viewer.enter() {
            Ok(showing) => {
                let found = speculate(
                    self.alloc,
                    &self.job,
                    number,
                    *clock,
                    InterfacePlace(record.place),
                    *view,
                    showing.table(),
                );
                self.viewer = Some(showing.leave());
                found.ok()
            }
            Err(viewer) => {
                self.viewer = Some(viewer);
                None
            }
        }
    }
}

/// The number of the packet at a place of a batch.
fn number_at<J: OfRun>(batch: &Batch<J>, place: u64) -> u64 {
    batch.first.saturating_add(place)
}

impl<'a, J: OfRun + Send + Sync, G: Gate> Hand for Evaluator<'a, J, G> {
    type Batch = Batch<J>;

    type Group = FoundOut<J>;

    ghost use Rattle.pfr_work.specs.Learning.{HasLearned};

    // its viewer has learned how far the table had come when the batch was opened
    ghost begun = { λ evaluator batch. HasLearned evaluator.viewer batch.told };

    fn begin(&mut self, batch: &Batch<J>) {
        if let Some(viewer) = &mut self.viewer {
            viewer.learn(batch.told.again());
        }
    }

    fn group(&self, room: usize) -> Option<FoundOut<J>> {
        let speculations = Vec::with_capacity(self.alloc, room).ok()?;
        Some(FoundOut {
            speculations,
            of: PhantomData,
        })
    }

    fn answer(&mut self, batch: &Batch<J>, place: u64, group: &mut FoundOut<J>) -> bool {
        if place >= batch.most {
            return false;
        }
        if self.stop.load(Ordering::Relaxed) {
            return false;
        }
        self.gate.starts(number_at(batch, place));
        match self.speculation_at(batch, place) {
            Some(speculation) if speculation.questions() <= MOST_QUESTIONS => {
                group.put(speculation)
            }
            _ => false,
        }
    }

    fn answered(&self, batch: &Batch<J>, place: u64) {
        self.gate.answered(number_at(batch, place));
    }
}

/// What each of `workers` threads evaluates packets with, if there was memory for it.
pub(crate) fn evaluators<'a, J: OfRun, G>(
    alloc: Global,
    published: &Published<StoreWriter<J>>,
    history: &History<J, Change>,
    job: &Arc<Job>,
    gate: &'a G,
    stop: &'a AtomicBool,
    workers: u64,
) -> Result<Vec<Option<Evaluator<'a, J, G>>>, AllocError>
    requires { J.job ≡ Some (arc_value job.now) }
    ensures { IfOk result (λ evaluators. vec_len evaluators ≡ workers) }
{
    let mut evaluators = Vec::with_capacity(alloc, workers as usize)?;
    for _worker in 0..workers {
        evaluators.push(Evaluator::new(alloc, published, history, job, gate, stop))?;
    }
    Ok(evaluators)
}

/// The speculations of what workers found out.
pub(crate) fn speculations<J: OfRun>(
    alloc: Global,
    found: Vec<FoundOut<J>>,
) -> Result<Vec<Vec<Speculation>>, AllocError>
    ensures { IfOk result (λ groups. All (λ group. All (λ speculation. J.job ≡ Some (arc_value speculation.job)) group.items) groups.items) }
{
    let mut groups = Vec::with_capacity(alloc, found.len())?;
    for FoundOut {
        speculations,
        of: _,
    } in found {
        groups.push(speculations)?;
    }
    Ok(groups)
}
