//! A run beside workers that live as long as it.
ghost use Rattle.std.specs.Prelude.{◌≡◌, ◌≤◌, ◌<◌, [], vec_len, IfOk, OnOk, OnErr, Some};
ghost use Rattle.std.specs.Arc.{arc_value};
ghost use Rattle.pfr_commit.specs.Books.{StandsAt, job_of};
ghost use Rattle.pfr_commit.specs.World.{opening};
ghost use Rattle.pfr_published.specs.Ends.{is_shown, list_of};
ghost use Rattle.pfr_work.specs.Seen.{seen_of};
ghost use Rattle.pfr_work.specs.Traces.{RunsRefused, RunsWell};

use crate::batch::Batch;
use crate::course::Course;
use crate::evaluator::evaluators;
use crate::found::{FoundOut, OfRun};
use crate::trace::Trace;
use crate::turns::run_turns;
use pfr_commit::{Book, Gate};
use pfr_feed::Feed;
use pfr_history::{History, Naming};
use pfr_packet::Job;
use pfr_published::{Published, StoreWriter};
use pfr_states::Change;
use pfr_workers::{Crew, Openings, hire};
use std::alloc::{AllocError, Global};
use std::sync::atomic::AtomicBool;
use std::sync::{Arc, Wait};
use std::thread::{Scope, Threads};

/// The trace of a run in which no batch was opened.
pub(crate) fn no_trace<W, K: Naming>(
    alloc: Global,
    openings: Openings<K>,
    published: Option<Published<W>>,
) -> Trace<W, K>
    ensures batches { (result.batches.items ≡ []) × (result.lost.items ≡ []) }
    ensures published { result.published ≡ published }
    ensures openings { result.openings ≡ openings }
{
    Trace {
        batches: Vec::new(alloc),
        published,
        lost: Vec::new(alloc),
        openings,
        gave_up: false,
    }
}

/// Starts the workers of a run, in its scope.
fn start_workers<
    's,
    E,
    J: OfRun + Send + Sync + 's,
    K: Naming + Send + Sync + 's,
    R: Threads + Wait + Sync,
    G: Gate,
>(
    scope: &Scope<'s, E>,
    rt: &'s R,
    alloc: Global,
    job: &Arc<Job>,
    history: &History<J, Change>,
    published: &Published<StoreWriter<J>>,
    gate: &'s G,
    stop: &'s AtomicBool,
    workers: u64,
) -> Result<Crew<K, Batch<J>, FoundOut<J>>, AllocError>
    requires { J.job ≡ Some (arc_value job.now) }
    ensures { IfOk result (λ crew. vec_len crew.desks ≡ workers) }
{
    let hands = evaluators(alloc, published, history, job, gate, stop, workers)?;
    hire(scope, rt, alloc, hands)
}

/// A run in a scope: publishes the empty table, starts the workers, and takes all batches. The workers end with the crew.
pub(crate) fn run_beside<
    's,
    E,
    J: OfRun + Send + Sync + 's,
    K: Naming + Send + Sync + 's,
    R: Threads + Wait + Sync,
    F: Feed,
    G: Gate,
>(
    scope: &Scope<'s, E>,
    rt: &'s R,
    alloc: Global,
    book: Book,
    feed: F,
    workers: u64,
    gate: &'s G,
    stop: &'s AtomicBool,
    history: &History<J, Change>,
    openings: Openings<K>,
) -> (Book, F, Trace<StoreWriter<J>, K>, Result<(), AllocError>)
    requires start { StandsAt book (opening (job_of book)) }
    requires job { J.job ≡ Some (job_of book) }
    requires limit { (job_of book).rules.options.state_limit ≡ J.limit }
    requires workers { (0 < workers) × (workers ≤ 64) }
    requires openings { openings ≡ [] }
    ensures job { result.0.job ≡ book.job }
    ensures told { F.told result.1 ≡ F.told feed }
    ensures names { F.names result.1 ≡ F.names feed }
    ensures ok { OnOk result.3 (RunsWell F.transitions (job_of book) workers feed result.0 result.1 (seen_of list_of is_shown result.2)) }
    ensures err { OnErr result.3 (RunsRefused F.transitions (job_of book) workers feed result.0 result.1 (seen_of list_of is_shown result.2)) }
{
    let limit = book.job().rules().options.state_limit as usize;
    let published = match Published::new(alloc, history, limit, workers as usize) {
        Ok(published) => published,
        Err(refused) => {
            let trace = no_trace(alloc, openings, None);
            return (book, feed, trace, Err(refused));
        }
    };
    let started = start_workers(
        scope,
        rt,
        alloc,
        book.job(),
        history,
        &published,
        gate,
        stop,
        workers,
    );
    let crew = match started {
        Ok(crew) => crew,
        Err(refused) => {
            let trace = no_trace(alloc, openings, Some(published));
            return (book, feed, trace, Err(refused));
        }
    };
    let course = Course::new(alloc, book.job(), workers, openings);
    run_turns(
        rt, alloc, book, feed, course, &crew, history, published, gate, stop,
    )
}
