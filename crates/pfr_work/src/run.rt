//! A run of batches.
ghost use Rattle.std.specs.Prelude.{◌≡◌, ◌≤◌, ◌<◌, [], None, OnOk, OnErr};
ghost use Rattle.pfr_commit.specs.Books.{StandsAt, job_of};
ghost use Rattle.pfr_commit.specs.World.{opening};
ghost use Rattle.pfr_published.specs.Ends.{is_shown, list_of};
ghost use Rattle.pfr_work.specs.Seen.{IsEmpty, seen_of};
ghost use Rattle.pfr_work.specs.Traces.{RunsRefused, RunsWell};

use crate::beside::{no_trace, run_beside};
use crate::found::OfRun;
use crate::trace::{Histories, Trace};
use pfr_commit::{Book, Gate};
use pfr_feed::{Feed, run_alone};
use pfr_history::Naming;
use pfr_published::StoreWriter;
use pfr_workers::Openings;
use std::alloc::{AllocError, AllocGlobal, Global};
use std::sync::Wait;
use std::sync::atomic::AtomicBool;
use std::thread;
use std::thread::Threads;

/// How many bytes are requested and released at the start of a run.
const KEPT: usize = 1 << 22;

/// Has the system's allocator keep the memory of a batch for the next one. It gives memory back to the system if more
/// is free than twice the greatest piece that was released before (mallopt(3)), and each batch would begin with pages
/// that have to be cleared. Nothing is written into this piece, so it takes no memory.
fn keep_memory(alloc: Global) {
    drop(Vec::<u8>::with_capacity(alloc, KEPT));
}

/// Takes the batches of a feed one after the other, by a book that has committed nothing, and hands the feed what each
/// adds. `workers` threads live as long as the run; with none the calling thread does all. While a batch is taken,
/// workers evaluate the packets of at most two further ones, on the published table, which shows what the batches
/// before it did to the states. If that doesn't pay they rest for some batches, or are given up.
///
/// Ok comes if the reading has ended and the piece of every batch was taken, and if the feed didn't take a piece whole.
/// The only error is that memory was refused. Whatever the number of workers and the order of their results, the feed
/// takes what one thread would have emitted that takes the packets one after the other.
///
/// The trace has the batches that were opened; in order, the claims of the batches whose passes all came back; the
/// batches whose passes didn't; the published table; and whether workers were given up. Without workers no batch is
/// opened and no table published. The gate is told of each turn of a packet, and what it came to; what it does there
/// can hold the run up, and changes nothing else. Without workers it is told of no turn.
///
/// The two histories are new ones: in the proofs they are what packets did to the table, and which batches were opened.
pub fn run_workers<
    J: OfRun + Send + Sync + 'static,
    K: Naming + Send + Sync + 'static,
    R: AllocGlobal + Threads + Wait + Sync,
    F: Feed + Drop,
    G: Gate,
>(
    rt: &R,
    book: Book,
    feed: F,
    workers: u64,
    gate: &G,
    histories: Histories,
) -> (Book, F, Trace<StoreWriter<J>, K>, Result<(), AllocError>)
    requires start { StandsAt book (opening (job_of book)) }
    requires job { J.job ≡ Some (job_of book) }
    requires limit { (job_of book).rules.options.state_limit ≡ J.limit }
    requires changes { histories.changes ≡ J.history }
    requires batches { histories.batches ≡ K.history }
    requires workers { workers ≤ 64 }
    ensures job { result.0.job ≡ book.job }
    ensures told { F.told result.1 ≡ F.told feed }
    ensures names { F.names result.1 ≡ F.names feed }
    ensures ok { OnOk result.3 (RunsWell F.transitions (job_of book) workers feed result.0 result.1 (seen_of list_of is_shown result.2)) }
    ensures err { OnErr result.3 (RunsRefused F.transitions (job_of book) workers feed result.0 result.1 (seen_of list_of is_shown result.2)) }
    ensures alone { workers ≡ 0 → IsEmpty result.2 }
{
    let alloc = rt.alloc();
    keep_memory(alloc);
    let Histories { changes, batches } = histories;
    let history = changes.named::<J>();
    let openings = Openings::new(batches.named::<K>());
    if workers == 0 {
        let (book, feed, outcome) = run_alone(alloc, book, feed, gate);
        return (book, feed, no_trace(alloc, openings, None), outcome);
    }
    let stop = AtomicBool::new(false);
    thread::scope(
        thread::scope_env(),
        rt,
        |scope| -> (Book, F, Trace<StoreWriter<J>, K>, Result<(), AllocError>)
            requires start { StandsAt book (opening (job_of book)) }
            requires job { J.job ≡ Some (job_of book) }
            requires limit { (job_of book).rules.options.state_limit ≡ J.limit }
            requires workers { (0 < workers) × (workers ≤ 64) }
            requires openings { openings ≡ [] }
            ensures job { result.0.job ≡ book.job }
            ensures told { F.told result.1 ≡ F.told feed }
            ensures names { F.names result.1 ≡ F.names feed }
            ensures ok { OnOk result.3 (RunsWell F.transitions (job_of book) workers feed result.0 result.1 (seen_of list_of is_shown result.2)) }
            ensures err { OnErr result.3 (RunsRefused F.transitions (job_of book) workers feed result.0 result.1 (seen_of list_of is_shown result.2)) }
        {
            run_beside(
                scope, rt, alloc, book, feed, workers, gate, &stop, &history, openings,
            )
        },
    )
}
