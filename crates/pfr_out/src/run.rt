//! The replay of captures.
ghost use Rattle.std.specs.Prelude.{◌≡◌, ◌≤◌, IfErr, IfOk, OnOk, length, map};
ghost use Rattle.pfr_commit.specs.Books.{StandsAt, job_of};
ghost use Rattle.pfr_commit.specs.World.{opening};
ghost use Rattle.pfr_merge.specs.MergeReading.{HasPassedOn, NoneRefused, header_in};
ghost use Rattle.pfr_out.specs.Outputs.{KeepsMessages, each_of};
ghost use Rattle.pfr_out.specs.Replay.{NoneFails, Replays, ReplaysRun, StopFailsIn, Stops, StopsRun, StopsUntoldIn};
ghost use Rattle.pfr_out.specs.Taking.{IsLate, IsPastHeader, ReplaysOn, StopsOn};

use crate::channel::{Channel, source_of};
use crate::feeding::Feeding;
use crate::settings::{RunSettings, Settings};
use crate::sinks::Sinks;
use pfr_capture::{Sink, Source};
use pfr_commit::Book;
use pfr_feed::{Report, Sources, Stop, stop_for};
use pfr_merge::Merge;
use pfr_packet::Job;
use pfr_work::{Gate, Histories};
use std::alloc::{AllocError, AllocGlobal, Global};
use std::marker::Brand;
use std::sync::{Arc, Wait};
use std::thread::Threads;

/// A book that has taken no packet of a job.
fn book_of(alloc: Global, job: Job) -> Result<Book, AllocError>
    ensures world { IfOk result (λ book. StandsAt book (opening job)) }
    ensures job { IfOk result (λ book. job_of book ≡ job) }
{
    let job = Arc::new(alloc, job)?;
    Book::new(alloc, job)
}

/// Replays captures of which no record was given.
fn replay_captures<H: AllocGlobal + Threads + Wait + Sync, R: Source, S: Sink, G: Gate>(
    rt: &H,
    book: Book,
    mut merge: Merge,
    sources: &mut Sources<R>,
    settings: RunSettings,
    mut channel: Channel,
    sinks: &mut Sinks<S>,
    gate: &G,
) -> Result<Report, Stop>
    requires reading { NoneRefused merge }
    requires start { HasPassedOn 0 merge }
    requires captures { (length sources.old ≡ length merge) × (length merge ≤ 8) }
    requires world { StandsAt book (opening (job_of book)) }
    requires batch { (1 ≤ settings.batch) × (settings.batch ≤ 4096) }
    requires form { channel.form ≡ settings.form }
    requires workers { settings.workers ≤ 64 }
    ensures told { (map R.told sources.new ≡ map R.told sources.old) × (each_of S.told sinks.new ≡ each_of S.told sinks.old) }
    ensures messages { KeepsMessages settings.form sinks.old sinks.new }
    ensures ok { IfOk result (ReplaysOn R.told R.unread S.told S.written book settings merge sources.old sinks.old sinks.new) }
    ensures stopped { IfErr result (StopsOn R.told R.unread S.told S.written book settings merge sources.old sources.new sinks.old sinks.new) }
    ensures past { IfErr result (λ stop. IsPastHeader stop) }
    ensures no_failure { OnOk result (NoneFails R.failures S.failures sources.old sources.new sinks.old sinks.new) }
    ensures failure { IfErr result (λ stop. StopFailsIn R.failures S.failures sources.old sources.new sinks.old sinks.new stop) }
{
    let headers = match merge.headers(rt.alloc()) {
        Ok(headers) => headers,
        Err(_) => {
            drop(channel);
            drop(merge);
            drop(book);
            return Err(Stop::Memory(0));
        }
    };
    match sinks.write_headers(headers.as_slice()) {
        Ok(()) => {}
        Err(output) => {
            drop(headers);
            drop(channel);
            drop(merge);
            drop(book);
            return Err(Stop::Write(output, 0));
        }
    }
    drop(headers);
    let address = source_of(book.job());
    let feeding = Feeding {
        alloc: rt.alloc(),
        merge: &mut merge,
        sources,
        most: settings.batch,
        channel: &mut channel,
        address,
        sinks,
        given: 0,
        committed: 0,
        end: None,
        cut: None,
    };
    let histories = Histories::new();
    let mut last = None;
    let mut feeding = feeding.run::<Brand, Brand, H, G>(
        rt,
        book,
        settings.workers,
        gate,
        histories,
        &mut last,
    );
    feeding.finish(last)
}

/// Replays captures by a job whose ruleset was read before: what [`replay`] does after it has read its text. No stop is
/// for the ruleset.
///
/// It is public for a program that reports a fault of the ruleset before it opens the captures.
pub fn replay_job<H: AllocGlobal + Threads + Wait + Sync, R: Source, S: Sink, G: Gate>(
    rt: &H,
    sources: &mut Sources<R>,
    job: Job,
    settings: RunSettings,
    sinks: &mut Sinks<S>,
    gate: &G,
) -> Result<Report, Stop>
    requires captures { length sources.old ≤ 8 }
    requires batch { (1 ≤ settings.batch) × (settings.batch ≤ 4096) }
    requires workers { settings.workers ≤ 64 }
    ensures told { (map R.told sources.new ≡ map R.told sources.old) × (each_of S.told sinks.new ≡ each_of S.told sinks.old) }
    ensures messages { KeepsMessages settings.form sinks.old sinks.new }
    ensures ok { IfOk result (λ report. Replays R.told R.unread S.told S.written job settings sources.old sinks.old sinks.new report) }
    ensures stopped { IfErr result (λ stop. Stops R.told R.unread S.told S.written job settings sources.old sources.new sinks.old sinks.new stop) }
    ensures refused { IfErr result (λ stop. StopsUntoldIn S.told S.written sinks.old sinks.new stop) }
    ensures late { IfErr result (λ stop. IsLate stop) }
    ensures no_failure { OnOk result (NoneFails R.failures S.failures sources.old sources.new sinks.old sinks.new) }
    ensures failure { IfErr result (λ stop. StopFailsIn R.failures S.failures sources.old sources.new sinks.old sinks.new stop) }
{
    let alloc = rt.alloc();
    let merge = match sources.open(alloc) {
        Ok(merge) => merge,
        Err(refusal) => {
            drop(job);
            return Err(stop_for(refusal, 0));
        }
    };
    let book = match book_of(alloc, job) {
        Ok(book) => book,
        Err(_) => {
            drop(merge);
            return Err(Stop::Memory(0));
        }
    };
    let channel = Channel::new(alloc, settings.form);
    replay_captures(rt, book, merge, sources, settings, channel, sinks, gate)
}

/// Replays captures through a ruleset, as the firewall's interfaces would see their packets. There is a capture for
/// each of 1 to 8 interfaces, at its place, and packets are taken in the order of time over all captures, a batch at a
/// time. A packet whose source lies in an inside network goes out.
///
/// Of the next packets of all captures the earliest is taken, and of equally early ones the one of the first capture.
/// The packets of one capture stay in their order. A capture that is cut has no more packets.
///
/// If there are workers, they evaluate the packets of the next batches ahead, and the gate is told of their turns. What
/// is written depends on neither: it is what one thread writes that takes the packets one after the other. With workers
/// the sources are read at most three batches ahead of what is written.
///
/// The text is read first, and a fault of it leaves the sources unread. Then all headers are read, in the order of the
/// captures, and each goes to the packets of its place, in a write of its own. Then each batch adds the messages that
/// it closes, a line for each packet to the verdicts, and the packets that aren't blocked to the packets of their
/// places, in one write each. At the end of the captures the open message is written, and then the counters and the
/// states. A read that fails, and a record that is too long, end the run as soon as the packets before it are written:
/// behind the last whole record of its capture. The open message, the counters and the states are left out then. An
/// empty text isn't written to the sink of messages, so a run in form None doesn't touch it.
///
/// Ok says that the captures were read to their end; the sinks have then grown by just what their packets write, one
/// after the other. At every stop they have grown by a beginning of that, and hold all that the packets write that the
/// stop reports as committed.
///
/// Whatever the devices, Ok comes only if the text means a ruleset, and a stop for the ruleset only with the text's
/// first fault, or for want of memory. A refusal of a capture's header comes before anything is written. What else is
/// said of the captures holds if all sources tell their bytes, and what is said of an output if its sink tells its
/// bytes.
pub fn replay<H: AllocGlobal + Threads + Wait + Sync, R: Source, S: Sink, G: Gate>(
    rt: &H,
    sources: &mut Sources<R>,
    text: &[u8],
    seed: [u8; 32],
    settings: &Settings<'_>,
    sinks: &mut Sinks<S>,
    gate: &G,
) -> Result<Report, Stop>
    requires captures { length sources.old ≤ 8 }
    requires batch { (1 ≤ settings.now.batch) × (settings.now.batch ≤ 4096) }
    requires workers { settings.now.workers ≤ 64 }
    ensures told { (map R.told sources.new ≡ map R.told sources.old) × (each_of S.told sinks.new ≡ each_of S.told sinks.old) }
    ensures messages { KeepsMessages settings.now.form sinks.old sinks.new }

    // A run to the end.
    ensures ok { IfOk result (ReplaysRun R.told R.unread S.told S.written text.now seed settings.now sources.old sinks.old sinks.new) }
    ensures no_failure { OnOk result (NoneFails R.failures S.failures sources.old sources.new sinks.old sinks.new) }

    // A stop.
    ensures stopped { IfErr result (StopsRun R.told R.unread S.told S.written text.now seed settings.now sources.old sources.new sinks.old sinks.new) }
    ensures refused { IfErr result (λ stop. StopsUntoldIn S.told S.written sinks.old sinks.new stop) }
    ensures failure { IfErr result (λ stop. StopFailsIn R.failures S.failures sources.old sources.new sinks.old sinks.new stop) }
{
    let job = match Job::new(rt.alloc(), text, settings.interfaces, settings.inside, seed) {
        Ok(job) => job,
        Err(fault) => return Err(Stop::Ruleset(fault)),
    };
    let Settings {
        batch,
        workers,
        form,
        ..
    } = *settings;
    let for_run = RunSettings {
        batch,
        workers,
        form,
    };
    replay_job(rt, sources, job, for_run, sinks, gate)
}
