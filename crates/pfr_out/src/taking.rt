//! The end of a run.
ghost use Rattle.std.specs.Prelude.{◌≡◌, IfErr, IfOk, OnOk, Ok};
ghost use Rattle.pfr_out.specs.Outputs.{KeepsMessages, each_of};
ghost use Rattle.pfr_out.specs.Taking.{ClosesIn, ConcludeFails, ConcludesIn, EndStopsIn, SinksFail};

use crate::channel::{Channel, source_of};
use crate::sinks::Sinks;
use pfr_capture::{CaptureError, Sink, Tail};
use pfr_commit::Book;
use pfr_feed::{Report, Stop, stop_for};

/// Writes the last texts of a run.
pub(crate) fn close<S: Sink>(
    book: Book,
    tail: Tail,
    channel: &mut Channel,
    sinks: &mut Sinks<S>,
) -> Result<Report, Stop>
    ensures told { each_of S.told sinks.new ≡ each_of S.told sinks.old }
    ensures messages { KeepsMessages channel.old.form sinks.old sinks.new }
    ensures closed { IfOk result (λ report. (report.committed ≡ book.count) × (report.tail ≡ tail)) }
    ensures written { OnOk result (ClosesIn S.told S.written book channel.old.form sinks.old sinks.new) }
    ensures stops { IfErr result (λ stop. EndStopsIn S.told S.written book channel.old.form sinks.old sinks.new stop) }
    ensures no_failure { OnOk result (each_of S.failures sinks.new ≡ each_of S.failures sinks.old) }
    ensures failure { IfErr result (λ stop. SinksFail stop (each_of S.failures sinks.old) (each_of S.failures sinks.new)) }
{
    let committed = book.committed();
    let source = source_of(book.job());
    let ending = match book.finish() {
        Ok(ending) => ending,
        Err(_) => return Err(Stop::Memory(committed)),
    };
    match channel.spell(source, ending.message.as_slice()) {
        Ok(()) => {}
        Err(_) => return Err(Stop::Memory(committed)),
    }
    match sinks.write_ending(&ending, channel.text()) {
        Ok(()) => Ok(Report { committed, tail }),
        Err(output) => Err(Stop::Write(output, committed)),
    }
}

/// Ends a run whose reading has ended: at the end of the captures it writes the last texts, and it reports a refusal.
pub(crate) fn conclude<S: Sink>(
    book: Book,
    end: Result<Tail, (usize, CaptureError)>,
    channel: &mut Channel,
    sinks: &mut Sinks<S>,
) -> Result<Report, Stop>
    ensures told { each_of S.told sinks.new ≡ each_of S.told sinks.old }
    ensures messages { KeepsMessages channel.old.form sinks.old sinks.new }
    ensures closed { IfOk result (λ report. (report.committed ≡ book.count) × (end ≡ Ok report.tail)) }
    ensures written { OnOk result (ClosesIn S.told S.written book channel.old.form sinks.old sinks.new) }
    ensures stops { IfErr result (λ stop. ConcludesIn S.told S.written end book channel.old.form sinks.old sinks.new stop) }
    ensures no_failure { OnOk result (each_of S.failures sinks.new ≡ each_of S.failures sinks.old) }
    ensures failure { IfErr result (λ stop. ConcludeFails end book.count (each_of S.failures sinks.old) (each_of S.failures sinks.new) stop) }
{
    match end {
        Ok(tail) => match close(book, tail, channel, sinks) {
            Ok(report) => Ok(report),
            Err(stop) => Err(stop),
        },
        Err(refusal) => Err(stop_for(refusal, book.committed())),
    }
}
