//! A run of a standby over a source.
ghost use Rattle.std.specs.Prelude.{◌≡◌, ◌≤◌, ◌^◌, IfOk, IfErr, OnOk};
ghost use Rattle.pfr_stream.specs.Outcomes.{Ends, Fails, LeavesSink, Stops, WritesLines, Wrote};
ghost use Rattle.pfr_stream.specs.Reading as spec;

use crate::framing::Framing;
use crate::gathered::Gathered;
use crate::lines::write_lines;
use crate::reading::Stream;
use crate::stop::{Ending, StandbyStop};
use pfr_capture::{Sink, Source};
use std::alloc::Global;

/// Writes the lines of the states that are held.
fn write_states<S: Sink>(alloc: Global, stream: &Stream, sink: &mut S) -> Result<(), StandbyStop>
    ensures told { S.told sink.new ≡ S.told sink.old }
    ensures wrote { OnOk result (Wrote S.told S.written sink.old sink.new stream.now.standing) }
    ensures ok { OnOk result (S.failures sink.new ≡ S.failures sink.old) }
    ensures stops { IfErr result (spec.StopsWriting S.told S.written S.failures sink.old sink.new stream.now) }
{
    let Ok(mut gathered) = Gathered::new(alloc) else {
        return Err(StandbyStop::Memory(stream.count()));
    };
    match write_lines(&mut gathered, stream.holder(), sink) {
        Ok(()) => Ok(()),
        Err(_) => Err(StandbyStop::Write(stream.count())),
    }
}

/// How a run ends after `count` messages, by how reading ended.
fn outcome(count: u64, ending: Ending) -> Result<u64, StandbyStop>
    requires { count ≤ 2 ^ 40 }
    ensures { result ≡ spec.outcome count ending }
{
    match ending {
        Ending::Clean => Ok(count),
        Ending::Refused(refusal) => Err(StandbyStop::Message(count + 1, refusal)),
        Ending::Failed => Err(StandbyStop::Read(count)),
    }
}

/// Takes the messages of a source, and then writes the lines of the states that are held.
fn run<R: Source, S: Sink>(
    alloc: Global,
    stream: &mut Stream,
    source: &mut R,
    sink: &mut S,
) -> Result<u64, StandbyStop>
    requires { stream.old ≡ spec.start stream.old.framing }
    ensures source { R.told source.new ≡ R.told source.old }
    ensures sink { S.told sink.new ≡ S.told sink.old }
    ensures ok { IfOk result (Ends R.told R.unread S.told S.written stream.old.framing source.old sink.old sink.new) }
    ensures stops { IfErr result (Stops R.told R.unread R.failures S.told S.written stream.old.framing source.old source.new sink.old sink.new) }
    ensures failures { Fails R.failures S.failures source.old source.new sink.old sink.new result }
    ensures lines { WritesLines S.told S.written sink.old sink.new result }
    ensures memory { IfErr result (LeavesSink sink.old sink.new) }
{
    let Ok(ending) = stream.take_all(alloc, source) else {
        return Err(StandbyStop::Memory(stream.count()));
    };
    match write_states(alloc, stream, sink) {
        Ok(()) => outcome(stream.count(), ending),
        Err(stop) => Err(stop),
    }
}

/// Reads messages to the source's end, has a standby take each, and writes a line for each state that it holds then, by rising number.
/// Answers how many messages were taken.
///
/// A stop says after how many messages it came. If a message is refused, or if the source fails, the lines are those of the states that
/// are held before it. No line is written before reading has ended, and none if memory is refused. Messages that are
/// whole in the bytes that came are taken before the source is read again, so nothing depends on how it hands out its
/// bytes. A source that failed isn't read again. Beside the states, two buffers of 4096 bytes and one message are held
/// in memory.
pub fn standby<R: Source, S: Sink>(
    alloc: Global,
    source: &mut R,
    framing: Framing,
    sink: &mut S,
) -> Result<u64, StandbyStop>
    ensures source { R.told source.new ≡ R.told source.old }
    ensures sink { S.told sink.new ≡ S.told sink.old }

    // If the source tells its bytes.
    ensures ok { IfOk result (Ends R.told R.unread S.told S.written framing source.old sink.old sink.new) }
    ensures stops { IfErr result (Stops R.told R.unread R.failures S.told S.written framing source.old source.new sink.old sink.new) }

    // Whatever it tells.
    ensures failures { Fails R.failures S.failures source.old source.new sink.old sink.new result }
    ensures lines { WritesLines S.told S.written sink.old sink.new result }
    ensures memory { IfErr result (LeavesSink sink.old sink.new) }
{
    let Ok(mut stream) = Stream::new(alloc, framing) else {
        return Err(StandbyStop::Memory(0));
    };
    run(alloc, &mut stream, source, sink)
}
