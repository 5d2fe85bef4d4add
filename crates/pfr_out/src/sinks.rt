//! Where the outputs go.
ghost use Rattle.std.specs.Prelude.{◌≡◌, ◌++◌, [], IsTrue, IfErr, OnErr, OnOk};
ghost use Rattle.pfr_capture.specs.Device.{GrewByPart, Rose};

use crate::packet_sinks::PacketSinks;
use pfr_capture::{Fault, Sink, write_all};
use pfr_commit::{Emitted, Ending};
use pfr_feed::Output;

/// Where the outputs go.
#[derive(Drop)]
pub struct Sinks<S> {
    /// A line for each packet.
    pub verdicts: S,
    /// The headers of the captures, and the packets that aren't blocked, an output for each capture.
    pub packets: PacketSinks<S>,
    /// A line for each rule, and the totals.
    pub counters: S,
    /// A line for each state that is left.
    pub states: S,
    /// What another firewall is told of the states.
    pub messages: S,
}

/// Writes messages as they are spelled. If there is none, the sink isn't touched.
fn write_messages<S: Sink>(sink: &mut S, messages: &[u8]) -> Result<(), Fault>
    ensures told { S.told sink.new ≡ S.told sink.old }
    ensures none { messages.now ≡ [] → sink.new ≡ sink.old }
    ensures whole { OnOk result (IsTrue (S.told sink.old) → S.written sink.new ≡ S.written sink.old ++ messages.now) }
    ensures part { OnErr result (IsTrue (S.told sink.old) → GrewByPart (S.written sink.old) (S.written sink.new) messages.now) }
    ensures no_failure { OnOk result (S.failures sink.new ≡ S.failures sink.old) }
    ensures failure { OnErr result (Rose (S.failures sink.old) (S.failures sink.new)) }
{
    if messages.is_empty() {
        return Ok(());
    }
    write_all(sink, messages)
}

impl<S: Sink> Sinks<S> {
    ghost use Rattle.pfr_out.specs.Outputs.{GrewBy, RoseAt, TookPart, all_told, each_of, emitted_alone, headers_alone, last_alone};

    /// Whether all sinks tell their bytes.
    pub(crate) fn tell(&self) -> bool
        ensures { result ≡ all_told S.told self.now }
    {
        self.verdicts.tells()
            && self.packets.tell()
            && self.counters.tells()
            && self.states.tells()
            && self.messages.tells()
    }

    /// Writes the headers of captures, each to the output of its packets.
    pub(crate) fn write_headers(&mut self, headers: &[[u8; 24]]) -> Result<(), Output>
        ensures told { each_of S.told self.new ≡ each_of S.told self.old }
        ensures messages { self.new.messages ≡ self.old.messages }
        ensures ok { OnOk result (GrewBy S.told S.written self.old self.new (headers_alone headers.now)) }
        ensures fails { IfErr result (λ output. TookPart S.told S.written self.old self.new (headers_alone headers.now) output) }
        ensures no_failure { OnOk result (each_of S.failures self.new ≡ each_of S.failures self.old) }
        ensures failure { IfErr result (λ output. RoseAt output (each_of S.failures self.old) (each_of S.failures self.new)) }
    {
        match self.packets.write_headers(headers) {
            Ok(()) => Ok(()),
            Err(place) => Err(Output::Packets(place)),
        }
    }

    /// Writes what packets add: the messages that they close, their verdict lines, and then the packets that aren't blocked.
    pub(crate) fn write_batch(&mut self, batch: &Emitted, messages: &[u8]) -> Result<(), Output>
        ensures told { each_of S.told self.new ≡ each_of S.told self.old }
        ensures messages { messages.now ≡ [] → self.new.messages ≡ self.old.messages }
        ensures ok { OnOk result (GrewBy S.told S.written self.old self.new (emitted_alone batch.now messages.now)) }
        ensures fails { IfErr result (λ output. TookPart S.told S.written self.old self.new (emitted_alone batch.now messages.now) output) }
        ensures no_failure { OnOk result (each_of S.failures self.new ≡ each_of S.failures self.old) }
        ensures failure { IfErr result (λ output. RoseAt output (each_of S.failures self.old) (each_of S.failures self.new)) }
    {
        write_messages(&mut self.messages, messages).map_err(|_| Output::Messages)?;
        write_all(&mut self.verdicts, batch.verdicts.as_slice()).map_err(|_| Output::Verdicts)?;
        match self.packets.write_texts(batch.packets.as_slice()) {
            Ok(()) => Ok(()),
            Err(place) => Err(Output::Packets(place)),
        }
    }

    /// Writes what stands at the end of a run: the last message, the counters, and then the states.
    pub(crate) fn write_ending(&mut self, ending: &Ending, message: &[u8]) -> Result<(), Output>
        ensures told { each_of S.told self.new ≡ each_of S.told self.old }
        ensures messages { message.now ≡ [] → self.new.messages ≡ self.old.messages }
        ensures ok { OnOk result (GrewBy S.told S.written self.old self.new (last_alone ending.now message.now)) }
        ensures fails { IfErr result (λ output. TookPart S.told S.written self.old self.new (last_alone ending.now message.now) output) }
        ensures no_failure { OnOk result (each_of S.failures self.new ≡ each_of S.failures self.old) }
        ensures failure { IfErr result (λ output. RoseAt output (each_of S.failures self.old) (each_of S.failures self.new)) }
    {
        write_messages(&mut self.messages, message).map_err(|_| Output::Messages)?;
        write_all(&mut self.counters, ending.counters.as_slice()).map_err(|_| Output::Counters)?;
        write_all(&mut self.states, ending.states.as_slice()).map_err(|_| Output::States)
    }
}
