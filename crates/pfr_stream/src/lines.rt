//! The lines of the states that a standby holds.
ghost use Rattle.std.specs.Prelude.{◌≡◌, ◌≤◌, ◌+◌, [], ◌++◌, length, IsTrue, OnOk, OnErr};
ghost use Rattle.pfr_capture.specs.Device.{GrewByPart, Rose};
ghost use Rattle.pfr_stream.specs.Lines as spec;
ghost use Rattle.pfr_stream.specs.Writing.{Appends, Breaks};

use crate::gathered::Gathered;
use pfr_capture::{Fault, Sink};
use pfr_digits::Tail;
use pfr_messages::{Parties, Peer};
use pfr_net::Protocol;
use pfr_standby::{Kept, Standby};
use pfr_texts::{put_byte, put_direction, put_key, put_peer, put_rule};
use pfr_track::Key;

/// Puts one end of a connection before the rest of a line.
fn put_end(line: &mut Tail, peer: Peer)
    requires room { length line.old + 52 ≤ 128 }
    ensures text { line.new ≡ spec.held_end_text peer ++ line.old }
    ensures long { length line.new ≤ length line.old + 35 }
{
    put_peer(
        line,
        peer.code,
        peer.low.0,
        peer.high.0,
        peer.greatest_window,
        peer.scale,
    );
}

/// The parties of a protocol as a key.
fn key_of(protocol: Protocol, parties: Parties) -> Key
    ensures { result ≡ spec.key_of protocol parties }
{
    Key {
        protocol,
        outside: parties.outside,
        inside: parties.inside,
    }
}

/// How a line begins: `N PROTO DIR WIRE STACK`.
fn keys_of(number: u64, kept: &Kept) -> Tail
    ensures text { result ≡ spec.keys_part number kept.now }
    ensures long { length result ≤ 128 }
{
    let mut line = Tail::new();
    put_key(&mut line, &key_of(kept.protocol, kept.stack));
    line.put_word(b" ");
    put_key(&mut line, &key_of(kept.protocol, kept.wire));
    line.put_word(b" ");
    put_direction(&mut line, Some(kept.direction));
    line.put_word(b" ");
    put_byte(&mut line, kept.protocol.0);
    line.put_word(b" ");
    line.put_number(number);
    line
}

/// How it ends: ` r=R PEER PEER TIMEOUT` and a newline.
fn ends_of(kept: &Kept) -> Tail
    ensures text { result ≡ spec.ends_part kept.now }
    ensures long { length result ≤ 128 }
{
    let mut line = Tail::new();
    line.put_word(b"\n");
    put_byte(&mut line, kept.timeout.code());
    line.put_word(b" ");
    put_end(&mut line, kept.other);
    line.put_word(b" ");
    put_end(&mut line, kept.maker);
    line.put_word(b" ");
    put_rule(&mut line, kept.rule);
    line.put_word(b" r=");
    line
}

/// Appends the line of a state to those on their way to a sink.
#[tactic(auto, unfolding(crate::specs::Lines::line))]
fn append_line<S: Sink>(
    gathered: &mut Gathered,
    number: u64,
    kept: &Kept,
    sink: &mut S,
) -> Result<(), Fault>
    ensures told { S.told sink.new ≡ S.told sink.old }
    ensures appended { OnOk result (IsTrue (S.told sink.old) → Appends (spec.line number kept.now) gathered.old gathered.new (S.written sink.old) (S.written sink.new)) }
    ensures part { OnErr result (IsTrue (S.told sink.old) → Breaks (spec.line number kept.now) gathered.old (S.written sink.old) (S.written sink.new)) }
    ensures ok { OnOk result (S.failures sink.new ≡ S.failures sink.old) }
    ensures failed { OnErr result (Rose (S.failures sink.old) (S.failures sink.new)) }
{
    gathered.append(keys_of(number, kept).as_slice(), sink)?;
    gathered.append(ends_of(kept).as_slice(), sink)
}

/// Writes the lines of the states that are held, by rising number.
pub(crate) fn write_lines<S: Sink>(
    gathered: &mut Gathered,
    standby: &Standby,
    sink: &mut S,
) -> Result<(), Fault>
    requires { gathered.old ≡ [] }
    ensures told { S.told sink.new ≡ S.told sink.old }
    ensures written { OnOk result (IsTrue (S.told sink.old) → S.written sink.new ≡ S.written sink.old ++ spec.lines standby.now) }
    ensures part { OnErr result (IsTrue (S.told sink.old) → GrewByPart (S.written sink.old) (S.written sink.new) (spec.lines standby.now)) }
    ensures ok { OnOk result (S.failures sink.new ≡ S.failures sink.old) }
    ensures failed { OnErr result (Rose (S.failures sink.old) (S.failures sink.new)) }
{
    for (number, kept) in standby.states() {
        append_line(gathered, *number, kept, sink)?;
    }
    gathered.write(sink)
}
