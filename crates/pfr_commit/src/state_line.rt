//! The lines of the states.
ghost use Rattle.std.specs.Prelude.{◌≡◌, ◌+◌, ◌≤◌, [], ◌∷◌, ◌++◌, length, OnOk};
ghost use Rattle.pfr_commit.specs.Lines as spec;

use crate::mark::put_mark;
use pfr_digits::Tail;
use pfr_ruleset::Interface;
use pfr_texts::{put_byte, put_direction, put_key, put_peer, put_rule, put_traffic};
use pfr_track::{DatagramPeer, Peers, State, TcpPeer};
use std::alloc::AllocError;

/// One line of the states: `N PROTO DIR WIRE STACK r=R t=T PEER PEER MADE DEADLINE P0 B0 P1 B1`, ` i=NAME` or ` i=-` if the run has
/// several interfaces, and a newline.
#[derive(Clone, Copy)]
pub struct StateLine<'a> {
    /// The interfaces of the run, by their places.
    pub interfaces: &'a [Interface],
    pub state: &'a State,
}

/// Puts one end of a TCP connection before the rest of a line: `code/low/high/window/offer`.
fn put_tcp_end(line: &mut Tail, end: TcpPeer)
    requires room { length line.old + 52 ≤ 128 }
    ensures text { line.new ≡ spec.tcp_end_text end ++ line.old }
    ensures long { length line.new ≤ length line.old + 35 }
{
    let code = end.state.code();
    put_peer(
        line,
        code,
        end.low.0,
        end.high.0,
        end.greatest_window,
        end.scale,
    );
}

/// Puts one end of another connection before the rest of a line: `code/0/0/0/-`.
#[tactic(auto, unfolding(crate::specs::Lines::datagram_end_text))]
fn put_datagram_end(line: &mut Tail, end: DatagramPeer)
    requires room { length line.old + 28 ≤ 128 }
    ensures text { line.new ≡ spec.datagram_end_text end ++ line.old }
    ensures long { length line.new ≤ length line.old + 11 }
{
    line.put_word(b"/0/0/0/-");
    put_byte(line, end.code());
}

/// Puts both ends of a connection before the rest of a line, the maker's first.
fn put_ends(line: &mut Tail, peers: &Peers)
    requires room { length line.old + 88 ≤ 128 }
    ensures text { line.new ≡ spec.ends_text peers.now ++ line.old }
    ensures long { length line.new ≤ length line.old + 71 }
{
    match *peers {
        Peers::Tcp(maker, other) => {
            put_tcp_end(line, other);
            line.put_word(b" ");
            put_tcp_end(line, maker);
        }
        Peers::Udp(maker, other) | Peers::Other(maker, other) => {
            put_datagram_end(line, other);
            line.put_word(b" ");
            put_datagram_end(line, maker);
        }
        Peers::Icmp => line.put_word(b"0/0/0/0/- 0/0/0/0/-"),
    }
}

/// How a line begins: `N PROTO DIR WIRE STACK`.
fn keys_of(state: &State) -> Tail
    ensures { result ≡ spec.keys_part state.now }
{
    let mut line = Tail::new();
    put_key(&mut line, &state.stack);
    line.put_word(b" ");
    put_key(&mut line, &state.wire);
    line.put_word(b" ");
    put_direction(&mut line, Some(state.direction));
    line.put_word(b" ");
    put_byte(&mut line, state.wire.protocol.0);
    line.put_word(b" ");
    line.put_number(state.number.0);
    line
}

/// How it goes on: ` r=R t=T PEER PEER`.
fn ends_of(state: &State) -> Tail
    ensures { result ≡ spec.ends_part state.now }
{
    let mut line = Tail::new();
    put_ends(&mut line, &state.peers);
    line.put_word(b" ");
    put_rule(&mut line, state.rules.translation);
    line.put_word(b" t=");
    put_rule(&mut line, state.rules.filter);
    line.put_word(b" r=");
    line
}

/// How it ends: ` MADE DEADLINE P0 B0 P1 B1`, the interface if the run has several, and a newline.
fn traffic_of(interfaces: &[Interface], state: &State) -> Tail
    ensures { result ≡ spec.traffic_before state.now (spec.mark interfaces.now state.now.rules.binding ++ 10 ∷ []) }
{
    let mut line = Tail::new();
    line.put_word(b"\n");
    put_mark(&mut line, interfaces, state.rules.binding);
    put_traffic(&mut line, state.back);
    line.put_word(b" ");
    put_traffic(&mut line, state.forth);
    line.put_word(b" ");
    line.put_number(state.deadline.0);
    line.put_word(b" ");
    line.put_number(u64::from(state.made.0));
    line.put_word(b" ");
    line
}

impl StateLine<'_> {
    /// Appends the line to a text. Nothing is formatted: each of its three parts is written from its end. If memory is refused, the
    /// parts before may have been appended.
    #[tactic(auto, unfolding(crate::specs::Lines::state_line))]
    pub fn put(&self, text: &mut Vec<u8>) -> Result<(), AllocError>
        ensures { OnOk result (text.new.items ≡ text.old.items ++ spec.state_line self.now.interfaces.now self.now.state.now) }
    {
        text.extend_from_slice(keys_of(self.state).as_slice())?;
        text.extend_from_slice(ends_of(self.state).as_slice())?;
        text.extend_from_slice(traffic_of(self.interfaces, self.state).as_slice())
    }
}
