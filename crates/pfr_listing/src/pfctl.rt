//! States as pfctl(8) prints them with `-s states`.
ghost use Rattle.std.specs.Prelude.{◌≡◌, ◌++◌, OnOk, codes, option_map};
ghost use Rattle.pfr_listing.specs.Pfctl as spec;

use crate::line::{Bound, Listed};
use pfr_net::{Direction, Endpoint, Protocol};
use pfr_texts::{append_address, append_number};
use pfr_track::{DatagramPeer, Key, Peers, State, TcpPeerState};
use std::alloc::AllocError;

/// The name of a state of TCP's.
pub(crate) fn tcp_name(state: TcpPeerState) -> &'static [u8]
    ensures { result.now ≡ spec.tcp_name state }
{
    match state {
        TcpPeerState::Closed => b"CLOSED",
        TcpPeerState::Listen => b"LISTEN",
        TcpPeerState::SynSent => b"SYN_SENT",
        TcpPeerState::SynReceived => b"SYN_RCVD",
        TcpPeerState::Established => b"ESTABLISHED",
        TcpPeerState::CloseWait => b"CLOSE_WAIT",
        TcpPeerState::FinWait1 => b"FIN_WAIT_1",
        TcpPeerState::Closing => b"CLOSING",
        TcpPeerState::LastAck => b"LAST_ACK",
        TcpPeerState::FinWait2 => b"FIN_WAIT_2",
        TcpPeerState::TimeWait => b"TIME_WAIT",
    }
}

/// The name of an end of another connection.
pub(crate) fn datagram_name(end: DatagramPeer) -> &'static [u8]
    ensures { result.now ≡ spec.datagram_name end }
{
    match end {
        DatagramPeer::Silent => b"NO_TRAFFIC",
        DatagramPeer::Single => b"SINGLE",
        DatagramPeer::Multiple => b"MULTIPLE",
    }
}

/// The names of the end that made a state, and of the other one.
fn end_names(peers: &Peers) -> (&'static [u8], &'static [u8])
    ensures maker { result.0.now ≡ (spec.end_names peers.now).0 }
    ensures other { result.1.now ≡ (spec.end_names peers.now).1 }
{
    match peers {
        Peers::Tcp(maker, other) => (tcp_name(maker.state), tcp_name(other.state)),
        Peers::Udp(maker, other) | Peers::Other(maker, other) => {
            (datagram_name(*maker), datagram_name(*other))
        }
        Peers::Icmp => (b"0", b"0"),
    }
}

/// The name of a protocol in protocols(5).
pub fn protocol_name(protocol: Protocol) -> Option<&'static [u8]>
    ensures { option_map (λ name. name.now) result ≡ spec.protocol_name protocol.0 }
{
    match protocol.0 {
        1 => Some(b"icmp"),
        2 => Some(b"igmp"),
        6 => Some(b"tcp"),
        17 => Some(b"udp"),
        47 => Some(b"gre"),
        50 => Some(b"esp"),
        51 => Some(b"ah"),
        89 => Some(b"ospf"),
        103 => Some(b"pim"),
        112 => Some(b"carp"),
        132 => Some(b"sctp"),
        _ => None,
    }
}

/// Appends a protocol's name, or its number if it has none.
fn put_protocol(text: &mut Vec<u8>, protocol: Protocol) -> Result<(), AllocError>
    ensures { OnOk result (text.new.items ≡ text.old.items ++ spec.named_or protocol.0 (spec.protocol_name protocol.0)) }
{
    match protocol_name(protocol) {
        Some(name) => text.extend_from_slice(name),
        None => append_number(text, u64::from(protocol.0)),
    }
}

/// Appends an end of a connection: `a.b.c.d:port`, or the address alone if the port is 0.
fn put_host(text: &mut Vec<u8>, end: Endpoint) -> Result<(), AllocError>
    ensures { OnOk result (text.new.items ≡ text.old.items ++ spec.host end) }
{
    append_address(text, end.address)?;
    if end.port.0 == 0 {
        return Ok(());
    }
    text.extend_from_slice(b":")?;
    append_number(text, u64::from(end.port.0))
}

/// Whether two ends are the same.
fn are_same(one: Endpoint, other: Endpoint) -> bool
    ensures { result ≡ spec.are_same one other }
{
    one.address.0 == other.address.0 && one.port.0 == other.port.0
}

/// Appends an end, and in brackets the same on the other side if it is translated.
fn put_both(text: &mut Vec<u8>, here: Endpoint, there: Endpoint) -> Result<(), AllocError>
    ensures { OnOk result (text.new.items ≡ text.old.items ++ spec.both_sides here there) }
{
    put_host(text, here)?;
    if are_same(here, there) {
        return Ok(());
    }
    text.extend_from_slice(b" (")?;
    put_host(text, there)?;
    text.extend_from_slice(b")")
}

/// Appends both ends of a connection, the one inside first.
fn put_ends(text: &mut Vec<u8>, here: &Key, there: &Key, arrow: &[u8]) -> Result<(), AllocError>
    ensures { OnOk result (text.new.items ≡ text.old.items ++ spec.ends here.now there.now arrow.now) }
{
    put_both(text, here.inside, there.inside)?;
    text.extend_from_slice(arrow)?;
    put_both(text, here.outside, there.outside)
}

/// A connection on one side as it is shown beside the other one. An ICMP echo has one identifier: the end towards which
/// its first packet went is shown with the identifier of the other side.
fn seen_beside(direction: Direction, here: &Key, there: &Key) -> Key
    ensures { result ≡ spec.there_for direction here.now there.now }
{
    let mut seen = *there;
    if seen.protocol.0 == 1 {
        match direction {
            Direction::Out => seen.outside.port = here.outside.port,
            Direction::In => seen.inside.port = here.inside.port,
        }
    }
    seen
}

/// Appends both ends of a state's connection, by the way of the packet that made it.
fn put_connection(text: &mut Vec<u8>, state: &State) -> Result<(), AllocError>
    ensures { OnOk result (text.new.items ≡ text.old.items ++ spec.ends_by state.now.direction state.now) }
{
    match state.direction {
        Direction::Out => {
            let stack = seen_beside(Direction::Out, &state.wire, &state.stack);
            put_ends(text, &state.wire, &stack, b" -> ")
        }
        Direction::In => {
            let wire = seen_beside(Direction::In, &state.stack, &state.wire);
            put_ends(text, &state.stack, &wire, b" <- ")
        }
    }
}

/// Appends two names with a colon between.
fn put_names(text: &mut Vec<u8>, first: &[u8], second: &[u8]) -> Result<(), AllocError>
    ensures { OnOk result (text.new.items ≡ text.old.items ++ (first.now ++ (codes ":" ++ second.now))) }
{
    text.extend_from_slice(first)?;
    text.extend_from_slice(b":")?;
    text.extend_from_slice(second)
}

/// Appends how far both ends have come.
fn put_peers(text: &mut Vec<u8>, state: &State) -> Result<(), AllocError>
    ensures { OnOk result (text.new.items ≡ text.old.items ++ spec.names_by state.now.direction state.now.peers) }
{
    let (maker, other) = end_names(&state.peers);
    match state.direction {
        Direction::Out => put_names(text, maker, other),
        Direction::In => put_names(text, other, maker),
    }
}

/// What pfctl prints first: the interface to which a state is bound, or `all`.
fn bound_to<'a>(bound: &Bound<'a>) -> &'a [u8]
    ensures { result.now ≡ spec.bound_to bound.now }
{
    match bound {
        Bound::To(name) => name.as_slice(),
        Bound::Unsaid | Bound::All => b"all",
    }
}

/// Appends how a line begins: the interface, and the protocol.
fn put_front(listed: &Listed<'_>, text: &mut Vec<u8>) -> Result<(), AllocError>
    ensures { OnOk result (text.new.items ≡ text.old.items ++ spec.front listed.now) }
{
    text.extend_from_slice(bound_to(&listed.bound))?;
    text.extend_from_slice(b" ")?;
    put_protocol(text, listed.state.wire.protocol)?;
    text.extend_from_slice(b" ")
}

/// Appends how it goes on: both ends of the connection, and how far they have come.
fn put_rest(state: &State, text: &mut Vec<u8>) -> Result<(), AllocError>
    ensures { OnOk result (text.new.items ≡ text.old.items ++ spec.rest state.now) }
{
    put_connection(text, state)?;
    text.extend_from_slice(b"       ")?;
    put_peers(text, state)?;
    text.extend_from_slice(b"\n")
}

/// Appends the line of a state.
#[tactic(auto, unfolding(crate::specs::Pfctl::pfctl_line))]
pub fn put_pfctl(listed: &Listed<'_>, text: &mut Vec<u8>) -> Result<(), AllocError>
    ensures { OnOk result (text.new.items ≡ text.old.items ++ spec.pfctl_line listed.now) }
{
    put_front(listed, text)?;
    put_rest(&listed.state, text)
}
