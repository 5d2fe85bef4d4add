//! States as JSON, each an object on a line of its own.
ghost use Rattle.std.specs.Prelude.{◌≡◌, ◌++◌, ◌<◌, ◌∷◌, [], OnOk};
ghost use Rattle.std.specs.Fmt.{decimal};
ghost use Rattle.std.specs.List.{flat_map};
ghost use Rattle.pfr_texts.specs.Texts.{address_text};
ghost use Rattle.pfr_listing.specs.Json as spec;

use crate::line::{Bound, Listed};
use crate::pfctl::{datagram_name, tcp_name};
use pfr_net::{Direction, Endpoint, Ipv4Address, Port, Protocol, RuleNumber};
use pfr_texts::{append_address, append_number};
use pfr_track::{Clock, DatagramPeer, Key, Peers, State, TcpPeer, Traffic};
use std::alloc::AllocError;

/// A hexadecimal digit.
fn hexadecimal(digit: u8) -> u8
    requires { digit < 16 }
    ensures { result ≡ spec.hexadecimal digit }
{
    if digit < 10 {
        b'0' + digit
    } else {
        b'a' - 10 + digit
    }
}

/// Whether a byte of a string stands for itself.
fn stands_for_itself(byte: u8) -> bool
    ensures { result ≡ spec.stands_for_itself byte }
{
    b' ' <= byte && byte <= b'~' && byte != b'"' && byte != b'\\'
}

/// Appends a byte of a string.
fn put_escaped(text: &mut Vec<u8>, byte: u8) -> Result<(), AllocError>
    ensures { OnOk result (text.new.items ≡ text.old.items ++ spec.escaped byte) }
{
    if stands_for_itself(byte) {
        return text.extend_from_slice(&[byte]);
    }
    text.extend_from_slice(b"\\u00")?;
    text.extend_from_slice(&[hexadecimal(byte / 16), hexadecimal(byte % 16)])
}

/// Appends the bytes of a string.
fn put_all_escaped(text: &mut Vec<u8>, bytes: &[u8]) -> Result<(), AllocError>
    ensures { OnOk result (text.new.items ≡ text.old.items ++ flat_map spec.escaped bytes.now) }
{
    for byte in bytes {
        put_escaped(text, *byte)?;
    }
    Ok(())
}

/// Appends a string: each byte but a printed one of ASCII is escaped, as if it were a character.
pub fn put_string(text: &mut Vec<u8>, bytes: &[u8]) -> Result<(), AllocError>
    ensures { OnOk result (text.new.items ≡ text.old.items ++ spec.string bytes.now) }
{
    text.extend_from_slice(b"\"")?;
    put_all_escaped(text, bytes)?;
    text.extend_from_slice(b"\"")
}

/// Appends `lead` and a number.
pub fn put_count(text: &mut Vec<u8>, lead: &[u8], number: u64) -> Result<(), AllocError>
    ensures { OnOk result (text.new.items ≡ text.old.items ++ (lead.now ++ decimal number)) }
{
    text.extend_from_slice(lead)?;
    append_number(text, number)
}

/// Appends `lead` and a number, or null.
pub fn put_option(text: &mut Vec<u8>, lead: &[u8], number: Option<u64>) -> Result<(), AllocError>
    ensures { OnOk result (text.new.items ≡ text.old.items ++ (lead.now ++ spec.number_or_null number)) }
{
    text.extend_from_slice(lead)?;
    match number {
        Some(number) => append_number(text, number),
        None => text.extend_from_slice(b"null"),
    }
}

/// Appends `lead` and a shift, or null.
fn put_scale(text: &mut Vec<u8>, lead: &[u8], scale: Option<u8>) -> Result<(), AllocError>
    ensures { OnOk result (text.new.items ≡ text.old.items ++ (lead.now ++ spec.number_or_null scale)) }
{
    text.extend_from_slice(lead)?;
    match scale {
        Some(shift) => append_number(text, u64::from(shift)),
        None => text.extend_from_slice(b"null"),
    }
}

/// Appends `lead` and a rule's number, or null.
fn put_rule(text: &mut Vec<u8>, lead: &[u8], rule: Option<RuleNumber>) -> Result<(), AllocError>
    ensures { OnOk result (text.new.items ≡ text.old.items ++ (lead.now ++ spec.rule_or_null rule)) }
{
    text.extend_from_slice(lead)?;
    match rule {
        Some(RuleNumber(number)) => append_number(text, number as u64),
        None => text.extend_from_slice(b"null"),
    }
}

/// Appends the interface to which a state is bound, or null.
fn put_bound(text: &mut Vec<u8>, bound: &Bound<'_>) -> Result<(), AllocError>
    ensures { OnOk result (text.new.items ≡ text.old.items ++ spec.bound_value bound.now) }
{
    match bound {
        Bound::To(name) => put_string(text, name.as_slice()),
        Bound::Unsaid | Bound::All => text.extend_from_slice(b"null"),
    }
}

/// Appends a direction.
fn put_direction(text: &mut Vec<u8>, direction: Direction) -> Result<(), AllocError>
    ensures { OnOk result (text.new.items ≡ text.old.items ++ spec.direction_value direction) }
{
    match direction {
        Direction::In => text.extend_from_slice(b"\"in\""),
        Direction::Out => text.extend_from_slice(b"\"out\""),
    }
}

/// Appends `lead` and an address.
fn put_host(text: &mut Vec<u8>, lead: &[u8], address: Ipv4Address) -> Result<(), AllocError>
    ensures { OnOk result (text.new.items ≡ text.old.items ++ (lead.now ++ address_text address)) }
{
    text.extend_from_slice(lead)?;
    append_address(text, address)
}

/// Appends a port behind the address of its end.
fn put_port(text: &mut Vec<u8>, port: Port) -> Result<(), AllocError>
    ensures { OnOk result (text.new.items ≡ text.old.items ++ spec.port_part port) }
{
    put_count(text, b"\",\"port\":", u64::from(port.0))
}

/// Appends an end of a connection.
fn put_end(text: &mut Vec<u8>, end: Endpoint) -> Result<(), AllocError>
    ensures { OnOk result (text.new.items ≡ text.old.items ++ spec.end_value end) }
{
    put_host(text, b"{\"address\":\"", end.address)?;
    put_port(text, end.port)?;
    text.extend_from_slice(b"}")
}

/// Appends both ends of a connection, without what closes them.
fn put_both_ends(text: &mut Vec<u8>, outside: Endpoint, inside: Endpoint) -> Result<(), AllocError>
    ensures { OnOk result (text.new.items ≡ text.old.items ++ (spec.end_value outside ++ spec.inside_part inside)) }
{
    put_end(text, outside)?;
    text.extend_from_slice(b",\"inside\":")?;
    put_end(text, inside)
}

/// Appends a connection on one side of the firewall.
fn put_key(text: &mut Vec<u8>, key: &Key) -> Result<(), AllocError>
    ensures { OnOk result (text.new.items ≡ text.old.items ++ spec.key_value key.now) }
{
    text.extend_from_slice(b"{\"outside\":")?;
    put_both_ends(text, key.outside, key.inside)?;
    text.extend_from_slice(b"}")
}

/// Appends the sequence numbers of an end of a TCP connection.
fn put_sequences(text: &mut Vec<u8>, end: &TcpPeer) -> Result<(), AllocError>
    ensures { OnOk result (text.new.items ≡ text.old.items ++ spec.sequences end.now) }
{
    put_count(text, b"\",\"low\":", u64::from(end.low.0))?;
    put_count(text, b",\"high\":", u64::from(end.high.0))
}

/// Appends its greatest window, and the shift that it offered.
fn put_windows(text: &mut Vec<u8>, end: &TcpPeer) -> Result<(), AllocError>
    ensures { OnOk result (text.new.items ≡ text.old.items ++ spec.windows end.now) }
{
    put_count(text, b",\"window\":", u64::from(end.greatest_window))?;
    put_scale(text, b",\"scale\":", end.scale)?;
    text.extend_from_slice(b"}")
}

/// Appends the name of the state of an end.
fn put_name(text: &mut Vec<u8>, name: &[u8]) -> Result<(), AllocError>
    ensures { OnOk result (text.new.items ≡ text.old.items ++ spec.name_part name.now) }
{
    text.extend_from_slice(b"{\"state\":\"")?;
    text.extend_from_slice(name)
}

/// Appends what was seen of an end of a TCP connection.
fn put_tcp(text: &mut Vec<u8>, end: &TcpPeer) -> Result<(), AllocError>
    ensures { OnOk result (text.new.items ≡ text.old.items ++ spec.tcp_value end.now) }
{
    put_name(text, tcp_name(end.state))?;
    put_sequences(text, end)?;
    put_windows(text, end)
}

/// Appends what was seen of an end of another connection.
fn put_datagram(text: &mut Vec<u8>, end: DatagramPeer) -> Result<(), AllocError>
    ensures { OnOk result (text.new.items ≡ text.old.items ++ spec.datagram_value end) }
{
    put_name(text, datagram_name(end))?;
    text.extend_from_slice(b"\"}")
}

/// Appends `lead` and what was seen of an end of a TCP connection.
fn put_tcp_end(text: &mut Vec<u8>, lead: &[u8], end: &TcpPeer) -> Result<(), AllocError>
    ensures { OnOk result (text.new.items ≡ text.old.items ++ (lead.now ++ spec.tcp_value end.now)) }
{
    text.extend_from_slice(lead)?;
    put_tcp(text, end)
}

/// Appends `lead` and what was seen of an end of another connection.
fn put_datagram_end(text: &mut Vec<u8>, lead: &[u8], end: DatagramPeer) -> Result<(), AllocError>
    ensures { OnOk result (text.new.items ≡ text.old.items ++ (lead.now ++ spec.datagram_value end)) }
{
    text.extend_from_slice(lead)?;
    put_datagram(text, end)
}

/// Appends what was seen of both ends of a TCP connection.
fn put_tcp_ends(text: &mut Vec<u8>, maker: &TcpPeer, other: &TcpPeer) -> Result<(), AllocError>
    ensures { OnOk result (text.new.items ≡ text.old.items ++ spec.both (spec.tcp_value maker.now) (spec.tcp_value other.now)) }
{
    put_tcp_end(text, b",\"maker\":", maker)?;
    put_tcp_end(text, b",\"other\":", other)
}

/// Appends what was seen of both ends of another connection.
fn put_datagram_ends(
    text: &mut Vec<u8>,
    maker: DatagramPeer,
    other: DatagramPeer,
) -> Result<(), AllocError>
    ensures { OnOk result (text.new.items ≡ text.old.items ++ spec.both (spec.datagram_value maker) (spec.datagram_value other)) }
{
    put_datagram_end(text, b",\"maker\":", maker)?;
    put_datagram_end(text, b",\"other\":", other)
}

/// Appends what was seen of both ends of a connection.
fn put_peers(text: &mut Vec<u8>, peers: &Peers) -> Result<(), AllocError>
    ensures { OnOk result (text.new.items ≡ text.old.items ++ spec.peers_part peers.now) }
{
    match peers {
        Peers::Tcp(maker, other) => put_tcp_ends(text, maker, other),
        Peers::Udp(maker, other) => put_datagram_ends(text, *maker, *other),
        Peers::Icmp => text.extend_from_slice(b",\"maker\":null,\"other\":null"),
        Peers::Other(maker, other) => put_datagram_ends(text, *maker, *other),
    }
}

/// Appends packets and bytes.
fn put_traffic(text: &mut Vec<u8>, traffic: Traffic) -> Result<(), AllocError>
    ensures { OnOk result (text.new.items ≡ text.old.items ++ spec.traffic_value traffic) }
{
    put_count(text, b"{\"packets\":", traffic.packets)?;
    put_count(text, b",\"bytes\":", traffic.bytes)?;
    text.extend_from_slice(b"}")
}

/// Appends `lead` and packets and bytes.
fn put_way(text: &mut Vec<u8>, lead: &[u8], traffic: Traffic) -> Result<(), AllocError>
    ensures { OnOk result (text.new.items ≡ text.old.items ++ (lead.now ++ spec.traffic_value traffic)) }
{
    text.extend_from_slice(lead)?;
    put_traffic(text, traffic)
}

/// Appends a state's number and the interface to which it is bound.
fn put_number_and_bound(text: &mut Vec<u8>, listed: &Listed<'_>) -> Result<(), AllocError>
    ensures { OnOk result (text.new.items ≡ text.old.items ++ spec.number_part listed.now) }
{
    put_count(text, b"{\"number\":", listed.state.number.0)?;
    text.extend_from_slice(b",\"interface\":")?;
    put_bound(text, &listed.bound)
}

/// Appends the number of a protocol.
fn put_protocol_number(text: &mut Vec<u8>, protocol: Protocol) -> Result<(), AllocError>
    ensures { OnOk result (text.new.items ≡ text.old.items ++ spec.protocol_number protocol) }
{
    put_count(text, b",\"protocol\":", u64::from(protocol.0))
}

/// Appends a state's protocol, and the way of the packet that made it.
fn put_protocol(text: &mut Vec<u8>, state: &State) -> Result<(), AllocError>
    ensures { OnOk result (text.new.items ≡ text.old.items ++ spec.protocol_part state.now) }
{
    put_protocol_number(text, state.wire.protocol)?;
    text.extend_from_slice(b",\"direction\":")?;
    put_direction(text, state.direction)
}

/// Appends `lead` and a connection.
fn put_side(text: &mut Vec<u8>, lead: &[u8], key: &Key) -> Result<(), AllocError>
    ensures { OnOk result (text.new.items ≡ text.old.items ++ (lead.now ++ spec.key_value key.now)) }
{
    text.extend_from_slice(lead)?;
    put_key(text, key)
}

/// Appends a state's connection on both sides of the firewall.
fn put_keys(text: &mut Vec<u8>, state: &State) -> Result<(), AllocError>
    ensures { OnOk result (text.new.items ≡ text.old.items ++ spec.keys_part state.now) }
{
    put_side(text, b",\"wire\":", &state.wire)?;
    put_side(text, b",\"stack\":", &state.stack)
}

/// Appends the rules that made a state.
fn put_rules(text: &mut Vec<u8>, state: &State) -> Result<(), AllocError>
    ensures { OnOk result (text.new.items ≡ text.old.items ++ spec.rules_part state.now) }
{
    put_rule(text, b",\"rule\":", state.rules.filter)?;
    put_rule(text, b",\"translation\":", state.rules.translation)
}

/// Appends when a state was made.
fn put_clock(text: &mut Vec<u8>, made: Clock) -> Result<(), AllocError>
    ensures { OnOk result (text.new.items ≡ text.old.items ++ spec.made_part made) }
{
    put_count(text, b",\"made\":", u64::from(made.0))
}

/// Appends when a state was made, and when it ends.
fn put_times(text: &mut Vec<u8>, state: &State) -> Result<(), AllocError>
    ensures { OnOk result (text.new.items ≡ text.old.items ++ spec.times_part state.now) }
{
    put_clock(text, state.made)?;
    put_count(text, b",\"deadline\":", state.deadline.0)
}

/// Appends what went both ways, and the line's end.
fn put_both_ways(text: &mut Vec<u8>, state: &State) -> Result<(), AllocError>
    ensures { OnOk result (text.new.items ≡ text.old.items ++ spec.traffic_part state.now) }
{
    put_way(text, b",\"forth\":", state.forth)?;
    put_way(text, b",\"back\":", state.back)?;
    text.extend_from_slice(b"}\n")
}

/// Appends how a state's object begins: its number, interface, protocol and direction, and its connection.
fn put_front(listed: &Listed<'_>, text: &mut Vec<u8>) -> Result<(), AllocError>
    ensures { OnOk result (text.new.items ≡ text.old.items ++ spec.front listed.now) }
{
    put_number_and_bound(text, listed)?;
    put_protocol(text, &listed.state)?;
    put_keys(text, &listed.state)
}

/// Appends the rules that made a state, and what was seen of its ends.
fn put_made(text: &mut Vec<u8>, state: &State) -> Result<(), AllocError>
    ensures { OnOk result (text.new.items ≡ text.old.items ++ (spec.rules_part state.now ++ spec.peers_part state.now.peers)) }
{
    put_rules(text, state)?;
    put_peers(text, &state.peers)
}

/// Appends how it goes on: the rules that made it, its ends, its times, and what went both ways.
fn put_rest(state: &State, text: &mut Vec<u8>) -> Result<(), AllocError>
    ensures { OnOk result (text.new.items ≡ text.old.items ++ spec.rest state.now) }
{
    put_made(text, state)?;
    put_times(text, state)?;
    put_both_ways(text, state)
}

/// Appends a state as an object on a line of its own.
#[tactic(auto, unfolding(crate::specs::Json::json_line))]
pub fn put_json(listed: &Listed<'_>, text: &mut Vec<u8>) -> Result<(), AllocError>
    ensures { OnOk result (text.new.items ≡ text.old.items ++ spec.json_line listed.now) }
{
    put_front(listed, text)?;
    put_rest(&listed.state, text)
}
