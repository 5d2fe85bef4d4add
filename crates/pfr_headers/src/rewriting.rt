//! Rewriting packets in place.
ghost use Rattle.std.specs.Prelude.{◌≡◌, ◌≤◌, ◌<◌, ◌+◌, length, Some};
ghost use Rattle.pfr_headers.specs.declared.packet.View.TheVariants.{Ipv4};
ghost use Rattle.pfr_headers.specs.Checksum.{difference_of, with_words};
ghost use Rattle.pfr_headers.specs.Rewriting.{address_place, address_words, behind_words, echo_words, end_address, error_words, header_words, inner_words, other_end, outer_words, packet_words, port_place, rewritten, tcp_words, embedded_in, embedded_words, udp_words, words_of};
ghost use Rattle.pfr_headers.specs.View.{packet_of, view_of};
ghost use Rattle.pfr_headers.specs.Room.{BehindFits, InnerFits};

use crate::change::{Change, End};
use crate::checksum::{mend, mend_udp, put_address, put_word};
use crate::frame::datagram_place;
use crate::icmp::{IcmpMessage, Inner};
use crate::message::ICMP_HEADER;
use crate::packet::Packet;
use crate::transport::Transport;
use pfr_net::{Endpoint, Ipv4Address, Port, Protocol};

/// The place of an IPv4 header's checksum.
const CHECKSUM: usize = 10;

/// Where the address of an end stands in an IPv4 header.
#[inline]
fn address_place(end: End) -> usize
    ensures place { result ≡ address_place end }
    ensures least { 12 ≤ result }
    ensures most { result ≤ 16 }
{
    match end {
        End::Source => 12,
        End::Destination => 16,
    }
}

/// Where the port of an end stands in a TCP or UDP header.
#[inline]
fn port_place(end: End) -> usize
    ensures place { result ≡ port_place end }
    ensures most { result ≤ 2 }
{
    match end {
        End::Source => 0,
        End::Destination => 2,
    }
}

#[inline]
fn other_end(end: End) -> End
    ensures { result ≡ other_end end }
{
    match end {
        End::Source => End::Destination,
        End::Destination => End::Source,
    }
}

#[inline]
fn end_address(end: End, source: Ipv4Address, destination: Ipv4Address) -> Ipv4Address
    ensures { result ≡ end_address end source destination }
{
    match end {
        End::Source => source,
        End::Destination => destination,
    }
}

/// Writes an address into the IPv4 header that begins at `header`, and mends its checksum. Answers what the address
/// adds to the sums over it, and what address and checksum add together.
#[inline]
#[tactic(auto, unfolding(crate::specs::Rewriting::header_words), using(crate::proofs::WordLemmas::address_kept))]
fn rewrite_header(bytes: &mut [u8], header: usize, end: End, address: Ipv4Address) -> (u32, u32)
    requires { header + 20 ≤ length bytes.old }
    ensures written { bytes.new ≡ with_words (header_words bytes.old header end address) bytes.old }
    ensures addresses { result.0 ≡ difference_of bytes.old (address_words (header + address_place end) address) }
    ensures both { result.1 ≡ difference_of bytes.old (header_words bytes.old header end address) }
    ensures within { (result.0 ≤ 262140) × (result.1 ≤ 393210) }
{
    let addresses = put_address(bytes, header + address_place(end), address);
    let checksum = mend(bytes, header + CHECKSUM, addresses);
    (addresses, addresses + checksum)
}

/// Writes a port into the TCP header that begins at `at`, and mends its checksum, to which the addresses add
/// `addresses`.
#[inline]
#[tactic(auto, unfolding(crate::specs::Rewriting::tcp_words), using(crate::proofs::WordLemmas::kept_behind))]
fn rewrite_tcp(bytes: &mut [u8], at: usize, end: End, addresses: u32, port: Port)
    requires room { at + 20 ≤ length bytes.old }
    requires sum { addresses ≤ 262140 }
    ensures { bytes.new ≡ with_words (tcp_words bytes.old at end addresses port) bytes.old }
{
    let ports = put_word(bytes, at + port_place(end), port.0);
    let _ = mend(bytes, at + 16, addresses + ports);
}

/// Writes a port into the UDP header that begins at `at`, and mends its checksum, to which the addresses add
/// `addresses`. Answers what port and checksum add to the sums over them.
#[inline]
#[tactic(auto, unfolding(crate::specs::Rewriting::udp_words), using(crate::proofs::WordLemmas::kept_behind))]
fn rewrite_udp(bytes: &mut [u8], at: usize, end: End, addresses: u32, port: Port) -> u32
    requires room { at + 8 ≤ length bytes.old }
    requires sum { addresses ≤ 262140 }
    ensures written { bytes.new ≡ with_words (udp_words bytes.old at end addresses port) bytes.old }
    ensures brings { result ≡ difference_of bytes.old (udp_words bytes.old at end addresses port) }
    ensures within { result ≤ 262140 }
{
    let ports = put_word(bytes, at + port_place(end), port.0);
    let checksum = mend_udp(bytes, at + 6, addresses + ports);
    ports + checksum
}

/// Writes the identifier of the ICMP echo that begins at `at`, and mends its checksum. Answers what identifier and
/// checksum add to the sums over them.
#[inline]
#[tactic(auto, unfolding(crate::specs::Rewriting::echo_words), using(crate::proofs::WordLemmas::kept_before))]
fn rewrite_echo(bytes: &mut [u8], at: usize, identifier: Port) -> u32
    requires { at + 8 ≤ length bytes.old }
    ensures written { bytes.new ≡ with_words (echo_words bytes.old at identifier) bytes.old }
    ensures brings { result ≡ difference_of bytes.old (echo_words bytes.old at identifier) }
    ensures within { result ≤ 262140 }
{
    let identifiers = put_word(bytes, at + 4, identifier.0);
    let checksum = mend(bytes, at + 2, identifiers);
    identifiers + checksum
}

/// Rewrites what is behind the header of a packet that an error embeds. A TCP checksum there stays: it may not have
/// been captured.
#[inline]
#[tactic(auto, unfolding(crate::specs::Rewriting::embedded_words))]
fn rewrite_embedded(
    bytes: &mut [u8],
    protocol: u8,
    at: usize,
    end: End,
    addresses: u32,
    port: Port,
) -> u32
    requires room { at + 8 ≤ length bytes.old }
    requires sum { addresses ≤ 262140 }
    ensures written { bytes.new ≡ with_words (embedded_words bytes.old protocol at end addresses port) bytes.old }
    ensures brings { result ≡ difference_of bytes.old (embedded_words bytes.old protocol at end addresses port) }
    ensures within { result ≤ 262140 }
{
    match Protocol(protocol) {
        Protocol::TCP => put_word(bytes, at + port_place(end), port.0),
        Protocol::UDP => rewrite_udp(bytes, at, end, addresses, port),
        _ => rewrite_echo(bytes, at, port),
    }
}

/// Rewrites the packet that an error embeds, whose header begins at `at`. Answers what that adds to the sums over it.
#[inline]
fn rewrite_inner(bytes: &mut [u8], at: usize, inner: &Inner, end: End, to: Endpoint) -> u32
    requires { InnerFits (length bytes.old) at inner.now }
    ensures written { bytes.new ≡ with_words (inner_words bytes.old at inner.now end to) bytes.old }
    ensures brings { result ≡ difference_of bytes.old (inner_words bytes.old at inner.now end to) }
    ensures within { result ≤ 655350 }
{
    let (addresses, header) = rewrite_header(bytes, at, end, to.address);
    let behind = at + usize::from(inner.header_length);
    let embedded = rewrite_embedded(bytes, inner.protocol.0, behind, end, addresses, to.port);
    header + embedded
}

/// Rewrites the header of an error if its address at `end` is the address that is translated in the packet that it
/// embeds.
#[inline]
#[tactic(auto, unfolding(crate::specs::Rewriting::outer_words))]
fn rewrite_outer(bytes: &mut [u8], packet: &Packet, inner: &Inner, end: End, to: Endpoint)
    requires { 20 ≤ length bytes.old }
    ensures { bytes.new ≡ with_words (outer_words bytes.old packet.now inner.now end to) bytes.old }
{
    let outer = end_address(end, packet.source, packet.destination);
    let translated = end_address(other_end(end), inner.source, inner.destination);
    if outer.0 == translated.0 {
        let _ = rewrite_header(bytes, 0, end, to.address);
    }
}

/// Rewrites an error and the packet that it embeds.
#[inline]
fn rewrite_error(bytes: &mut [u8], packet: &Packet, inner: &Inner, end: End, to: Endpoint)
    requires header { 20 ≤ packet.now.header_length }
    requires inner { InnerFits (length bytes.old) (packet.now.header_length + 8) inner.now }
    ensures { bytes.new ≡ with_words (error_words bytes.old packet.now inner.now end to) bytes.old }
{
    let at = usize::from(packet.header_length);
    let carried = rewrite_inner(bytes, at + ICMP_HEADER, inner, other_end(end), to);
    let _ = mend(bytes, at + 2, carried);
    rewrite_outer(bytes, packet, inner, end, to);
}

/// Rewrites what stands behind the header of a packet. The addresses add `addresses` to a checksum over them.
#[inline]
fn rewrite_behind(
    bytes: &mut [u8],
    transport: &Transport,
    at: usize,
    end: End,
    addresses: u32,
    port: Port,
)
    requires room { BehindFits (length bytes.old) at transport.now }
    requires sum { addresses ≤ 262140 }
    ensures { bytes.new ≡ with_words (behind_words bytes.old at end addresses port transport.now) bytes.old }
{
    match transport {
        Transport::Tcp(_) => rewrite_tcp(bytes, at, end, addresses, port),
        Transport::Udp(_) => {
            let _ = rewrite_udp(bytes, at, end, addresses, port);
        }
        Transport::Icmp(icmp) => {
            if let IcmpMessage::Echo(_) = icmp.message {
                let _ = rewrite_echo(bytes, at, port);
            }
        }
        Transport::Fragment => {}
        Transport::Other => {}
    }
}

/// Rewrites a packet that embeds no other.
#[inline]
fn rewrite_packet(bytes: &mut [u8], packet: &Packet, end: End, to: Endpoint)
    requires header { (20 ≤ packet.now.header_length) × (packet.now.header_length ≤ length bytes.old) }
    requires behind { BehindFits (length bytes.old) packet.now.header_length packet.now.transport }
    ensures { bytes.new ≡ with_words (packet_words bytes.old packet.now end to) bytes.old }
{
    let (addresses, _) = rewrite_header(bytes, 0, end, to.address);
    let at = usize::from(packet.header_length);
    rewrite_behind(bytes, &packet.transport, at, end, addresses, to.port);
}

/// The packet that an error embeds.
#[inline]
fn embedded_in(transport: &Transport) -> Option<Inner>
    ensures { result ≡ embedded_in transport.now }
{
    match transport {
        Transport::Icmp(icmp) => match icmp.message {
            IcmpMessage::Error(inner) => Some(inner),
            IcmpMessage::Echo(_) => None,
            IcmpMessage::Other => None,
        },
        _ => None,
    }
}

/// Rewrites a datagram.
#[inline]
#[tactic(auto, unfolding(crate::specs::Rewriting::words_of))]
fn rewrite_datagram(bytes: &mut [u8], change: &Change)
    requires { packet_of change.now.packet.sender bytes.old ≡ Some change.now.packet }
    ensures { bytes.new ≡ with_words (words_of bytes.old change.now) bytes.old }
{
    match embedded_in(&change.packet.transport) {
        Some(inner) => rewrite_error(bytes, &change.packet, &inner, change.end, change.to),
        None => rewrite_packet(bytes, &change.packet, change.end, change.to),
    }
}

/// Rewrites a frame in place: one end of its packet gets another address and port, and each checksum over a changed
/// word is mended (RFC 1624, equation 3). A UDP checksum of 0 stays, and one that comes out as 0 is written as 65535.
/// `change.packet` must be the packet of the frame's view, for the frame's link type.
pub fn rewrite(bytes: &mut [u8], link: u16, change: &Change)
    requires { view_of link bytes.old ≡ Ipv4 change.now.packet }
    ensures { bytes.new ≡ rewritten link change.now bytes.old }
{
    if let Some(place) = datagram_place(link, bytes) {
        rewrite_datagram(&mut bytes[place..], change);
    }
}
