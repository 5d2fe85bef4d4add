//! ICMP messages, and the packets that errors embed.
ghost use Rattle.std.specs.Prelude.{◌≡◌, ◌≤◌, length};
ghost use Rattle.pfr_headers.specs.Transport.{has_inner, icmp_of, inner_of, inner_behind, is_echo, is_error, message_of};

use crate::icmp::{IcmpHeader, IcmpMessage, IcmpType, Inner};
use crate::packet::LEAST_HEADER;
use byteorder::{BigEndian, ByteOrder};
use pfr_net::{Ipv4Address, Port, Protocol};

/// The length of an ICMP header in bytes.
pub(crate) const ICMP_HEADER: usize = 8;

/// The ICMP header at the front.
#[inline]
#[tactic(auto, unfolding(crate::specs::Transport::icmp_of))]
pub fn icmp(whole: u16, segment: &[u8]) -> Option<IcmpHeader>
    ensures { result ≡ icmp_of whole segment.now }
{
    if segment.len() < ICMP_HEADER || usize::from(whole) < ICMP_HEADER {
        return None;
    }
    Some(IcmpHeader {
        kind: IcmpType(segment[0]),
        code: segment[1],
        message: message(segment[0], segment),
    })
}

/// What a message of this type says.
#[inline]
#[tactic(auto, unfolding(crate::specs::Transport::message_of))]
fn message(kind: u8, segment: &[u8]) -> IcmpMessage
    requires { 8 ≤ length segment.now }
    ensures { result ≡ message_of kind segment.now }
{
    if is_echo(kind) {
        return IcmpMessage::Echo(BigEndian::read_u16(&segment[4..]));
    }
    if is_error(kind) {
        return match inner(&segment[ICMP_HEADER..]) {
            Some(inner) => IcmpMessage::Error(inner),
            None => IcmpMessage::Other,
        };
    }
    IcmpMessage::Other
}

/// Whether a type is that of an echo or of its reply.
#[inline]
fn is_echo(kind: u8) -> bool
    ensures { result ≡ is_echo kind }
{
    kind == 0 || kind == 8
}

/// Whether a type is that of an error that carries the beginning of a packet: destination unreachable, time
/// exceeded or parameter problem.
#[inline]
fn is_error(kind: u8) -> bool
    ensures { result ≡ is_error kind }
{
    kind == 3 || kind == 11 || kind == 12
}

/// The packet that an error carries the beginning of.
#[inline]
#[tactic(auto, unfolding(crate::specs::Transport::inner_of))]
fn inner(carried: &[u8]) -> Option<Inner>
    ensures { result ≡ inner_of carried.now }
{
    if !has_inner(carried) {
        return None;
    }
    let header_length = usize::from(4 * (carried[0] % 16));
    inner_behind(carried, &carried[header_length..])
}

/// Whether its IPv4 header and 8 bytes behind it are there, and it is the first part of its packet.
#[inline]
fn has_inner(carried: &[u8]) -> bool
    ensures { result ≡ has_inner carried.now }
{
    if carried.len() < LEAST_HEADER || carried[0] / 16 != 4 {
        return false;
    }
    let header_length = usize::from(4 * (carried[0] % 16));
    header_length >= LEAST_HEADER
        && carried.len() >= header_length + 8
        && BigEndian::read_u16(&carried[6..]) % 8192 == 0
}

/// The packet by its header and by what stands behind: ports, or an echo's identifier for both.
#[inline]
fn inner_behind(carried: &[u8], segment: &[u8]) -> Option<Inner>
    requires header { 20 ≤ length carried.now }
    requires eight { 8 ≤ length segment.now }
    ensures { result ≡ inner_behind carried.now segment.now }
{
    let protocol = Protocol(carried[9]);
    let (source, destination) = match protocol {
        Protocol::TCP | Protocol::UDP => (
            BigEndian::read_u16(segment),
            BigEndian::read_u16(&segment[2..]),
        ),
        Protocol::ICMP if is_echo(segment[0]) => {
            let identifier = BigEndian::read_u16(&segment[4..]);
            (identifier, identifier)
        }
        _ => return None,
    };
    Some(Inner {
        header_length: 4 * (carried[0] % 16),
        protocol,
        source: Ipv4Address(BigEndian::read_u32(&carried[12..])),
        destination: Ipv4Address(BigEndian::read_u32(&carried[16..])),
        source_port: Port(source),
        destination_port: Port(destination),
    })
}
