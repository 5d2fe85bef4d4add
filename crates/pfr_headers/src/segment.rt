//! What stands behind an IPv4 header.
ghost use Rattle.std.specs.Prelude.{◌≡◌, ◌/◌, ◌%◌, ◌==◌, length, None, if◌then◌else◌};
ghost use Rattle.pfr_headers.specs.TcpOptions.{scale_of};
ghost use Rattle.pfr_headers.specs.Transport.{has_tcp, tcp_of, transport_of, udp_of};

use crate::message::icmp;
use crate::tcp::{TcpFlags, TcpHeader};
use crate::tcp_options::window_scale;
use crate::transport::Transport;
use crate::udp::UdpHeader;
use bitflags::Flags;
use byteorder::{BigEndian, ByteOrder};
use pfr_net::{Port, Protocol};

/// The least length of a TCP header.
const LEAST_TCP: usize = 20;

/// The length of a UDP header.
const UDP: usize = 8;

/// What stands behind an IPv4 header, by the protocol's number, the length that the total length leaves for it
/// and the bytes that were captured of it. None if its header isn't there as it should be.
#[inline]
#[tactic(auto, unfolding(crate::specs::Transport::transport_of))]
pub fn transport(protocol: u8, fragment: bool, whole: u16, segment: &[u8]) -> Option<Transport>
    ensures { result ≡ transport_of protocol fragment whole segment.now }
{
    if fragment {
        return Some(Transport::Fragment);
    }
    match Protocol(protocol) {
        Protocol::TCP => Some(Transport::Tcp(tcp(whole, segment)?)),
        Protocol::UDP => Some(Transport::Udp(udp(whole, segment)?)),
        Protocol::ICMP => Some(Transport::Icmp(icmp(whole, segment)?)),
        _ => Some(Transport::Other),
    }
}

/// Whether a TCP header with its options is there.
#[inline]
fn has_tcp(whole: u16, segment: &[u8]) -> bool
    ensures { result ≡ has_tcp whole segment.now }
{
    if segment.len() < LEAST_TCP {
        return false;
    }
    let header_length = usize::from(4 * (segment[12] / 16));
    header_length >= LEAST_TCP
        && segment.len() >= header_length
        && usize::from(whole) >= header_length
}

/// The TCP header at the front.
#[inline]
#[tactic(auto, unfolding(crate::specs::Transport::tcp_of))]
fn tcp(whole: u16, segment: &[u8]) -> Option<TcpHeader>
    ensures { result ≡ tcp_of whole segment.now }
{
    if !has_tcp(whole, segment) {
        return None;
    }
    let header_length = 4 * (segment[12] / 16);
    let options = &segment[LEAST_TCP..usize::from(header_length)];
    Some(TcpHeader {
        source: Port(BigEndian::read_u16(segment)),
        destination: Port(BigEndian::read_u16(&segment[2..])),
        sequence: BigEndian::read_u32(&segment[4..]),
        acknowledgement: BigEndian::read_u32(&segment[8..]),
        header_length,
        flags: TcpFlags::from_bits_retain(segment[13]),
        window: BigEndian::read_u16(&segment[14..]),
        window_scale: scale_offered(segment[13], options),
        payload_length: whole - u16::from(header_length),
    })
}

/// The shift of the window that a TCP header offers, by its flags and its options. Only a header with SYN offers one.
#[inline]
fn scale_offered(flags: u8, options: &[u8]) -> Option<u8>
    ensures { result ≡ (if flags / 2 % 2 == 1 then scale_of options.now else None) }
{
    if flags / 2 % 2 == 1 {
        window_scale(options)
    } else {
        None
    }
}

/// The UDP header at the front.
#[inline]
#[tactic(auto, unfolding(crate::specs::Transport::udp_of))]
fn udp(whole: u16, segment: &[u8]) -> Option<UdpHeader>
    ensures { result ≡ udp_of whole segment.now }
{
    if segment.len() < UDP || usize::from(whole) < UDP {
        return None;
    }
    Some(UdpHeader {
        source: Port(BigEndian::read_u16(segment)),
        destination: Port(BigEndian::read_u16(&segment[2..])),
        payload_length: whole - 8,
    })
}
