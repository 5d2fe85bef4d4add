//! From the bytes of a frame to its view.
ghost use Rattle.std.specs.Prelude.{◌≡◌, ◌≤◌, true, length};
ghost use Rattle.pfr_headers.specs.View.{IsView, fields_of, has_header, is_fragment, packet_of, sender_of, transport_behind, view_of};

use crate::ethernet::EthernetAddress;
use crate::frame::{datagram_place, sender};
use crate::packet::{LEAST_HEADER, Packet, View};
use crate::segment::transport;
use crate::transport::Transport;
use byteorder::{BigEndian, ByteOrder};
use pfr_net::{Ipv4Address, Protocol};

/// What a frame is, by the link type of its capture (0 BSD loopback, 1 Ethernet, 101 raw IP; a frame of any other type
/// is no IPv4 packet) and the bytes that were captured of it.
#[inline]
#[tactic(auto, unfolding(crate::specs::View::view_of))]
pub fn view(link: u16, bytes: &[u8]) -> View
    ensures is_view { IsView link bytes.now result }
    ensures view { result ≡ view_of link bytes.now }
{
    match datagram_place(link, bytes) {
        None => View::Skip,
        Some(place) => match packet(sender(link, bytes), &bytes[place..]) {
            None => View::Short,
            Some(packet) => View::Ipv4(packet),
        },
    }
}

/// The packet whose headers stand at the front of a datagram, from the sender of its frame.
#[inline]
#[tactic(auto, unfolding(crate::specs::View::packet_of))]
fn packet(sender: Option<EthernetAddress>, datagram: &[u8]) -> Option<Packet>
    ensures { result ≡ packet_of sender datagram.now }
{
    if !has_header(datagram) {
        return None;
    }
    let transport = transport_behind(datagram)?;
    Some(with_fields(sender, datagram, transport))
}

/// What stands behind the IPv4 header at the front of a datagram.
#[inline]
#[tactic(auto, unfolding(crate::specs::View::transport_behind))]
fn transport_behind(datagram: &[u8]) -> Option<Transport>
    requires { has_header datagram.now ≡ true }
    ensures { result ≡ transport_behind datagram.now }
{
    let header_length = 4 * (datagram[0] % 16);
    let total_length = BigEndian::read_u16(&datagram[2..]);
    let fragment = is_fragment(datagram);
    let whole = total_length - u16::from(header_length);
    transport(
        datagram[9],
        fragment,
        whole,
        &datagram[usize::from(header_length)..],
    )
}

/// The packet with this sender and this transport, and with the fields of the IPv4 header at the front of a datagram.
#[inline]
#[tactic(auto, unfolding(crate::specs::View::fields_of))]
fn with_fields(sender: Option<EthernetAddress>, datagram: &[u8], transport: Transport) -> Packet
    requires { has_header datagram.now ≡ true }
    ensures { result ≡ fields_of sender datagram.now transport }
{
    Packet {
        sender,
        header_length: 4 * (datagram[0] % 16),
        total_length: BigEndian::read_u16(&datagram[2..]),
        protocol: Protocol(datagram[9]),
        source: Ipv4Address(BigEndian::read_u32(&datagram[12..])),
        destination: Ipv4Address(BigEndian::read_u32(&datagram[16..])),
        transport,
    }
}

/// Whether a whole IPv4 header stands at the front, and its version and lengths agree.
#[inline]
fn has_header(datagram: &[u8]) -> bool
    ensures { result ≡ has_header datagram.now }
{
    if datagram.len() < LEAST_HEADER || datagram[0] / 16 != 4 {
        return false;
    }
    let header_length = usize::from(4 * (datagram[0] % 16));
    let total_length = usize::from(BigEndian::read_u16(&datagram[2..]));
    header_length >= LEAST_HEADER
        && datagram.len() >= header_length
        && total_length >= header_length
}

/// Whether a datagram is a part of a packet: more parts follow or it isn't the first.
#[inline]
fn is_fragment(datagram: &[u8]) -> bool
    requires { 20 ≤ length datagram.now }
    ensures { result ≡ is_fragment datagram.now }
{
    BigEndian::read_u16(&datagram[6..]) % 16384 != 0
}
