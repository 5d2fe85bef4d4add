//! Where the datagram begins in a frame, and who sent the frame.
ghost use Rattle.std.specs.Prelude.{◌≡◌, ◌≤◌, length, IfSome};
ghost use Rattle.pfr_headers.specs.View.{is_ethernet, is_loopback, is_raw, is_tagged, place_of, sender_of};

use crate::ethernet::EthernetAddress;
use byteorder::{BigEndian, ByteOrder, LittleEndian};

/// Where the IPv4 datagram begins in a frame, if it holds one.
#[inline]
#[tactic(auto, unfolding(crate::specs::View::place_of))]
pub fn datagram_place(link: u16, bytes: &[u8]) -> Option<usize>
    ensures place { result ≡ place_of link bytes.now }
    ensures within { IfSome result (λ place. place ≤ length bytes.now) }
{
    match link {
        101 if is_raw(bytes) => Some(0),
        0 if is_loopback(bytes) => Some(4),
        1 if is_ethernet(bytes) => Some(14),
        1 if is_tagged(bytes) => Some(18),
        _ => None,
    }
}

/// The address from which a frame was sent, if it is an Ethernet frame whose addresses were captured.
#[inline]
#[tactic(auto, unfolding(crate::specs::View::sender_of))]
pub fn sender(link: u16, bytes: &[u8]) -> Option<EthernetAddress>
    ensures { result ≡ sender_of link bytes.now }
{
    if link == 1 && bytes.len() >= 12 {
        let mut address = [0; 6];
        address.copy_from_slice(&bytes[6..12]);
        Some(EthernetAddress(address))
    } else {
        None
    }
}

/// Whether a frame of raw IP holds an IPv4 datagram.
#[inline]
fn is_raw(bytes: &[u8]) -> bool
    ensures { result ≡ is_raw bytes.now }
{
    !bytes.is_empty() && bytes[0] / 16 == 4
}

/// Whether a BSD loopback frame holds an IPv4 datagram: its address family is 2, in the byte order of the machine that
/// captured.
#[inline]
fn is_loopback(bytes: &[u8]) -> bool
    ensures { result ≡ is_loopback bytes.now }
{
    bytes.len() >= 4 && (BigEndian::read_u32(bytes) == 2 || LittleEndian::read_u32(bytes) == 2)
}

/// Whether an Ethernet frame without a tag holds an IPv4 datagram.
#[inline]
fn is_ethernet(bytes: &[u8]) -> bool
    ensures { result ≡ is_ethernet bytes.now }
{
    bytes.len() >= 14 && BigEndian::read_u16(&bytes[12..]) == 0x0800
}

/// Whether an Ethernet frame with one tag holds an IPv4 datagram.
#[inline]
fn is_tagged(bytes: &[u8]) -> bool
    ensures { result ≡ is_tagged bytes.now }
{
    bytes.len() >= 18
        && BigEndian::read_u16(&bytes[12..]) == 0x8100
        && BigEndian::read_u16(&bytes[16..]) == 0x0800
}
