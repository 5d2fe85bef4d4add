//! Which way a packet goes.
ghost use Rattle.std.specs.Prelude.{◌≡◌};
ghost use Rattle.std.specs.List.{list_any};
ghost use Rattle.pfr_net.specs.Networks.{holds};
ghost use Rattle.pfr_headers.specs.Ways as spec;

use crate::ethernet::EthernetAddress;
use crate::packet::Packet;
use pfr_net::{Direction, Ipv4Address, Net};

#[inline]
fn is_inside(address: Ipv4Address, inside: &[Net]) -> bool
    ensures { result ≡ list_any (λ net. holds net address) inside.now }
{
    inside.iter().any(|net| net.holds(address))
}

/// A packet whose source lies in an inside network goes out, every other comes in.
#[inline]
pub fn direction_of(packet: &Packet, inside: &[Net]) -> Direction
    ensures { result ≡ spec.direction_of inside.now packet.now }
{
    if is_inside(packet.source, inside) {
        Direction::Out
    } else {
        Direction::In
    }
}

/// A packet of a frame that was sent from this address goes out, every other comes in.
#[inline]
pub fn direction_from(packet: &Packet, address: EthernetAddress) -> Direction
    ensures { result ≡ spec.direction_from address packet.now }
{
    match packet.sender {
        Some(sender) if sender == address => Direction::Out,
        _ => Direction::In,
    }
}
