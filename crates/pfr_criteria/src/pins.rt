//! What packets have of the parts that rules pin.
ghost use Rattle.std.specs.Prelude.{◌≡◌};
ghost use Rattle.pfr_ruleset.specs.Shapes.{value_in};
ghost use Rattle.pfr_criteria.specs.Pins as spec;

use crate::transports::{destination_port, source_port};
use pfr_headers::{Packet, Transport};
use pfr_ruleset::shape::bits_in;
use pfr_ruleset::{Pins, Shape};

/// The type of an ICMP message.
#[inline]
fn icmp_kind(transport: &Transport) -> Option<u16>
    ensures { result ≡ spec.icmp_kind transport.now }
{
    match transport {
        Transport::Icmp(header) => Some(u16::from(header.kind.0)),
        _ => None,
    }
}

/// The value if the shape pins it, else 0.
#[inline]
fn value_of(pins: bool, value: Option<u16>) -> u32
    ensures { result ≡ value_in pins value }
{
    match (pins, value) {
        (true, Some(value)) => u32::from(value),
        (true, None) => 0,
        (false, _) => 0,
    }
}

/// The values that a packet has of the parts that a shape pins: 0 for a part that it hasn't.
#[inline]
#[tactic(auto, unfolding(crate::specs::Pins::pins_in))]
pub fn pins_in(shape: &Shape, packet: &Packet) -> Pins
    ensures { result ≡ spec.pins_in shape.now packet.now }
{
    let transport = &packet.transport;
    Pins {
        protocol: value_of(shape.protocol, Some(u16::from(packet.protocol.0))),
        icmp: value_of(shape.icmp, icmp_kind(transport)),
        source: bits_in(shape.source, packet.source.0),
        source_port: value_of(shape.source_port, source_port(transport)),
        destination: bits_in(shape.destination, packet.destination.0),
        destination_port: value_of(shape.destination_port, destination_port(transport)),
    }
}
