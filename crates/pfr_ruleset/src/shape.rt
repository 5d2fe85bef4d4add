//! What rules pin to one value, and the keys under which they are found by it.
ghost use Rattle.std.specs.Prelude.{◌≡◌, ◌<◌, ◌≤◌, length};
ghost use Rattle.pfr_ruleset.specs.Shapes as spec;

use crate::criterion::Asked;
use crate::flat::PacketMatch;
use crate::hosts::{HostCriterion, HostSet};
use pfr_net::network::prefix;
use pfr_net::{Comparison, IcmpMatch, Net, PortMatch, Protocol};

/// Which parts of a packet a rule pins to one value: its protocol, its ICMP type, the first bits of an address, a port.
#[derive(Clone, Copy, PartialEq, Eq, PartialOrd, Ord)]
pub struct Shape {
    pub protocol: bool,
    pub icmp: bool,
    /// How many bits of the source are pinned.
    pub source: Option<u8>,
    pub source_port: bool,
    /// How many bits of the destination are pinned.
    pub destination: Option<u8>,
    pub destination_port: bool,
}

/// The values to which a shape's parts are pinned, as numbers. Each part that isn't pinned is 0.
#[derive(Clone, Copy)]
pub struct Pins {
    pub protocol: u32,
    pub icmp: u32,
    pub source: u32,
    pub source_port: u32,
    pub destination: u32,
    pub destination_port: u32,
}

/// The shape that pins nothing.
pub const NO_SHAPE: Shape = Shape {
    protocol: false,
    icmp: false,
    source: None,
    source_port: false,
    destination: None,
    destination_port: false,
};

fn pinned_protocol(protocol: Option<Protocol>) -> Option<u32>
    ensures { result ≡ spec.pinned_protocol protocol }
{
    match protocol {
        None => None,
        Some(protocol) => Some(u32::from(protocol.0)),
    }
}

fn pinned_icmp(icmp: Option<IcmpMatch>) -> Option<u32>
    ensures { result ≡ spec.pinned_icmp icmp }
{
    match icmp {
        None => None,
        Some(icmp) => Some(u32::from(icmp.kind)),
    }
}

/// A port that is written as a single number.
fn pinned_port(port: Option<PortMatch>) -> Option<u32>
    ensures { result ≡ spec.pinned_port port }
{
    match port {
        None => None,
        Some(PortMatch::Compare(Comparison::Equal, number)) => Some(u32::from(number)),
        Some(_) => None,
    }
}

fn network_in(hosts: HostSet) -> Option<Net>
    ensures { result ≡ spec.network_in hosts }
{
    match hosts {
        HostSet::Network(network) => Some(network),
        _ => None,
    }
}

/// A network without a `!`.
fn pinned_network(criterion: HostCriterion) -> Option<Net>
    ensures { result ≡ spec.pinned_network criterion }
{
    if criterion.is_negated {
        None
    } else {
        network_in(criterion.hosts)
    }
}

/// Whether a value is pinned, if a shape pins it.
fn is_pinned(pins: bool, value: Option<u32>) -> bool
    ensures { result ≡ spec.is_pinned pins value }
{
    match (pins, value) {
        (false, _) => true,
        (true, None) => false,
        (true, Some(_)) => true,
    }
}

/// Whether the first bits of an address are pinned, as many as a shape pins.
fn has_bits(bits: Option<u8>, network: Option<Net>) -> bool
    ensures { result ≡ spec.has_bits bits network }
{
    match (bits, network) {
        (None, _) => true,
        (Some(_), None) => false,
        (Some(bits), Some(network)) => bits <= network.bits,
    }
}

/// A value that a shape pins, and else 0.
fn value_in(pins: bool, value: Option<u32>) -> u32
    ensures { result ≡ spec.value_in pins value }
{
    match (pins, value) {
        (true, Some(value)) => value,
        (true, None) => 0,
        (false, _) => 0,
    }
}

/// The bits of an address that a shape pins.
#[inline]
pub fn bits_in(bits: Option<u8>, address: u32) -> u32
    ensures { result ≡ spec.bits_in bits address }
{
    match bits {
        None => 0,
        Some(bits) => prefix(bits, address),
    }
}

fn address_in(bits: Option<u8>, network: Option<Net>) -> u32
    ensures { result ≡ spec.address_in bits network }
{
    match network {
        None => 0,
        Some(network) => bits_in(bits, network.address.0),
    }
}

/// Adds a value to the sum of which a key is made.
#[inline]
fn mixed(sum: u64, value: u64) -> u64
    ensures { result ≡ spec.mixed sum value }
{
    sum.wrapping_add(value).wrapping_mul(11400714819323198485)
}

/// A number of 32 bits scaled to one below `size`: `number * size / 2^32`.
#[inline]
fn scaled(number: u32, size: u32) -> u32
    requires { 0 < size }
    ensures value { result ≡ spec.scaled number size }
    ensures below { result < size }
{
    (u64::from(number) * u64::from(size) >> 32) as u32
}

/// The sum of pins of the shape at a place.
#[inline]
#[tactic(auto, unfolding(crate::specs::Shapes::mixed_pins))]
fn mixed_pins(place: usize, pins: Pins) -> u64
    ensures { result ≡ spec.mixed_pins place pins }
{
    let sum = mixed(0, place as u64);
    let sum = mixed(sum, u64::from(pins.protocol));
    let sum = mixed(sum, u64::from(pins.icmp));
    let sum = mixed(sum, u64::from(pins.source));
    let sum = mixed(sum, u64::from(pins.source_port));
    let sum = mixed(sum, u64::from(pins.destination));
    mixed(sum, u64::from(pins.destination_port))
}

/// The key of pins of the shape at a place, below `size`.
#[inline]
#[tactic(auto, unfolding(crate::specs::Shapes::key))]
pub(crate) fn key(place: usize, pins: Pins, size: u32) -> u32
    requires { 0 < size }
    ensures key { result ≡ spec.key place pins size }
    ensures below { result < size }
{
    scaled((mixed_pins(place, pins) >> 32) as u32, size)
}

impl Shape {
    /// Whether a rule pins all that the shape pins.
    #[tactic(auto, unfolding(crate::specs::Shapes::covers))]
    fn covers(&self, asked: &PacketMatch) -> bool
        ensures { result ≡ spec.covers self.now asked.now }
    {
        is_pinned(self.protocol, pinned_protocol(asked.protocol))
            && is_pinned(self.icmp, pinned_icmp(asked.icmp))
            && has_bits(self.source, pinned_network(asked.source))
            && is_pinned(self.source_port, pinned_port(asked.source_port))
            && has_bits(self.destination, pinned_network(asked.destination))
            && is_pinned(self.destination_port, pinned_port(asked.destination_port))
    }

    /// What a rule of the shape pins.
    #[tactic(auto, unfolding(crate::specs::Shapes::pins_of))]
    fn pins_of(&self, asked: &PacketMatch) -> Pins
        ensures { result ≡ spec.pins_of self.now asked.now }
    {
        Pins {
            protocol: value_in(self.protocol, pinned_protocol(asked.protocol)),
            icmp: value_in(self.icmp, pinned_icmp(asked.icmp)),
            source: address_in(self.source, pinned_network(asked.source)),
            source_port: value_in(self.source_port, pinned_port(asked.source_port)),
            destination: address_in(self.destination, pinned_network(asked.destination)),
            destination_port: value_in(self.destination_port, pinned_port(asked.destination_port)),
        }
    }

    /// How many bits of a packet it pins.
    pub(crate) fn bits(&self) -> u32 {
        let protocol = if self.protocol { 8 } else { 0 };
        let icmp = if self.icmp { 8 } else { 0 };
        let source_port = if self.source_port { 16 } else { 0 };
        let destination_port = if self.destination_port { 16 } else { 0 };
        let source = u32::from(self.source.unwrap_or(0));
        let destination = u32::from(self.destination.unwrap_or(0));
        protocol + icmp + source_port + destination_port + source + destination
    }

    /// The shape that pins all that a rule pins.
    pub(crate) fn of(asked: &PacketMatch) -> Shape {
        Shape {
            protocol: asked.protocol.is_some(),
            icmp: asked.icmp.is_some(),
            source: pinned_network(asked.source).map(|network| network.bits),
            source_port: pinned_port(asked.source_port).is_some(),
            destination: pinned_network(asked.destination).map(|network| network.bits),
            destination_port: pinned_port(asked.destination_port).is_some(),
        }
    }
}

/// The place of the first shape that a rule covers, or the number of shapes if it covers none.
#[tactic(auto, unfolding(crate::specs::Shapes::shape_place))]
pub(crate) fn shape_place(shapes: &[Shape], asked: &PacketMatch) -> usize
    ensures place { result ≡ spec.shape_place shapes.now asked.now }
    ensures within { result ≤ length shapes.now }
{
    match shapes {
        [] => 0,
        [shape, ..] if shape.covers(asked) => 0,
        [_, rest @ ..] => 1 + shape_place(rest, asked),
    }
}

/// The shape at a place; behind the last one the shape that pins nothing.
#[inline]
pub fn shape_at(shapes: &[Shape], place: usize) -> Shape
    ensures { result ≡ spec.shape_at shapes.now place }
{
    match shapes.get(place) {
        Some(shape) => *shape,
        None => NO_SHAPE,
    }
}

/// The key of a rule, below `size`.
#[tactic(auto, unfolding(crate::specs::Shapes::key_of_rule))]
pub(crate) fn key_of_rule(shapes: &[Shape], size: u32, asked: &Asked) -> u32
    requires { 0 < size }
    ensures key { result ≡ spec.key_of_rule shapes.now size asked.now }
    ensures below { result < size }
{
    let place = shape_place(shapes, &asked.packet);
    key(place, shape_at(shapes, place).pins_of(&asked.packet), size)
}
