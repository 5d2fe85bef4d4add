//! The keys by which packets are looked up.
ghost use Rattle.std.specs.Prelude.{◌≡◌, ◌&&◌, ◌==◌};
ghost use Rattle.pfr_states.specs.States.{is_same_end};
ghost use Rattle.pfr_packet.specs.Keys as spec;

use pfr_headers::{Change, End, IcmpMessage, Inner, Packet, Transport};
use pfr_net::{Direction, Endpoint, Ipv4Address, Port, Protocol};
use pfr_states::Side;
use pfr_track::Key;

/// What the table of states is asked for a packet.
#[derive(Clone, Copy)]
pub enum Subject {
    /// Nothing: a part of a packet, or an ICMP message that belongs to no connection.
    Alone,
    /// The connection of the packet that an ICMP error embeds.
    Embedded(Key),
    /// The packet's own connection.
    Connection(Key),
}

/// The side on which packets of a direction are looked up.
#[inline]
pub fn side_of(direction: Direction) -> Side
    ensures { result ≡ spec.side_of direction }
{
    match direction {
        Direction::In => Side::Wire,
        Direction::Out => Side::Stack,
    }
}

/// The key of a packet of a direction, by its ends.
#[inline]
fn key_of(direction: Direction, protocol: Protocol, source: Endpoint, destination: Endpoint) -> Key
    ensures { result ≡ spec.key_of direction protocol source destination }
{
    match direction {
        Direction::In => Key {
            protocol,
            outside: source,
            inside: destination,
        },
        Direction::Out => Key {
            protocol,
            outside: destination,
            inside: source,
        },
    }
}

#[inline]
fn opposite(direction: Direction) -> Direction
    ensures { result ≡ spec.opposite direction }
{
    match direction {
        Direction::In => Direction::Out,
        Direction::Out => Direction::In,
    }
}

#[inline]
pub(crate) fn endpoint(address: Ipv4Address, port: Port) -> Endpoint
    ensures { result ≡ spec.endpoint address port }
{
    Endpoint { address, port }
}

/// The key of a packet's own connection, by its ports.
#[inline]
fn own_key(direction: Direction, packet: &Packet, source: Port, destination: Port) -> Key
    ensures { result ≡ spec.own_key direction packet.now source destination }
{
    key_of(
        direction,
        packet.protocol,
        endpoint(packet.source, source),
        endpoint(packet.destination, destination),
    )
}

/// The key of the packet that an ICMP error embeds; that packet went the other way.
#[inline]
fn embedded_key(direction: Direction, inner: &Inner) -> Key
    ensures { result ≡ spec.embedded_key direction inner.now }
{
    key_of(
        opposite(direction),
        inner.protocol,
        endpoint(inner.source, inner.source_port),
        endpoint(inner.destination, inner.destination_port),
    )
}

/// What an ICMP message is looked up by.
#[inline]
fn message_subject(direction: Direction, packet: &Packet, message: &IcmpMessage) -> Subject
    ensures { result ≡ spec.message_subject direction packet.now message.now }
{
    match message {
        IcmpMessage::Echo(identifier) => {
            let port = Port(*identifier);
            Subject::Connection(own_key(direction, packet, port, port))
        }
        IcmpMessage::Error(inner) => Subject::Embedded(embedded_key(direction, inner)),
        IcmpMessage::Other => Subject::Alone,
    }
}

/// What a packet is looked up by.
#[inline]
pub fn subject_of(direction: Direction, packet: &Packet) -> Subject
    ensures { result ≡ spec.subject_of direction packet.now }
{
    match &packet.transport {
        Transport::Fragment => Subject::Alone,
        Transport::Tcp(header) => Subject::Connection(own_key(
            direction,
            packet,
            header.source,
            header.destination,
        )),
        Transport::Udp(header) => Subject::Connection(own_key(
            direction,
            packet,
            header.source,
            header.destination,
        )),
        Transport::Icmp(header) => message_subject(direction, packet, &header.message),
        Transport::Other => Subject::Connection(own_key(direction, packet, Port(0), Port(0))),
    }
}

/// The end of a packet of a direction that is translated.
#[inline]
pub(crate) fn end_of(direction: Direction) -> End
    ensures { result ≡ spec.end_of direction }
{
    match direction {
        Direction::In => End::Destination,
        Direction::Out => End::Source,
    }
}

/// The address and port at the translated end, behind the translation.
#[inline]
pub(crate) fn translated_end(direction: Direction, wire: &Key, stack: &Key) -> Endpoint
    ensures { result ≡ spec.translated_end direction wire.now stack.now }
{
    match direction {
        Direction::In => stack.inside,
        Direction::Out => wire.inside,
    }
}

#[inline]
fn is_same_end(a: &Endpoint, b: &Endpoint) -> bool
    ensures { result ≡ is_same_end a.now b.now }
{
    a.address.0 == b.address.0 && a.port.0 == b.port.0
}

/// What is written into a packet whose connection has these keys, or None if both have the same end inside.
#[inline]
pub fn written_by(direction: Direction, packet: &Packet, wire: &Key, stack: &Key) -> Option<Change>
    ensures { result ≡ spec.written_by direction packet.now wire.now stack.now }
{
    if is_same_end(&wire.inside, &stack.inside) {
        return None;
    }
    Some(Change {
        packet: *packet,
        end: end_of(direction),
        to: translated_end(direction, wire, stack),
    })
}
