//! Packets behind a translation.
ghost use Rattle.std.specs.Prelude.{◌≡◌};
ghost use Rattle.pfr_headers.specs.Translated as spec;

use crate::change::End;
use crate::icmp::{IcmpHeader, IcmpMessage};
use crate::packet::Packet;
use crate::tcp::TcpHeader;
use crate::transport::Transport;
use crate::udp::UdpHeader;
use pfr_net::{Endpoint, Port};

#[inline]
fn tcp_with(end: End, port: Port, header: TcpHeader) -> TcpHeader
    ensures { result ≡ spec.tcp_with end port header }
{
    match end {
        End::Source => TcpHeader {
            source: port,
            ..header
        },
        End::Destination => TcpHeader {
            destination: port,
            ..header
        },
    }
}

#[inline]
fn udp_with(end: End, port: Port, header: UdpHeader) -> UdpHeader
    ensures { result ≡ spec.udp_with end port header }
{
    match end {
        End::Source => UdpHeader {
            source: port,
            ..header
        },
        End::Destination => UdpHeader {
            destination: port,
            ..header
        },
    }
}

/// An echo has its identifier in the place of the port.
#[inline]
fn message_with(port: Port, message: IcmpMessage) -> IcmpMessage
    ensures { result ≡ spec.message_with port message }
{
    match message {
        IcmpMessage::Echo(_) => IcmpMessage::Echo(port.0),
        IcmpMessage::Error(inner) => IcmpMessage::Error(inner),
        IcmpMessage::Other => IcmpMessage::Other,
    }
}

#[inline]
fn transport_with(end: End, port: Port, transport: Transport) -> Transport
    ensures { result ≡ spec.transport_with end port transport }
{
    match transport {
        Transport::Fragment => Transport::Fragment,
        Transport::Tcp(header) => Transport::Tcp(tcp_with(end, port, header)),
        Transport::Udp(header) => Transport::Udp(udp_with(end, port, header)),
        Transport::Icmp(header) => Transport::Icmp(IcmpHeader {
            message: message_with(port, header.message),
            ..header
        }),
        Transport::Other => Transport::Other,
    }
}

impl Packet {
    /// The packet behind a translation of one of its ends: another address stands there, and another port or identifier
    /// of an echo if it has one. A packet that embeds no other is seen so once it is rewritten.
    #[inline]
    pub fn translated(&self, end: End, to: Endpoint) -> Packet
        ensures { result ≡ spec.translated end to self.now }
    {
        let transport = transport_with(end, to.port, self.transport);
        match end {
            End::Source => Packet {
                source: to.address,
                transport,
                ..*self
            },
            End::Destination => Packet {
                destination: to.address,
                transport,
                ..*self
            },
        }
    }
}
