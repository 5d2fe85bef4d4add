//! The flows of packets.
use crate::json::{put_count, put_option};
use crate::pfctl::protocol_name;
use pfr_headers::{Packet, Transport, View};
use pfr_net::{Ipv4Address, Port, Protocol};
use pfr_texts::{append_address, append_number};
use std::alloc::AllocError;

/// An end of a flow.
#[derive(Clone, Copy, PartialEq, Eq, PartialOrd, Ord)]
pub struct End {
    pub address: Ipv4Address,
    /// None if the packets of the flow have no ports that can be seen.
    pub port: Option<Port>,
}

/// The flow by which packets are gathered, as one of them has it.
#[derive(Clone, Copy, PartialEq, Eq, PartialOrd, Ord)]
pub enum Flow {
    /// No IPv4 packets.
    NotIp,
    /// Packets of which too little can be seen.
    Short,
    /// Packets between two ends.
    Between(Protocol, End, End),
}

/// The ports of a packet: its source's, and its destination's.
fn ports_of(transport: &Transport) -> (Option<Port>, Option<Port>) {
    match transport {
        Transport::Tcp(header) => (Some(header.source), Some(header.destination)),
        Transport::Udp(header) => (Some(header.source), Some(header.destination)),
        Transport::Fragment | Transport::Icmp(_) | Transport::Other => (None, None),
    }
}

/// The flow of an IPv4 packet, from its source to its destination.
fn flow_of_packet(packet: &Packet) -> Flow {
    let (source, destination) = ports_of(&packet.transport);
    let source = End {
        address: packet.source,
        port: source,
    };
    let destination = End {
        address: packet.destination,
        port: destination,
    };
    Flow::Between(packet.protocol, source, destination)
}

/// Appends an end: `a.b.c.d` or `a.b.c.d:port`.
fn append_end(text: &mut Vec<u8>, end: End) -> Result<(), AllocError> {
    append_address(text, end.address)?;
    match end.port {
        Some(port) => {
            text.extend_from_slice(b":")?;
            append_number(text, u64::from(port.0))
        }
        None => Ok(()),
    }
}

/// Appends `lead` and an end as an object. Its port is null if it can't be seen.
fn put_end(text: &mut Vec<u8>, lead: &[u8], end: End) -> Result<(), AllocError> {
    text.extend_from_slice(lead)?;
    text.extend_from_slice(b"{\"address\":\"")?;
    append_address(text, end.address)?;
    let port = match end.port {
        Some(port) => Some(u64::from(port.0)),
        None => None,
    };
    put_option(text, b"\",\"port\":", port)?;
    text.extend_from_slice(b"}")
}

/// Appends a protocol by its name, or by its number.
fn append_protocol(text: &mut Vec<u8>, protocol: Protocol) -> Result<(), AllocError> {
    match protocol_name(protocol) {
        Some(name) => text.extend_from_slice(name),
        None => append_number(text, u64::from(protocol.0)),
    }
}

impl Flow {
    /// The flow of a packet.
    pub fn of(view: &View) -> Flow {
        match view {
            View::Skip => Flow::NotIp,
            View::Short => Flow::Short,
            View::Ipv4(packet) => flow_of_packet(packet),
        }
    }

    /// The same flow for both ways that its packets may go.
    pub fn either_way(self) -> Flow {
        match self {
            Flow::Between(protocol, first, second) if second < first => {
                Flow::Between(protocol, second, first)
            }
            other => other,
        }
    }

    /// Appends `PROTO SOURCE > DESTINATION`, or what the packets are.
    pub fn append(self, text: &mut Vec<u8>) -> Result<(), AllocError> {
        match self {
            Flow::NotIp => text.extend_from_slice(b"not-ip"),
            Flow::Short => text.extend_from_slice(b"short"),
            Flow::Between(protocol, source, destination) => {
                append_protocol(text, protocol)?;
                text.extend_from_slice(b" ")?;
                append_end(text, source)?;
                text.extend_from_slice(b" > ")?;
                append_end(text, destination)
            }
        }
    }

    /// Appends the names of JSON for its protocol and its ends, without a comma before them. All are null if it isn't
    /// between two ends.
    pub fn put_json(self, text: &mut Vec<u8>) -> Result<(), AllocError> {
        match self {
            Flow::Between(protocol, source, destination) => {
                put_count(text, b"\"protocol\":", u64::from(protocol.0))?;
                put_end(text, b",\"source\":", source)?;
                put_end(text, b",\"destination\":", destination)
            }
            Flow::NotIp | Flow::Short => {
                text.extend_from_slice(b"\"protocol\":null,\"source\":null,\"destination\":null")
            }
        }
    }
}
