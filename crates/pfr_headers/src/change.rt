//! What a translation writes into a packet.
use crate::packet::Packet;
use pfr_net::Endpoint;

/// One of the two ends of a packet.
#[derive(Clone, Copy, Debug, PartialEq, Eq, PartialOrd, Ord, Hash)]
pub enum End {
    Source,
    Destination,
}

/// A packet of which one end is translated. In an ICMP error the other end of the embedded packet is translated, and
/// the error's own end too if it has the same address.
#[derive(Clone, Copy)]
pub struct Change {
    /// The packet as its view has it.
    pub packet: Packet,
    pub end: End,
    /// What stands at that end afterwards. An ICMP echo has its identifier in the place of the port.
    pub to: Endpoint,
}
