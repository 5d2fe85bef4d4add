//! ICMP headers.
use pfr_net::{Ipv4Address, Port, Protocol};

/// The type of an ICMP message, by its number.
#[derive(Clone, Copy, Debug, PartialEq, Eq, PartialOrd, Ord, Hash)]
pub struct IcmpType(pub u8);

/// An ICMP header (RFC 792).
#[derive(Clone, Copy, PartialEq, Eq)]
pub struct IcmpHeader {
    pub kind: IcmpType,
    pub code: u8,
    pub message: IcmpMessage,
}

/// What an ICMP message says, as far as it matters to a firewall.
#[derive(Clone, Copy, PartialEq, Eq)]
pub enum IcmpMessage {
    /// An echo (type 8) or its reply (type 0), with its identifier.
    Echo(u16),
    /// An error (types 3, 11 and 12) that embeds a packet of TCP or UDP, or of an ICMP echo.
    Error(Inner),
    /// Another message, also an error that embeds no such packet or of too little of it.
    Other,
}

/// The packet that an ICMP error embeds. Its header begins 8 bytes behind the error's own IPv4 header.
#[derive(Clone, Copy, PartialEq, Eq)]
pub struct Inner {
    /// The length of its IPv4 header in bytes, options included: 20 to 60.
    pub header_length: u8,
    /// TCP, UDP or ICMP.
    pub protocol: Protocol,
    pub source: Ipv4Address,
    pub destination: Ipv4Address,
    /// Its ports. The identifier of an echo stands for both.
    pub source_port: Port,
    pub destination_port: Port,
}
