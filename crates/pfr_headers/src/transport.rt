//! What an IPv4 packet carries.
use crate::icmp::IcmpHeader;
use crate::tcp::TcpHeader;
use crate::udp::UdpHeader;

/// What stands behind an IPv4 header.
#[derive(Clone, Copy, PartialEq, Eq)]
pub enum Transport {
    /// A part of a packet: more parts follow or it isn't the first. Its bytes are not looked at.
    Fragment,
    Tcp(TcpHeader),
    Udp(UdpHeader),
    Icmp(IcmpHeader),
    /// Another protocol.
    Other,
}
