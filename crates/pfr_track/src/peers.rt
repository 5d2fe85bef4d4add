//! Both ends of a connection.
use crate::datagram::DatagramPeer;
use crate::tcp::TcpPeer;

/// What was seen of both ends of a connection, the end of the state's maker first.
#[derive(Clone, Copy)]
pub enum Peers {
    Tcp(TcpPeer, TcpPeer),
    Udp(DatagramPeer, DatagramPeer),
    /// ICMP echoes, of which nothing is kept.
    Icmp,
    /// A protocol other than TCP, UDP and ICMP.
    Other(DatagramPeer, DatagramPeer),
}
