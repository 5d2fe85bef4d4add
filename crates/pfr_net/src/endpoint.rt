//! The ends of connections.
use crate::address::Ipv4Address;
use crate::port::Port;

/// One end of a connection: its address and port. An ICMP echo has its identifier as the port of both ends, other
/// protocols than TCP, UDP and ICMP have the port 0.
#[derive(Clone, Copy, Debug, PartialEq, Eq, PartialOrd, Ord, Hash)]
pub struct Endpoint {
    pub address: Ipv4Address,
    pub port: Port,
}
