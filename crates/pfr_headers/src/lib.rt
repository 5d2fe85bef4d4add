//! The headers of captured packets, as data.
//!
//! [`view`] says what a frame of a capture is: an IPv4 packet with the fields of its headers, one that is too short, or
//! something else. [`direction_of`] says which way a packet goes by the inside networks, [`direction_from`] by the
//! sender of its frame. [`rewrite`] translates one end of a packet in place.
#![tactic(auto)]

pub mod change;
mod checksum;
pub mod ethernet;
mod frame;
pub mod icmp;
pub mod laws;
mod message;
pub mod packet;
mod reading;
mod rewriting;
mod segment;
pub mod tap;
pub mod tcp;
mod tcp_options;
mod translated;
pub mod transport;
pub mod udp;
mod way;

pub use change::{Change, End};
pub use ethernet::EthernetAddress;
pub use frame::datagram_place;
pub use icmp::{IcmpHeader, IcmpMessage, IcmpType, Inner};
pub use packet::{Packet, View};
pub use pfr_net::{Direction, Endpoint, Ipv4Address, Net, Port, Protocol};
pub use reading::view;
pub use rewriting::rewrite;
pub use tap::Tap;
pub use tcp::{TcpFlags, TcpHeader};
pub use transport::Transport;
pub use udp::UdpHeader;
pub use way::{direction_from, direction_of};
