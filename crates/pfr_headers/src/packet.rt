//! What a frame of a capture is.
ghost use Rattle.std.specs.Prelude.{◌≡◌};
ghost use Rattle.pfr_headers.specs.View.{has_options};

use crate::ethernet::EthernetAddress;
use crate::transport::Transport;
use pfr_net::{Ipv4Address, Protocol};

/// The least length of an IPv4 header, in bytes.
pub(crate) const LEAST_HEADER: usize = 20;

/// An IPv4 packet, by its headers (RFC 791, section 3.1).
#[derive(Clone, Copy, PartialEq, Eq)]
pub struct Packet {
    /// The address from which its frame was sent, if it was captured in an Ethernet frame.
    pub sender: Option<EthernetAddress>,
    /// The header's length in bytes, options included: 20 to 60.
    pub header_length: u8,
    /// The length of header and payload in bytes, as the header says.
    pub total_length: u16,
    pub protocol: Protocol,
    pub source: Ipv4Address,
    pub destination: Ipv4Address,
    pub transport: Transport,
}

impl Packet {
    /// Whether its header has options.
    #[inline]
    pub fn has_options(&self) -> bool
        ensures { result ≡ has_options self.now }
    {
        self.header_length > 20
    }
}

/// What a frame of a capture is.
#[derive(Clone, Copy, PartialEq, Eq)]
pub enum View {
    /// An IPv4 packet whose headers were captured whole.
    Ipv4(Packet),
    /// No IPv4 packet.
    Skip,
    /// An IPv4 packet whose headers were not captured whole or contradict themselves.
    Short,
}
