//! UDP headers.
use pfr_net::Port;

/// A UDP header (RFC 768).
#[derive(Clone, Copy, PartialEq, Eq)]
pub struct UdpHeader {
    pub source: Port,
    pub destination: Port,
    /// The length of what follows the header in bytes, by the packet's total length.
    pub payload_length: u16,
}
