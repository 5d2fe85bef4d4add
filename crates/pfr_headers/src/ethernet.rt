//! Ethernet addresses.

/// An Ethernet address (IEEE 802.3): its six bytes in the order in which they are sent.
#[derive(Clone, Copy, Debug, PartialEq, Eq)]
pub struct EthernetAddress(pub [u8; 6]);
