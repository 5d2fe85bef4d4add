//! Protocols of IP.

/// The protocol that an IPv4 packet carries, by its number in IANA's registry.
#[derive(Clone, Copy, Debug, PartialEq, Eq, PartialOrd, Ord, Hash)]
pub struct Protocol(pub u8);

impl Protocol {
    pub const ICMP: Protocol = Protocol(1);

    pub const TCP: Protocol = Protocol(6);

    pub const UDP: Protocol = Protocol(17);
}
