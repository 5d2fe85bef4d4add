//! IPv4 addresses.

/// An IPv4 address as a number: the first octet is the highest byte.
#[derive(Clone, Copy, Debug, PartialEq, Eq, PartialOrd, Ord, Hash)]
pub struct Ipv4Address(pub u32);
