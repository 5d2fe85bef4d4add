//! ICMP types that a rule asks for.

/// An ICMP type, and a code of it if the rule asks for one.
#[derive(Clone, Copy, PartialEq, Eq)]
pub struct IcmpMatch {
    pub kind: u8,
    pub code: Option<u8>,
}
