//! Why pfctl(8) refuses a rule.

use thiserror::Error;

/// Why pfctl(8) of FreeBSD 13 refuses a rule that is accepted here. What it prints says what pfctl asks for.
#[derive(Clone, Copy, Debug, PartialEq, Eq, Error)]
pub enum Why {
    /// `port` without `proto` before it.
    #[error("pfctl refuses the rule: a port asks for proto tcp or udp before it")]
    PortWithoutProtocol,
    /// `port` behind a `proto` that isn't tcp or udp alone.
    #[error("pfctl refuses the rule: only packets of tcp and udp have ports, and proto has another protocol")]
    PortOfOtherProtocol,
    /// `icmp-type` without `proto` before it.
    #[error("pfctl refuses the rule: a type of ICMP asks for proto icmp before it")]
    TypeWithoutProtocol,
    /// `icmp-type` behind a `proto` that isn't icmp alone.
    #[error("pfctl refuses the rule: only packets of icmp have such types, and proto has another protocol")]
    TypeOfOtherProtocol,
    /// `keep state` and the like in a rule that begins with `block`.
    #[error("pfctl refuses the rule: a rule that blocks keeps no state")]
    BlockKeepsState,
    /// A label that is too long.
    #[error("pfctl refuses the rule: a label has 63 bytes at most")]
    LongLabel,
}
