//! Addresses that a rule asks for.
use pfr_net::{Ipv4Address, Net};

/// Addresses that a packet's address is compared with.
#[derive(Clone, Copy, PartialEq, Eq)]
pub enum HostSet {
    Any,
    /// No address has a bit below the network's prefix.
    Network(Net),
    /// From the first address to the second.
    Range(Ipv4Address, Ipv4Address),
    /// The table at this place among the tables of the ruleset.
    Table(usize),
}

/// Addresses that a packet's address must be among, or with `!` must not be among.
#[derive(Clone, Copy, PartialEq, Eq)]
pub struct HostCriterion {
    pub is_negated: bool,
    pub hosts: HostSet,
}
