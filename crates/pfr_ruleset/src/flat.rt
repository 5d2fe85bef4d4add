//! Flat rules and anchors, of which each asks for one thing of a kind.
use crate::hosts::{HostCriterion, HostSet};
use crate::interface::InterfaceCriterion;
use pfr_net::{Direction, FlagSet, IcmpMatch, Ipv4Address, PortMatch, Protocol, StatePolicy};

/// What a packet must meet for a flat rule or anchor, but for its direction. `None` asks for nothing.
#[derive(Clone, Copy, PartialEq, Eq)]
pub struct PacketMatch {
    pub interface: Option<InterfaceCriterion>,
    pub protocol: Option<Protocol>,
    pub icmp: Option<IcmpMatch>,
    pub source: HostCriterion,
    pub source_port: Option<PortMatch>,
    pub destination: HostCriterion,
    pub destination_port: Option<PortMatch>,
}

/// Any address.
pub const ANYONE: HostCriterion = HostCriterion {
    is_negated: false,
    hosts: HostSet::Any,
};

/// A match that asks for nothing.
pub const NO_MATCH: PacketMatch = PacketMatch {
    interface: None,
    protocol: None,
    icmp: None,
    source: ANYONE,
    source_port: None,
    destination: ANYONE,
    destination_port: None,
};

/// What a rule does with a packet.
#[derive(Clone, Copy, PartialEq, Eq)]
pub enum FilterAction {
    Pass,
    Drop,
    /// Blocked, and answered.
    Return,
}

/// The flags that a rule asks for in TCP packets.
#[derive(Clone, Copy, PartialEq, Eq)]
pub enum FlagsCriterion {
    Any,
    /// Of the flags of `mask` exactly those of `set`.
    Written { set: FlagSet, mask: FlagSet },
    /// `S/SA`, which isn't tested on fragments.
    Default,
}

/// The state that a rule keeps.
#[derive(Clone, Copy, PartialEq, Eq)]
pub struct StateRule {
    pub policy: StatePolicy,
    /// It isn't told to others.
    pub no_sync: bool,
    /// How many states of the rule there may be, from 1 on. None: as many as there may be in all.
    pub most: Option<u32>,
}

/// A filter rule. Its number is its place among the filter rules.
#[derive(Clone, Copy, PartialEq, Eq)]
pub struct FlatRule {
    pub action: FilterAction,
    pub direction: Option<Direction>,
    pub is_quick: bool,
    /// The place of its label among the ruleset's labels, if it has one.
    pub label: Option<u16>,
    pub packet: PacketMatch,
    pub flags: FlagsCriterion,
    pub state: Option<StateRule>,
    /// Packets with IP options pass.
    pub allow_opts: bool,
    /// The line of the rule in the text, from 1 on.
    pub line: usize,
}

/// An anchor round the filter rules from the place `first` to the place `last`. Of the anchors round one rule the
/// outermost comes first.
#[derive(Clone, Copy, PartialEq, Eq)]
pub struct FlatAnchor {
    pub direction: Option<Direction>,
    pub is_quick: bool,
    pub packet: PacketMatch,
    pub first: usize,
    pub last: usize,
}

/// Ports from the first to the second.
#[derive(Clone, Copy, PartialEq, Eq)]
pub struct PortRange {
    pub low: u16,
    pub high: u16,
}

/// What `nat` makes of a packet's source.
#[derive(Clone, Copy, PartialEq, Eq)]
pub struct NatAddress {
    pub address: Ipv4Address,
    /// The ports of which one is picked, if the rule says which.
    pub ports: Option<PortRange>,
    /// The source port is kept.
    pub static_port: bool,
}

/// What `rdr` makes of a destination port.
#[derive(Clone, Copy, PartialEq, Eq)]
pub enum PortChange {
    Kept,
    To(u16),
    /// The first port that the rule asks for goes to this one, the next to the next.
    From(u16),
}

/// What `rdr` makes of a packet's destination.
#[derive(Clone, Copy, PartialEq, Eq)]
pub struct RdrAddress {
    pub address: Ipv4Address,
    pub port: PortChange,
}

/// A translation rule of one kind.
#[derive(Clone, Copy, PartialEq, Eq)]
pub struct FlatTranslation<T> {
    /// Its place among the translation rules of all kinds.
    pub number: usize,
    /// The line of the rule in the text, from 1 on.
    pub line: usize,
    /// What it translates isn't filtered.
    pub passes: bool,
    pub packet: PacketMatch,
    /// None: a packet that the rule holds for isn't translated by its kind.
    pub target: Option<T>,
}
