//! States.
ghost use Rattle.std.specs.Prelude.{◌≡◌};
ghost use Rattle.pfr_track.specs.Tracking as spec;

use crate::key::Key;
use crate::peers::Peers;
use crate::time::{Clock, Deadline};
use pfr_headers::Packet;
use pfr_net::{Binding, Direction, InterfacePlace, RuleNumber, Timeout};

/// The number of a state: the number of the packet that made it.
#[derive(Clone, Copy, Debug, PartialEq, Eq, PartialOrd, Ord, Hash)]
pub struct StateNumber(pub u64);

/// The rules by which a state was made, and what they say of it.
#[derive(Clone, Copy, PartialEq, Eq)]
pub struct StateRules {
    /// None if no filter rule decided.
    pub filter: Option<RuleNumber>,
    /// None if nothing is translated.
    pub translation: Option<RuleNumber>,
    /// Whether a standby is told of it: its rule doesn't say `no-sync`.
    pub is_synchronised: bool,
    /// Whether its packets may have IP options: its rule says `allow-opts`.
    pub allows_options: bool,
    /// On which interfaces its packets belong to it: on all if its policy is `floating`, and on the one that made it if
    /// that is `if-bound`.
    pub binding: Binding,
}

/// Packets and bytes (IP total lengths) that went one way. A count at its last value stays there.
#[derive(Clone, Copy, PartialEq, Eq)]
pub struct Traffic {
    pub packets: u64,
    pub bytes: u64,
}

impl Traffic {
    /// The same with one packet more.
    pub(crate) fn with(self, packet: &Packet) -> Traffic
        ensures { result ≡ spec.with_packet packet.now self }
    {
        Traffic {
            packets: self.packets.saturating_add(1),
            bytes: self.bytes.saturating_add(u64::from(packet.total_length)),
        }
    }
}

/// What is kept of one connection. The fields stand in an order that leaves no gap between them.
#[derive(Clone, Copy)]
pub struct State {
    pub number: StateNumber,
    /// The second from which on it is no more.
    pub deadline: Deadline,
    /// What went the way of the packet that made it.
    pub forth: Traffic,
    /// What went the other way.
    pub back: Traffic,
    pub rules: StateRules,
    /// The key of its packets on the wire, and the key behind the firewall's translation. Both have the connection's
    /// protocol.
    pub wire: Key,
    pub stack: Key,
    pub peers: Peers,
    /// The clock when it was made.
    pub made: Clock,
    /// The way of the packet that made it.
    pub direction: Direction,
    /// The interface of the packet that made it.
    pub interface: InterfacePlace,
    /// The timeout from which the deadline was computed.
    pub timeout: Timeout,
}
