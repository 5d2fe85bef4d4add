//! What messages say of states.
use pfr_net::{Direction, Endpoint, IfName, Protocol, RuleNumber, Timeout};
use pfr_track::{Sequence, StateNumber, Traffic};

/// One end of a connection. Of protocols other than TCP it has the code alone.
#[derive(Clone, Copy, Debug, PartialEq, Eq)]
pub struct Peer {
    /// Behind the last byte that it has sent.
    pub low: Sequence,
    /// Behind the last byte that it may send.
    pub high: Sequence,
    /// The greatest window that it has offered, unscaled.
    pub greatest_window: u16,
    /// How far it has come: 0 to 10, the code of the end in its protocol.
    pub code: u8,
    /// The shift of its windows that its SYN offers: 0 to 14.
    pub scale: Option<u8>,
}

/// Both parties of a key.
#[derive(Clone, Copy, Debug, PartialEq, Eq)]
pub struct Parties {
    pub outside: Endpoint,
    pub inside: Endpoint,
}

/// A state that came to be.
#[derive(Clone, Copy)]
pub struct Insertion {
    pub number: StateNumber,
    pub interface: IfName,
    pub wire: Parties,
    pub stack: Parties,
    /// The end of the state's maker.
    pub maker: Peer,
    pub other: Peer,
    /// Numbers of rules are below 2^32 - 1.
    pub rule: Option<RuleNumber>,
    pub translation: Option<RuleNumber>,
    /// Seconds since the state was made.
    pub age: u32,
    /// Seconds until it is no more.
    pub remaining: u32,
    /// What went the way of the packet that made it.
    pub forth: Traffic,
    /// What went the other way.
    pub back: Traffic,
    /// The number of the firewall that made it.
    pub creator: u32,
    pub protocol: Protocol,
    /// The direction of the packet that made it.
    pub direction: Direction,
    pub timeout: Timeout,
}

/// A state that moved on.
#[derive(Clone, Copy)]
pub struct Update {
    pub number: StateNumber,
    /// The end of the state's maker.
    pub maker: Peer,
    pub other: Peer,
    /// The number of the firewall that made it.
    pub creator: u32,
    /// Seconds until it is no more.
    pub remaining: u32,
    pub timeout: Timeout,
}

/// A state that is gone.
#[derive(Clone, Copy, Debug, PartialEq, Eq)]
pub struct Deletion {
    pub number: StateNumber,
    /// The number of the firewall that made it.
    pub creator: u32,
}
