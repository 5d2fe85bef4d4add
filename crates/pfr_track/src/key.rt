//! What a packet is looked up by.

use pfr_net::{Endpoint, Protocol};

/// What a state is found by on one side of the firewall.
#[derive(Clone, Copy, Debug, PartialEq, Eq, PartialOrd, Ord, Hash)]
pub struct Key {
    pub protocol: Protocol,
    /// The party outside: the source of a packet that comes in, the destination of one that goes out.
    pub outside: Endpoint,
    pub inside: Endpoint,
}
