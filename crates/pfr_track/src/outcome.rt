//! What a packet may do.
use crate::peers::Peers;
use crate::state::State;
use crate::tcp::TcpPeer;
use pfr_net::Timeout;

/// What a packet does to a state.
#[derive(Clone, Copy)]
pub enum Touch {
    /// The packet is accepted, and this is the state from then on.
    Touched(State),
    /// The packet begins a new connection over one that has ended: it is refused, and the state is no more.
    Removed,
    /// The packet doesn't fit: it is refused, and the state stays as it is.
    Mismatch,
}

/// What a packet does to a state that is changed in place.
#[derive(Clone, Copy, Debug, PartialEq, Eq)]
pub enum Advance {
    /// The packet is accepted.
    Accepted,
    /// As with [`Touch::Removed`]: the state is left as it was.
    Removed,
    /// As with [`Touch::Mismatch`].
    Mismatch,
}

/// What a packet does to both ends of a connection.
#[derive(Clone, Copy)]
pub(crate) enum Track {
    Accepted(Peers, Timeout),
    Removed,
    Refused,
}

/// What a segment does to its sender and the other end.
#[derive(Clone, Copy)]
pub(crate) enum Followed {
    /// The sender and the other end, as they become.
    Accepted(TcpPeer, TcpPeer),
    Removed,
    Refused,
}
