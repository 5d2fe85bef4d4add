//! One state: what a packet makes, and what a packet of its connection does to it.
//!
//! [`make`] gives the state that a packet makes, [`touch`] what a packet does to a state. TCP is followed by the rules
//! of pf's own tracking, over sequence numbers and windows (RFC 9293, RFC 7323); other protocols by which ends have
//! spoken. A packet that doesn't fit changes nothing. Nothing here takes memory.
#![tactic(auto)]

pub mod datagram;
pub mod key;
pub mod laws;
pub mod making;
pub mod outcome;
pub mod peers;
pub mod segment;
pub mod sequence;
pub mod state;
pub mod tcp;
pub mod time;
pub mod touching;

pub use datagram::DatagramPeer;
pub use key::Key;
pub use making::make;
pub use outcome::{Advance, Touch};
pub use peers::Peers;
pub use pfr_net::{Binding, Endpoint, InterfacePlace, RuleNumber, Timeout, Timeouts};
pub use sequence::Sequence;
pub use state::{State, StateNumber, StateRules, Traffic};
pub use tcp::{TcpPeer, TcpPeerState};
pub use time::{Clock, Deadline};
pub use touching::{advance, touch};
