//! What rules and the packets that they judge have in common: addresses, networks, ports, the ends of
//! connections, protocols, directions, interfaces, timeouts, numbers of rules, and how addresses and numbers are written.
//! What a rule asks of ports, ICMP types and TCP flags, and policies, are here too, so that what reads rules doesn't wait
//! for the crate that has them as data.
#![tactic(auto)]

pub mod address;
pub mod direction;
pub mod endpoint;
pub mod flag_set;
pub mod icmp_match;
pub mod interface;
pub mod network;
pub mod notation;
pub mod policy;
pub mod port;
pub mod port_match;
pub mod protocol;
pub mod rule_number;
pub mod timeout;

pub use address::Ipv4Address;
pub use direction::Direction;
pub use endpoint::Endpoint;
pub use flag_set::FlagSet;
pub use icmp_match::IcmpMatch;
pub use interface::{Binding, IfName, InterfacePlace};
pub use network::Net;
pub use policy::{BlockPolicy, StatePolicy};
pub use port::Port;
pub use port_match::{Comparison, PortMatch, RangeOperator};
pub use protocol::Protocol;
pub use rule_number::RuleNumber;
pub use timeout::{Timeout, Timeouts};
