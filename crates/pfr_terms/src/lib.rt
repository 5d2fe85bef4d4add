//! What pf.conf(5)'s rules are made of: lists, interfaces, protocols, addresses, ports, ICMP types and flags, read
//! from the words of a ruleset text. A helper of `pfr_conf`, `pfr_elements` and `pfr_faults`.
//!
//! A [`Reader`] goes through the words once, from left to right. Each function that reads says exactly what it reads,
//! or which fault the words have there: a word that doesn't belong where it stands is refused in one place,
//! `Reader::refuse`.
#![tactic(auto)]

pub mod address;
pub mod error;
pub mod flags;
pub mod hosts;
pub mod interface;
pub mod laws;
pub mod lists;
pub mod name;
pub mod port;
pub mod protocol;
pub mod reader;
pub mod token;

pub use address::{Address, AddressMatch, Host, TableEntry};
pub use error::{ConfError, ConfErrorKind, LeftOutName};
pub use flags::FlagsMatch;
pub use hosts::{Criteria, Hosts, Part};
pub use interface::{InterfaceMatch, InterfaceName};
pub use name::{MacroUse, Name, Written};
pub use reader::Reader;
