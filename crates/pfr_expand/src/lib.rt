//! The flat ruleset: what the statements of a ruleset mean for the interfaces of a run.
//!
//! [`ruleset_of`] reads a text, and [`expand`] makes the ruleset of its statements. It gives macros their values, tables
//! their entries and interface forms their addresses, and makes one flat rule of each combination of the elements of a
//! rule's lists. Of the faults that only this shows it reports the first.
#![tactic(auto)]

pub mod body;
pub mod expansion;
pub mod laws;
pub mod options;
pub mod tables;
pub mod text;
pub mod translation;

pub use expansion::expand;
pub use pfr_net::{IfName, Timeouts};
pub use pfr_ruleset::{
    AddressTable, Entry, FilterAction, FlagsCriterion, FlatAnchor, FlatRule, FlatTranslation,
    HostCriterion, HostSet, Interface, InterfaceCriterion, NatAddress, Options, PacketMatch,
    PortChange, PortRange, RdrAddress, Ruleset, StateRule, Translations,
};
pub use text::{LONGEST_TEXT, ruleset_of};
