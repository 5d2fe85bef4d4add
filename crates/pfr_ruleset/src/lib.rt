//! A ruleset as data: flat filter rules and the anchors round them, translation rules, the criteria of rules, tables of
//! addresses, options (pf.conf(5)).
//!
//! A [`Ruleset`] is what the text of a ruleset means for the interfaces of a run. Each of its rules asks for one thing
//! of a kind. In a table `{ 10.0.0.0/8, !10.1.0.0/16, 10.1.2.0/24 }` an entry is a network, maybe with a `!`. Of the
//! entries that hold an address the longest decides by its sign; if none holds it, the table doesn't.
#![tactic(auto)]

pub mod aids;
pub mod criterion;
pub mod filter_rules;
pub mod flat;
pub mod hosts;
pub mod index;
pub mod interface;
pub mod label;
pub mod laws;
pub mod network;
pub mod options;
pub mod ruleset;
pub mod shape;
pub mod skips;
pub mod table;
pub mod translation_aids;
pub mod translation_rules;
pub mod translations;

pub use aids::{Aids, FilterAids};
pub use criterion::{Asked, Criterion};
pub use filter_rules::{FilterRules, RuleLists, put_anchors};
pub use flat::{
    ANYONE, FilterAction, FlagsCriterion, FlatAnchor, FlatRule, FlatTranslation, NO_MATCH,
    NatAddress, PacketMatch, PortChange, PortRange, RdrAddress, StateRule,
};
pub use hosts::{HostCriterion, HostSet};
pub use index::{Index, MOST_SHAPES};
pub use interface::{Interface, InterfaceCriterion, OWN_ADDRESSES};
pub use label::Label;
pub use options::Options;
pub use ruleset::Ruleset;
pub use shape::{Pins, Shape};
pub use skips::Skips;
pub use table::{AddressTable, Entry};
pub use translation_aids::TranslationAids;
pub use translation_rules::TranslationRules;
pub use translations::Translations;
