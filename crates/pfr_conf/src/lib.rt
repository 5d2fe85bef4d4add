//! The ruleset language of pf.conf(5) as statements.
//!
//! [`read`] says what a ruleset text states, or which fault it has first. Macros, tables and the interface are not
//! looked at here: lists stand as they are written, and the use of a macro stands in its place with its line.
#![tactic(auto)]

pub mod anchor;
pub mod filter;
pub mod laws;
pub mod macros;
pub mod name;
pub mod options;
pub mod policy;
pub mod reading;
pub mod rule_options;
pub mod settings;
pub mod statement;
pub mod table;
pub mod targets;
pub mod translation;

pub use anchor::{AnchorRule, FilterStatement};
pub use filter::{Action, FilterRule};
pub use macros::{MacroDefinition, Piece};
pub use options::SetOption;
pub use pfr_items::Items;
pub use pfr_net::{
    BlockPolicy, Comparison, Direction, FlagSet, IcmpMatch, Ipv4Address, Net, PortMatch, Protocol,
    RangeOperator, StatePolicy,
};
pub use pfr_terms::{
    Address, AddressMatch, ConfError, ConfErrorKind, Criteria, FlagsMatch, Host, Hosts,
    InterfaceMatch, InterfaceName, LeftOutName, MacroUse, Name, Part, TableEntry, Written,
};
pub use pfr_words::Bytes;
pub use reading::read;
pub use rule_options::{RuleOptions, StateKeeping, StateOptions};
pub use settings::{Limit, LimitSetting, TimeoutName, TimeoutSetting};
pub use statement::{Statement, Statements};
pub use table::TableDefinition;
pub use targets::{NatTarget, RdrTarget, RedirectedPort, Target};
pub use translation::{TranslationKind, TranslationRule, TranslationStatement};
