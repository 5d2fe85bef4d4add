//! What gives the words of a ruleset their meaning.
use crate::macros::Macros;
use crate::names::Names;
use pfr_items::Items;
use pfr_ruleset::Interface;

/// The run's interfaces, the macros that are defined so far, and the tables.
#[derive(Drop)]
pub struct Scope<'a> {
    /// The interfaces by their places.
    pub interfaces: Items<Interface>,
    pub macros: Macros<'a>,
    /// The names of the ruleset's tables, each once; a table is known by its place among them. The first table is that of the
    /// interfaces' own addresses, whose name no text can write, and the others stand in the order of their definitions.
    pub tables: Names<'a>,
    /// How many of the tables are defined so far.
    pub defined: usize,
}
