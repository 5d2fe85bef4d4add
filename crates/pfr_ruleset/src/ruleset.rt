//! The flat ruleset.
ghost use Rattle.std.specs.Prelude.{◌≡◌, [], ◌∷◌, min, IfOk};
ghost use Rattle.std.specs.Option.{option_map};
ghost use Rattle.pfr_ruleset.specs.Interfaces.{name_at as name_of, own_table as table_of_own};
ghost use Rattle.pfr_ruleset.specs.Rulesets as spec;

use crate::filter_rules::FilterRules;
use crate::flat::FlatRule;
use crate::interface::{Interface, own_table};
use crate::label::Label;
use crate::options::Options;
use crate::table::AddressTable;
use crate::translations::Translations;
use pfr_items::Items;
use pfr_net::{IfName, InterfacePlace};
use std::alloc::{AllocError, Global};

/// What a ruleset means for the interfaces of a run.
#[derive(Drop)]
pub struct Ruleset {
    /// The interfaces on which packets are, by their places.
    pub interfaces: Items<Interface>,
    pub options: Options,
    /// The table of the interfaces' own addresses, and behind it the text's tables in the order of their definitions.
    pub tables: Items<AddressTable>,
    /// The filter rules, of which each has its place as its number, and the anchors round them.
    pub filter: FilterRules,
    /// The labels of filter rules in the order of the text, one for each statement that writes one.
    pub labels: Items<Label>,
    pub translations: Translations,
}

impl Ruleset {
    /// A ruleset that says nothing.
    pub fn new(alloc: Global, interfaces: &[Interface]) -> Result<Ruleset, AllocError>
        ensures { IfOk result (λ made. made ≡ spec.empty_ruleset interfaces.now) }
    {
        let tables = own_tables(alloc, interfaces)?;
        let interfaces = Items::copied(alloc, interfaces)?;
        Ok(Ruleset {
            interfaces,
            options: Options::new(alloc),
            tables,
            filter: FilterRules::new(alloc),
            labels: Items::new(alloc),
            translations: Translations::new(alloc),
        })
    }

    /// The name of the interface at a place. Behind the last one it is the name without letters, which no interface has.
    #[inline]
    pub fn name_at(&self, place: InterfacePlace) -> IfName
        ensures { result ≡ name_of self.now.interfaces place }
    {
        match self.interfaces.as_slice().get(usize::from(place.0)) {
            Some(interface) => interface.name,
            None => IfName::new(b""),
        }
    }

    /// Makes what lets walks skip rules. The ruleset says what it said.
    pub fn index(&mut self, alloc: Global) -> Result<(), AllocError>
        ensures { self.new ≡ self.old }
    {
        self.filter.index(alloc)?;
        self.translations.index(alloc)
    }

    /// The label of a filter rule, if it has one.
    pub fn label_of(&self, rule: &FlatRule) -> Option<&[u8]>
        ensures { option_map (λ label. label.now) result ≡ spec.label_at self.now.labels rule.now.label }
    {
        let label = self.labels.as_slice().get(rule.label? as usize)?;
        Some(label.text.as_slice())
    }

    /// How many filter rules and how many translation rules there are.
    pub fn counts(&self) -> (u32, u32)
        ensures { result ≡ spec.counts self.now }
    {
        let translations = self
            .translations
            .nats
            .len()
            .saturating_add(self.translations.rdrs.len())
            .saturating_add(self.translations.binats.len());
        (counted(self.filter.rules().len()), counted(translations))
    }
}

/// The tables before a text defines one.
fn own_tables(alloc: Global, interfaces: &[Interface]) -> Result<Items<AddressTable>, AllocError>
    ensures { IfOk result (λ tables. tables ≡ table_of_own interfaces.now ∷ []) }
{
    let mut tables = Items::new(alloc);
    tables.push(own_table(alloc, interfaces)?)?;
    Ok(tables)
}

fn counted(count: usize) -> u32
    ensures { result ≡ min count 4294967295 }
{
    count.min(4294967295) as u32
}
