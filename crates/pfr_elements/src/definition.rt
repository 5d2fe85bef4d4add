//! What macros are defined as: what a value means is read once, where it is defined.
ghost use Rattle.std.specs.Prelude.{◌≡◌};

use pfr_items::Items;
use pfr_net::{IcmpMatch, IfName, Ipv4Address, Net, PortMatch, Protocol};
use pfr_ruleset::{HostCriterion, InterfaceCriterion};
use pfr_terms::ConfError;
use std::marker::Model;

/// What a value means as a list of one kind.
#[derive(Drop)]
pub struct ListMeaning<T> {
    pub items: Items<T>,
    /// How many of the ruleset's tables have to be defined where the list is used.
    pub tables: usize,
    /// The fault of the lowest kind, apart from tables that aren't defined.
    pub fault: Option<ConfError>,
}

/// What a value means as a list of each kind.
#[derive(Drop)]
pub struct ListMeanings {
    pub interfaces: ListMeaning<InterfaceCriterion>,
    pub skipped: ListMeaning<IfName>,
    pub protocols: ListMeaning<Protocol>,
    pub icmp_types: ListMeaning<IcmpMatch>,
    pub hosts: ListMeaning<HostCriterion>,
    pub entries: ListMeaning<HostCriterion>,
    pub ports: ListMeaning<PortMatch>,
}

/// What a value means wherever it may be used.
#[derive(Drop)]
pub struct Meanings {
    /// Whether it is one word, which may have a `!` before it.
    pub is_one_word: bool,
    /// Its word, if it is one plain word, which may have a suffix behind it.
    pub word: Option<Items<u8>>,
    pub lists: ListMeanings,
    /// As a form of an interface, in round brackets.
    pub form: Result<Net, ConfError>,
    /// As the target of a translation rule.
    pub target: Result<Ipv4Address, ConfError>,
    /// As the source of a `binat` rule.
    pub source: Result<Ipv4Address, ConfError>,
}

/// The text of a value, and what it means.
#[derive(Drop)]
pub struct Text {
    pub bytes: Items<u8>,
    pub meanings: Meanings,
}

/// What a macro is defined as.
#[derive(Drop)]
pub enum Definition {
    Text(Text),
    /// A value with words that no use may stand for.
    Unsound,
    /// More bytes than a value may have; and whether it begins a list.
    TooLong(bool),
}

/// The text of a macro that is defined.
#[derive(Drop)]
pub struct TextOf<'m> {
    text: &'m Text,
}

impl<'m> Model for TextOf<'m> {
    ghost use Rattle.pfr_elements.specs.declared.definition.Text.{Text};

    ghost Value = { Text };

    ghost view = { λ t. t.text.now };
}

impl<'m> TextOf<'m> {
    pub fn new(text: &'m Text) -> TextOf<'m>
        ensures { result ≡ text.now }
    {
        TextOf { text }
    }

    pub fn get(&self) -> &'m Text
        ensures { result.now ≡ self.now }
    {
        self.text
    }
}

/// What a use of a macro stands for.
#[derive(Drop)]
pub enum Taken<'m> {
    /// The whole value.
    Whole(TextOf<'m>),
    /// Its one word, with the suffix of the use.
    Word(Items<u8>),
    /// More bytes than a value may have; and whether it begins a list.
    TooLong(bool),
}
