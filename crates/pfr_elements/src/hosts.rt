//! What addresses mean in a list.
ghost use Rattle.std.specs.Prelude.{◌≡◌, ◌<◌, Ok};
ghost use Rattle.pfr_words.specs.Words.{words};
ghost use Rattle.pfr_terms.specs.Input.{Reads};
ghost use Rattle.pfr_elements.specs.Elements.{value_item};
ghost use Rattle.pfr_elements.specs.Hosts as spec;
ghost use Rattle.pfr_elements.specs.Meanings.{IsListOf};
ghost use Rattle.pfr_elements.specs.Names.{last_place};
ghost use Rattle.pfr_elements.specs.Values.{Makes};

use crate::definition::{ListMeaning, ListMeanings, Taken};
use crate::element::{Element, noted, one_fault, one_gathered};
use crate::faults::{copied_on, left_out, undefined_table, unknown_word};
use crate::interface::{first_form, masked, own_hosts, whole};
use crate::scope::Scope;
use crate::terms::{copied, misplaced, use_in};
use pfr_net::Net;
use pfr_ruleset::{HostCriterion, HostSet, Interface};
use pfr_terms::lists::Item;
use pfr_terms::{
    Address, AddressMatch, ConfError, Host, MacroUse, Name, Reader, TableEntry, Written,
};
use pfr_words::Word;
use pfr_words::spelling::words;
use std::alloc::Global;

/// What a name means as a form of an interface.
#[tactic(auto, unfolding(crate::specs::Hosts::form_meaning))]
fn form_meaning(
    alloc: Global,
    interfaces: &[Interface],
    name: &Name<'_>,
) -> Result<Result<Net, ConfError>, ConfError>
    ensures { Makes (spec.form_meaning interfaces.now name.now) result }
{
    match first_form(interfaces, name.text.as_slice()) {
        Some(network) => Ok(Ok(network)),
        None => Ok(Err(left_out(alloc, name.line, b"host name")?)),
    }
}

/// What a name that is the whole value of a macro means.
#[tactic(auto, unfolding(crate::specs::Hosts::value_form))]
fn value_form(
    alloc: Global,
    interfaces: &[Interface],
    reader: &mut Reader<'_, '_>,
) -> Result<Option<Net>, ConfError>
    ensures { Reads (spec.value_form interfaces.now reader.old) result reader.new }
{
    let name = reader.free_word(alloc)?;
    let meaning = form_meaning(alloc, interfaces, &name)?;
    let found = noted(reader, meaning);
    reader.finish(alloc).and(Ok(found))
}

/// What the words of a macro's value mean in round brackets.
pub(crate) fn form_read(
    alloc: Global,
    interfaces: &[Interface],
    line: usize,
    value: &[Word<'_>],
) -> Result<Result<Net, ConfError>, ConfError>
    ensures { Makes (spec.form_read interfaces.now line value.now) result }
{
    let mut reader = Reader::of_value(value);
    match value_form(alloc, interfaces, &mut reader) {
        Ok(found) => Ok(one_gathered(line, found, reader.into_gathered())),
        Err(fault) => one_fault(line, fault),
    }
}

/// What the words of a text mean in round brackets.
fn text_form(
    alloc: Global,
    interfaces: &[Interface],
    line: usize,
    text: &[u8],
) -> Result<Result<Net, ConfError>, ConfError>
    ensures { Makes (spec.form_read interfaces.now line (words text.now)) result }
{
    let value = words(alloc, text)?;
    form_read(alloc, interfaces, line, value.as_slice())
}

/// What `taken`, for which a use stands, means in round brackets.
fn taken_form(
    alloc: Global,
    interfaces: &[Interface],
    line: usize,
    taken: &Taken<'_>,
) -> Result<Result<Net, ConfError>, ConfError>
    ensures { Makes (spec.form_in interfaces.now line (Ok taken.now)) result }
{
    match taken {
        Taken::TooLong(_) => Ok(Err(unknown_word(line))),
        Taken::Word(text) => text_form(alloc, interfaces, line, text.as_slice()),
        Taken::Whole(text) => Ok(copied_on(alloc, line, &text.get().meanings.form)?),
    }
}

/// What the use of a macro means in round brackets.
#[tactic(auto, unfolding(crate::specs::Hosts::used_form))]
fn used_form(
    alloc: Global,
    scope: &Scope<'_>,
    found: &MacroUse<'_>,
) -> Result<Result<Net, ConfError>, ConfError>
    ensures { Makes (spec.used_form scope.now found.now) result }
{
    match scope.macros.taken_at(alloc, found, false)? {
        Ok(taken) => taken_form(alloc, scope.interfaces.as_slice(), found.line, &taken),
        Err(fault) => Ok(Err(fault)),
    }
}

/// The network that is meant, or the fault of the meaning.
fn network_set(meaning: Result<Net, ConfError>) -> Result<HostSet, ConfError>
    ensures { result ≡ spec.network_set meaning }
{
    match meaning {
        Ok(network) => Ok(HostSet::Network(network)),
        Err(fault) => Err(fault),
    }
}

/// What an address, a network, an interface's form or `self` means.
#[tactic(auto, unfolding(crate::specs::Hosts::host_meaning))]
pub fn host_meaning(
    alloc: Global,
    scope: &Scope<'_>,
    host: &Host<'_>,
) -> Result<Result<HostSet, ConfError>, ConfError>
    ensures { Makes (spec.host_meaning scope.now host.now) result }
{
    let interfaces = scope.interfaces.as_slice();
    match host {
        Host::Address(address) => Ok(Ok(HostSet::Network(whole(*address)))),
        Host::Network(network) => Ok(Ok(HostSet::Network(masked(*network)))),
        Host::Own => Ok(Ok(own_hosts(interfaces))),
        Host::Interface(name) => Ok(network_set(form_meaning(alloc, interfaces, name)?)),
        Host::InterfaceMacro(found) => Ok(network_set(used_form(alloc, scope, found)?)),
    }
}

fn table_meaning(scope: &Scope<'_>, name: &Name<'_>) -> Result<HostSet, ConfError>
    ensures { result ≡ spec.table_by name.now scope.now.defined (last_place name.now.text scope.now.tables) }
{
    match scope.tables.last_place(name.text.as_slice()) {
        Some(place) if place < scope.defined => Ok(HostSet::Table(place)),
        _ => Err(undefined_table(name.line)),
    }
}

/// What an address of a rule means.
#[tactic(auto, unfolding(crate::specs::Hosts::address_meaning))]
fn address_meaning(
    alloc: Global,
    scope: &Scope<'_>,
    address: &Address<'_>,
) -> Result<Result<HostSet, ConfError>, ConfError>
    ensures { Makes (spec.address_meaning scope.now address.now) result }
{
    match address {
        Address::Any => Ok(Ok(HostSet::Any)),
        Address::Host(host) => host_meaning(alloc, scope, host),
        Address::Range(first, last) => Ok(Ok(HostSet::Range(*first, *last))),
        Address::Table(name) => Ok(table_meaning(scope, name)),
        Address::Macro(found) => Ok(Err(misplaced(found))),
    }
}

/// Addresses with a sign.
fn with_sign(
    is_negated: bool,
    meaning: Result<HostSet, ConfError>,
) -> Result<HostCriterion, ConfError>
    ensures { result ≡ spec.with_sign is_negated meaning }
{
    match meaning {
        Ok(hosts) => Ok(HostCriterion { is_negated, hosts }),
        Err(fault) => Err(fault),
    }
}

fn criterion(
    alloc: Global,
    scope: &Scope<'_>,
    found: &AddressMatch<'_>,
) -> Result<Result<HostCriterion, ConfError>, ConfError>
    ensures { Makes (spec.host_criterion scope.now found.now) result }
{
    let meaning = address_meaning(alloc, scope, &found.address)?;
    Ok(with_sign(found.is_negated, meaning))
}

/// The same addresses behind a `!`.
fn turned(hosts: HostCriterion) -> HostCriterion
    ensures { result ≡ spec.host_turned hosts }
{
    HostCriterion {
        is_negated: true,
        ..hosts
    }
}

/// How many of the ruleset's tables have to be defined for these addresses.
fn tables_for(hosts: HostCriterion) -> usize
    ensures { result ≡ spec.host_tables hosts }
{
    match hosts.hosts {
        HostSet::Table(place) => place.saturating_add(1),
        _ => 0,
    }
}

impl<'a> Element for AddressMatch<'a> {
    ghost use Rattle.pfr_elements.specs.Hosts as spec;

    type Flat = HostCriterion;

    ghost kind = { spec.host_kind };

    fn macro_use(&self) -> Option<MacroUse<'_>> {
        match &self.address {
            Address::Macro(found) => Some(copied(found)),
            _ => None,
        }
    }

    fn is_negated(&self) -> bool {
        self.is_negated
    }

    fn resolve(
        &self,
        alloc: Global,
        scope: &Scope<'_>,
    ) -> Result<Result<HostCriterion, ConfError>, ConfError> {
        criterion(alloc, scope, self)
    }

    fn turn(flat: HostCriterion) -> HostCriterion
        ensures { result ≡ spec.host_turned flat }
    {
        turned(flat)
    }

    fn tables(flat: HostCriterion) -> usize
        ensures { result ≡ spec.host_tables flat }
    {
        tables_for(flat)
    }

    #[tactic(auto, unfolding(crate::specs::Meanings::list_meanings))]
    fn list_in(meanings: &ListMeanings) -> &ListMeaning<HostCriterion>
        ensures value { result.now ≡ spec.host_lists meanings.now }
        ensures read { IsListOf spec.host_kind meanings.now result.now }
    {
        &meanings.hosts
    }

    fn read_one(
        alloc: Global,
        scope: &Scope<'_>,
        reader: &mut Reader<'_, '_>,
    ) -> Result<Option<HostCriterion>, ConfError>
        ensures { Reads (value_item spec.host_kind scope.now reader.old) result reader.new }
    {
        let found = AddressMatch::read(alloc, reader)?;
        let meaning = criterion(alloc, scope, &found)?;
        Ok(noted(reader, meaning))
    }
}

fn entry(
    alloc: Global,
    scope: &Scope<'_>,
    found: &TableEntry<'_>,
) -> Result<Result<HostCriterion, ConfError>, ConfError>
    ensures { Makes (spec.entry_meaning scope.now found.now) result }
{
    match &found.host {
        Written::Item(host) => {
            let meaning = host_meaning(alloc, scope, host)?;
            Ok(with_sign(found.is_negated, meaning))
        }
        Written::Macro(used) => Ok(Err(misplaced(used))),
    }
}

impl<'a> Element for TableEntry<'a> {
    ghost use Rattle.pfr_elements.specs.Hosts as spec;

    type Flat = HostCriterion;

    ghost kind = { spec.entry_kind };

    fn macro_use(&self) -> Option<MacroUse<'_>> {
        use_in(&self.host)
    }

    fn is_negated(&self) -> bool {
        self.is_negated
    }

    fn resolve(
        &self,
        alloc: Global,
        scope: &Scope<'_>,
    ) -> Result<Result<HostCriterion, ConfError>, ConfError> {
        entry(alloc, scope, self)
    }

    fn turn(flat: HostCriterion) -> HostCriterion
        ensures { result ≡ spec.host_turned flat }
    {
        turned(flat)
    }

    fn tables(flat: HostCriterion) -> usize
        ensures { result ≡ spec.host_tables flat }
    {
        tables_for(flat)
    }

    #[tactic(auto, unfolding(crate::specs::Meanings::list_meanings))]
    fn list_in(meanings: &ListMeanings) -> &ListMeaning<HostCriterion>
        ensures value { result.now ≡ spec.entry_lists meanings.now }
        ensures read { IsListOf spec.entry_kind meanings.now result.now }
    {
        &meanings.entries
    }

    fn read_one(
        alloc: Global,
        scope: &Scope<'_>,
        reader: &mut Reader<'_, '_>,
    ) -> Result<Option<HostCriterion>, ConfError>
        ensures { Reads (value_item spec.entry_kind scope.now reader.old) result reader.new }
    {
        let found = TableEntry::read(alloc, reader)?;
        let meaning = entry(alloc, scope, &found)?;
        Ok(noted(reader, meaning))
    }
}
