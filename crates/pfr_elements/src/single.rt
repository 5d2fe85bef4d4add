//! One address, where pf.conf(5) would take a pool of several: the target of a translation rule, and the source of a
//! binat rule.
ghost use Rattle.std.specs.Prelude.{◌≡◌, ◌<◌, IfOk, IfErr, OnOk, Ok};
ghost use Rattle.pfr_words.specs.Words.{words};
ghost use Rattle.pfr_terms.specs.declared.error.ConfErrorKind.TheVariants.{Memory};
ghost use Rattle.pfr_terms.specs.Input.{Reads};
ghost use Rattle.pfr_elements.specs.Elements.{elements_from};
ghost use Rattle.pfr_elements.specs.Single as spec;
ghost use Rattle.pfr_elements.specs.Values.{Makes};

use crate::definition::{Meanings, Taken};
use crate::element::{Elements, MOST_ELEMENTS, noted, one_fault, one_gathered, value_items};
use crate::faults::{copied_on, left_out, unknown_word};
use crate::hosts::host_meaning;
use crate::interface::whole;
use crate::scope::Scope;
use crate::terms::misplaced;
use pfr_net::{Ipv4Address, Net};
use pfr_ruleset::{HostCriterion, HostSet};
use pfr_terms::lists::Item;
use pfr_terms::{Address, AddressMatch, ConfError, ConfErrorKind, Host, MacroUse, Reader, Written};
use pfr_words::spelling::words;
use pfr_words::{Sign, Word};
use std::alloc::{AllocError, Global};

/// The fault of more than one address, which is left out.
fn pool(alloc: Global, line: usize) -> Result<ConfError, AllocError>
    ensures { IfOk result (λ e. e ≡ spec.pool line) }
{
    left_out(alloc, line, b"pool")
}

/// The fault of what is no address that may stand here.
fn bad_address(line: usize) -> ConfError
    ensures { result ≡ spec.bad_address line }
{
    ConfError {
        line,
        kind: ConfErrorKind::BadAddress,
    }
}

/// The fault of a table, which stands for several addresses, or for none that may stand here.
fn table_fault(alloc: Global, has_tables: bool, line: usize) -> Result<ConfError, AllocError>
    ensures { IfOk result (λ e. e ≡ spec.table_fault has_tables line) }
{
    if has_tables {
        pool(alloc, line)
    } else {
        Ok(bad_address(line))
    }
}

/// The line of a host that is a name, else this line.
fn host_line(line: usize, host: &Host<'_>) -> usize
    ensures { result ≡ spec.host_line line host.now }
{
    match host {
        Host::Interface(name) => name.line,
        Host::InterfaceMacro(found) => found.line,
        _ => line,
    }
}

/// The address of a network of one address.
fn one_network(
    alloc: Global,
    line: usize,
    network: Net,
) -> Result<Result<Ipv4Address, ConfError>, ConfError>
    ensures { Makes (spec.one_network line network) result }
{
    if network.bits < 32 {
        Ok(Err(pool(alloc, line)?))
    } else {
        Ok(Ok(network.address))
    }
}

/// The address of a host that means these addresses.
fn one_address(
    alloc: Global,
    line: usize,
    hosts: HostSet,
) -> Result<Result<Ipv4Address, ConfError>, ConfError>
    ensures { Makes (spec.one_address line (Ok hosts)) result }
{
    match hosts {
        HostSet::Network(network) => one_network(alloc, line, network),
        _ => Ok(Err(pool(alloc, line)?)),
    }
}

/// The address of a host, in a rule on this line.
fn one_host(
    alloc: Global,
    scope: &Scope<'_>,
    line: usize,
    host: &Host<'_>,
) -> Result<Result<Ipv4Address, ConfError>, ConfError>
    ensures { Makes (spec.one_host scope.now line host.now) result }
{
    match host_meaning(alloc, scope, host)? {
        Ok(hosts) => one_address(alloc, host_line(line, host), hosts),
        Err(fault) => Ok(Err(fault)),
    }
}

/// The address that an address in a value stands for. Its fault will stand where the value is used.
#[tactic(auto, unfolding(crate::specs::Single::one_meaning))]
fn one_meaning(
    alloc: Global,
    scope: &Scope<'_>,
    has_tables: bool,
    found: &AddressMatch<'_>,
) -> Result<Result<Ipv4Address, ConfError>, ConfError>
    ensures { Makes (spec.one_meaning has_tables scope.now found.now) result }
{
    match &found.address {
        Address::Host(host) => match one_host(alloc, scope, 0, host)? {
            Ok(_) if found.is_negated => Ok(Err(bad_address(0))),
            address => Ok(address),
        },
        Address::Table(_) => Ok(Err(table_fault(alloc, has_tables, 0)?)),
        Address::Macro(used) => Ok(Err(misplaced(used))),
        _ => Ok(Err(bad_address(0))),
    }
}

/// Reads a list. It is more than one address, even if it has only one.
fn value_list(
    alloc: Global,
    scope: &Scope<'_>,
    reader: &mut Reader<'_, '_>,
) -> Result<Option<Ipv4Address>, ConfError>
    ensures { Reads (spec.value_list scope.now reader.old) result reader.new }
{
    let fault = pool(alloc, reader.line_ahead())?;
    reader.note(fault);
    value_items::<AddressMatch<'_>>(alloc, scope, reader).and(Ok(None))
}

fn value_host(
    alloc: Global,
    scope: &Scope<'_>,
    reader: &mut Reader<'_, '_>,
    has_tables: bool,
) -> Result<Option<Ipv4Address>, ConfError>
    ensures { Reads (spec.value_host has_tables scope.now reader.old) result reader.new }
{
    let written = AddressMatch::read(alloc, reader)?;
    let address = one_meaning(alloc, scope, has_tables, &written)?;
    let found = noted(reader, address);
    reader.finish(alloc).and(Ok(found))
}

/// The one address that is the value of a macro.
#[tactic(auto, unfolding(crate::specs::Single::value_single))]
fn value_single(
    alloc: Global,
    scope: &Scope<'_>,
    reader: &mut Reader<'_, '_>,
    has_tables: bool,
) -> Result<Option<Ipv4Address>, ConfError>
    ensures { Reads (spec.value_single has_tables scope.now reader.old) result reader.new }
{
    if reader.sees_sign(Sign::OpenBrace) {
        value_list(alloc, scope, reader)
    } else {
        value_host(alloc, scope, reader, has_tables)
    }
}

/// The address that the words of a macro's value stand for. All its faults stand on the line of the use.
pub(crate) fn single_read(
    alloc: Global,
    scope: &Scope<'_>,
    has_tables: bool,
    line: usize,
    value: &[Word<'_>],
) -> Result<Result<Ipv4Address, ConfError>, ConfError>
    ensures { Makes (spec.single_read has_tables scope.now line value.now) result }
{
    let mut reader = Reader::of_value(value);
    match value_single(alloc, scope, &mut reader, has_tables) {
        Ok(found) => Ok(one_gathered(line, found, reader.into_gathered())),
        Err(fault) => one_fault(line, fault),
    }
}

/// The address that a word with a suffix stands for. All its faults stand on the line of the use.
fn word_read(
    alloc: Global,
    scope: &Scope<'_>,
    has_tables: bool,
    line: usize,
    word: &[u8],
) -> Result<Result<Ipv4Address, ConfError>, ConfError>
    ensures { Makes (spec.single_read has_tables scope.now line (words word.now)) result }
{
    let value = words(alloc, word)?;
    single_read(alloc, scope, has_tables, line, value.as_slice())
}

/// The address that a value means as a target, or as the source of a rule.
fn single_of(meanings: &Meanings, has_tables: bool) -> &Result<Ipv4Address, ConfError>
    ensures { result.now ≡ spec.single_of has_tables meanings.now }
{
    if has_tables {
        &meanings.target
    } else {
        &meanings.source
    }
}

/// The address that `taken`, for which a use stands, means.
fn taken_single(
    alloc: Global,
    scope: &Scope<'_>,
    has_tables: bool,
    line: usize,
    taken: &Taken<'_>,
) -> Result<Result<Ipv4Address, ConfError>, ConfError>
    ensures { Makes (spec.single_in has_tables scope.now line (Ok taken.now)) result }
{
    match taken {
        Taken::TooLong(true) => Ok(Err(pool(alloc, line)?)),
        Taken::TooLong(false) => Ok(Err(unknown_word(line))),
        Taken::Word(text) => word_read(alloc, scope, has_tables, line, text.as_slice()),
        Taken::Whole(text) => {
            let meant = single_of(&text.get().meanings, has_tables);
            Ok(copied_on(alloc, line, meant)?)
        }
    }
}

/// The address that the use of a macro stands for.
#[tactic(auto, unfolding(crate::specs::Single::used_single))]
fn used_single(
    alloc: Global,
    scope: &Scope<'_>,
    has_tables: bool,
    found: &MacroUse<'_>,
) -> Result<Result<Ipv4Address, ConfError>, ConfError>
    ensures { Makes (spec.used_single has_tables scope.now found.now) result }
{
    match scope.macros.taken_at(alloc, found, false)? {
        Ok(taken) => taken_single(alloc, scope, has_tables, found.line, &taken),
        Err(fault) => Ok(Err(fault)),
    }
}

/// The address that is written as the target of a rule on this line, or what is wrong with it. More than one is left
/// out; with `has_tables` a table counts as more than one, else as none that may stand here. A fault of a macro's value
/// stands on the line of the use.
#[tactic(auto, unfolding(crate::specs::Single::written_single))]
pub fn written_single(
    alloc: Global,
    scope: &Scope<'_>,
    has_tables: bool,
    line: usize,
    host: &Written<'_, Host<'_>>,
) -> Result<Result<Ipv4Address, ConfError>, ConfError>
    ensures { Makes (spec.written_single has_tables scope.now line host.now) result }
{
    match host {
        Written::Item(host) => one_host(alloc, scope, line, host),
        Written::Macro(found) => used_single(alloc, scope, has_tables, found),
    }
}

/// The one address that an address of a rule's source is.
#[tactic(auto, unfolding(crate::specs::Single::source_single))]
fn source_single(
    alloc: Global,
    scope: &Scope<'_>,
    line: usize,
    found: &AddressMatch<'_>,
) -> Result<Result<Ipv4Address, ConfError>, ConfError>
    ensures { Makes (spec.source_single scope.now line found.now) result }
{
    if found.is_negated {
        return Ok(Err(bad_address(line)));
    }
    match &found.address {
        Address::Host(host) => one_host(alloc, scope, line, host),
        Address::Macro(used) => used_single(alloc, scope, false, used),
        _ => Ok(Err(bad_address(line))),
    }
}

/// The criterion of a source that has to be this address.
fn criterion_of(address: Result<Ipv4Address, ConfError>) -> Result<HostCriterion, ConfError>
    ensures { result ≡ spec.criterion_of address }
{
    match address {
        Ok(address) => Ok(HostCriterion {
            is_negated: false,
            hosts: HostSet::Network(whole(address)),
        }),
        Err(fault) => Err(fault),
    }
}

/// Puts the sources of a rule on this line behind the other elements.
fn put_sources(
    alloc: Global,
    scope: &Scope<'_>,
    line: usize,
    list: &[AddressMatch<'_>],
    found: &mut Elements<HostCriterion>,
) -> Result<(), ConfError>
    ensures made { OnOk result (found.new ≡ elements_from (spec.with_source scope.now line) found.old list.now) }
    ensures refused { IfErr result (λ e. e.kind ≡ Memory) }
{
    for source in list {
        if found.count > MOST_ELEMENTS {
            return Ok(());
        }
        let address = source_single(alloc, scope, line, source)?;
        found.add_meaning(criterion_of(address))?;
    }
    Ok(())
}

/// The elements of the source of a rule on this line, of which each has to be one address; a table is none that may
/// stand here. Those behind the one that is too many aren't looked at.
pub fn single_sources(
    alloc: Global,
    scope: &Scope<'_>,
    line: usize,
    list: &[AddressMatch<'_>],
) -> Result<Elements<HostCriterion>, ConfError>
    ensures { Makes (spec.single_sources scope.now line list.now) result }
{
    let mut found = Elements::new(alloc);
    put_sources(alloc, scope, line, list, &mut found).and(Ok(found))
}
