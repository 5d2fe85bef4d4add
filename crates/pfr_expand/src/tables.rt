//! Tables and their entries.
ghost use Rattle.std.specs.Prelude.{◌≡◌, ◌≤◌, drop, fold, OnOk, IfOk, IfErr};
ghost use Rattle.pfr_terms.specs.declared.error.ConfErrorKind.TheVariants.{Memory};
ghost use Rattle.pfr_elements.specs.Values.{Makes};
ghost use Rattle.pfr_expand.specs.Tables as spec;

use pfr_conf::{ConfError, ConfErrorKind, TableEntry};
use pfr_elements::element::{add_element, first_fault};
use pfr_elements::{Elements, MOST_ELEMENTS, Scope};
use pfr_flat::MOST_RULES;
use pfr_ruleset::{AddressTable, Entry, HostCriterion, HostSet, Interface};
use std::alloc::{AllocError, Global};
use std::mem::replace;

/// A table that is being filled, and what is written in it, with the first fault.
#[derive(Drop)]
pub struct Filling {
    pub table: AddressTable,
    pub found: Elements<HostCriterion>,
}

/// The fault of one entry with both signs, or of a table that is defined twice.
pub(crate) fn clash(line: usize) -> ConfError
    ensures { result ≡ spec.clash line }
{
    ConfError {
        line,
        kind: ConfErrorKind::Clash,
    }
}

/// Whether a list of `count` elements has more than it may have, or with `others` more than there may be in all.
pub(crate) fn exceeds(others: usize, count: usize) -> bool
    ensures { result ≡ spec.exceeds others count }
{
    count > MOST_ELEMENTS || others > MOST_RULES || count > MOST_RULES - others
}

/// Puts an entry that is written on this line into a table; answers the first fault.
fn put_entry(
    table: &mut AddressTable,
    fault: Option<ConfError>,
    line: usize,
    entry: Entry,
) -> Result<Option<ConfError>, AllocError>
    ensures { IfOk result (λ first. (table.new, first) ≡ spec.put_entry line (table.old, fault) entry) }
{
    if table.add(entry)? {
        Ok(fault)
    } else {
        Ok(first_fault(fault, clash(line)))
    }
}

/// Puts the addresses of interfaces into a table.
fn put_own(
    table: &mut AddressTable,
    fault: Option<ConfError>,
    line: usize,
    interfaces: &[Interface],
    is_negated: bool,
) -> Result<Option<ConfError>, AllocError>
    ensures { IfOk result (λ first. (table.new, first) ≡ fold (spec.put_own line is_negated) (table.old, fault) interfaces.now) }
{
    let mut first = fault;
    for interface in interfaces {
        first = put_entry(table, first, line, interface.own_entry(is_negated))?;
    }
    Ok(first)
}

/// Puts what is written at one place into a table: a network, or the addresses of the interfaces.
fn put_hosts(
    table: &mut AddressTable,
    fault: Option<ConfError>,
    line: usize,
    interfaces: &[Interface],
    hosts: HostCriterion,
) -> Result<Option<ConfError>, AllocError>
    ensures { IfOk result (λ first. (table.new, first) ≡ spec.put_hosts interfaces.now line (table.old, fault) hosts) }
{
    let is_negated = hosts.is_negated;
    match hosts.hosts {
        HostSet::Network(network) => {
            let entry = Entry {
                network,
                is_negated,
            };
            put_entry(table, fault, line, entry)
        }
        HostSet::Table(_) => put_own(table, fault, line, interfaces, is_negated),
        _ => Ok(fault),
    }
}

/// Puts what is written on this line into a table; answers the first fault.
fn put_all(
    table: &mut AddressTable,
    fault: Option<ConfError>,
    line: usize,
    interfaces: &[Interface],
    written: &[HostCriterion],
) -> Result<Option<ConfError>, AllocError>
    ensures { IfOk result (λ first. (table.new, first) ≡ fold (spec.put_hosts interfaces.now line) (table.old, fault) written.now) }
{
    let mut first = fault;
    for hosts in written {
        first = put_hosts(table, first, line, interfaces, *hosts)?;
    }
    Ok(first)
}

/// How many entries more than one stand for what is written at one place.
fn more_in(interfaces: &[Interface], hosts: HostCriterion) -> usize
    ensures { result ≡ spec.more_in interfaces.now hosts }
{
    match hosts.hosts {
        HostSet::Table(_) => interfaces.len().saturating_sub(1),
        _ => 0,
    }
}

/// How many more entries there are than places at which something is written. More than a list may have count as one
/// more than that.
fn more_of(interfaces: &[Interface], written: &[HostCriterion]) -> usize
    ensures { result ≡ spec.more_of interfaces.now written.now }
{
    let mut more: usize = 0;
    for hosts in written {
        more = more.saturating_add(more_in(interfaces, *hosts));
    }
    more.min(MOST_ELEMENTS + 1)
}

/// What is written behind the first `count` things.
fn behind(written: &[HostCriterion], count: usize) -> &[HostCriterion]
    ensures { result.now ≡ drop count written.now }
{
    if count < written.len() {
        &written[count..]
    } else {
        &[]
    }
}

impl Filling {
    /// A table without entries, and a fault before the first of them.
    pub(crate) fn new(alloc: Global, fault: Option<ConfError>) -> Filling
        ensures { result ≡ spec.unfilled fault }
    {
        let mut found = Elements::new(alloc);
        found.fault = fault;
        Filling {
            table: AddressTable::new(alloc),
            found,
        }
    }

    /// Takes an entry as it is written.
    #[tactic(auto, unfolding(crate::specs::Tables::with_written))]
    fn add(
        &mut self,
        alloc: Global,
        scope: &Scope<'_>,
        entry: &TableEntry<'_>,
    ) -> Result<(), ConfError>
        requires { self.old.found.count ≤ 1048576 }
        ensures made { OnOk result (self.new ≡ spec.with_written scope.now self.old entry.now) }
        ensures refused { IfErr result (λ e. e.kind ≡ Memory) }
    {
        let before = self.found.items.len();
        add_element(alloc, scope, true, &mut self.found, entry)?;
        let fault = replace(&mut self.found.fault, None);
        let interfaces = scope.interfaces.as_slice();
        let written = behind(self.found.items.as_slice(), before);
        self.found.fault = put_all(&mut self.table, fault, entry.line, interfaces, written)?;
        let more = more_of(interfaces, written);
        self.found.count = self.found.count.saturating_add(more);
        Ok(())
    }

    /// The table, or the first fault of its entries.
    pub(crate) fn into_table(self) -> Result<AddressTable, ConfError>
        ensures { result ≡ spec.table_or_fault self }
    {
        let Filling { table, found } = self;
        let Elements { fault, .. } = found;
        match fault {
            Some(fault) => Err(fault),
            None => Ok(table),
        }
    }

    /// Takes entries as they are written. Those behind the one that is too many aren't looked at.
    fn add_all(
        &mut self,
        alloc: Global,
        scope: &Scope<'_>,
        entries: &[TableEntry<'_>],
    ) -> Result<(), ConfError>
        ensures made { OnOk result (self.new ≡ spec.filled scope.now self.old entries.now) }
        ensures refused { IfErr result (λ e. e.kind ≡ Memory) }
    {
        for entry in entries {
            if self.found.count > MOST_ELEMENTS {
                return Ok(());
            }
            self.add(alloc, scope, entry)?;
        }
        Ok(())
    }
}

/// Fills a table.
pub(crate) fn fill(
    alloc: Global,
    scope: &Scope<'_>,
    fault: Option<ConfError>,
    entries: &[TableEntry<'_>],
) -> Result<Filling, ConfError>
    ensures { Makes (spec.filled scope.now (spec.unfilled fault) entries.now) result }
{
    let mut filling = Filling::new(alloc, fault);
    filling.add_all(alloc, scope, entries).and(Ok(filling))
}
