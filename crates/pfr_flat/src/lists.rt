//! What the lists of a rule or an anchor come to.
ghost use Rattle.std.specs.Prelude.{◌≡◌, ◌≤◌, ◌*◌, ◌++◌, [], map, Some, IfOk, IfErr, OnOk, min};
ghost use Rattle.std.specs.Option.{option_map};
ghost use Rattle.pfr_terms.specs.declared.error.ConfErrorKind.TheVariants.{Memory};
ghost use Rattle.pfr_elements.specs.Elements.{elements_of};
ghost use Rattle.pfr_elements.specs.Values.{Makes};
ghost use Rattle.pfr_flat.specs.Lists as spec;

use crate::choices::Choices;
use crate::counts::MOST_RULES;
use pfr_conf::{AddressMatch, ConfError, Criteria, InterfaceMatch, Part, Written};
use pfr_elements::{Element, Elements, MOST_ELEMENTS, Scope, elements_of};
use pfr_items::Items;
use pfr_net::{IcmpMatch, PortMatch, Protocol};
use pfr_ruleset::{ANYONE, HostCriterion, InterfaceCriterion};
use std::alloc::{AllocError, Global};
use std::mem::{drop, swap};

/// The elements of the lists that are written, in the order of the text.
#[derive(Drop)]
pub struct Lists {
    pub interfaces: Option<Elements<InterfaceCriterion>>,
    pub protocols: Option<Elements<Protocol>>,
    pub sources: Option<Elements<HostCriterion>>,
    pub source_ports: Option<Elements<PortMatch>>,
    pub destinations: Option<Elements<HostCriterion>>,
    pub destination_ports: Option<Elements<PortMatch>>,
    pub icmp_types: Option<Elements<IcmpMatch>>,
}

/// Puts the elements of a list, if it is written.
fn put_list<T: Element>(
    alloc: Global,
    scope: &Scope<'_>,
    keeps: bool,
    list: Option<&[T]>,
    out: &mut Option<Elements<T::Flat>>,
) -> Result<(), ConfError>
    ensures made { OnOk result (out.new ≡ spec.if_written (elements_of T.kind scope.now keeps) (option_map (λ l. l.now) list.entry)) }
    ensures refused { IfErr result (λ e. e.kind ≡ Memory) }
{
    *out = match list {
        Some(list) => Some(elements_of(alloc, scope, keeps, list)?),
        None => None,
    };
    Ok(())
}

/// The items of a list, if it is written.
pub fn slice_of<T>(list: &Option<Items<T>>) -> Option<&[T]>
    ensures { option_map (λ l. l.now) result ≡ list.now }
{
    match list {
        Some(list) => Some(list.as_slice()),
        None => None,
    }
}

/// The addresses of a part, if they are written.
pub fn addresses_in<'p, 'a>(part: &'p Option<Part<'a>>) -> Option<&'p [AddressMatch<'a>]>
    ensures { option_map (λ l. l.now) result ≡ spec.addresses_in part.now }
{
    match part {
        Some(part) => slice_of(&part.addresses),
        None => None,
    }
}

fn ports_in<'p, 'a>(part: &'p Option<Part<'a>>) -> Option<&'p [Written<'a, PortMatch>]>
    ensures { option_map (λ l. l.now) result ≡ spec.ports_in part.now }
{
    match part {
        Some(part) => slice_of(&part.ports),
        None => None,
    }
}

/// Puts what the lists of criteria come to, and those of ICMP types, beside the addresses of the source.
#[tactic(auto, unfolding(crate::specs::Lists::lists_with))]
fn put_lists<'a>(
    alloc: Global,
    scope: &Scope<'_>,
    keeps: bool,
    criteria: &Criteria<'a>,
    types: Option<&[Written<'a, IcmpMatch>]>,
    out: &mut Lists,
) -> Result<(), ConfError>
    ensures made { OnOk result (out.new ≡ spec.lists_with scope.now keeps criteria.now (option_map (λ l. l.now) types.entry) out.old.sources) }
    ensures refused { IfErr result (λ e. e.kind ≡ Memory) }
{
    let interfaces = slice_of(&criteria.interfaces);
    put_list::<InterfaceMatch<'a>>(alloc, scope, keeps, interfaces, &mut out.interfaces)?;
    let protocols = slice_of(&criteria.protocols);
    put_list::<Written<'a, Protocol>>(alloc, scope, keeps, protocols, &mut out.protocols)?;
    let source_ports = ports_in(&criteria.hosts.source);
    put_list::<Written<'a, PortMatch>>(alloc, scope, keeps, source_ports, &mut out.source_ports)?;
    let destinations = addresses_in(&criteria.hosts.destination);
    put_list::<AddressMatch<'a>>(alloc, scope, keeps, destinations, &mut out.destinations)?;
    let ports = ports_in(&criteria.hosts.destination);
    put_list::<Written<'a, PortMatch>>(alloc, scope, keeps, ports, &mut out.destination_ports)?;
    put_list::<Written<'a, IcmpMatch>>(alloc, scope, keeps, types, &mut out.icmp_types)
}

/// What the lists of criteria and of ICMP types come to, given what the addresses of the source come to (`sources`). If
/// nothing is made of them (`keeps` is false), what macros stand for is only counted.
pub fn lists_with<'a>(
    alloc: Global,
    scope: &Scope<'_>,
    keeps: bool,
    criteria: &Criteria<'a>,
    types: Option<&[Written<'a, IcmpMatch>]>,
    sources: Option<Elements<HostCriterion>>,
) -> Result<Lists, ConfError>
    ensures { Makes (spec.lists_with scope.now keeps criteria.now (option_map (λ l. l.now) types.entry) sources) result }
{
    let mut lists = Lists {
        interfaces: None,
        protocols: None,
        sources,
        source_ports: None,
        destinations: None,
        destination_ports: None,
        icmp_types: None,
    };
    put_lists(alloc, scope, keeps, criteria, types, &mut lists).and(Ok(lists))
}

/// What the lists of criteria and of ICMP types come to. If nothing is made of them (`keeps` is false), what macros
/// stand for is only counted.
pub fn lists_of<'a>(
    alloc: Global,
    scope: &Scope<'_>,
    keeps: bool,
    criteria: &Criteria<'a>,
    types: Option<&[Written<'a, IcmpMatch>]>,
) -> Result<Lists, ConfError>
    ensures { Makes (spec.lists_of scope.now keeps criteria.now (option_map (λ l. l.now) types.entry)) result }
{
    let mut sources = None;
    let written = addresses_in(&criteria.hosts.source);
    put_list::<AddressMatch<'a>>(alloc, scope, keeps, written, &mut sources)?;
    lists_with(alloc, scope, keeps, criteria, types, sources)
}

fn count_of<T>(list: &Option<Elements<T>>) -> usize
    ensures { result ≡ spec.count_of list.now }
{
    match list {
        Some(list) => list.count,
        None => 1,
    }
}

fn is_long<T>(list: &Option<Elements<T>>) -> bool
    ensures { result ≡ spec.is_long list.now }
{
    count_of(list) > MOST_ELEMENTS
}

/// The product of two counts, or one more than a ruleset may have of rules if it is larger.
fn times(count: usize, other: usize) -> usize
    requires { count ≤ 65537 }
    ensures value { result ≡ min (count * other) 65537 }
    ensures within { result ≤ 65537 }
{
    count.saturating_mul(other).min(MOST_RULES + 1)
}

impl Lists {
    /// How many rules the lists make; one more than a ruleset may have stands for itself and all larger numbers.
    #[tactic(auto, unfolding(crate::specs::Lists::product), using(crate::proofs::Products::capped_product))]
    pub fn product(&self) -> usize
        ensures value { result ≡ min (spec.product self.now) 65537 }
        ensures within { result ≤ 65537 }
    {
        let mut count = count_of(&self.interfaces).min(MOST_RULES + 1);
        count = times(count, count_of(&self.protocols));
        count = times(count, count_of(&self.icmp_types));
        count = times(count, count_of(&self.sources));
        count = times(count, count_of(&self.source_ports));
        count = times(count, count_of(&self.destinations));
        times(count, count_of(&self.destination_ports))
    }

    /// Whether one of the lists has more elements than a list may have.
    #[tactic(auto, unfolding(crate::specs::Lists::has_long_list))]
    pub fn has_long_list(&self) -> bool
        ensures { result ≡ spec.has_long_list self.now }
    {
        is_long(&self.interfaces)
            || is_long(&self.protocols)
            || is_long(&self.icmp_types)
            || is_long(&self.sources)
            || is_long(&self.source_ports)
            || is_long(&self.destinations)
            || is_long(&self.destination_ports)
    }
}

/// The first fault so far, or else the fault of a list, which is taken out of it.
fn or_fault<T>(fault: Option<ConfError>, list: &mut Option<Elements<T>>) -> Option<ConfError>
    ensures fault { result ≡ spec.or_fault fault list.old }
    ensures items { spec.items_of list.new ≡ spec.items_of list.old }
{
    match list {
        None => fault,
        Some(list) => fault.or(list.fault.take()),
    }
}

/// The first fault of lists. The faults are taken out of them.
fn first_fault(lists: &mut Lists) -> Option<ConfError>
    ensures fault { result ≡ spec.fault_of lists.old }
    ensures items { spec.choices lists.new ≡ spec.choices lists.old }
{
    let fault = or_fault(None, &mut lists.interfaces);
    let fault = or_fault(fault, &mut lists.protocols);
    let fault = or_fault(fault, &mut lists.sources);
    let fault = or_fault(fault, &mut lists.source_ports);
    let fault = or_fault(fault, &mut lists.destinations);
    let fault = or_fault(fault, &mut lists.destination_ports);
    or_fault(fault, &mut lists.icmp_types)
}

fn put_items<T: Copy>(items: &[T], out: &mut Items<Option<T>>) -> Result<(), AllocError>
    ensures { OnOk result (out.new ≡ out.old ++ map Some items.now) }
{
    for item in items {
        out.push(Some(*item))?;
    }
    Ok(())
}

/// Puts what may be chosen of a list; if none is written, one thing, which asks for nothing.
fn put_choices<T: Copy>(
    list: &Option<Elements<T>>,
    out: &mut Items<Option<T>>,
) -> Result<(), AllocError>
    ensures { OnOk result (out.new ≡ out.old ++ spec.choices_of (spec.items_of list.now)) }
{
    match list {
        None => out.push(None),
        Some(list) => put_items(list.items.as_slice(), out),
    }
}

/// Puts which addresses may be chosen of a list, whose items are taken out of it.
fn put_hosts(
    list: &mut Option<Elements<HostCriterion>>,
    out: &mut Items<HostCriterion>,
) -> Result<(), AllocError>
    requires { out.old ≡ [] }
    ensures { OnOk result (out.new ≡ spec.hosts_of (spec.items_of list.old)) }
{
    match list {
        Some(list) => {
            swap(&mut list.items, out);
            Ok(())
        }
        None => out.push(ANYONE),
    }
}

/// Puts what may be chosen of lists.
fn put_all_choices(lists: &mut Lists, out: &mut Choices) -> Result<(), AllocError>
    requires { out.old ≡ spec.no_choices }
    ensures { OnOk result (out.new ≡ spec.choices lists.old) }
{
    put_choices(&lists.interfaces, &mut out.interfaces)?;
    put_choices(&lists.protocols, &mut out.protocols)?;
    put_choices(&lists.icmp_types, &mut out.icmp_types)?;
    put_hosts(&mut lists.sources, &mut out.sources)?;
    put_choices(&lists.source_ports, &mut out.source_ports)?;
    put_hosts(&mut lists.destinations, &mut out.destinations)?;
    put_choices(&lists.destination_ports, &mut out.destination_ports)
}

fn no_choices(alloc: Global) -> Choices
    ensures { result ≡ spec.no_choices }
{
    Choices {
        interfaces: Items::new(alloc),
        protocols: Items::new(alloc),
        icmp_types: Items::new(alloc),
        sources: Items::new(alloc),
        source_ports: Items::new(alloc),
        destinations: Items::new(alloc),
        destination_ports: Items::new(alloc),
    }
}

/// What may be chosen of lists, whose addresses are taken out of them.
fn choices(alloc: Global, lists: &mut Lists) -> Result<Choices, AllocError>
    ensures { IfOk result (λ made. made ≡ spec.choices lists.old) }
{
    let mut made = no_choices(alloc);
    put_all_choices(lists, &mut made).and(Ok(made))
}

/// What may be chosen of lists, or the first fault of theirs. Both are taken out of them.
#[tactic(auto, unfolding(crate::specs::Lists::choices_or_fault))]
fn taken_choices(alloc: Global, lists: &mut Lists) -> Result<Result<Choices, ConfError>, AllocError>
    ensures { IfOk result (λ made. made ≡ spec.choices_or_fault lists.old) }
{
    match first_fault(lists) {
        Some(fault) => Ok(Err(fault)),
        None => Ok(Ok(choices(alloc, lists)?)),
    }
}

/// What may be chosen of the lists, or the first fault of theirs.
pub fn choices_or_fault(
    alloc: Global,
    lists: Lists,
) -> Result<Result<Choices, ConfError>, AllocError>
    ensures { IfOk result (λ made. made ≡ spec.choices_or_fault lists) }
{
    let mut lists = lists;
    let made = taken_choices(alloc, &mut lists);
    drop(lists);
    made
}
