//! What flags give for the words of a ruleset.
ghost use Rattle.std.specs.Prelude.{◌≡◌, ◌++◌, OnOk, IfOk};
ghost use Rattle.pfr_prepare.specs.Sources as spec;

use crate::flag::Flag;
use crate::source::Source;
use pfr_given::Given;
use pfr_items::Items;
use pfr_net::interface::LONGEST_NAME;
use pfr_net::{IfName, Net};
use pfr_rewrite::Surroundings;
use pfr_ruleset::Interface;
use std::alloc::{AllocError, Global};

/// The address of an interface, and the bits of its network.
fn network_of(interface: &Interface) -> Net
    ensures { result ≡ spec.network_of interface.now }
{
    Net {
        address: interface.address,
        bits: interface.bits,
    }
}

/// Whether an interface has this name.
fn has_name(interface: &Interface, name: &[u8]) -> bool
    ensures { result ≡ spec.has_name interface.now name.now }
{
    name.len() <= LONGEST_NAME && IfName::new(name) == interface.name
}

/// The first of these interfaces that has this name.
fn named(interfaces: &[Interface], name: &[u8]) -> Option<Interface>
    ensures { result ≡ spec.named interfaces.now name.now }
{
    for interface in interfaces {
        if has_name(interface, name) {
            return Some(*interface);
        }
    }
    None
}

/// Adds the forms of an interface for the group of which it is a member, if a flag says its address.
fn add_forms_in(
    given: &mut Given,
    alloc: Global,
    group: &[u8],
    member: &[u8],
    flag: &Flag<'_>,
) -> Result<(), AllocError>
    ensures { OnOk result (given.new.entries ≡ given.old.entries ++ spec.forms_in group.now member.now flag.now) }
{
    match flag {
        Flag::InterfaceAddress { name, network } => {
            if name.as_bytes() == member {
                return given.add_forms(alloc, group, network);
            }
            Ok(())
        }
        _ => Ok(()),
    }
}

/// Adds the forms of an interface for the group of which it is a member, as flags say its address.
fn add_all_forms(
    given: &mut Given,
    alloc: Global,
    group: &[u8],
    member: &[u8],
    sources: &[Source<'_>],
) -> Result<(), AllocError>
    ensures { OnOk result (given.new.entries ≡ given.old.entries ++ spec.all_forms group.now member.now sources.now) }
{
    for source in sources {
        add_forms_in(given, alloc, group, member, &source.flag)?;
    }
    Ok(())
}

/// Adds the forms of an interface for the group of which it is a member. They are the forms of the run's interface of
/// that name, or if there is none, those of the addresses that flags say.
fn add_group_forms(
    given: &mut Given,
    alloc: Global,
    interfaces: &[Interface],
    sources: &[Source<'_>],
    group: &[u8],
    member: &[u8],
) -> Result<(), AllocError>
    ensures { OnOk result (given.new.entries ≡ given.old.entries ++ spec.group_forms interfaces.now sources.now group.now member.now) }
{
    match named(interfaces, member) {
        Some(interface) => given.add_forms(alloc, group, &network_of(&interface)),
        None => add_all_forms(given, alloc, group, member, sources),
    }
}

/// Adds an interface to a group, and its forms for the group.
fn add_group(
    given: &mut Given,
    alloc: Global,
    interfaces: &[Interface],
    sources: &[Source<'_>],
    group: &[u8],
    member: &[u8],
) -> Result<(), AllocError>
    ensures { OnOk result (given.new.entries ≡ given.old.entries ++ spec.group_entries interfaces.now sources.now group.now member.now) }
{
    given.add_member(alloc, group, member)?;
    add_group_forms(given, alloc, interfaces, sources, group, member)
}

/// Adds what one of the flags gives.
fn add(
    given: &mut Given,
    alloc: Global,
    interfaces: &[Interface],
    sources: &[Source<'_>],
    source: &Source<'_>,
) -> Result<(), AllocError>
    ensures { OnOk result (given.new.entries ≡ given.old.entries ++ spec.entries_of interfaces.now sources.now source.now) }
{
    let text = source.text.as_slice();
    match &source.flag {
        Flag::InterfaceAddress { name, network } => {
            given.add_forms(alloc, name.as_bytes(), network)
        }
        Flag::Group { group, member } => {
            let (group, member) = (group.as_bytes(), member.as_bytes());
            add_group(given, alloc, interfaces, sources, group, member)
        }
        Flag::Hosts(_) => given.add_hosts(alloc, text),
        Flag::Services(_) => given.add_services(alloc, text),
        Flag::Table { name, .. } => given.add_table(alloc, name.as_bytes(), text),
        Flag::Include { .. } => Ok(()),
    }
}

/// Adds what flags give.
fn add_all(
    given: &mut Given,
    alloc: Global,
    interfaces: &[Interface],
    sources: &[Source<'_>],
) -> Result<(), AllocError>
    ensures { OnOk result (given.new.entries ≡ given.old.entries ++ spec.all_entries interfaces.now sources.now sources.now) }
{
    for source in sources {
        add(given, alloc, interfaces, sources, source)?;
    }
    Ok(())
}

/// What a ruleset can't say of interfaces and of other words: what flags give for them.
#[tactic(auto, unfolding(crate::specs::Sources::around_of))]
pub(crate) fn around_of(
    alloc: Global,
    interfaces: &[Interface],
    sources: &[Source<'_>],
) -> Result<Surroundings, AllocError>
    ensures { IfOk result (λ around. around ≡ spec.around_of interfaces.now sources.now) }
{
    let mut given = Given::new(alloc);
    add_all(&mut given, alloc, interfaces, sources)?;
    Ok(Surroundings {
        interfaces: Items::copied(alloc, interfaces)?,
        given,
    })
}
