//! Combinations of the elements of lists.
ghost use Rattle.std.specs.Prelude.{◌≡◌, ◌++◌, OnOk, IfOk};
ghost use Rattle.pfr_flat.specs.Choices as spec;

use pfr_items::Items;
use pfr_net::{IcmpMatch, PortMatch, Protocol};
use pfr_ruleset::{HostCriterion, InterfaceCriterion, NO_MATCH, PacketMatch};
use std::alloc::{AllocError, Global};

/// What may be chosen for each criterion of a rule, in the order in which it is written. If nothing is written, there
/// is one choice, which asks for nothing.
#[derive(Drop)]
pub struct Choices {
    pub interfaces: Items<Option<InterfaceCriterion>>,
    pub protocols: Items<Option<Protocol>>,
    pub icmp_types: Items<Option<IcmpMatch>>,
    pub sources: Items<HostCriterion>,
    pub source_ports: Items<Option<PortMatch>>,
    pub destinations: Items<HostCriterion>,
    pub destination_ports: Items<Option<PortMatch>>,
}

fn add_destination_ports(
    out: &mut Items<PacketMatch>,
    choices: &Choices,
    chosen: PacketMatch,
) -> Result<(), AllocError>
    ensures { OnOk result (out.new ≡ out.old ++ spec.by_destination_port choices.now chosen) }
{
    for port in choices.destination_ports.as_slice() {
        out.push(PacketMatch {
            destination_port: *port,
            ..chosen
        })?;
    }
    Ok(())
}

fn add_destinations(
    out: &mut Items<PacketMatch>,
    choices: &Choices,
    chosen: PacketMatch,
) -> Result<(), AllocError>
    ensures { OnOk result (out.new ≡ out.old ++ spec.by_destination choices.now chosen) }
{
    for destination in choices.destinations.as_slice() {
        add_destination_ports(
            out,
            choices,
            PacketMatch {
                destination: *destination,
                ..chosen
            },
        )?;
    }
    Ok(())
}

fn add_source_ports(
    out: &mut Items<PacketMatch>,
    choices: &Choices,
    chosen: PacketMatch,
) -> Result<(), AllocError>
    ensures { OnOk result (out.new ≡ out.old ++ spec.by_source_port choices.now chosen) }
{
    for port in choices.source_ports.as_slice() {
        add_destinations(
            out,
            choices,
            PacketMatch {
                source_port: *port,
                ..chosen
            },
        )?;
    }
    Ok(())
}

fn add_sources(
    out: &mut Items<PacketMatch>,
    choices: &Choices,
    chosen: PacketMatch,
) -> Result<(), AllocError>
    ensures { OnOk result (out.new ≡ out.old ++ spec.by_source choices.now chosen) }
{
    for source in choices.sources.as_slice() {
        add_source_ports(
            out,
            choices,
            PacketMatch {
                source: *source,
                ..chosen
            },
        )?;
    }
    Ok(())
}

fn add_icmp_types(
    out: &mut Items<PacketMatch>,
    choices: &Choices,
    chosen: PacketMatch,
) -> Result<(), AllocError>
    ensures { OnOk result (out.new ≡ out.old ++ spec.by_icmp choices.now chosen) }
{
    for icmp in choices.icmp_types.as_slice() {
        add_sources(
            out,
            choices,
            PacketMatch {
                icmp: *icmp,
                ..chosen
            },
        )?;
    }
    Ok(())
}

fn add_protocols(
    out: &mut Items<PacketMatch>,
    choices: &Choices,
    chosen: PacketMatch,
) -> Result<(), AllocError>
    ensures { OnOk result (out.new ≡ out.old ++ spec.by_protocol choices.now chosen) }
{
    for protocol in choices.protocols.as_slice() {
        add_icmp_types(
            out,
            choices,
            PacketMatch {
                protocol: *protocol,
                ..chosen
            },
        )?;
    }
    Ok(())
}

/// A match for each combination; the last list's choice changes first.
#[tactic(auto, unfolding(crate::specs::Choices::combinations))]
pub fn combinations(alloc: Global, choices: &Choices) -> Result<Items<PacketMatch>, AllocError>
    ensures { IfOk result (λ made. made ≡ spec.combinations choices.now) }
{
    let mut out = Items::new(alloc);
    for interface in choices.interfaces.as_slice() {
        add_protocols(
            &mut out,
            choices,
            PacketMatch {
                interface: *interface,
                ..NO_MATCH
            },
        )?;
    }
    Ok(out)
}
