//! Addresses.
ghost use Rattle.std.specs.Prelude.{◌≡◌};
ghost use Rattle.pfr_criteria.specs.Hosts as spec;

use pfr_net::Ipv4Address;
use pfr_ruleset::{AddressTable, HostCriterion, HostSet};

/// Whether a table holds an address.
fn has(table: &AddressTable, address: Ipv4Address) -> bool
    ensures { result ≡ spec.has table.now address.0 }
{
    table.has(address)
}

/// Whether an address is among these, by the tables of the ruleset. A place outside the tables holds none.
fn among(tables: &[AddressTable], hosts: HostSet, address: Ipv4Address) -> bool
    ensures { result ≡ spec.among tables.now hosts address.0 }
{
    match hosts {
        HostSet::Any => true,
        HostSet::Network(network) => network.holds(address),
        HostSet::Range(first, last) => first.0 <= address.0 && address.0 <= last.0,
        HostSet::Table(place) => match tables.get(place) {
            Some(table) => has(table, address),
            None => false,
        },
    }
}

/// Whether a criterion holds an address, by the tables of the ruleset.
#[inline]
#[tactic(auto, unfolding(crate::specs::Hosts::host_holds))]
pub fn host_holds(tables: &[AddressTable], criterion: HostCriterion, address: Ipv4Address) -> bool
    ensures { result ≡ spec.host_holds tables.now criterion address.0 }
{
    if criterion.is_negated {
        !among(tables, criterion.hosts, address)
    } else {
        among(tables, criterion.hosts, address)
    }
}
