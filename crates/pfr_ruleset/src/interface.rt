//! Interfaces.
ghost use Rattle.std.specs.Prelude.{◌≡◌, IfOk, OnOk};
ghost use Rattle.pfr_ruleset.specs.Interfaces as spec;

use crate::hosts::HostSet;
use crate::table::{AddressTable, Entry};
use pfr_net::{IfName, Ipv4Address, Net};
use std::alloc::{AllocError, Global};

/// An interface of a run: its name, its address and the length of its network's prefix.
#[derive(Clone, Copy, PartialEq, Eq)]
pub struct Interface {
    pub name: IfName,
    pub address: Ipv4Address,
    pub bits: u8,
}

/// An interface that a packet has to be on, or with `!` must not be on.
#[derive(Clone, Copy, PartialEq, Eq)]
pub struct InterfaceCriterion {
    pub is_negated: bool,
    pub name: IfName,
}

/// The addresses of the run's interfaces, each alone: those of the first table of a ruleset (pf.conf(5), "self").
pub const OWN_ADDRESSES: HostSet = HostSet::Table(0);

impl Interface {
    /// The interface's address alone as an entry of a table.
    pub fn own_entry(&self, is_negated: bool) -> Entry
        ensures { result ≡ spec.own_entry is_negated self.now }
    {
        Entry {
            network: Net {
                address: self.address,
                bits: 32,
            },
            is_negated,
        }
    }
}

/// Puts an interface's address into a table of such addresses.
fn add_own(table: &mut AddressTable, interface: &Interface) -> Result<(), AllocError>
    ensures { OnOk result (table.new ≡ spec.with_own table.old interface.now) }
{
    table.add(interface.own_entry(false))?;
    Ok(())
}

/// The table of the addresses of interfaces.
pub(crate) fn own_table(alloc: Global, interfaces: &[Interface]) -> Result<AddressTable, AllocError>
    ensures { IfOk result (λ table. table ≡ spec.own_table interfaces.now) }
{
    let mut table = AddressTable::new(alloc);
    for interface in interfaces {
        add_own(&mut table, interface)?;
    }
    Ok(table)
}
