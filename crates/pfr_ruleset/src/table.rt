//! Tables of addresses.
ghost use Rattle.std.specs.Prelude.{◌≡◌, ◌↔◌, [], if◌then◌else◌, length, not, IsTrue, IfOk, OnErr};
ghost use Rattle.std.specs.Option.{option_copied};
ghost use Rattle.pfr_ruleset.specs.Keys as keys;
ghost use Rattle.pfr_ruleset.specs.Tables as spec;

use crate::network::key;
use pfr_items::Items;
use pfr_net::network::prefix;
use pfr_net::{Ipv4Address, Net};
use std::alloc::{AllocError, Global};
use std::collections::BTreeMap;
use std::marker::Model;

/// An entry of a table. With `!` the table doesn't hold its addresses, unless a longer entry does.
#[derive(Clone, Copy, PartialEq, Eq)]
pub struct Entry {
    pub network: Net,
    pub is_negated: bool,
}

/// A table of addresses: its entries, each once, those with fewer bits first, then those with lesser addresses.
/// None has more than 32 bits, or a bit below its prefix.
#[derive(Drop)]
pub struct AddressTable {
    /// Whether a network has a `!`, by its bits and its address.
    signs: BTreeMap<(u8, u32), bool>,
    /// For each number of bits whether a network has it.
    lengths: [bool; 33],
}

impl Model for AddressTable {
    ghost use Rattle.std.specs.Prelude.{List, map};
    ghost use Rattle.pfr_ruleset.specs.declared.table.Entry.{Entry};

    ghost Value = { List Entry };

    ghost use Rattle.pfr_ruleset.specs.Keys.{entry_at, AreInOrder, AreKnown};

    ghost view = { λ t. map entry_at t.signs.entries };

    ghost invariant = { λ t. AreInOrder t.signs.entries × AreKnown t.signs t.lengths };
}

/// The entry of a network by its bits and its address.
fn entry_of(network: &(u8, u32), is_negated: bool) -> Entry
    ensures { result ≡ keys.entry_at (network.now, is_negated) }
{
    Entry {
        network: Net {
            address: Ipv4Address(network.1),
            bits: network.0,
        },
        is_negated,
    }
}

/// Whether there is a sign, and it isn't this one.
fn is_other(sign: Option<&bool>, is_negated: bool) -> bool
    ensures { result ≡ keys.is_other (option_copied sign.entry) is_negated }
{
    match sign {
        Some(sign) => *sign != is_negated,
        None => false,
    }
}

impl AddressTable {
    /// A table with no entries.
    pub fn new(alloc: Global) -> AddressTable
        ensures { result ≡ [] }
    {
        AddressTable {
            signs: BTreeMap::new(alloc),
            lengths: [false; 33],
        }
    }

    /// Adds an entry, unless the table has its network with the other sign; answers whether it fits. If memory is
    /// refused, the table is as before.
    pub fn add(&mut self, entry: Entry) -> Result<bool, AllocError>
        ensures fits { IfOk result (λ fits. fits ≡ not (spec.clashes self.old entry)) }
        ensures added { IfOk result (λ fits. self.new ≡ (if fits then spec.with_entry self.old entry else self.old)) }
        ensures kept { OnErr result (self.new ≡ self.old) }
    {
        let network = key(entry.network);
        if is_other(self.signs.get(&network), entry.is_negated) {
            return Ok(false);
        }
        self.signs.insert(network, entry.is_negated)?;
        self.lengths[usize::from(network.0)] = true;
        Ok(true)
    }

    /// Whether the table holds the address. Takes no memory.
    pub fn has(&self, address: Ipv4Address) -> bool
        ensures { IsTrue result ↔ spec.IsMember self.now address.0 }
    {
        let mut bits: u8 = 33;
        while bits > 0 {
            bits -= 1;
            if !self.lengths[usize::from(bits)] {
                continue;
            }
            if let Some(is_negated) = self.signs.get(&(bits, prefix(bits, address.0))) {
                return !*is_negated;
            }
        }
        false
    }

    /// How many entries the table has.
    pub fn len(&self) -> usize
        ensures { result ≡ length self.now }
    {
        self.signs.len()
    }

    /// A copy of the entries, in their order.
    pub fn entries(&self, alloc: Global) -> Result<Items<Entry>, AllocError>
        ensures { IfOk result (λ entries. entries ≡ self.now) }
    {
        let mut entries = Items::new(alloc);
        for (network, is_negated) in &self.signs {
            entries.push(entry_of(network, *is_negated))?;
        }
        Ok(entries)
    }
}
