//! Translation rules.
ghost use Rattle.std.specs.Prelude.{◌≡◌};
ghost use Rattle.pfr_criteria.specs.Packets as packets;
ghost use Rattle.pfr_criteria.specs.Translations as spec;

use crate::hosts::host_holds;
use crate::packets::{interface_holds, match_holds, protocol_holds};
use crate::transports::{destination_port_holds, icmp_holds, source_port_holds};
use pfr_headers::Packet;
use pfr_net::{Direction, IfName, Ipv4Address, Net};
use pfr_ruleset::{AddressTable, FlatTranslation, HostCriterion, HostSet, PacketMatch};

/// Whether a `nat` or `rdr` rule holds for a packet: whether it is all that the rule writes, behind `no` too.
pub fn translation_holds<T>(
    rule: &FlatTranslation<T>,
    name: &IfName,
    tables: &[AddressTable],
    packet: &Packet,
) -> bool
    ensures { result ≡ spec.translation_holds rule.now name.now tables.now packet.now }
{
    match_holds(&rule.packet, name, tables, packet)
}

/// Just one address.
#[inline]
fn single(address: Ipv4Address) -> HostCriterion
    ensures { result ≡ spec.single address }
{
    HostCriterion {
        is_negated: false,
        hosts: HostSet::Network(Net { address, bits: 32 }),
    }
}

/// Whether a packet that comes in meets all criteria of `asked` with the ends exchanged, and goes to `target`.
#[tactic(auto, unfolding(crate::specs::Packets::match_holds))]
fn turned_holds(
    target: Ipv4Address,
    asked: &PacketMatch,
    name: &IfName,
    tables: &[AddressTable],
    packet: &Packet,
) -> bool
    ensures { result ≡ packets.match_holds (spec.turned target asked.now) name.now tables.now packet.now }
{
    protocol_holds(asked.protocol, packet.protocol.0)
        && interface_holds(&asked.interface, name)
        && destination_port_holds(asked.source_port, &packet.transport)
        && source_port_holds(asked.destination_port, &packet.transport)
        && icmp_holds(asked.icmp, &packet.transport)
        && host_holds(tables, single(target), packet.destination)
        && host_holds(tables, asked.destination, packet.source)
}

/// Whether a `binat` rule holds for a packet of a direction. A packet that goes out is tested as it is, and so is every
/// packet by a `no` rule. A packet that comes in must go to the address that the rule translates to: its source is
/// tested by the rule's `to`, and its destination port by a port at the rule's `from`.
pub fn binat_holds(
    rule: &FlatTranslation<Ipv4Address>,
    name: &IfName,
    tables: &[AddressTable],
    packet: &Packet,
    direction: Direction,
) -> bool
    ensures { result ≡ spec.binat_holds rule.now name.now tables.now packet.now direction }
{
    match (direction, rule.target) {
        (Direction::In, Some(target)) => turned_holds(target, &rule.packet, name, tables, packet),
        (Direction::In, None) => match_holds(&rule.packet, name, tables, packet),
        (Direction::Out, _) => match_holds(&rule.packet, name, tables, packet),
    }
}
