//! Rules that say at which criterion they fail.
ghost use Rattle.std.specs.Prelude.{◌≡◌, ◌&&◌};
ghost use Rattle.pfr_net.specs.declared.direction.Direction.{Direction};
ghost use Rattle.pfr_ruleset.specs.Criteria.{asked_by, asked_by_translation};
ghost use Rattle.pfr_criteria.specs.Asking as spec;
ghost use Rattle.pfr_criteria.specs.Packets.{match_holds, rule_holds};
ghost use Rattle.pfr_criteria.specs.Translations.{translation_holds};
ghost use Rattle.pfr_criteria.specs.Transports.{flags_hold};

use crate::hosts::host_holds;
use crate::packets::{direction_holds, interface_holds, protocol_holds};
use crate::transports::{destination_port_holds, flags_hold, icmp_holds, source_port_holds};
use pfr_headers::Packet;
use pfr_net::{Direction, IfName};
use pfr_ruleset::{
    AddressTable, Criterion, FlagsCriterion, FlatRule, FlatTranslation, PacketMatch,
};

/// What a rule answers for a packet.
#[derive(Clone, Copy)]
pub enum Answer {
    Holds,
    /// It fails at its flags or its ICMP type, by which no rules are skipped.
    Fails,
    FailsAt(Criterion),
}

/// Whether a packet has the flags and meets all criteria of `asked`; if not, at which criterion it fails.
#[inline]
#[tactic(auto, unfolding(crate::specs::Packets::match_holds))]
fn ask_match(
    flags: FlagsCriterion,
    asked: &PacketMatch,
    name: &IfName,
    tables: &[AddressTable],
    packet: &Packet,
) -> Answer
    ensures holds { spec.holds_by result ≡ (flags_hold flags packet.now.transport && match_holds asked.now name.now tables.now packet.now) }
    ensures fails { spec.FailsEitherWay result asked.now name.now tables.now packet.now }
{
    if !protocol_holds(asked.protocol, packet.protocol.0) {
        return Answer::FailsAt(Criterion::Protocol);
    }
    if !interface_holds(&asked.interface, name) {
        return Answer::FailsAt(Criterion::Interface);
    }
    if !destination_port_holds(asked.destination_port, &packet.transport) {
        return Answer::FailsAt(Criterion::DestinationPort);
    }
    if !source_port_holds(asked.source_port, &packet.transport) {
        return Answer::FailsAt(Criterion::SourcePort);
    }
    if !flags_hold(flags, &packet.transport) || !icmp_holds(asked.icmp, &packet.transport) {
        return Answer::Fails;
    }
    if !host_holds(tables, asked.destination, packet.destination) {
        return Answer::FailsAt(Criterion::Destination);
    }
    if !host_holds(tables, asked.source, packet.source) {
        return Answer::FailsAt(Criterion::Source);
    }
    Answer::Holds
}

/// Whether a packet is all that a filter rule writes, and has its default flags; if not, at which criterion it fails.
#[inline]
#[tactic(auto, unfolding(crate::specs::Packets::rule_holds))]
pub fn ask_rule(
    rule: &FlatRule,
    name: &IfName,
    tables: &[AddressTable],
    packet: &Packet,
    direction: Direction,
) -> Answer
    ensures holds { spec.holds_by result ≡ rule_holds rule.now name.now tables.now packet.now direction }
    ensures fails { spec.FailsRightly result (asked_by rule.now) name.now tables.now packet.now direction }
{
    if !direction_holds(rule.direction, direction) {
        return Answer::FailsAt(Criterion::Direction);
    }
    ask_match(rule.flags, &rule.packet, name, tables, packet)
}

/// Whether a `nat` or `rdr` rule holds for a packet; if not, at which criterion it fails.
#[inline]
#[tactic(auto, unfolding(crate::specs::Transports::flags_hold))]
pub fn ask_translation<T>(
    rule: &FlatTranslation<T>,
    name: &IfName,
    tables: &[AddressTable],
    packet: &Packet,
) -> Answer
    ensures holds { spec.holds_by result ≡ translation_holds rule.now name.now tables.now packet.now }
    ensures fails { (direction : Direction) → spec.FailsRightly result (asked_by_translation rule.now) name.now tables.now packet.now direction }
{
    ask_match(FlagsCriterion::Any, &rule.packet, name, tables, packet)
}
