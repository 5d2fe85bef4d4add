//! The criteria by which rules are compared with those behind them.
ghost use Rattle.std.specs.Prelude.{◌≡◌, ◌↔◌, true};
ghost use Rattle.pfr_ruleset.specs.Criteria as spec;

use crate::flat::{FlatRule, FlatTranslation, PacketMatch};
use crate::hosts::HostCriterion;
use crate::interface::InterfaceCriterion;
use pfr_net::{Direction, PortMatch, Protocol};

/// What a rule asks for at the criteria by which rules are compared.
#[derive(Clone, Copy)]
pub struct Asked {
    pub direction: Option<Direction>,
    pub packet: PacketMatch,
}

/// A criterion of a rule. A packet that fails a rule there also fails the next ones, as long as they write the same.
#[derive(Clone, Copy)]
pub enum Criterion {
    Interface,
    Direction,
    Protocol,
    Source,
    SourcePort,
    Destination,
    DestinationPort,
}

impl FlatRule {
    /// What it asks for.
    pub fn asked(&self) -> Asked
        ensures { result ≡ spec.asked_by self.now }
    {
        Asked {
            direction: self.direction,
            packet: self.packet,
        }
    }
}

impl<T> FlatTranslation<T> {
    /// What it asks for. A translation rule writes no direction.
    pub fn asked(&self) -> Asked
        ensures { result ≡ spec.asked_by_translation self.now }
    {
        Asked {
            direction: None,
            packet: self.packet,
        }
    }
}

fn is_same_interface(a: &Option<InterfaceCriterion>, b: &Option<InterfaceCriterion>) -> bool
    ensures { result ≡ true ↔ a.now ≡ b.now }
{
    a == b
}

fn is_same_direction(a: Option<Direction>, b: Option<Direction>) -> bool
    ensures { result ≡ true ↔ a ≡ b }
{
    match (a, b) {
        (None, None) => true,
        (Some(Direction::In), Some(Direction::In)) => true,
        (Some(Direction::Out), Some(Direction::Out)) => true,
        _ => false,
    }
}

fn is_same_protocol(a: Option<Protocol>, b: Option<Protocol>) -> bool
    ensures { result ≡ true ↔ a ≡ b }
{
    a == b
}

fn are_same_hosts(a: &HostCriterion, b: &HostCriterion) -> bool
    ensures { result ≡ true ↔ a.now ≡ b.now }
{
    a == b
}

fn are_same_ports(a: &Option<PortMatch>, b: &Option<PortMatch>) -> bool
    ensures { result ≡ true ↔ a.now ≡ b.now }
{
    a == b
}

/// Whether two rules write the same at a criterion.
pub(crate) fn writes_same(criterion: Criterion, a: &Asked, b: &Asked) -> bool
    ensures { result ≡ true ↔ spec.SameAt criterion a.now b.now }
{
    match criterion {
        Criterion::Interface => is_same_interface(&a.packet.interface, &b.packet.interface),
        Criterion::Direction => is_same_direction(a.direction, b.direction),
        Criterion::Protocol => is_same_protocol(a.packet.protocol, b.packet.protocol),
        Criterion::Source => are_same_hosts(&a.packet.source, &b.packet.source),
        Criterion::SourcePort => are_same_ports(&a.packet.source_port, &b.packet.source_port),
        Criterion::Destination => are_same_hosts(&a.packet.destination, &b.packet.destination),
        Criterion::DestinationPort => {
            are_same_ports(&a.packet.destination_port, &b.packet.destination_port)
        }
    }
}
