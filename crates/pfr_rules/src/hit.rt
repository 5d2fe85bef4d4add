//! What a translation rule that holds makes of a packet.
ghost use Rattle.std.specs.Prelude.{◌≡◌};
ghost use Rattle.pfr_rules.specs.Translating as spec;

use pfr_net::{Ipv4Address, Port, PortMatch, RuleNumber};
use pfr_ruleset::{NatAddress, PortChange};

/// The port behind a translation, by the port before it.
#[derive(Clone, Copy)]
pub enum PortMapping {
    Kept,
    To(Port),
    /// The first port becomes the second one, and every other port is moved by the same distance.
    Shifted(Port, Port),
}

/// What stands at the translated end of a packet.
#[derive(Clone, Copy)]
pub enum NewEnd {
    /// This address, and a port by the port of the packet.
    Mapped(Ipv4Address, PortMapping),
    /// An address, and a port that is picked.
    Picked(NatAddress),
}

/// A translation rule that translates a packet: its number, and what it says.
#[derive(Clone, Copy)]
pub struct Hit {
    pub number: RuleNumber,
    /// The packet isn't filtered.
    pub passes: bool,
    /// The source of a packet that goes out, the destination of one that comes in.
    pub new_end: NewEnd,
}

/// The first of the ports that a rule asks for.
#[inline]
fn first_port(ports: Option<PortMatch>) -> Port
    ensures { result ≡ spec.first_port ports }
{
    match ports {
        None => Port(0),
        Some(PortMatch::Compare(_, port)) => Port(port),
        Some(PortMatch::Range(_, low, _)) => Port(low),
    }
}

/// The mapping of ports by a rule that asks for these destination ports.
#[inline]
pub(crate) fn mapping(ports: Option<PortMatch>, change: PortChange) -> PortMapping
    ensures { result ≡ spec.mapping ports change }
{
    match change {
        PortChange::Kept => PortMapping::Kept,
        PortChange::To(port) => PortMapping::To(Port(port)),
        PortChange::From(port) => PortMapping::Shifted(first_port(ports), Port(port)),
    }
}

impl PortMapping {
    /// The port behind the translation, at most 65535.
    #[inline]
    pub fn mapped(self, port: Port) -> Port
        ensures { result ≡ spec.mapped self port }
    {
        match self {
            PortMapping::Kept => port,
            PortMapping::To(to) => to,
            PortMapping::Shifted(first, to) => {
                Port(to.0.saturating_add(port.0.saturating_sub(first.0)))
            }
        }
    }
}
