//! How a packet that begins a connection gets through the firewall.
ghost use Rattle.std.specs.Prelude.{◌≡◌};
ghost use Rattle.pfr_packet.specs.Passages as spec;

use crate::keys::{end_of, endpoint, translated_end};
use pfr_headers::{Packet, Transport};
use pfr_net::{Binding, Direction, Endpoint, InterfacePlace, Ipv4Address, RuleNumber, StatePolicy};
use pfr_rules::{Hit, PortMapping};
use pfr_ruleset::StateRule;
use pfr_track::{Key, StateRules};

/// Both keys of a packet that begins a connection, and the translation rule that makes one of the other.
#[derive(Clone, Copy)]
pub struct Passage {
    pub wire: Key,
    pub stack: Key,
    /// None if nothing is translated.
    pub translation: Option<RuleNumber>,
    /// Whether that rule says `pass`, so that the packet isn't filtered.
    pub passes: bool,
}

fn has_ports(transport: &Transport) -> bool
    ensures { result ≡ spec.has_ports transport.now }
{
    match transport {
        Transport::Tcp(_) => true,
        Transport::Udp(_) => true,
        _ => false,
    }
}

/// An end with another address, and the port that the mapping gives for its own. An identifier stays.
pub(crate) fn mapped_end(
    transport: &Transport,
    own: Endpoint,
    address: Ipv4Address,
    mapping: PortMapping,
) -> Endpoint
    ensures { result ≡ spec.mapped_end transport.now own address mapping }
{
    if has_ports(transport) {
        endpoint(address, mapping.mapped(own.port))
    } else {
        endpoint(address, own.port)
    }
}

#[inline]
fn with_inside(key: &Key, inside: Endpoint) -> Key
    ensures { result ≡ spec.with_inside key.now inside }
{
    Key {
        protocol: key.protocol,
        outside: key.outside,
        inside,
    }
}

impl Passage {
    /// A passage without translation.
    pub(crate) fn untranslated(key: &Key) -> Passage
        ensures { result ≡ spec.untranslated key.now }
    {
        Passage {
            wire: *key,
            stack: *key,
            translation: None,
            passes: false,
        }
    }

    /// The passage of a packet whose end inside is translated: behind the firewall for a packet that comes in, on the
    /// wire for one that goes out.
    pub(crate) fn mapped(direction: Direction, key: &Key, hit: &Hit, inside: Endpoint) -> Passage
        ensures { result ≡ spec.mapped_passage direction key.now hit.now inside }
    {
        let other = with_inside(key, inside);
        let (wire, stack) = match direction {
            Direction::In => (*key, other),
            Direction::Out => (other, *key),
        };
        Passage {
            wire,
            stack,
            translation: Some(hit.number),
            passes: hit.passes,
        }
    }

    /// The passage of a packet that goes out with a picked key on the wire.
    pub(crate) fn picked(key: &Key, hit: &Hit, wire: Key) -> Passage
        ensures { result ≡ spec.picked_passage key.now hit.now wire }
    {
        Passage {
            wire,
            stack: *key,
            translation: Some(hit.number),
            passes: hit.passes,
        }
    }

    /// The packet behind its translation, if it has one.
    pub(crate) fn translated(&self, direction: Direction, packet: &Packet) -> Option<Packet>
        ensures { result ≡ spec.translated_by direction self.now packet.now self.now.translation }
    {
        self.translation?;
        let to = translated_end(direction, &self.wire, &self.stack);
        Some(packet.translated(end_of(direction), to))
    }

    /// What the state that a packet makes says of its rules, by the state that the deciding rule keeps. If that rule
    /// keeps none, a translated packet makes a state all the same, bound by the ruleset's policy.
    pub(crate) fn kept(
        &self,
        place: InterfacePlace,
        policy: StatePolicy,
        rule: Option<RuleNumber>,
        allows_options: bool,
        state: Option<StateRule>,
    ) -> Option<StateRules>
        ensures { result ≡ spec.kept_by_way place policy self.now.translation rule allows_options state }
    {
        let (policy, no_sync) = match (state, self.translation) {
            (Some(state), _) => (state.policy, state.no_sync),
            (None, Some(_)) => (policy, false),
            (None, None) => return None,
        };
        Some(StateRules {
            filter: rule,
            translation: self.translation,
            is_synchronised: !no_sync,
            allows_options,
            binding: binding_by(policy, place),
        })
    }
}

/// The interfaces to which a state made on an interface is bound.
fn binding_by(policy: StatePolicy, place: InterfacePlace) -> Binding
    ensures { result ≡ spec.binding_by policy place }
{
    match policy {
        StatePolicy::IfBound => Binding::To(place),
        StatePolicy::Floating => Binding::All,
    }
}
