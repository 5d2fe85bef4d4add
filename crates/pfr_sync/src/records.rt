//! What records say of states.
ghost use Rattle.std.specs.Prelude.{◌≡◌, ◌≤◌, true};
ghost use Rattle.std.specs.List.{All};
ghost use Rattle.pfr_messages.specs.Fields.{name};
ghost use Rattle.pfr_messages.specs.Records as records;
ghost use Rattle.pfr_sync.specs.Events as spec;

use crate::origin::{MOST_INTERFACES, Origin};
use pfr_messages::{Deletion, Insertion, Parties, Peer, Update};
use pfr_net::{IfName, InterfacePlace};
use pfr_track::{Clock, Key, Peers, RuleNumber, Sequence, State, TcpPeer};

fn coded_peer(code: u8) -> Peer
    requires { code ≤ 10 }
    ensures peer { result ≡ spec.coded_peer code }
    ensures fits { records.peer.fits result ≡ true }
{
    Peer {
        low: Sequence(0),
        high: Sequence(0),
        greatest_window: 0,
        code,
        scale: None,
    }
}

fn shift_of(scale: Option<u8>) -> Option<u8>
    ensures shift { result ≡ spec.shift_of scale }
    ensures fits { records.is_shift result ≡ true }
{
    match scale {
        None => None,
        Some(shift) => Some(shift.min(14)),
    }
}

fn tcp_peer(end: TcpPeer) -> Peer
    ensures peer { result ≡ spec.tcp_peer end }
    ensures fits { records.peer.fits result ≡ true }
{
    Peer {
        low: end.low,
        high: end.high,
        greatest_window: end.greatest_window,
        code: end.state.code(),
        scale: shift_of(end.scale),
    }
}

fn maker_of(peers: Peers) -> Peer
    ensures peer { result ≡ spec.maker_of peers }
    ensures fits { records.peer.fits result ≡ true }
{
    match peers {
        Peers::Tcp(maker, _) => tcp_peer(maker),
        Peers::Udp(maker, _) => coded_peer(maker.code()),
        Peers::Icmp => coded_peer(0),
        Peers::Other(maker, _) => coded_peer(maker.code()),
    }
}

fn other_of(peers: Peers) -> Peer
    ensures peer { result ≡ spec.other_of peers }
    ensures fits { records.peer.fits result ≡ true }
{
    match peers {
        Peers::Tcp(_, other) => tcp_peer(other),
        Peers::Udp(_, other) => coded_peer(other.code()),
        Peers::Icmp => coded_peer(0),
        Peers::Other(_, other) => coded_peer(other.code()),
    }
}

fn parties_of(key: Key) -> Parties
    ensures parties { result ≡ spec.parties_of key }
    ensures fits { records.parties.fits result ≡ true }
{
    Parties {
        outside: key.outside,
        inside: key.inside,
    }
}

fn rule_of(rule: Option<RuleNumber>) -> Option<RuleNumber>
    ensures rule { result ≡ spec.rule_of rule }
    ensures fits { records.is_rule result ≡ true }
{
    match rule {
        Some(number) if number.0 < 0xffff_ffff => Some(number),
        _ => None,
    }
}

fn remaining(clock: Clock, state: State) -> u32
    ensures { result ≡ spec.remaining clock state }
{
    let seconds = state.deadline.0.saturating_sub(u64::from(clock.0));
    seconds.min(0xffff_ffff) as u32
}

/// The name of the interface at a place; behind the last place a name without letters.
fn name_at(names: &[IfName; MOST_INTERFACES], place: InterfacePlace) -> IfName
    requires { All (λ n. name.fits n ≡ true) names.now }
    ensures name { result ≡ spec.name_at names.now place }
    ensures fits { name.fits result ≡ true }
{
    match names.get(usize::from(place.0)) {
        Some(name) => *name,
        None => IfName::new(&[]),
    }
}

/// The firewall's number. What a call returns fits in 32 bits, which the prover doesn't know of a field behind a reference.
fn creator_of(origin: &Origin) -> u32
    ensures { result ≡ origin.now.creator }
{
    origin.creator
}

/// What an insertion says of a state at a clock.
pub fn insertion_of(origin: &Origin, clock: Clock, state: State) -> Insertion
    requires { All (λ n. name.fits n ≡ true) origin.now.interfaces }
    ensures record { result ≡ spec.insertion_of origin.now clock state }
    ensures fits { records.insertion.fits result ≡ true }
{
    Insertion {
        number: state.number,
        interface: name_at(&origin.interfaces, state.interface),
        wire: parties_of(state.wire),
        stack: parties_of(state.stack),
        maker: maker_of(state.peers),
        other: other_of(state.peers),
        rule: rule_of(state.rules.filter),
        translation: rule_of(state.rules.translation),
        age: clock.0.saturating_sub(state.made.0),
        remaining: remaining(clock, state),
        forth: state.forth,
        back: state.back,
        creator: creator_of(origin),
        protocol: state.wire.protocol,
        direction: state.direction,
        timeout: state.timeout,
    }
}

/// What an update says of a state at a clock.
pub fn update_of(origin: &Origin, clock: Clock, state: State) -> Update
    ensures record { result ≡ spec.update_of origin.now clock state }
    ensures fits { records.update.fits result ≡ true }
{
    Update {
        number: state.number,
        maker: maker_of(state.peers),
        other: other_of(state.peers),
        creator: creator_of(origin),
        remaining: remaining(clock, state),
        timeout: state.timeout,
    }
}

/// What a deletion says of a state.
pub fn deletion_of(origin: &Origin, state: State) -> Deletion
    ensures record { result ≡ spec.deletion_of origin.now state }
    ensures fits { records.deletion.fits result ≡ true }
{
    Deletion {
        number: state.number,
        creator: creator_of(origin),
    }
}
