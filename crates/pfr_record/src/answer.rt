//! Answers of a table of states.
ghost use Rattle.std.specs.Prelude.{◌≡◌, ◌↔◌, IsTrue};
ghost use Rattle.std.specs.Option.{option_map};

use pfr_states::Found;
use pfr_track::{Binding, DatagramPeer, Key, Peers, State, StateRules, TcpPeer, Traffic};

/// What a table of states answered.
#[derive(Clone, Copy)]
pub enum Answer {
    /// The state with a key, if there is one.
    Found(Option<State>),
    /// Whether there was room for one more state.
    HasRoom(bool),
    /// Whether there was room for one more state of a filter rule.
    HasRuleRoom(bool),
}

pub(crate) fn is_same_key(first: &Key, second: &Key) -> bool
    ensures { IsTrue result ↔ (first.now ≡ second.now) }
{
    first == second
}

pub(crate) fn is_same_scope(first: Binding, second: Binding) -> bool
    ensures { IsTrue result ↔ (first ≡ second) }
{
    first == second
}

fn are_same_rules(first: &StateRules, second: &StateRules) -> bool
    ensures { IsTrue result ↔ (first.now ≡ second.now) }
{
    first.filter == second.filter
        && first.translation == second.translation
        && first.is_synchronised == second.is_synchronised
        && first.allows_options == second.allows_options
        && is_same_scope(first.binding, second.binding)
}

fn is_same_tcp_peer(first: &TcpPeer, second: &TcpPeer) -> bool
    ensures { IsTrue result ↔ (first.now ≡ second.now) }
{
    first == second
}

fn is_same_datagram_peer(first: &DatagramPeer, second: &DatagramPeer) -> bool
    ensures { IsTrue result ↔ (first.now ≡ second.now) }
{
    first == second
}

fn are_same_peers(first: &Peers, second: &Peers) -> bool
    ensures { IsTrue result ↔ (first.now ≡ second.now) }
{
    match (first, second) {
        (Peers::Tcp(maker, other), Peers::Tcp(maker_too, other_too)) => {
            is_same_tcp_peer(maker, maker_too) && is_same_tcp_peer(other, other_too)
        }
        (Peers::Udp(maker, other), Peers::Udp(maker_too, other_too)) => {
            is_same_datagram_peer(maker, maker_too) && is_same_datagram_peer(other, other_too)
        }
        (Peers::Icmp, Peers::Icmp) => true,
        (Peers::Other(maker, other), Peers::Other(maker_too, other_too)) => {
            is_same_datagram_peer(maker, maker_too) && is_same_datagram_peer(other, other_too)
        }
        _ => false,
    }
}

fn is_same_traffic(first: &Traffic, second: &Traffic) -> bool
    ensures { IsTrue result ↔ (first.now ≡ second.now) }
{
    first == second
}

/// Whether two states are the same in all fields.
fn is_same_state(first: &State, second: &State) -> bool
    ensures { IsTrue result ↔ (first.now ≡ second.now) }
{
    first.number == second.number
        && first.direction == second.direction
        && first.interface == second.interface
        && is_same_key(&first.wire, &second.wire)
        && is_same_key(&first.stack, &second.stack)
        && are_same_rules(&first.rules, &second.rules)
        && are_same_peers(&first.peers, &second.peers)
        && first.made == second.made
        && first.deadline == second.deadline
        && first.timeout == second.timeout
        && is_same_traffic(&first.forth, &second.forth)
        && is_same_traffic(&first.back, &second.back)
}

/// Whether a table found exactly what was recorded: no state, or a state that is the same in all fields.
pub(crate) fn is_same_find(found: &Option<Found<'_>>, recorded: &Option<State>) -> bool
    ensures { IsTrue result ↔ (option_map (λ found. found.state.now) found.now ≡ recorded.now) }
{
    match (found, recorded) {
        (Some(found), Some(state)) => is_same_state(found.state, state),
        (None, None) => true,
        _ => false,
    }
}
