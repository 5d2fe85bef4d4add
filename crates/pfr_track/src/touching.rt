//! Packets of a connection that has a state.
ghost use Rattle.std.specs.Prelude.{◌≡◌};
ghost use Rattle.pfr_track.specs.Tcp as tcp;
ghost use Rattle.pfr_track.specs.Tracking as spec;

use crate::datagram::{DatagramPeer, timeout_by as datagram_timeout};
use crate::outcome::{Advance, Followed, Touch, Track};
use crate::peers::Peers;
use crate::segment::{Exchange, is_ack, is_syn};
use crate::state::State;
use crate::tcp::{TcpPeer, TcpPeerState, timeout_by};
use crate::time::{Clock, Deadline};
use pfr_headers::{IcmpMessage, Packet, TcpHeader, Transport};
use pfr_net::{Direction, Timeout, Timeouts};

fn begins_anew(sender: &TcpPeer, receiver: &TcpPeer, header: &TcpHeader) -> bool
    ensures { result ≡ tcp.begins_anew sender.now receiver.now header.now }
{
    is_syn(header)
        && !is_ack(header)
        && sender.state.is_at_least(TcpPeerState::FinWait2)
        && receiver.state.is_at_least(TcpPeerState::FinWait2)
}

/// Follows a segment between its sender and the other end.
#[tactic(auto, unfolding(crate::specs::Tracking::followed))]
fn follow(sender: TcpPeer, receiver: TcpPeer, header: &TcpHeader) -> Followed
    ensures { result ≡ spec.followed sender receiver header.now }
{
    if begins_anew(&sender, &receiver, header) {
        return Followed::Removed;
    }
    let mut exchange = Exchange::of(sender, receiver, header);
    if !exchange.fits() {
        return Followed::Refused;
    }
    exchange.advance();
    exchange.raise(header);
    Followed::Accepted(exchange.sender, exchange.receiver)
}

/// Follows a segment between the maker of the state and the other end. If `is_forth`, the maker sent it.
#[tactic(auto, unfolding(crate::specs::Tracking::tcp_track))]
fn tcp_track(maker: TcpPeer, other: TcpPeer, header: &TcpHeader, is_forth: bool) -> Track
    ensures { result ≡ spec.tcp_track maker other header.now is_forth }
{
    let followed = if is_forth {
        follow(maker, other, header)
    } else {
        follow(other, maker, header)
    };
    match followed {
        Followed::Removed => Track::Removed,
        Followed::Refused => Track::Refused,
        Followed::Accepted(sender, receiver) => {
            let peers = if is_forth {
                Peers::Tcp(sender, receiver)
            } else {
                Peers::Tcp(receiver, sender)
            };
            Track::Accepted(peers, timeout_by(sender.state, receiver.state))
        }
    }
}

/// Both ends of a connection of datagrams behind a packet, the maker's first. If `is_forth`, the maker sent it.
fn exchanged(
    maker: DatagramPeer,
    other: DatagramPeer,
    is_forth: bool,
) -> (DatagramPeer, DatagramPeer)
    ensures { result ≡ spec.exchanged maker other is_forth }
{
    if is_forth {
        (maker.spoken(), other.answered())
    } else {
        (maker.answered(), other.spoken())
    }
}

/// What a packet does to both ends of a connection.
#[tactic(auto, unfolding(crate::specs::Tracking::track))]
fn track(peers: &Peers, transport: &Transport, is_forth: bool) -> Track
    ensures { result ≡ spec.track peers.now transport.now is_forth }
{
    match (*peers, *transport) {
        (Peers::Tcp(maker, other), Transport::Tcp(header)) => {
            tcp_track(maker, other, &header, is_forth)
        }
        (Peers::Udp(maker, other), Transport::Udp(_)) => {
            let (maker, other) = exchanged(maker, other, is_forth);
            let timeout = datagram_timeout(maker, other, Timeout::UdpSingle, Timeout::UdpMultiple);
            Track::Accepted(Peers::Udp(maker, other), timeout)
        }
        (Peers::Icmp, Transport::Icmp(header)) => match header.message {
            IcmpMessage::Echo(_) => Track::Accepted(Peers::Icmp, Timeout::IcmpError),
            _ => Track::Refused,
        },
        (Peers::Other(maker, other), Transport::Other) => {
            let (maker, other) = exchanged(maker, other, is_forth);
            let timeout = datagram_timeout(
                maker,
                other,
                Timeout::OtherSingle,
                Timeout::OtherMultiple,
            );
            Track::Accepted(Peers::Other(maker, other), timeout)
        }
        _ => Track::Refused,
    }
}

/// Whether two directions are the same.
fn is_same_way(first: Direction, second: Direction) -> bool
    ensures { result ≡ spec.is_same_way first second }
{
    match (first, second) {
        (Direction::In, Direction::In) | (Direction::Out, Direction::Out) => true,
        _ => false,
    }
}

/// What a packet of its connection does to a state. An accepted packet is counted, and the state's deadline is set
/// again.
pub fn touch(
    state: &State,
    packet: &Packet,
    direction: Direction,
    clock: Clock,
    timeouts: &Timeouts,
) -> Touch
    ensures { result ≡ spec.touched state.now packet.now direction clock timeouts.now }
{
    let mut touched = *state;
    match advance(&mut touched, packet, direction, clock, timeouts) {
        Advance::Accepted => Touch::Touched(touched),
        Advance::Removed => Touch::Removed,
        Advance::Mismatch => Touch::Mismatch,
    }
}

/// Does what [`touch`] says to a state in its place, as a state is large. If the packet isn't accepted, the state stays
/// as it was.
#[tactic(auto, unfolding(crate::specs::Tracking::touched))]
#[inline(never)]
pub fn advance(
    state: &mut State,
    packet: &Packet,
    direction: Direction,
    clock: Clock,
    timeouts: &Timeouts,
) -> Advance
    ensures touch { spec.as_touch result state.new ≡ spec.touched state.old packet.now direction clock timeouts.now }
    ensures same_rules { (state.new.number ≡ state.old.number) × (state.new.rules ≡ state.old.rules) }
    ensures same_interface { state.new.interface ≡ state.old.interface }
    ensures same_keys { (state.new.wire ≡ state.old.wire) × (state.new.stack ≡ state.old.stack) }
{
    let is_forth = is_same_way(direction, state.direction);
    let (peers, timeout) = match track(&state.peers, &packet.transport, is_forth) {
        Track::Accepted(peers, timeout) => (peers, timeout),
        Track::Removed => return Advance::Removed,
        Track::Refused => return Advance::Mismatch,
    };
    state.peers = peers;
    state.deadline = Deadline::after(clock, timeouts.of(timeout));
    state.timeout = timeout;
    if is_forth {
        state.forth = state.forth.with(packet);
    } else {
        state.back = state.back.with(packet);
    }
    Advance::Accepted
}
