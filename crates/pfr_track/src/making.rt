//! New states.
ghost use Rattle.std.specs.Prelude.{◌≡◌};
ghost use Rattle.pfr_track.specs.Tracking as spec;

use crate::datagram::DatagramPeer;
use crate::key::Key;
use crate::peers::Peers;
use crate::segment::{maker, unseen};
use crate::state::{State, StateNumber, StateRules, Traffic};
use crate::time::{Clock, Deadline};
use pfr_headers::{Packet, Transport};
use pfr_net::{Direction, InterfacePlace, Timeout, Timeouts};

/// What is known of both ends after the first packet of a connection, and its timeout.
fn first_peers(transport: &Transport) -> (Peers, Timeout)
    ensures { result ≡ spec.first_peers transport.now }
{
    match transport {
        Transport::Tcp(header) => (Peers::Tcp(maker(header), unseen()), Timeout::TcpFirst),
        Transport::Udp(_) => (
            Peers::Udp(DatagramPeer::Single, DatagramPeer::Silent),
            Timeout::UdpFirst,
        ),
        Transport::Icmp(_) => (Peers::Icmp, Timeout::IcmpFirst),
        Transport::Fragment | Transport::Other => (
            Peers::Other(DatagramPeer::Single, DatagramPeer::Silent),
            Timeout::OtherFirst,
        ),
    }
}

/// The state that a packet of the interface makes. Its number is `number`, its keys are `wire` and `stack`, and it
/// counts the packet.
pub fn make(
    number: StateNumber,
    packet: &Packet,
    direction: Direction,
    interface: InterfacePlace,
    wire: Key,
    stack: Key,
    rules: StateRules,
    clock: Clock,
    timeouts: &Timeouts,
) -> State
    ensures { result ≡ spec.made number packet.now direction interface wire stack rules clock timeouts.now }
{
    let (peers, timeout) = first_peers(&packet.transport);
    let nothing = Traffic {
        packets: 0,
        bytes: 0,
    };
    State {
        number,
        direction,
        interface,
        wire,
        stack,
        rules,
        peers,
        made: clock,
        deadline: Deadline::after(clock, timeouts.of(timeout)),
        timeout,
        forth: nothing.with(packet),
        back: nothing,
    }
}
