//! Comparisons of views.
ghost use Rattle.std.specs.Prelude.{◌≡◌, ◌↔◌, IsTrue};

use pfr_headers::{EthernetAddress, Packet, Transport, View};

fn is_same_transport(first: &Transport, second: &Transport) -> bool
    ensures { IsTrue result ↔ (first.now ≡ second.now) }
{
    first == second
}

fn is_same_sender(first: Option<EthernetAddress>, second: Option<EthernetAddress>) -> bool
    ensures { IsTrue result ↔ (first ≡ second) }
{
    first == second
}

fn is_same_packet(first: &Packet, second: &Packet) -> bool
    ensures { IsTrue result ↔ (first.now ≡ second.now) }
{
    first.source.0 == second.source.0
        && first.destination.0 == second.destination.0
        && first.protocol.0 == second.protocol.0
        && first.header_length == second.header_length
        && first.total_length == second.total_length
        && is_same_sender(first.sender, second.sender)
        && is_same_transport(&first.transport, &second.transport)
}

pub(crate) fn is_same_view(first: &View, second: &View) -> bool
    ensures { IsTrue result ↔ (first.now ≡ second.now) }
{
    match (first, second) {
        (View::Ipv4(first), View::Ipv4(second)) => is_same_packet(first, second),
        (View::Skip, View::Skip) => true,
        (View::Short, View::Short) => true,
        _ => false,
    }
}
