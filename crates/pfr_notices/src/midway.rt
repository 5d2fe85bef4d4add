//! Packets of connections that began before their capture.
ghost use Rattle.std.specs.Prelude.{◌≡◌};
ghost use Rattle.pfr_notices.specs.Midway as spec;

use pfr_headers::{Transport, View};
use pfr_packet::{Outcome, Reason};

/// The bits of the flags SYN and ACK in a TCP header.
const SYN: u8 = 2;

const ACK: u8 = 16;

/// Whether a packet is one of a TCP connection that began before it, and no state was met.
///
/// It counts if a rule blocks it or if it makes a state. One that a rule without state lets pass doesn't count.
#[tactic(auto, unfolding(crate::specs::Midway::is_midway))]
pub fn is_midway(view: &View, outcome: &Outcome) -> bool
    ensures { result ≡ spec.is_midway view.now outcome.now }
{
    match view {
        View::Ipv4(packet) => is_later(&packet.transport) && is_for_states(outcome),
        View::Skip | View::Short => false,
    }
}

/// Whether what a packet carries is a TCP segment that doesn't request a connection: without SYN, or with ACK beside it.
fn is_later(transport: &Transport) -> bool
    ensures { result ≡ spec.is_later transport.now }
{
    match transport {
        Transport::Tcp(header) => !header.flags.are(SYN, SYN | ACK),
        _ => false,
    }
}

/// Whether a packet requests a TCP connection: a segment with SYN and without ACK.
pub(crate) fn requests(view: &View) -> bool {
    match view {
        View::Ipv4(packet) => match &packet.transport {
            Transport::Tcp(header) => header.flags.are(SYN, SYN | ACK),
            _ => false,
        },
        View::Skip | View::Short => false,
    }
}

/// Whether a packet that met no state is blocked by a rule or makes a state.
fn is_for_states(outcome: &Outcome) -> bool
    ensures { result ≡ spec.is_for_states outcome.now }
{
    met_none(outcome.reason) && (!outcome.verdict.lets_pass() || outcome.state.is_some())
}

/// Whether a rule judged the packet, since no state was met.
fn met_none(reason: Reason) -> bool
    ensures { result ≡ spec.met_none reason }
{
    match reason {
        Reason::Rule | Reason::NatPass | Reason::StateInsert | Reason::StateLimit => true,
        _ => false,
    }
}
