//! Who watches the turns of packets, and what packets come to.
use pfr_capture::Record;
use pfr_headers::View;
use pfr_packet::Outcome;

/// Is told when a worker or the committer turns to a packet, and what the packet came to. The numbers are those of
/// packets, from 1. A call may wait: a worker goes on after it. A method that an implementation leaves out does
/// nothing.
pub trait Gate: Sync {
    /// A worker has drawn a packet, and evaluates it next. Nobody is told of a packet that is drawn and not evaluated.
    #[inline]
    fn starts(&self, _number: u64) {}

    /// A worker has evaluated a packet. It hands the result on together with those of its next packets, or once it has
    /// drawn its last packet.
    #[inline]
    fn answered(&self, _number: u64) {}

    /// The committer evaluates a packet itself next, as no result of it holds.
    #[inline]
    fn ran_again(&self, _number: u64) {}

    /// The committer has taken a packet with this view and this outcome. It takes packets one by one, in their order.
    #[inline]
    fn taken(&self, _packet: &Record, _view: &View, _outcome: &Outcome) {}
}

/// Tells a gate what packets come to, and nothing of their turns.
#[derive(Clone, Copy)]
pub(crate) struct OutcomesAlone<'a, G>(pub(crate) &'a G);

impl<G: Gate> Gate for OutcomesAlone<'_, G> {
    #[inline]
    fn taken(&self, packet: &Record, view: &View, outcome: &Outcome) {
        self.0.taken(packet, view, outcome);
    }
}

/// Nobody watches.
pub struct Unwatched;

impl Gate for Unwatched {}
