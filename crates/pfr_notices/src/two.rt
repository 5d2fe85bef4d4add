//! Two gates that watch one run.
use pfr_capture::Record;
use pfr_commit::Gate;
use pfr_headers::View;
use pfr_packet::Outcome;

/// Tells two gates what packets come to, one after the other.
#[derive(Clone, Copy)]
pub struct Two<'a, F, S> {
    pub first: &'a F,
    pub second: &'a S,
}

impl<F: Gate, S: Gate> Gate for Two<'_, F, S> {
    fn taken(&self, packet: &Record, view: &View, outcome: &Outcome) {
        self.first.taken(packet, view, outcome);
        self.second.taken(packet, view, outcome);
    }
}
