//! What is seen of the packets of two runs, beyond whether they change.
use crate::unjudged::{Doubt, Unjudged};
use pfr_asked::{Targets, Traffic, is_translated, targets_of};
use pfr_capture::Record;
use pfr_headers::View;
use pfr_packet::Outcome;
use pfr_ruleset::Ruleset;
use std::alloc::{AllocError, Global};

/// What was seen of the packets of both runs.
#[derive(Drop)]
pub(crate) struct Witness {
    pub(crate) old: Traffic,
    pub(crate) new: Traffic,
    pub(crate) unjudged: Unjudged,
    targets: Targets,
    /// Whether the captures show packets that go out behind their translation.
    shows_wire: bool,
}

impl Witness {
    /// No packet was seen yet of runs with these rulesets.
    pub(crate) fn of(
        alloc: Global,
        old: &Ruleset,
        new: &Ruleset,
        shows_wire: bool,
    ) -> Result<Witness, AllocError> {
        Ok(Witness {
            old: Traffic::new(alloc, old)?,
            new: Traffic::new(alloc, new)?,
            unjudged: Unjudged::new(),
            targets: targets_of(alloc, old, new)?,
            shows_wire,
        })
    }

    /// Adds a packet by what it came to in both runs.
    pub(crate) fn add(&mut self, packet: &Record, view: &View, old: &Outcome, new: &Outcome) {
        let is_translated = is_translated(packet, view, &self.targets, self.shows_wire);
        self.old.add(packet, view, old, is_translated);
        self.new.add(packet, view, new, is_translated);
        self.unjudged
            .add(packet, view, Doubt::of(view, old), Doubt::of(view, new));
    }
}
