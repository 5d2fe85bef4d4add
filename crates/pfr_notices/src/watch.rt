//! Who watches a run, and warns of what it has seen.
use crate::tally::{Hearer, Tally, Wanted};
use crate::warning::{Warning, warn};
use pfr_capture::Record;
use pfr_commit::Gate;
use pfr_headers::View;
use pfr_packet::Outcome;
use pfr_ruleset::Ruleset;
use std::alloc::{AllocError, Global};
use std::io::Write;

/// Watches the packets of a run, if warnings are wanted.
#[derive(Drop)]
pub struct Watch {
    tally: Option<Tally>,
    wanted: Wanted,
    /// Whether the run is told that its captures show the wire.
    shows_wire: bool,
}

/// Writes warnings, each in a line.
#[derive(Drop)]
struct Lines<'a, E> {
    err: &'a mut E,
}

impl<E: Write> Hearer for Lines<'_, E> {
    fn hear(&mut self, warning: &Warning<'_>) {
        warn(warning, self.err);
    }
}

impl Gate for Watch {
    fn taken(&self, packet: &Record, view: &View, outcome: &Outcome) {
        if let Some(tally) = &self.tally {
            tally.add(packet, view, outcome);
        }
    }
}

impl Watch {
    /// Watches a run through a ruleset, unless no warning is wanted. It may be that the run is told that its captures show
    /// the wire.
    pub fn new(
        alloc: Global,
        rules: &Ruleset,
        wanted: Wanted,
        shows_wire: bool,
    ) -> Result<Watch, AllocError> {
        let tally = match wanted {
            Wanted::Nothing => None,
            Wanted::Beside | Wanted::Everything => Some(Tally::new(alloc, rules)?),
        };
        Ok(Watch {
            tally,
            wanted,
            shows_wire,
        })
    }

    /// Tells what there is to warn of behind the last of `packets` packets.
    pub fn tell<H: Hearer>(&self, packets: u64, hearer: &mut H) {
        if let Some(tally) = &self.tally {
            tally.tell(packets, self.wanted, self.shows_wire, hearer);
        }
    }

    /// Writes what there is to warn of behind the last of `packets` packets, a line for each thing.
    pub fn warn<E: Write>(&self, packets: u64, err: &mut E) {
        self.tell(packets, &mut Lines { err });
    }
}
