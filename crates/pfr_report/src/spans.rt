//! Verdicts by spans of time.
use crate::count::ByVerdict;
use pfr_packet::Verdict;
use std::alloc::{AllocError, Global};

/// How many spans there are at most.
pub(crate) const MOST: u64 = 120;

/// How many times a span becomes longer at most: a day has twelve lengths before it, and 16 doublings pass 32 bits of seconds.
const LENGTHENINGS: usize = 40;

/// The next greater length of a span, in seconds. It is a multiple of `length`.
fn longer(length: u64) -> u64 {
    match length {
        1 => 5,
        5 => 10,
        10 => 30,
        30 => 60,
        60 => 300,
        300 => 600,
        600 => 1800,
        1800 => 3600,
        3600 => 7200,
        7200 => 21_600,
        21_600 => 43_200,
        43_200 => 86_400,
        other => other.saturating_mul(2),
    }
}

/// Verdicts of packets by spans of their clock, each as long as the others.
#[derive(Drop)]
pub(crate) struct Spans {
    /// How many seconds a span has.
    pub(crate) length: u64,
    /// How many spans lie before the first one.
    pub(crate) first: u64,
    /// What counts in each, from the first to the last with a packet.
    pub(crate) verdicts: Vec<ByVerdict>,
}

impl Spans {
    /// No packets.
    pub(crate) fn new(alloc: Global) -> Spans {
        Spans {
            length: 1,
            first: 0,
            verdicts: Vec::new(alloc),
        }
    }

    /// The place of a span in the list. `span` counts the spans of this length since the beginning of 1970.
    fn place_of(&self, span: u64) -> u64 {
        span.saturating_sub(self.first)
    }

    /// Adds spans up to this place.
    fn reach(&mut self, place: usize) -> Result<(), AllocError> {
        if place >= self.verdicts.len() {
            self.verdicts
                .resize(place.saturating_add(1), ByVerdict::new())?;
        }
        Ok(())
    }

    /// Moves what counts at a place to a place at or before it.
    fn join(&mut self, from: usize, into: usize) {
        if from == into {
            return;
        }
        let Some(moved) = self.verdicts.get(from).copied() else {
            return;
        };
        if let Some(verdicts) = self.verdicts.get_mut(into) {
            verdicts.add_all(&moved);
        }
        if let Some(verdicts) = self.verdicts.get_mut(from) {
            *verdicts = ByVerdict::new();
        }
    }

    /// Makes spans longer.
    fn lengthen(&mut self) {
        let length = longer(self.length);
        let times = length / self.length.max(1);
        let first = self.first / times.max(1);
        let mut last = 0;
        for place in 0..self.verdicts.len() {
            let span = self.first.saturating_add(place as u64) / times.max(1);
            last = span.saturating_sub(first) as usize;
            self.join(place, last);
        }
        self.verdicts.truncate(last.saturating_add(1));
        self.length = length;
        self.first = first;
    }

    /// Makes spans longer until few enough of them reach to a clock, and answers the place of its span.
    fn fit(&mut self, clock: u64) -> u64 {
        for _ in 0..LENGTHENINGS {
            let place = self.place_of(clock / self.length.max(1));
            if place < MOST {
                return place;
            }
            self.lengthen();
        }
        0
    }

    /// Counts a packet at a clock, which isn't before that of the packet before it.
    pub(crate) fn add(
        &mut self,
        clock: u64,
        verdict: Verdict,
        bytes: u64,
    ) -> Result<(), AllocError> {
        if self.verdicts.is_empty() {
            self.first = clock / self.length.max(1);
        }
        let place = self.fit(clock) as usize;
        self.reach(place)?;
        if let Some(verdicts) = self.verdicts.get_mut(place) {
            verdicts.add(verdict, bytes);
        }
        Ok(())
    }

    /// The clock at which the span at a place begins.
    pub(crate) fn begin_of(&self, place: usize) -> u64 {
        self.first
            .saturating_add(place as u64)
            .saturating_mul(self.length)
    }
}
