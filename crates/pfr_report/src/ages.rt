//! States by their ages.
use crate::count::{Count, NONE};
use pfr_listing::Listed;
use pfr_track::{Clock, State};

/// The words for ages, each with the seconds at which it ends.
pub(crate) const AGES: [(&[u8], u32); 5] = [
    (b"under 1 minute", 60),
    (b"1 to 10 minutes", 600),
    (b"10 to 60 minutes", 3600),
    (b"1 to 24 hours", 86_400),
    (b"1 day and more", u32::MAX),
];

/// States of one age, and the packets of both ways.
#[derive(Clone, Copy)]
pub(crate) struct OfAge {
    pub(crate) states: u64,
    pub(crate) count: Count,
}

/// States by their ages.
#[derive(Clone, Copy)]
pub struct Ages {
    pub(crate) of_age: [OfAge; 5],
    /// All states.
    pub(crate) states: u64,
}

/// No states.
const NO_STATES: OfAge = OfAge {
    states: 0,
    count: NONE,
};

/// The place of an age.
fn place_of(age: u32) -> usize {
    for (place, (_, end)) in AGES.iter().enumerate() {
        if age < *end {
            return place;
        }
    }
    AGES.len() - 1
}

impl OfAge {
    /// Counts a state.
    fn add(&mut self, state: &State) {
        self.states = self.states.saturating_add(1);
        self.count.add_all(Count {
            packets: state.forth.packets,
            bytes: state.forth.bytes,
        });
        self.count.add_all(Count {
            packets: state.back.packets,
            bytes: state.back.bytes,
        });
    }
}

/// States by their ages at a clock.
pub fn ages_of(states: &[Listed<'_>], clock: Clock) -> Ages {
    let mut ages = Ages {
        of_age: [NO_STATES; 5],
        states: 0,
    };
    for listed in states {
        let age = clock.0.saturating_sub(listed.state.made.0);
        if let Some(of_age) = ages.of_age.get_mut(place_of(age)) {
            of_age.add(&listed.state);
        }
        ages.states = ages.states.saturating_add(1);
    }
    ages
}
