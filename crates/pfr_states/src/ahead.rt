//! The places of states that are looked up soon.
use crate::change::Side;
use crate::table::Table;
use pfr_places::Place;
use pfr_track::{Binding, Key};

/// How many keys [`Table::look_ahead`] looks up at once.
pub const AHEAD: usize = 32;

/// From this number of states on it pays to look ahead: fewer stay in a processor's caches.
const MANY: usize = 16_384;

/// A key, the side on which it is looked up, and the interfaces for which it is looked up.
pub type Lookup = (Side, Key, Binding);

impl Table {
    /// Whether it pays to look ahead: a small table stays in a processor's caches, where a lookup doesn't wait for
    /// memory.
    pub fn is_large(&self) -> bool {
        self.len() >= MANY
    }

    /// The place of the state that each of the first [`AHEAD`] lookups will find: a mere hint for [`Table::find_near`]
    /// and [`Table::take_over`]. All slots of the index are read before the first state is. So the processor waits for
    /// memory once for all lookups, and not once for each.
    pub fn look_ahead(&self, lookups: &[Option<Lookup>]) -> [Option<Place>; AHEAD] {
        let mut guesses = [None; AHEAD];
        for (guess, lookup) in guesses.iter_mut().zip(lookups) {
            if let Some((side, key, _)) = lookup {
                *guess = self.guess_at(*side, key);
            }
        }
        let mut places = [None; AHEAD];
        for ((place, guess), lookup) in places.iter_mut().zip(guesses.iter()).zip(lookups) {
            if let Some((side, key, scope)) = lookup {
                *place = self.place_by(*side, key, *scope, *guess);
            }
        }
        places
    }
}
