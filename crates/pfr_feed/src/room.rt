//! How much room a piece has.
ghost use Rattle.std.specs.Prelude.{◌≡◌, ◌≤◌, None};
ghost use Rattle.pfr_commit.specs.Emissions.{texts_of};
ghost use Rattle.pfr_commit.specs.World.{no_texts};

use pfr_commit::Emitted;
use pfr_sync::MOST_INTERFACES;
use std::alloc::Global;

/// The room of a piece: bytes of verdict lines, and bytes of records at the place of each interface.
#[derive(Clone, Copy)]
pub struct Room {
    verdicts: usize,
    packets: [usize; MOST_INTERFACES],
    /// How many of the places have texts.
    places: usize,
    ghost few: { places ≤ 8 },
}

/// `bytes` and an eighth more.
fn and_an_eighth(bytes: usize) -> usize {
    bytes.saturating_add(bytes / 8)
}

impl Room {
    /// The room of the first piece.
    pub fn first() -> Room {
        Room {
            verdicts: 0,
            packets: [0; MOST_INTERFACES],
            places: 0,
        }
    }

    /// The bytes that a piece has, and an eighth more.
    pub fn of(piece: &Emitted) -> Room {
        let texts = piece.packets.as_slice();
        let places = texts.len().min(MOST_INTERFACES);
        let mut packets = [0; MOST_INTERFACES];
        for place in 0..places {
            packets[place] = and_an_eighth(texts[place].len());
        }
        Room {
            verdicts: and_an_eighth(piece.verdicts.len()),
            packets,
            places,
        }
    }

    /// An empty piece with this much room. It doesn't list what is done to the table.
    pub fn piece(&self, alloc: Global) -> Emitted
        ensures texts { texts_of result ≡ no_texts }
        ensures changes { result.changes ≡ None }
    {
        Emitted::with_room(alloc, self.verdicts, &self.packets[..self.places])
    }
}
