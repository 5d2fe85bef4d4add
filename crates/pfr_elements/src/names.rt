//! Names, each known by its place.
ghost use Rattle.std.specs.Prelude.{◌≡◌, [], ◌∷◌, ◌++◌, length, OnOk, OnErr};
ghost use Rattle.pfr_elements.specs.Names as spec;

use pfr_words::Bytes;
use std::alloc::{AllocError, Global};
use std::collections::BTreeMap;
use std::marker::Model;

/// Names in the order in which they were put; one may stand there more than once.
#[derive(Drop)]
pub struct Names<'a> {
    names: Vec<Bytes<'a>>,
    /// The place of the last one of each name.
    places: BTreeMap<&'a [u8], usize>,
}

impl<'a> Model for Names<'a> {
    ghost use Rattle.std.specs.Prelude.{List, ℕ};
    ghost use Rattle.pfr_elements.specs.Names.{HasPlaces};

    ghost Value = { List (List ℕ) };

    ghost view = { λ n. n.names.items };

    ghost invariant = { λ n. HasPlaces n.places n.names.items };
}

impl<'a> Names<'a> {
    pub fn new(alloc: Global) -> Names<'a>
        ensures { result ≡ [] }
    {
        Names {
            names: Vec::new(alloc),
            places: BTreeMap::new(alloc),
        }
    }

    /// How many there are.
    pub fn len(&self) -> usize
        ensures { result ≡ length self.now }
    {
        self.names.len()
    }

    /// The place of the last one of a name.
    pub fn last_place(&self, name: &[u8]) -> Option<usize>
        ensures { result ≡ spec.last_place name.now self.now }
    {
        self.places.get(name).copied()
    }

    /// Puts a name at the end. If memory is refused, the names are as before.
    pub fn push(&mut self, name: Bytes<'a>) -> Result<(), AllocError>
        ensures pushed { OnOk result (self.new ≡ self.old ++ name.entry ∷ []) }
        ensures kept { OnErr result (self.new ≡ self.old) }
    {
        let place = self.names.len();
        let text = name.as_slice();
        self.names.push(name)?;
        match self.places.insert(text, place) {
            Ok(_) => Ok(()),
            Err(_) => {
                self.names.pop();
                Err(AllocError)
            }
        }
    }
}
