//! Lists of texts as they are written.
ghost use Rattle.std.specs.Prelude.{◌≡◌, ◌++◌, codes, IfOk, OnOk};
ghost use Rattle.pfr_given.specs.Entries as entries;
ghost use Rattle.pfr_given.specs.Listings as spec;
ghost use Rattle.pfr_given.specs.Texts as texts;

use crate::entry::{Given, Subject, is_for};
use pfr_items::Items;
use std::alloc::{AllocError, Global};

/// Texts with `, ` between each two.
#[derive(Drop)]
pub(crate) struct Listing {
    pub(crate) text: Items<u8>,
    is_begun: bool,
}

impl Listing {
    /// None yet.
    pub(crate) fn new(alloc: Global) -> Listing
        ensures { result ≡ spec.nothing }
    {
        Listing {
            text: Items::new(alloc),
            is_begun: false,
        }
    }

    /// Puts a text at the end.
    pub(crate) fn add(&mut self, text: &[u8]) -> Result<(), AllocError>
        ensures { OnOk result (self.new ≡ spec.with_text self.old text.now) }
    {
        if self.is_begun {
            self.text.extend_from_slice(b", ")?;
        }
        self.is_begun = true;
        self.text.extend_from_slice(text)
    }
}

/// The texts that stand for `word` followed by `suffix`, as this subject, with `, ` between each two.
#[tactic(auto, unfolding(crate::specs::Entries::texts_of))]
pub fn joined(
    alloc: Global,
    given: &Given,
    subject: Subject,
    word: &[u8],
    suffix: &[u8],
) -> Result<Items<u8>, AllocError>
    ensures { IfOk result (λ list. list ≡ texts.joined_by (codes ", ") (entries.texts_of given.now subject (word.now ++ suffix.now))) }
{
    let mut listing = Listing::new(alloc);
    for entry in given.entries.as_slice() {
        if is_for(entry, subject, word, suffix) {
            listing.add(entry.text.as_slice())?;
        }
    }
    Ok(listing.text)
}
