//! The files of tables.
ghost use Rattle.std.specs.Prelude.{◌≡◌, ◌∷◌, ◌++◌, [], IfOk, OnOk};
ghost use Rattle.pfr_given.specs.Entries as entries;
ghost use Rattle.pfr_given.specs.Files as spec;
ghost use Rattle.pfr_given.specs.Listings as listings;
ghost use Rattle.pfr_given.specs.Texts as texts;

use crate::entry::{Given, Subject};
use crate::listing::Listing;
use crate::parts::{Part, cut_at, first_word, front_of};
use pfr_items::Items;
use std::alloc::{AllocError, Global};

impl Listing {
    /// Puts the words of a text at the end.
    fn add_words(&mut self, text: &[u8]) -> Result<(), AllocError>
        ensures { OnOk result (self.new ≡ listings.with_texts self.old (texts.words text.now)) }
    {
        let mut rest = text;
        while let Some((word, behind)) = first_word(rest) {
            self.add(word)?;
            rest = behind;
        }
        Ok(())
    }

    /// Puts the words of the file of a table at the end.
    fn add_lines(&mut self, text: &[u8]) -> Result<(), AllocError>
        ensures { OnOk result (self.new ≡ listings.with_texts self.old (spec.table_words text.now)) }
    {
        let mut rest = text;
        while !rest.is_empty() {
            let (line, behind) = cut_at(Part::Line, rest);
            self.add_words(front_of(Part::PlainOfTable, line))?;
            rest = behind;
        }
        Ok(())
    }
}

/// The words of the file of a table, with `, ` between each two.
fn table_text(alloc: Global, text: &[u8]) -> Result<Items<u8>, AllocError>
    ensures { IfOk result (λ list. list ≡ spec.table text.now) }
{
    let mut listing = Listing::new(alloc);
    listing.add_lines(text)?;
    Ok(listing.text)
}

impl Given {
    /// Adds the file of a table (pf.conf(5), "TABLES"; pfctl(8), option `-T`): its words with `, ` between each two are one text.
    /// Blanks, tabs, carriage returns and newlines separate words, and a `#` or a `;` begins a comment.
    pub fn add_table(&mut self, alloc: Global, name: &[u8], text: &[u8]) -> Result<(), AllocError>
        ensures { OnOk result (self.new.entries ≡ self.old.entries ++ entries.entry Subject.Table name.now (spec.table text.now) ∷ []) }
    {
        let list = table_text(alloc, text)?;
        self.add(alloc, Subject::Table, name, b"", list.as_slice())
    }
}
