//! A text with files in the place of its statements, turn by turn.
ghost use Rattle.std.specs.Prelude.{◌≡◌, IfOk};
ghost use Rattle.pfr_include.specs.Turns as spec;

use crate::file::File;
use crate::splices::{Splice, splices_for};
use crate::splicing::{Included, after, itself};
use crate::statements::statements;
use pfr_items::Items;
use pfr_marks::mark::marks;
use std::alloc::{AllocError, Global};

/// How many times a text is spliced at most.
const TURNS: usize = 16;

/// How many bytes a text has at most that is spliced.
const MOST_BYTES: usize = 1048576;

/// What is spliced of a text.
#[tactic(auto, unfolding(crate::specs::Turns::splices))]
fn splices<'f>(
    alloc: Global,
    files: &[File<'f>],
    text: &[u8],
) -> Result<Items<Splice<'f>>, AllocError>
    ensures { IfOk result (λ found. found ≡ spec.splices files.now text.now) }
{
    let marks = marks(alloc, text)?;
    let found = statements(alloc, files, marks.as_slice())?;
    splices_for(alloc, found.as_slice())
}

/// What a turn makes of a text, if there is something to splice and it isn't too long.
#[tactic(auto, unfolding(crate::specs::Turns::turn))]
fn turn(alloc: Global, files: &[File<'_>], now: &Included) -> Result<Option<Included>, AllocError>
    ensures { IfOk result (λ next. next ≡ spec.turn files.now now.now) }
{
    if MOST_BYTES < now.text.len() {
        return Ok(None);
    }
    let found = splices(alloc, files, now.text.as_slice())?;
    if found.len() == 0 {
        return Ok(None);
    }
    let next = after(alloc, now, found.as_slice())?;
    Ok(Some(next))
}

/// A ruleset text with the texts of files in the place of the statements that name them.
///
/// A statement outside of braces with just the words `include NAME` becomes the text of the first file of that name,
/// and the rest of its line follows on a line of its own. If there is no such statement, each
/// `load anchor NAME from NAME` goes, and each `anchor` of that name on whose line no brace is open gets the file's
/// text in braces behind it. All other bytes stay.
///
/// This is repeated as long as there is something to splice and the text has at most 1048576 bytes, 16 times in all at
/// most. So a file that includes itself leaves a statement `include` in the end. Fails only for want of memory.
#[tactic(auto, unfolding(crate::specs::Turns::with_files))]
pub fn with_files(alloc: Global, text: &[u8], files: &[File<'_>]) -> Result<Included, AllocError>
    ensures { IfOk result (λ made. made ≡ spec.with_files text.now files.now) }
{
    let mut made = itself(alloc, text)?;
    let mut left = TURNS;
    while left > 0 {
        match turn(alloc, files, &made)? {
            Some(next) => made = next,
            None => return Ok(made),
        }
        left -= 1;
    }
    Ok(made)
}
