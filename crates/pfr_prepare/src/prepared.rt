//! Texts that are to be read, and where their lines come from.
ghost use Rattle.std.specs.Prelude.{◌≡◌, []};
ghost use Rattle.pfr_prepare.specs.Lines as spec;

use pfr_include::Origin;
use pfr_items::Items;
use pfr_marks::mark::Place;
use pfr_rewrite::{Piece, old_place};
use std::alloc::Global;

/// The text of a ruleset as it is to be read.
#[derive(Drop)]
pub struct Prepared {
    pub text: Items<u8>,
    /// For each line, the line of the text with its files that it comes from; none if all are as they were.
    pub(crate) lines: Items<usize>,
    /// Where its bytes stood in the text with its files, piece by piece; none if all are as they were.
    pub(crate) pieces: Items<Piece>,
    /// For each line of the text with its files, where it comes from; none if it has no files.
    pub(crate) origins: Items<Origin>,
}

/// A place in a file.
#[derive(Clone, Copy)]
pub(crate) struct Spot {
    pub origin: Origin,
    /// In bytes, from 1.
    pub column: usize,
}

/// The line that a line comes from. Line 0 is no line's.
fn line_before(lines: &[usize], line: usize) -> usize
    ensures { result ≡ spec.line_before lines.now line }
{
    if line == 0 {
        return 0;
    }
    match lines.get(line - 1).copied() {
        Some(before) => before,
        None => line,
    }
}

/// Where a line comes from.
pub(crate) fn origin_of(origins: &[Origin], line: usize) -> Origin
    ensures { result ≡ spec.origin_of origins.now line }
{
    if line == 0 {
        return Origin { file: 0, line };
    }
    match origins.get(line - 1).copied() {
        Some(origin) => origin,
        None => Origin { file: 0, line },
    }
}

/// Where a line and those behind it come from.
fn origins_from(origins: &[Origin], line: usize) -> &[Origin]
    ensures { result.now ≡ spec.origins_from origins.now line }
{
    if line == 0 {
        return &[];
    }
    let (_, behind) = origins.split_at((line - 1).min(origins.len()));
    behind
}

/// The first of these lines that is the ruleset's own.
fn own_line(origins: &[Origin], line: usize) -> usize
    ensures { result ≡ spec.own_line line origins.now }
{
    for origin in origins {
        if origin.file == 0 {
            return origin.line;
        }
    }
    line
}

impl Prepared {
    /// A text as it is.
    pub(crate) fn of(alloc: Global, text: Items<u8>) -> Prepared
        ensures { result ≡ spec.as_it_is text }
    {
        Prepared {
            text,
            lines: Items::new(alloc),
            pieces: Items::new(alloc),
            origins: Items::new(alloc),
        }
    }

    /// Where a place of the text comes from.
    pub(crate) fn spot_of(&self, place: Place) -> Spot
        ensures { result ≡ spec.spot_of self.now place }
    {
        let line = line_before(self.lines.as_slice(), place.line);
        let before = old_place(self.pieces.as_slice(), place, line);
        Spot {
            origin: origin_of(self.origins.as_slice(), before.line),
            column: before.column,
        }
    }

    /// The line of the ruleset's own file that a line of the text comes from. Of a line of another file it is the line of the statement
    /// that names that file.
    pub fn line_of(&self, line: usize) -> usize
        ensures { result ≡ spec.line_in self.now line }
    {
        let before = line_before(self.lines.as_slice(), line);
        own_line(origins_from(self.origins.as_slice(), before), before)
    }
}
