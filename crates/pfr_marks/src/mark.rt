//! The words of a text, and where they stand.
ghost use Rattle.std.specs.Prelude.{◌≡◌, ◌<◌, ◌≤◌, ◌+◌, ◌++◌, length, OnOk, IfOk};
ghost use Rattle.std.specs.Str.{bytes_eq};
ghost use Rattle.pfr_marks.specs.Marks as spec;

use pfr_items::Items;
use pfr_words::Bytes;
use pfr_words::cutting::piece_len;
use pfr_words::spelling::{newlines, token_of};
use std::alloc::{AllocError, Global};

/// A place in a text, between two bytes.
#[derive(Clone, Copy)]
pub struct Place {
    /// How many bytes stand before it.
    pub offset: usize,
    /// From 1.
    pub line: usize,
    /// In bytes, from 1.
    pub column: usize,
}

/// The beginning of a text.
pub const BEGINNING: Place = Place {
    offset: 0,
    line: 1,
    column: 1,
};

/// A word of a text, a sign or the end of a line.
#[derive(Drop)]
pub struct Mark<'a> {
    pub start: Place,
    pub end: Place,
    pub piece: Bytes<'a>,
}

/// Whether a mark is this word.
pub fn is(mark: &Mark<'_>, word: &[u8]) -> bool
    ensures { result ≡ bytes_eq mark.now.piece word.now }
{
    mark.piece.as_slice() == word
}

/// Whether the mark at the front is this word.
pub fn begins_with(marks: &[Mark<'_>], word: &[u8]) -> bool
    ensures { result ≡ spec.begins_with marks.now word.now }
{
    match marks.first() {
        Some(mark) => is(mark, word),
        None => false,
    }
}

/// The column behind bytes that begin in a column.
fn column_behind(column: usize, piece: &[u8]) -> usize
    requires { column + length piece.now ≤ 9223372036854775808 }
    ensures value { result ≡ spec.column_behind column piece.now }
    ensures within { result ≤ column + length piece.now }
{
    let mut behind = column;
    for byte in piece {
        behind = if *byte == b'\n' { 1 } else { behind + 1 };
    }
    behind
}

/// The place behind a piece.
fn behind(place: Place, piece: &[u8]) -> Place
    requires { (place.offset + length piece.now ≤ 9223372036854775808) × (place.line + length piece.now ≤ 9223372036854775808) × (place.column + length piece.now ≤ 9223372036854775808) }
    ensures value { result ≡ spec.behind place piece.now }
    ensures within { (result.offset ≤ place.offset + length piece.now) × (result.line ≤ place.line + length piece.now) × (result.column ≤ place.column + length piece.now) }
{
    Place {
        offset: place.offset + piece.len(),
        line: place.line + newlines(piece),
        column: column_behind(place.column, piece),
    }
}

/// Puts a piece behind the marks so far, unless it only separates words.
fn add<'a>(
    found: &mut Vec<Mark<'a>>,
    start: Place,
    end: Place,
    piece: &'a [u8],
) -> Result<(), AllocError>
    requires some { 0 < length piece.now }
    requires end { end ≡ spec.behind start piece.now }
    ensures { OnOk result (found.new.items ≡ found.old.items ++ spec.mark_at start piece.now) }
{
    if token_of(piece).is_some() {
        found.push(Mark {
            start,
            end,
            piece: Bytes::new(piece),
        })?;
    }
    Ok(())
}

/// The words of a text, its signs and the ends of its lines.
#[tactic(auto, unfolding(crate::specs::Marks::marks, pfr_words::specs::Words::pieces))]
pub fn marks<'a>(alloc: Global, text: &'a [u8]) -> Result<Items<Mark<'a>>, AllocError>
    ensures { IfOk result (λ found. found ≡ spec.marks text.now) }
{
    let mut found: Vec<Mark<'a>> = Vec::new(alloc);
    let mut rest = text;
    let mut start = BEGINNING;
    while !rest.is_empty() {
        let (piece, more) = rest.split_at(piece_len(rest));
        let end = behind(start, piece);
        add(&mut found, start, end, piece)?;
        start = end;
        rest = more;
    }
    Ok(Items::of(found))
}
