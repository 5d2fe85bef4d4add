//! Where the bytes of a text that changes made stand in the other one.
ghost use Rattle.std.specs.Prelude.{◌≡◌, IfOk};
ghost use Rattle.pfr_phrases.specs.Tracing as spec;

use crate::applying::{NewText, between};
use crate::change::Change;
use pfr_items::Items;
use pfr_marks::mark::{BEGINNING, Place};
use std::alloc::{AllocError, Global};

/// A piece of a new text: bytes that stand as they stood in the other text, and behind them what a change writes.
#[derive(Clone, Copy)]
pub struct Piece {
    /// How many bytes of the new text stand before it.
    pub new: usize,
    /// Where it begins in the other text.
    pub old: Place,
    /// How many of its bytes stand as they stood.
    pub kept: usize,
    /// The place in the other text at which the change is said.
    pub said: Place,
}

/// A text made of another one by changes.
#[derive(Drop)]
pub struct Pieced {
    pub made: NewText,
    /// Its pieces, in their order.
    pub pieces: Items<Piece>,
}

/// The piece that ends with a change, behind a place.
fn piece_before(made: &NewText, text: &[u8], place: Place, change: &Change<'_>) -> Piece
    ensures { result ≡ spec.piece_before made.now text.now place change.now }
{
    Piece {
        new: made.text.len(),
        old: place,
        kept: between(text, place.offset, change.from).len(),
        said: change.finding.place,
    }
}

/// The piece behind the last change, which has these bytes.
fn last_piece(made: &NewText, place: Place, rest: &[u8]) -> Piece
    ensures { result ≡ spec.last_piece made.now place rest.now }
{
    Piece {
        new: made.text.len(),
        old: place,
        kept: rest.len(),
        said: place,
    }
}

/// The text that changes make of a text, and its pieces.
#[tactic(auto, unfolding(crate::specs::Tracing::traced, crate::specs::Applying::rewritten))]
pub fn traced(alloc: Global, text: &[u8], changes: &[Change<'_>]) -> Result<Pieced, AllocError>
    ensures { IfOk result (λ traced. traced ≡ spec.traced text.now changes.now) }
{
    let mut made = NewText::new(alloc)?;
    let mut pieces = Items::new(alloc);
    let mut place = BEGINNING;
    for change in changes {
        pieces.push(piece_before(&made, text, place, change))?;
        made.put(text, place, change)?;
        place = change.to;
    }
    let (_, rest) = text.split_at(place.offset.min(text.len()));
    pieces.push(last_piece(&made, place, rest))?;
    made.keep(place.line, rest)?;
    Ok(Pieced { made, pieces })
}

/// Whether a piece begins at an offset of the new text, or before it.
fn begins_by(piece: &Piece, offset: usize) -> bool
    ensures { result ≡ spec.begins_by piece.now offset }
{
    piece.new <= offset
}

/// The last of these pieces that begins at an offset of the new text, or before it.
pub fn piece_at(pieces: &[Piece], offset: usize) -> Option<Piece>
    ensures { result ≡ spec.piece_from None offset pieces.now }
{
    let mut found = None;
    for piece in pieces {
        if begins_by(piece, offset) {
            found = Some(*piece);
        }
    }
    found
}

/// The place in the other text of a place in the kept bytes of a piece, `ahead` bytes behind its beginning. If the
/// place's line begins in the piece, its line in the other text is `line`.
fn kept_place(piece: Piece, place: Place, line: usize, ahead: usize) -> Place
    ensures { result ≡ spec.kept_place piece place line ahead }
{
    let offset = piece.old.offset.saturating_add(ahead);
    if place.column <= ahead {
        return Place {
            offset,
            line,
            column: place.column,
        };
    }
    Place {
        offset,
        line: piece.old.line,
        column: piece.old.column.saturating_add(ahead),
    }
}

/// The place in the other text of a place in a piece, whose line comes from `line`. For what a change writes it is the
/// place at which the change is said.
fn place_in(piece: Piece, place: Place, line: usize) -> Place
    ensures { result ≡ spec.place_in piece place line }
{
    let ahead = place.offset.saturating_sub(piece.new);
    if ahead < piece.kept {
        kept_place(piece, place, line, ahead)
    } else {
        piece.said
    }
}

/// The place in the other text of a place in a text of these pieces, whose line comes from `line`; the place itself if
/// there are no pieces.
pub fn old_place(pieces: &[Piece], place: Place, line: usize) -> Place
    ensures { result ≡ spec.old_place pieces.now place line }
{
    match piece_at(pieces, place.offset) {
        Some(piece) => place_in(piece, place, line),
        None => place,
    }
}
