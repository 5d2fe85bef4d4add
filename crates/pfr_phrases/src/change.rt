//! What is rewritten of a text, and why.
ghost use Rattle.std.specs.Prelude.{◌≡◌};
ghost use Rattle.pfr_phrases.specs.Changes as spec;

use crate::reason::Reason;
use pfr_items::Items;
use pfr_marks::mark::{Mark, Place};
use pfr_words::Bytes;

/// Words of the strict reader that stand for others.
#[derive(Clone, Copy, Debug, PartialEq, Eq)]
pub enum Words {
    KeepState,
    Return,
    Log,
    /// The timeouts of an optimization.
    Aggressive,
    Conservative,
    Satellite,
}

/// What stands in the place of the bytes that go.
#[derive(Clone, Copy, Debug, PartialEq, Eq)]
pub enum Becomes {
    Nothing,
    /// The ends of this many lines, so that those behind keep their numbers.
    Lines(usize),
    Words(Words),
    Number(u16),
    /// The word with this many parts more, each a zero, before its slash or at its end.
    WithZeros(usize),
}

/// What is said of a change, at the word for which it is made.
#[derive(Drop)]
pub struct Finding<'a> {
    pub place: Place,
    pub word: Bytes<'a>,
    pub reason: Reason,
}

/// A part of a text that is rewritten.
#[derive(Drop)]
pub struct Change<'a> {
    /// How many bytes stand before it.
    pub from: usize,
    /// Whether a blank is put before it, since a word ends right where it begins.
    pub parted: bool,
    /// Where it ends.
    pub to: Place,
    pub becomes: Becomes,
    /// Whether a blank is put behind it, since a word begins right where it ends.
    pub blank: bool,
    pub finding: Finding<'a>,
    /// What is written in its place before `becomes`, if that isn't by its word alone.
    pub text: Option<Text>,
}

/// A text that is written in the place of a word, and why words of it were rewritten.
#[derive(Drop)]
pub struct Text {
    pub bytes: Items<u8>,
    pub reasons: Items<Reason>,
}

/// What is said at a mark, for this reason.
pub fn finding_at<'a>(mark: &Mark<'a>, reason: Reason) -> Finding<'a>
    ensures { result ≡ spec.finding_at mark.now reason }
{
    Finding {
        place: mark.start,
        word: Bytes::new(mark.piece.as_slice()),
        reason,
    }
}

/// A change, and how many marks it has.
#[derive(Drop)]
pub struct Found<'a> {
    pub count: usize,
    pub change: Change<'a>,
}
