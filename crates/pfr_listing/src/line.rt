//! The lines of states that a run writes, as they are read.
ghost use Rattle.std.specs.Prelude.{◌≡◌, ◌≤◌, ◌++◌, ◌∷◌, [], codes, length, true, IfOk, IfSome};
ghost use Rattle.pfr_listing.specs.Lines as spec;

use crate::words::state_in;
use pfr_commit::StateLine;
use pfr_track::State;
use pfr_words::Bytes;
use std::alloc::AllocError;

/// What a line says of the interface to which its state is bound.
#[derive(Drop)]
pub enum Bound<'a> {
    /// Nothing: the run has one interface.
    Unsaid,
    /// It is bound to none.
    All,
    /// It is bound to the interface of this name.
    To(Bytes<'a>),
}

/// A state with what a line says of it.
#[derive(Drop)]
pub struct Listed<'a> {
    /// The parts that a line doesn't say have no meaning: whether a standby is told of it, whether its packets may have
    /// options, the place of its interface, and which timeout it has.
    pub state: State,
    pub bound: Bound<'a>,
}

/// How many bytes the name of an interface may have.
const MOST_BYTES: usize = 15;

/// Whether a word may be the name of an interface that is shown: of 1 to 15 bytes, without a control character.
fn is_name(word: &[u8]) -> bool {
    !word.is_empty() && word.len() <= MOST_BYTES && !word.iter().any(|byte| byte.is_ascii_control())
}

/// What a name behind `i=` says.
fn bound_by<'a>(name: &'a [u8]) -> Bound<'a>
    ensures { spec.bound_text result ≡ codes " i=" ++ name.now }
{
    if name == b"-".as_slice() {
        Bound::All
    } else {
        Bound::To(Bytes::new(name))
    }
}

/// A line without what it says of the interface.
#[derive(Drop)]
pub(crate) struct Parted<'a> {
    pub(crate) plain: &'a [u8],
    pub(crate) bound: Bound<'a>,
}

/// Parts what a line says of the interface from what stands before. It is the last word, if that begins with `i=`.
pub(crate) fn part<'a>(line: &'a [u8]) -> Parted<'a>
    ensures { line.now ≡ result.plain.now ++ spec.bound_text result.bound }
{
    let (plain, last) = line.split_at(last_word(line));
    match last.strip_prefix(b" i=".as_slice()) {
        Some(name) if is_name(name) => Parted {
            plain,
            bound: bound_by(name),
        },
        _ => Parted {
            plain: line,
            bound: Bound::Unsaid,
        },
    }
}

/// The place of the blank before the last word of a line, or the line's end if there is none.
fn last_word(line: &[u8]) -> usize
    ensures { result ≤ length line.now }
{
    let mut last = line.len();
    for (place, byte) in line.iter().enumerate() {
        if *byte == b' ' {
            last = place;
        }
    }
    last
}

/// Whether a text is a line with its newline.
pub fn is_line(text: &[u8], line: &[u8]) -> bool
    ensures { result ≡ true → text.now ≡ line.now ++ 10 ∷ [] }
{
    match text.split_last() {
        Some((last, before)) => *last == b'\n' && before == line,
        None => false,
    }
}

/// The state that a line, without its newline, lists, if a run writes such a line. `text` is room for what a run
/// writes.
pub(crate) fn listed_in<'a>(
    line: &'a [u8],
    text: &mut Vec<u8>,
) -> Result<Option<Listed<'a>>, AllocError>
    ensures { IfOk result (λ listed. IfSome listed (λ listed. spec.IsLineOf listed line.now)) }
{
    let Parted { plain, bound } = part(line);
    let Some(state) = state_in(plain) else {
        return Ok(None);
    };
    text.clear();
    let written = StateLine {
        interfaces: &[],
        state: &state,
    };
    written.put(text)?;
    if is_line(text.as_slice(), plain) {
        Ok(Some(Listed { state, bound }))
    } else {
        Ok(None)
    }
}
