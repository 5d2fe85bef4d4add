//! A text in which each word stands on a line of its own.
ghost use Rattle.std.specs.Prelude.{◌≡◌, ◌++◌, IfOk, OnOk};
ghost use Rattle.pfr_faults.specs.Spread as spec;

use pfr_expand::LONGEST_TEXT;
use pfr_items::Items;
use pfr_marks::mark::Mark;
use pfr_words::spelling::newlines;
use std::alloc::{AllocError, Global};

/// What stands behind each word of a text.
#[derive(Clone, Copy, Debug, PartialEq, Eq)]
pub(crate) enum Separator {
    /// A line's end that is a blank.
    LineEnd,
    Blank,
}

impl Separator {
    fn bytes(self) -> &'static [u8]
        ensures { result.now ≡ spec.bytes_of self }
    {
        match self {
            Separator::LineEnd => b"\\\n",
            Separator::Blank => b" ",
        }
    }
}

/// The words of a text as a text, and what stands behind each of them.
#[derive(Drop)]
pub(crate) struct Spread {
    pub text: Items<u8>,
    pub separator: Separator,
}

/// Puts a word and what stands behind it at the end of a text.
fn put_word(text: &mut Items<u8>, separator: Separator, mark: &Mark<'_>) -> Result<(), AllocError>
    ensures { OnOk result (text.new ≡ text.old ++ spec.with_separator separator mark.now) }
{
    text.extend_from_slice(mark.piece.as_slice())?;
    text.extend_from_slice(separator.bytes())
}

/// Words as a text, with this behind each of them.
fn joined(alloc: Global, separator: Separator, marks: &[Mark<'_>]) -> Result<Items<u8>, AllocError>
    ensures { IfOk result (λ text. text ≡ spec.joined separator marks.now) }
{
    let mut text = Items::new(alloc);
    for mark in marks {
        put_word(&mut text, separator, mark)?;
    }
    Ok(text)
}

/// Whether a text is longer than the strict reader takes one.
pub(crate) fn is_too_long(text: &[u8]) -> bool
    ensures { result ≡ spec.is_too_long text.now }
{
    text.len() > LONGEST_TEXT
}

/// Words as a text in which each stands on a line of its own. If that is longer than a text may be, they stand on the
/// lines on which they stood.
#[tactic(auto, unfolding(crate::specs::Spread::spread_out))]
pub(crate) fn spread_out(alloc: Global, marks: &[Mark<'_>]) -> Result<Spread, AllocError>
    ensures { IfOk result (λ made. made ≡ spec.spread_out marks.now) }
{
    let text = joined(alloc, Separator::LineEnd, marks)?;
    if !is_too_long(text.as_slice()) {
        return Ok(Spread {
            text,
            separator: Separator::LineEnd,
        });
    }
    let text = joined(alloc, Separator::Blank, marks)?;
    Ok(Spread {
        text,
        separator: Separator::Blank,
    })
}

/// The line that is `count` lines further down.
fn line_behind(line: usize, count: usize) -> usize
    ensures { result ≡ spec.line_behind line count }
{
    line.saturating_add(count)
}

/// The line on which the word behind one begins.
fn next_line(separator: Separator, line: usize, mark: &Mark<'_>) -> usize
    ensures { result ≡ spec.next_line separator line mark.now }
{
    let last = line_behind(line, newlines(mark.piece.as_slice()));
    line_behind(last, newlines(separator.bytes()))
}

fn is_reached(line: usize, here: usize) -> bool
    ensures { result ≡ spec.is_reached line here }
{
    line <= here
}

/// The place of the first of these words that begins on a line of the text that they make, or behind it.
pub(crate) fn word_on(separator: Separator, line: usize, marks: &[Mark<'_>]) -> Option<usize>
    ensures { result ≡ spec.word_from separator line 1 0 marks.now }
{
    let mut here: usize = 1;
    for (before, mark) in marks.iter().enumerate() {
        if is_reached(line, here) {
            return Some(before);
        }
        here = next_line(separator, here, mark);
    }
    None
}
