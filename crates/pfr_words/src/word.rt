//! The words of a ruleset text, as data.
use crate::bytes::Bytes;
use crate::sign::Sign;

/// What is wrong with a part of a text that is no word.
#[derive(Clone, Copy, Debug)]
pub enum WordFault {
    /// A byte that is neither printable ASCII nor a blank, outside of comments.
    BadByte,
    /// A quote that isn't closed on its line, or a brace that is never closed.
    Unterminated,
    /// Printable bytes that no word is made of, and a macro use without a name that a macro may have.
    UnknownWord,
}

/// A word of a ruleset text.
#[derive(Drop)]
pub enum Token<'a> {
    /// The end of a line.
    LineEnd,
    /// A word, a number or an address.
    Plain(Bytes<'a>),
    /// What stands between two quotes.
    Quoted(Bytes<'a>),
    /// `$NAME`: the name, and what follows it without a blank from a `:` or `/` on.
    MacroUse(Bytes<'a>, Bytes<'a>),
    Sign(Sign),
    Bad(WordFault),
}

/// A word and the line that it begins on, from 1.
#[derive(Drop)]
pub struct Word<'a> {
    pub line: usize,
    pub token: Token<'a>,
}
