//! What a token is, and how it is refused where it doesn't belong.
ghost use Rattle.std.specs.Prelude.{◌≡◌};
ghost use Rattle.pfr_terms.specs.Input as spec;
ghost use Rattle.pfr_terms.specs.Input.{Refuses};

use crate::error::{ConfError, ConfErrorKind, kind_of, left_out_at};
use crate::name::MacroUse;
use pfr_words::names::is_left_out;
use pfr_words::{Bytes, Sign, Token, Word};
use std::alloc::Global;

pub(crate) fn is_line_end(token: &Token<'_>) -> bool
    ensures { result ≡ spec.is_line_end token.now }
{
    match token {
        Token::LineEnd => true,
        _ => false,
    }
}

pub(crate) fn sign_in(token: &Token<'_>) -> Option<Sign>
    ensures { result ≡ spec.sign_in token.now }
{
    match token {
        Token::Sign(sign) => Some(*sign),
        _ => None,
    }
}

pub(crate) fn plain_in<'a>(token: &Token<'a>) -> Option<Bytes<'a>>
    ensures { result ≡ spec.plain_in token.now }
{
    match token {
        Token::Plain(word) => Some(Bytes::new(word.as_slice())),
        _ => None,
    }
}

pub(crate) fn quoted_in<'a>(token: &Token<'a>) -> Option<Bytes<'a>>
    ensures { result ≡ spec.quoted_in token.now }
{
    match token {
        Token::Quoted(text) => Some(Bytes::new(text.as_slice())),
        _ => None,
    }
}

pub(crate) fn macro_in<'a>(line: usize, token: &Token<'a>) -> Option<MacroUse<'a>>
    ensures { result ≡ spec.macro_in line token.now }
{
    match token {
        Token::MacroUse(name, suffix) => Some(MacroUse {
            line,
            name: Bytes::new(name.as_slice()),
            suffix: Bytes::new(suffix.as_slice()),
        }),
        _ => None,
    }
}

/// The fault of a word that doesn't belong where it stands; `line` is the line of the word before.
pub(crate) fn refusal_of(alloc: Global, line: usize, word: &Word<'_>) -> ConfError
    ensures { Refuses (spec.refusal_of line word.now) result }
{
    match &word.token {
        Token::LineEnd => ConfError {
            line,
            kind: ConfErrorKind::UnknownWord,
        },
        Token::Bad(fault) => ConfError {
            line: word.line,
            kind: kind_of(*fault),
        },
        Token::Plain(text) => plain_refusal(alloc, word.line, text.as_slice()),
        _ => ConfError {
            line: word.line,
            kind: ConfErrorKind::UnknownWord,
        },
    }
}

fn plain_refusal(alloc: Global, line: usize, word: &[u8]) -> ConfError
    ensures { Refuses (spec.plain_refusal line word.now) result }
{
    if !is_left_out(word) {
        return ConfError {
            line,
            kind: ConfErrorKind::UnknownWord,
        };
    }
    left_out_at(alloc, line, word)
}
