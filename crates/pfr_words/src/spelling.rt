//! What a piece of a text says, and the words of a whole text.
ghost use Rattle.std.specs.Prelude.{◌≡◌, ◌<◌, ◌≤◌, ◌+◌, ◌++◌, length, OnOk, IfOk};
ghost use Rattle.pfr_words.specs.Words as spec;

use crate::braces::close_braces;
use crate::bytes::Bytes;
use crate::cutting::{Class, begins_plain, byte_at, is_blank, piece_len, run_len};
use crate::names::is_name;
use crate::sign::{double_sign, single_sign};
use crate::word::{Token, Word, WordFault};
use pfr_items::Items;
use std::alloc::{AllocError, Global};

fn is_printable(byte: u8) -> bool
    ensures { result ≡ spec.is_printable byte }
{
    b' ' <= byte && byte <= b'~'
}

fn are_quotable(text: &[u8]) -> bool
    ensures { result ≡ spec.are_quotable text.now }
{
    for byte in text {
        if !(is_printable(*byte) || is_blank(*byte) || *byte == b'\n') {
            return false;
        }
    }
    true
}

/// A quoted text, by what stands behind its first quote.
#[tactic(auto, unfolding(crate::specs::Words::quoted))]
fn quoted(text: &[u8]) -> Token<'_>
    ensures { result ≡ spec.quoted text.now }
{
    if !are_quotable(text) {
        return Token::Bad(WordFault::BadByte);
    }
    match text {
        [inner @ .., b'"'] => Token::Quoted(Bytes::new(inner)),
        _ => Token::Bad(WordFault::Unterminated),
    }
}

/// A macro use, by what stands behind its `$`.
#[tactic(auto, unfolding(crate::specs::Words::macro_use))]
fn macro_use(text: &[u8]) -> Token<'_>
    ensures { result ≡ spec.macro_use text.now }
{
    let (name, suffix) = text.split_at(run_len(Class::Name, b'$', text));
    if is_name(name) {
        Token::MacroUse(Bytes::new(name), Bytes::new(suffix))
    } else {
        Token::Bad(WordFault::UnknownWord)
    }
}

/// A sign, or what is no word.
#[tactic(auto, unfolding(crate::specs::Words::sign_of))]
fn sign_of<'a>(first: u8, second: u8) -> Token<'a>
    ensures { result ≡ spec.sign_of first second }
{
    if let Some(sign) = double_sign(first, second) {
        return Token::Sign(sign);
    }
    match single_sign(first) {
        Some(sign) => Token::Sign(sign),
        None if is_printable(first) => Token::Bad(WordFault::UnknownWord),
        None => Token::Bad(WordFault::BadByte),
    }
}

/// The word that a piece is, if it doesn't only separate words.
#[tactic(auto, unfolding(crate::specs::Words::token_of))]
pub fn token_of(piece: &[u8]) -> Option<Token<'_>>
    requires { 0 < length piece.now }
    ensures { result ≡ spec.token_of piece.now }
{
    let next = byte_at(piece, 1);
    match piece[0] {
        byte if is_blank(byte) || byte == b'#' || (byte == b'\\' && next == b'\n') => None,
        b'\n' => Some(Token::LineEnd),
        b'"' => Some(quoted(&piece[1..])),
        b'$' => Some(macro_use(&piece[1..])),
        byte if begins_plain(byte) => Some(Token::Plain(Bytes::new(piece))),
        byte => Some(sign_of(byte, next)),
    }
}

/// How many newlines a text has.
pub fn newlines(text: &[u8]) -> usize
    ensures value { result ≡ spec.newlines text.now }
    ensures within { result ≤ length text.now }
{
    let mut count: usize = 0;
    for byte in text {
        if *byte == b'\n' {
            count += 1;
        }
    }
    count
}

/// Puts the word that a piece is behind the words so far.
fn add<'a>(
    found: &mut Vec<Word<'a>>,
    line: usize,
    token: Option<Token<'a>>,
) -> Result<(), AllocError>
    ensures { OnOk result (found.new.items ≡ found.old.items ++ spec.on_line line token.entry) }
{
    if let Some(token) = token {
        found.push(Word { line, token })?;
    }
    Ok(())
}

/// The words of a text. A part of it that is no word is a [`Token::Bad`].
#[tactic(auto, unfolding(crate::specs::Words::words, crate::specs::Words::pieces))]
pub fn words<'a>(alloc: Global, text: &'a [u8]) -> Result<Items<Word<'a>>, AllocError>
    ensures { IfOk result (λ found. found ≡ spec.words text.now) }
{
    let mut found: Vec<Word<'a>> = Vec::new(alloc);
    let mut rest = text;
    let mut line: usize = 1;
    while !rest.is_empty() {
        let (piece, behind) = rest.split_at(piece_len(rest));
        add(&mut found, line, token_of(piece))?;
        line += newlines(piece);
        rest = behind;
    }
    close_braces(&mut found);
    Ok(Items::of(found))
}
