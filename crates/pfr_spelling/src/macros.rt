//! The macros that a text defines.
ghost use Rattle.std.specs.Prelude.{◌≡◌, ◌++◌, [], IfOk, OnOk};
ghost use Rattle.pfr_spelling.specs.Macros as spec;

use pfr_items::Items;
use pfr_marks::mark::{Mark, begins_with, is};
use pfr_phrases::context::{Context, Within};
use pfr_words::spelling::token_of;
use pfr_words::{Bytes, Token};
use std::alloc::{AllocError, Global};

/// With this many macros none is known.
const MOST_MACROS: usize = 1000;

/// How many bytes a known value of a macro has at most.
const MOST_BYTES: usize = 4096;

/// A macro that is defined.
#[derive(Drop)]
pub struct Macro {
    /// Its name, without the `$` of its uses.
    pub name: Items<u8>,
    /// What it stands for, on one line, if that is known.
    pub value: Option<Items<u8>>,
}

/// A word, and its suffix: what is behind it without a blank.
#[derive(Drop)]
pub(crate) struct Spelled<'m> {
    pub word: Bytes<'m>,
    pub suffix: Bytes<'m>,
}

/// The word that a mark's bytes are, if they are one.
pub fn token_in(piece: &[u8]) -> Option<Token<'_>>
    ensures { result ≡ spec.token_in piece.now }
{
    if piece.is_empty() {
        None
    } else {
        token_of(piece)
    }
}

/// Whether a mark's bytes are a plain word: no sign, no quoted text and no use of a macro.
pub fn is_plain(piece: &[u8]) -> bool
    ensures { result ≡ spec.is_plain piece.now }
{
    match token_in(piece) {
        Some(Token::Plain(_)) => true,
        _ => false,
    }
}

/// The value of a macro, if it is known.
fn known_value(found: &Macro) -> Option<Bytes<'_>>
    ensures { result ≡ found.now.value }
{
    match &found.value {
        Some(value) => Some(Bytes::new(value.as_slice())),
        None => None,
    }
}

/// The value of the last macro of a name, if it is known. None is known if 1000 macros are defined.
pub fn value_of<'m>(macros: &'m [Macro], name: &[u8]) -> Option<Bytes<'m>>
    ensures { result ≡ spec.value_of macros.now name.now }
{
    if macros.len() >= MOST_MACROS {
        return None;
    }
    let mut value = None;
    for found in macros {
        if found.name.as_slice() == name {
            value = known_value(found);
        }
    }
    value
}

/// The word that a piece stands for: itself, or the value of the macro that it uses, with its suffix.
pub(crate) fn spelled_out<'m>(macros: &'m [Macro], piece: &'m [u8]) -> Option<Spelled<'m>>
    ensures { result ≡ spec.spelled_out macros.now piece.now }
{
    match token_in(piece)? {
        Token::Plain(word) => Some(Spelled {
            word,
            suffix: Bytes::new(b""),
        }),
        Token::MacroUse(name, suffix) => {
            let word = value_of(macros, name.as_slice())?;
            Some(Spelled { word, suffix })
        }
        _ => None,
    }
}

/// The value of the macro that a piece uses without a suffix.
pub(crate) fn used_value<'m>(macros: &'m [Macro], piece: &'m [u8]) -> Option<Bytes<'m>>
    ensures { result ≡ spec.used_value macros.now piece.now }
{
    match token_in(piece)? {
        Token::MacroUse(name, suffix) if suffix.as_slice().is_empty() => value_of(
            macros,
            name.as_slice(),
        ),
        _ => None,
    }
}

/// A byte of a quoted text, before another one: the end of a continued line is a blank.
fn unfolded_byte(byte: u8, next: u8) -> u8
    ensures { result ≡ spec.unfolded_byte byte next }
{
    if byte == b'\n' || (byte == b'\\' && next == b'\n') {
        b' '
    } else {
        byte
    }
}

/// The byte at the front of a text, or 0.
fn first_byte(text: &[u8]) -> u8
    ensures { result ≡ spec.first_byte text.now }
{
    match text.first() {
        Some(byte) => *byte,
        None => 0,
    }
}

/// The byte at the front of a quoted text on one line.
fn first_unfolded(text: &[u8]) -> u8
    ensures { result ≡ spec.first_unfolded text.now }
{
    match text.first() {
        Some(byte) => unfolded_byte(*byte, first_byte(&text[1..])),
        None => 0,
    }
}

/// A quoted text on one line.
fn unfolded(alloc: Global, text: &[u8]) -> Result<Items<u8>, AllocError>
    ensures { IfOk result (λ made. made ≡ spec.unfolded text.now) }
{
    let mut made = Items::new(alloc);
    for at in 0..text.len() {
        made.push(first_unfolded(&text[at..]))?;
    }
    Ok(made)
}

/// Whether a byte of a quoted text may stand in the value of a macro, before another one.
fn is_sound_byte(byte: u8, next: u8) -> bool
    ensures { result ≡ spec.is_sound_byte byte next }
{
    match byte {
        b'#' | b'$' => false,
        b'\\' => next == b'\n',
        b'\t' | b'\n' | b'\r' => true,
        _ => b' ' <= byte && byte <= b'~',
    }
}

/// Whether the byte at the front of a quoted text may stand in the value of a macro.
fn begins_sound(text: &[u8]) -> bool
    ensures { result ≡ spec.begins_sound text.now }
{
    match text.first() {
        Some(byte) => is_sound_byte(*byte, first_byte(&text[1..])),
        None => true,
    }
}

/// Whether a quoted text may stand in the value of a macro: the strict reader refuses all others.
fn is_sound(text: &[u8]) -> bool
    ensures { result ≡ spec.is_sound text.now }
{
    for at in 0..text.len() {
        if !begins_sound(&text[at..]) {
            return false;
        }
    }
    true
}

/// What a quoted text gives to the value of a macro.
fn quoted_value(alloc: Global, text: &[u8]) -> Result<Option<Items<u8>>, AllocError>
    ensures { IfOk result (λ value. value ≡ spec.quoted_value text.now) }
{
    if !is_sound(text) {
        return Ok(None);
    }
    Ok(Some(unfolded(alloc, text)?))
}

/// A word with its suffix.
fn joined(alloc: Global, word: &[u8], suffix: &[u8]) -> Result<Items<u8>, AllocError>
    ensures { IfOk result (λ text. text ≡ word.now ++ suffix.now) }
{
    let mut text = Items::copied(alloc, word)?;
    text.extend_from_slice(suffix).and(Ok(text))
}

/// What a use of a macro gives to the value of another one.
fn use_value(
    alloc: Global,
    macros: &[Macro],
    name: &[u8],
    suffix: &[u8],
) -> Result<Option<Items<u8>>, AllocError>
    ensures { IfOk result (λ text. text ≡ spec.use_value macros.now name.now suffix.now) }
{
    match value_of(macros, name) {
        Some(value) => Ok(Some(joined(alloc, value.as_slice(), suffix)?)),
        None => Ok(None),
    }
}

/// What a piece gives to the value of a macro.
fn piece_value(
    alloc: Global,
    macros: &[Macro],
    piece: &[u8],
) -> Result<Option<Items<u8>>, AllocError>
    ensures { IfOk result (λ text. text ≡ spec.piece_value macros.now piece.now) }
{
    match token_in(piece) {
        Some(Token::Plain(word)) => Ok(Some(Items::copied(alloc, word.as_slice())?)),
        Some(Token::Quoted(text)) => quoted_value(alloc, text.as_slice()),
        Some(Token::MacroUse(name, suffix)) => use_value(
            alloc,
            macros,
            name.as_slice(),
            suffix.as_slice(),
        ),
        _ => Ok(None),
    }
}

/// Puts what a piece gives behind a value, with a blank between. Answers whether the value is still known.
fn add(value: &mut Items<u8>, piece: &Option<Items<u8>>) -> Result<bool, AllocError>
    ensures value { OnOk result (value.new ≡ spec.with_piece value.old piece.now) }
    ensures known { IfOk result (λ known. known ≡ spec.is_known value.old piece.now) }
{
    let Some(piece) = piece else {
        return Ok(false);
    };
    if value.len() > 0 {
        value.push(b' ')?;
    }
    value.extend_from_slice(piece.as_slice())?;
    Ok(value.len() <= MOST_BYTES)
}

/// The value of the pieces up to the line's end, if it is known.
fn value_in(
    alloc: Global,
    macros: &[Macro],
    marks: &[Mark<'_>],
) -> Result<Option<Items<u8>>, AllocError>
    ensures { IfOk result (λ value. value ≡ spec.value_from macros.now [] marks.now) }
{
    let mut value = Items::new(alloc);
    for mark in marks {
        if is(mark, b"\n") {
            return Ok(Some(value));
        }
        let piece = piece_value(alloc, macros, mark.piece.as_slice())?;
        if !add(&mut value, &piece)? {
            return Ok(None);
        }
    }
    Ok(Some(value))
}

/// Whether a macro is defined at the front of marks.
fn defines(context: Context, marks: &[Mark<'_>]) -> bool
    ensures value { result ≡ spec.defines context marks.now }
{
    context.within == Within::Nothing && marks.len() >= 2 && begins_with(&marks[1..], b"=")
}

/// Puts the macro that is defined at the front of marks behind those so far.
#[tactic(auto, unfolding(crate::specs::Macros::definition_in))]
pub(crate) fn define(
    alloc: Global,
    macros: &mut Items<Macro>,
    context: Context,
    marks: &[Mark<'_>],
) -> Result<(), AllocError>
    ensures { OnOk result (macros.new ≡ macros.old ++ spec.definition_in macros.old context marks.now) }
{
    if !defines(context, marks) {
        return Ok(());
    }
    let value = value_in(alloc, macros.as_slice(), &marks[2..])?;
    let name = Items::copied(alloc, marks[0].piece.as_slice())?;
    macros.push(Macro { name, value })
}
