//! The interfaces that words name: their own names, the members of groups, and what macros stand for.
ghost use Rattle.std.specs.Prelude.{◌≡◌, ◌≤◌, ◌++◌, length, IfOk, OnOk};
ghost use Rattle.pfr_words.specs.Names.{is_among};
ghost use Rattle.pfr_rewrite.specs.Interfaces as spec;

use pfr_given::{Given, Subject, count_of, joined};
use pfr_items::Items;
use pfr_marks::mark::{Mark, begins_with, marks};
use pfr_spelling::known::Known;
use pfr_spelling::macros::{is_plain, token_in, value_of};
use pfr_spelling::targets::list_len;
use pfr_words::Token;
use std::alloc::{AllocError, Global};

/// What stands for a macro whose value isn't known: no interface has this name.
pub(crate) const UNKNOWN: &[u8] = b"$";

/// Whether one of these interfaces has this name.
pub(crate) fn is_named(interfaces: &[Items<u8>], name: &[u8]) -> bool
    ensures { result ≡ is_among interfaces.now name.now }
{
    for interface in interfaces {
        if interface.as_slice() == name {
            return true;
        }
    }
    false
}

/// How many marks the interfaces have: a word, one in round brackets, or a list; none if there are none.
pub(crate) fn interfaces_len(marks: &[Mark<'_>]) -> usize
    ensures value { result ≡ spec.interfaces_len marks.now }
    ensures within { result ≤ length marks.now }
{
    if begins_with(marks, b"{") {
        return list_len(marks);
    }
    if !begins_with(marks, b"(") {
        return marks.len().min(1);
    }
    if marks.len() >= 3 { 3 } else { 0 }
}

/// Puts the plain words among marks behind the names so far.
fn put_words(
    alloc: Global,
    names: &mut Items<Items<u8>>,
    words: &[Mark<'_>],
) -> Result<(), AllocError>
    ensures { OnOk result (names.new ≡ names.old ++ spec.plain_words words.now) }
{
    for mark in words {
        let piece = mark.piece.as_slice();
        if is_plain(piece) {
            names.push(Items::copied(alloc, piece)?)?;
        }
    }
    Ok(())
}

/// Puts an interface behind the names so far, or those of a group that is given.
fn put_name(
    alloc: Global,
    given: &Given,
    names: &mut Items<Items<u8>>,
    word: &[u8],
) -> Result<(), AllocError>
    ensures { OnOk result (names.new ≡ names.old ++ spec.names_for given.now word.now) }
{
    if count_of(given, Subject::Interface, word, b"") == 0 {
        return names.push(Items::copied(alloc, word)?);
    }
    let members = joined(alloc, given, Subject::Interface, word, b"")?;
    let members = marks(alloc, members.as_slice())?;
    put_words(alloc, names, members.as_slice())
}

/// Puts what a mark of a macro's value names behind the names so far.
fn put_mark(
    alloc: Global,
    given: &Given,
    names: &mut Items<Items<u8>>,
    piece: &[u8],
) -> Result<(), AllocError>
    ensures { OnOk result (names.new ≡ names.old ++ spec.names_of_word given.now piece.now) }
{
    if is_plain(piece) {
        return put_name(alloc, given, names, piece);
    }
    put_not(alloc, names, piece)
}

/// Puts the name that no interface has behind the names so far, if the sign is a `!`: the interfaces that it stands for
/// can't be named. Other signs add nothing.
fn put_not(alloc: Global, names: &mut Items<Items<u8>>, piece: &[u8]) -> Result<(), AllocError>
    ensures { OnOk result (names.new ≡ names.old ++ spec.names_of_sign piece.now) }
{
    if piece == b"!".as_slice() {
        return names.push(Items::copied(alloc, UNKNOWN)?);
    }
    Ok(())
}

/// Puts the interfaces that the words of a macro's value name behind the names so far.
fn put_all(
    alloc: Global,
    given: &Given,
    names: &mut Items<Items<u8>>,
    words: &[Mark<'_>],
) -> Result<(), AllocError>
    ensures { OnOk result (names.new ≡ names.old ++ spec.names_of_words given.now words.now) }
{
    for mark in words {
        put_mark(alloc, given, names, mark.piece.as_slice())?;
    }
    Ok(())
}

/// Puts what a macro stands for behind the names so far: the words of its value, or the name that no interface has if
/// the value isn't known, or has more bytes than may still be read.
fn put_value(
    alloc: Global,
    given: &Given,
    known: &Known,
    names: &mut Items<Items<u8>>,
    name: &[u8],
) -> Result<(), AllocError>
    ensures { OnOk result (names.new ≡ names.old ++ spec.value_names given.now known.now name.now) }
{
    match value_of(known.macros.as_slice(), name) {
        Some(value) if value.as_slice().len() <= known.left => {
            let words = marks(alloc, value.as_slice())?;
            put_all(alloc, given, names, words.as_slice())
        }
        _ => names.push(Items::copied(alloc, UNKNOWN)?),
    }
}

/// Puts the interfaces that a mark stands for behind the names so far. Signs stand for none.
fn put_names(
    alloc: Global,
    given: &Given,
    known: &Known,
    names: &mut Items<Items<u8>>,
    piece: &[u8],
) -> Result<(), AllocError>
    ensures { OnOk result (names.new ≡ names.old ++ spec.names_of given.now known.now piece.now) }
{
    match token_in(piece) {
        Some(Token::Plain(word)) => put_name(alloc, given, names, word.as_slice()),
        Some(Token::MacroUse(name, _)) => put_value(alloc, given, known, names, name.as_slice()),
        _ => put_not(alloc, names, piece),
    }
}

/// The interfaces that marks name.
pub(crate) fn names_in(
    alloc: Global,
    given: &Given,
    known: &Known,
    interfaces: &[Mark<'_>],
) -> Result<Items<Items<u8>>, AllocError>
    ensures { IfOk result (λ names. names ≡ spec.names_in given.now known.now interfaces.now) }
{
    let mut names = Items::new(alloc);
    for mark in interfaces {
        put_names(alloc, given, known, &mut names, mark.piece.as_slice())?;
    }
    Ok(names)
}
