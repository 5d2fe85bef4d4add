//! Where the pieces of a text end.
ghost use Rattle.std.specs.Prelude.{◌≡◌, ◌≢◌, ◌<◌, ◌≤◌, ◌+◌, length, slice_index, true};
ghost use Rattle.pfr_words.specs.Words as spec;

use crate::names::is_name_byte;
use crate::sign::double_sign;

/// What a run of bytes is made of.
#[derive(Clone, Copy)]
pub(crate) enum Class {
    /// Letters, digits and underscores.
    Name,
    /// A plain word.
    Plain,
    /// A comment behind its `#`.
    Comment,
    /// A quoted text behind its first quote.
    Quote,
}

/// The byte at a place, and 0 behind the end.
pub(crate) fn byte_at(text: &[u8], place: usize) -> u8
    ensures value { result ≡ slice_index text.now place }
    ensures within { result ≢ 0 → place < length text.now }
{
    if place < text.len() { text[place] } else { 0 }
}

/// Whether the byte separates words within a line.
pub fn is_blank(byte: u8) -> bool
    ensures { result ≡ spec.is_blank byte }
{
    byte == b' ' || byte == b'\t' || byte == b'\r'
}

fn is_plain(byte: u8) -> bool
    ensures { result ≡ spec.is_plain byte }
{
    is_name_byte(byte)
        || byte == b'.'
        || byte == b'-'
        || byte == b'/'
        || byte == b':'
        || byte == b'*'
}

pub(crate) fn begins_plain(byte: u8) -> bool
    ensures { result ≡ spec.begins_plain byte }
{
    is_plain(byte) && !(byte == b'-' || byte == b'/' || byte == b':')
}

fn goes_on(class: Class, before: u8, byte: u8, next: u8) -> bool
    ensures { result ≡ spec.goes_on class before byte next }
{
    match class {
        Class::Name => is_name_byte(byte),
        Class::Plain => is_plain(byte) && !(byte == b'-' && next == b'>'),
        Class::Comment => byte != b'\n' || before == b'\\',
        Class::Quote => byte != b'"' && (byte != b'\n' || before == b'\\'),
    }
}

/// How many bytes at the front belong to a run, if the byte `before` stands before them.
pub(crate) fn run_len(class: Class, before: u8, text: &[u8]) -> usize
    ensures value { result ≡ spec.run_len class before text.now }
    ensures within { result ≤ length text.now }
{
    let mut len = 0;
    let mut last = before;
    while len < text.len() && goes_on(class, last, text[len], byte_at(text, len + 1)) {
        last = text[len];
        len += 1;
    }
    len
}

/// The length of a quoted text with its quotes, by what stands behind the first.
fn quote_len(text: &[u8]) -> usize
    ensures value { result ≡ spec.quote_len text.now }
    ensures within { (1 ≤ result) × (result ≤ 1 + length text.now) }
{
    let inner = run_len(Class::Quote, b'"', text);
    if byte_at(text, inner) == b'"' {
        inner + 2
    } else {
        inner + 1
    }
}

fn suffix_len(text: &[u8]) -> usize
    ensures value { result ≡ spec.suffix_len text.now }
    ensures within { result ≤ length text.now }
{
    if byte_at(text, 0) == b':' || byte_at(text, 0) == b'/' {
        run_len(Class::Plain, 0, text)
    } else {
        0
    }
}

/// The length of a macro's name with its suffix, by what stands behind the `$`.
fn use_len(text: &[u8]) -> usize
    ensures value { result ≡ spec.use_len text.now }
    ensures within { result ≤ length text.now }
{
    let name = run_len(Class::Name, b'$', text);
    name + suffix_len(&text[name..])
}

/// The length of a plain word at the front.
fn plain_len(text: &[u8]) -> usize
    requires { spec.begins_plain (slice_index text.now 0) ≡ true }
    ensures value { result ≡ spec.run_len Class.Plain 0 text.now }
    ensures within { (1 ≤ result) × (result ≤ length text.now) }
{
    run_len(Class::Plain, 0, text)
}

/// The length of the first piece of a text: a word, or what separates words. A text is its pieces, one behind the other.
#[tactic(auto, unfolding(crate::specs::Words::piece_len))]
pub fn piece_len(text: &[u8]) -> usize
    requires { 0 < length text.now }
    ensures value { result ≡ spec.piece_len text.now }
    ensures within { (1 ≤ result) × (result ≤ length text.now) }
{
    let next = byte_at(text, 1);
    match text[0] {
        b'\\' => if next == b'\n' { 2 } else { 1 },
        b'#' => 1 + run_len(Class::Comment, b'#', &text[1..]),
        b'"' => quote_len(&text[1..]),
        b'$' => 1 + use_len(&text[1..]),
        byte if begins_plain(byte) => plain_len(text),
        byte => if double_sign(byte, next).is_some() {
            2
        } else {
            1
        },
    }
}
