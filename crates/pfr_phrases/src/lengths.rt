//! How many words go with a word that is rewritten.
ghost use Rattle.std.specs.Prelude.{◌≡◌, ◌≤◌, ◌<◌, ◌+◌, length, true};
ghost use Rattle.pfr_phrases.specs.Lengths as spec;

use pfr_marks::mark::{Mark, begins_with, is};
use pfr_words::names::is_among;

/// What follows a word that is rewritten, and goes with it.
#[derive(Clone, Copy, Debug)]
pub enum Takes {
    Nothing,
    /// The word `state`.
    State,
    /// A word, or words in brackets, braces or `< >`.
    Value,
    /// Words in round brackets.
    Brackets,
    /// The same, if they are there.
    MayTakeBrackets,
    /// `rule` or `global`, if it is there.
    MayTakeScope,
    /// `global`, if it is there.
    MayTakeGlobal,
    /// A word, or words in brackets; then maybe a `/` and one more.
    Rate,
    /// Words in brackets, or a word and a value behind it.
    Setting,
    /// A key, if it is there.
    MayTakeKey,
}

/// How the keys of a hash begin.
const QUOTE: &[u8] = b"\"";

const HEXADECIMAL: &[u8] = b"0x";

/// The marks that are no values.
const NO_VALUES: [&[u8]; 14] = [
    b"\n", b")", b"}", b">", b",", b"=", b"!", b"->", b"-", b"!=", b"<=", b">=", b"<>", b"><",
];

/// Whether a sign is no value.
#[tactic(auto, unfolding(crate::specs::Lengths::is_no_value))]
fn is_no_value(word: &[u8]) -> bool
    ensures { result ≡ spec.is_no_value word.now }
{
    is_among(&NO_VALUES, word)
}

/// How many marks there are up to the first sign that closes a group, with that sign and the one that opened the group;
/// none if the line ends first, or another group of the kind is opened.
fn group_behind(opens: &[u8], closes: &[u8], behind: &[Mark<'_>]) -> usize
    ensures value { result ≡ spec.group_from 1 opens.now closes.now behind.now }
    ensures within { result ≤ 1 + length behind.now }
{
    for (before, mark) in behind.iter().enumerate() {
        if is(mark, closes) {
            return before + 2;
        }
        if is(mark, b"\n") || is(mark, opens) {
            return 0;
        }
    }
    0
}

/// How many marks the group at the front has; none if the first mark opens none, or nothing closes it.
fn group_len(opens: &[u8], closes: &[u8], marks: &[Mark<'_>]) -> usize
    ensures value { result ≡ spec.group_len opens.now closes.now marks.now }
    ensures within { result ≤ length marks.now }
{
    match marks.first() {
        Some(first) if is(first, opens) => group_behind(opens, closes, &marks[1..]),
        _ => 0,
    }
}

/// How many marks a value has: a word, or a group in brackets, braces or `< >`; none if no value is there.
#[tactic(auto, unfolding(crate::specs::Lengths::value_len))]
fn value_len(marks: &[Mark<'_>]) -> usize
    ensures value { result ≡ spec.value_len marks.now }
    ensures within { result ≤ length marks.now }
{
    let Some(first) = marks.first() else {
        return 0;
    };
    if is(first, b"(") {
        return group_len(b"(", b")", marks);
    }
    if is(first, b"{") {
        return group_len(b"{", b"}", marks);
    }
    if is(first, b"<") {
        return group_len(b"<", b">", marks);
    }
    if is_no_value(first.piece.as_slice()) {
        return 0;
    }
    1
}

/// How many ends of lines stand at the front.
pub(crate) fn newlines_len(marks: &[Mark<'_>]) -> usize
    ensures value { result ≡ spec.newlines_from 0 marks.now }
    ensures within { result ≤ length marks.now }
{
    for (before, mark) in marks.iter().enumerate() {
        if !is(mark, b"\n") {
            return before;
        }
    }
    marks.len()
}

/// How many marks a word and the value behind it have; none if there is no value.
fn with_value(value: usize) -> usize
    requires { value < 4611686018427387904 }
    ensures { result ≡ spec.with_value value }
{
    if value == 0 { 0 } else { value + 1 }
}

/// How many marks go with the word before `behind`, that word included; none if what it takes isn't there.
#[tactic(auto, unfolding(crate::specs::Lengths::taken_len))]
pub(crate) fn taken_len(takes: Takes, behind: &[Mark<'_>]) -> usize
    ensures value { result ≡ spec.taken_len takes behind.now }
    ensures within { result ≤ 1 + length behind.now }
{
    match takes {
        Takes::Nothing => 1,
        Takes::State => if begins_with(behind, b"state") { 2 } else { 0 },
        Takes::Value => with_value(value_len(behind)),
        Takes::Brackets => with_value(brackets_len(behind)),
        Takes::MayTakeBrackets => 1 + brackets_len(behind),
        Takes::MayTakeGlobal => { if begins_with(behind, b"global") { 2 } else { 1 } }
        Takes::Rate => with_value(rate_len(behind)),
        Takes::Setting => with_value(setting_len(behind)),
        Takes::MayTakeKey => { if is_key(behind) { 2 } else { 1 } }
        Takes::MayTakeScope => if begins_with(behind, b"rule") || begins_with(behind, b"global") {
            2
        } else {
            1
        },
    }
}

/// How many marks a value has, and a value behind it.
fn two_values(first: usize, marks: &[Mark<'_>]) -> usize
    requires { first ≤ length marks.now }
    ensures value { result ≡ spec.two_values first marks.now }
    ensures within { result ≤ length marks.now }
{
    if first == 0 {
        return 0;
    }
    let (_, behind) = marks.split_at(first);
    let second = value_len(behind);
    if second == 0 { 0 } else { first + second }
}

/// How many marks a number of `number` marks has, with the `/` and the number that may be behind it.
fn rate_behind(number: usize, marks: &[Mark<'_>]) -> usize
    requires { number ≤ length marks.now }
    ensures value { result ≡ spec.rate_behind number marks.now }
    ensures within { result ≤ length marks.now }
{
    let (_, behind) = marks.split_at(number);
    if begins_with(behind, b"/") {
        two_values(number + 1, marks)
    } else {
        number
    }
}

/// How many marks a rate has: a number, maybe with a `/` and another one.
fn rate_len(marks: &[Mark<'_>]) -> usize
    ensures value { result ≡ spec.rate_len marks.now }
    ensures within { result ≤ length marks.now }
{
    let number = value_len(marks);
    if number == 0 {
        0
    } else {
        rate_behind(number, marks)
    }
}

/// How many marks words in brackets have, or a word with a value behind it.
fn setting_len(marks: &[Mark<'_>]) -> usize
    ensures value { result ≡ spec.setting_len marks.now }
    ensures within { result ≤ length marks.now }
{
    if begins_with(marks, b"(") {
        value_len(marks)
    } else {
        two_values(value_len(marks), marks)
    }
}

/// Whether a key of a hash is at the front: a quoted text, or hexadecimal digits behind `0x`.
#[tactic(auto, unfolding(crate::specs::Lengths::is_key))]
fn is_key(marks: &[Mark<'_>]) -> bool
    ensures value { result ≡ spec.is_key marks.now }
    ensures some { result ≡ true → 0 < length marks.now }
{
    match marks.first() {
        Some(first) => {
            let piece = first.piece.as_slice();
            piece.starts_with(QUOTE) || piece.starts_with(HEXADECIMAL)
        }
        None => false,
    }
}

/// How many marks a group in round brackets has; none if none is there.
pub fn brackets_len(marks: &[Mark<'_>]) -> usize
    ensures value { result ≡ spec.brackets_len marks.now }
    ensures within { result ≤ length marks.now }
{
    group_len(b"(", b")", marks)
}
