//! What is left out of brackets and braces.
ghost use Rattle.std.specs.Prelude.{◌≡◌, ◌≤◌, ◌<◌, length, true, IfSome};
ghost use Rattle.pfr_phrases.specs.Options as spec;

use crate::inet6::inet6_len;
use crate::phrases::{ADAPTIVE_TIMEOUTS, LIMITS, Phrase, STATE_OPTIONS, phrase_at};
use pfr_marks::mark::{Mark, begins_with, is};
use pfr_words::names::is_among;

/// The option at the front of marks that is left out, and how many marks it has.
#[tactic(auto, unfolding(crate::specs::Options::option_at))]
pub(crate) fn option_at(marks: &[Mark<'_>]) -> Option<(usize, Phrase)>
    ensures value { result ≡ spec.option_at marks.now }
    ensures within { IfSome result (λ found. (0 < found.0) × (found.0 ≤ length marks.now)) }
{
    phrase_at(&STATE_OPTIONS, marks)
}

/// How many marks a phrase has; none if there is none.
fn len_of(most: usize, found: Option<(usize, Phrase)>) -> usize
    requires { IfSome found (λ phrase. phrase.0 ≤ most) }
    ensures value { result ≡ spec.len_of found }
    ensures within { result ≤ most }
{
    match found {
        Some((len, _)) => len,
        None => 0,
    }
}

/// How many marks the option at the front has, if it is left out; else none.
#[tactic(auto, unfolding(crate::specs::Options::option_len))]
fn option_len(marks: &[Mark<'_>]) -> usize
    ensures value { result ≡ spec.option_len marks.now }
    ensures within { result ≤ length marks.now }
{
    len_of(marks.len(), option_at(marks))
}

/// Elements that are left out of a list.
#[derive(Clone, Copy, Debug)]
pub enum Group {
    /// The options of a state, in round brackets.
    Options,
    /// IPv6 addresses, in braces.
    Inet6,
    /// The same, and what packets don't show of an address.
    Unseen,
    /// Timeouts of `set timeout`, in braces.
    Timeouts,
    /// Limits of `set limit`, in braces.
    Limits,
}

/// Words among addresses that ask for what packets don't show.
const NO_ADDRESSES: [&[u8]; 2] = [b"no-route", b"urpf-failed"];

/// The timeout at the front of marks that depends on the number of states, and how many marks it has.
#[tactic(auto, unfolding(crate::specs::Options::timeout_at))]
fn timeout_at(marks: &[Mark<'_>]) -> Option<(usize, Phrase)>
    ensures value { result ≡ spec.timeout_at marks.now }
    ensures within { IfSome result (λ found. (0 < found.0) × (found.0 ≤ length marks.now)) }
{
    phrase_at(&ADAPTIVE_TIMEOUTS, marks)
}

/// The limit at the front of marks on which no verdict depends, and how many marks it has.
#[tactic(auto, unfolding(crate::specs::Options::limit_at))]
fn limit_at(marks: &[Mark<'_>]) -> Option<(usize, Phrase)>
    ensures value { result ≡ spec.limit_at marks.now }
    ensures within { IfSome result (λ found. (0 < found.0) × (found.0 ≤ length marks.now)) }
{
    phrase_at(&LIMITS, marks)
}

/// Whether the word at the front asks for what packets don't show of an address.
#[tactic(auto, unfolding(crate::specs::Options::is_no_address))]
pub(crate) fn is_no_address(marks: &[Mark<'_>]) -> bool
    ensures value { result ≡ spec.is_no_address marks.now }
    ensures some { result ≡ true → 0 < length marks.now }
{
    match marks.first() {
        Some(first) => is_among(&NO_ADDRESSES, first.piece.as_slice()),
        None => false,
    }
}

/// How many marks the element at the front has, if it is left out for its address; else none.
fn unseen_len(marks: &[Mark<'_>]) -> usize
    ensures value { result ≡ spec.unseen_len marks.now }
    ensures within { result ≤ length marks.now }
{
    if is_no_address(marks) {
        1
    } else {
        inet6_len(marks)
    }
}

/// How many marks the element at the front has, if it is left out; else none.
pub fn element_len(group: Group, marks: &[Mark<'_>]) -> usize
    ensures value { result ≡ spec.element_len group marks.now }
    ensures within { result ≤ length marks.now }
{
    match group {
        Group::Options => option_len(marks),
        Group::Inet6 => inet6_len(marks),
        Group::Unseen => unseen_len(marks),
        Group::Timeouts => len_of(marks.len(), timeout_at(marks)),
        Group::Limits => len_of(marks.len(), limit_at(marks)),
    }
}

/// Whether a mark ends a list.
fn ends(group: Group, mark: &Mark<'_>) -> bool
    ensures { result ≡ spec.ends group mark.now }
{
    match group {
        Group::Options => is(mark, b")"),
        Group::Inet6 | Group::Unseen | Group::Timeouts | Group::Limits => is(mark, b"}"),
    }
}

/// Whether these marks begin with a comma that isn't the last of brackets, and before another one.
fn is_comma(mark: &Mark<'_>, behind: &[Mark<'_>]) -> bool
    ensures { result ≡ spec.is_comma mark.now behind.now }
{
    is(mark, b",") && !begins_with(behind, b")") && !begins_with(behind, b",")
}

/// Whether a mark stands between elements of a list or before one, and belongs to none.
fn is_between(group: Group, mark: &Mark<'_>, behind: &[Mark<'_>]) -> bool
    ensures { result ≡ spec.is_between group mark.now behind.now }
{
    match group {
        Group::Options => is_comma(mark, behind),
        Group::Timeouts | Group::Limits => is(mark, b",") || is(mark, b"\n"),
        Group::Inet6 | Group::Unseen => is(mark, b",") || is(mark, b"\n") || is(mark, b"!"),
    }
}

/// What is known of a list behind some of its marks.
#[derive(Clone, Copy)]
enum Seen {
    /// All so far is left out, and so are this many marks behind it.
    LeftOut(usize),
    /// Whether all is left out.
    Known(bool),
}

/// What is known behind the first of these marks, if `passed` of them belong to an element that was seen.
fn see(group: Group, passed: usize, marks: &[Mark<'_>]) -> Seen
    ensures { result ≡ spec.seen_at group passed marks.now }
{
    let Some(mark) = marks.first() else {
        return Seen::Known(false);
    };
    if passed > 0 {
        return Seen::LeftOut(passed - 1);
    }
    if ends(group, mark) {
        return Seen::Known(true);
    }
    if is_between(group, mark, &marks[1..]) {
        return Seen::LeftOut(0);
    }
    let len = element_len(group, marks);
    if len == 0 {
        return Seen::Known(false);
    }
    Seen::LeftOut(len - 1)
}

/// Whether all elements of a list are left out, by what stands behind its beginning.
#[tactic(auto, unfolding(crate::specs::Options::are_all_left_out))]
pub(crate) fn are_all_left_out(group: Group, marks: &[Mark<'_>]) -> bool
    ensures { result ≡ spec.are_all_left_out group marks.now }
{
    let mut passed: usize = 0;
    for at in 0..marks.len() {
        match see(group, passed, &marks[at..]) {
            Seen::LeftOut(more) => passed = more,
            Seen::Known(all) => return all,
        }
    }
    false
}
