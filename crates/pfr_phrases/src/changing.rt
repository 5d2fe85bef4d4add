//! What is rewritten of a text.
ghost use Rattle.std.specs.Prelude.{◌≡◌, ◌≤◌, ◌++◌, length, drop, true, IfOk, IfSome, OnOk};
ghost use Rattle.pfr_phrases.specs.Changing as spec;
ghost use Rattle.pfr_phrases.specs.Options.{option_at};

use crate::change::{Becomes, Change, Found, finding_at};
use crate::context::{Context, Says, Within};
use crate::lengths::{Takes, newlines_len};
use crate::options::{Group, are_all_left_out, element_len, is_no_address, option_at};
use crate::phrases::{Phrase, label_phrase_at, pool_phrase_at, rule_phrase_at};
use crate::reason::Reason;
use crate::settings::setting_at;
use crate::statements::{end_of, statement_left_out};
use crate::values::value_phrase;
use pfr_items::Items;
use pfr_marks::mark::{Mark, Place, begins_with, is};
use pfr_words::names::is_among;
use std::alloc::AllocError;

/// The signs before which no blank is put.
const CLOSERS: [&[u8]; 5] = [b"\n", b")", b"}", b",", b">"];

/// Whether no blank is put before a sign.
#[tactic(auto, unfolding(crate::specs::Changing::is_closer))]
fn is_closer(word: &[u8]) -> bool
    ensures { result ≡ spec.is_closer word.now }
{
    is_among(&CLOSERS, word)
}

/// Whether a word begins right where a change ends.
pub fn touches(end: Place, behind: &[Mark<'_>]) -> bool
    ensures { result ≡ spec.touches end behind.now }
{
    match behind.first() {
        Some(mark) => mark.start.offset == end.offset && !is_closer(mark.piece.as_slice()),
        None => false,
    }
}

/// Where a change begins: what is left out takes the blanks before it along, on its line.
fn start_of(context: Context, start: Place, becomes: Becomes) -> usize
    ensures { result ≡ spec.start_of context start becomes }
{
    match becomes {
        Becomes::Nothing if context.behind.line == start.line => context.behind.offset,
        _ => start.offset,
    }
}

/// The first `count` marks as a change, for a word among them.
#[tactic(auto, unfolding(crate::specs::Changing::change_of))]
pub fn change_of<'a>(
    context: Context,
    word: &Mark<'a>,
    marks: &[Mark<'a>],
    count: usize,
    phrase: Phrase,
) -> Option<Found<'a>>
    requires { count ≤ length marks.now }
    ensures { result ≡ spec.change_of context word.now marks.now count phrase }
{
    let start = marks.first()?.start;
    let (gone, behind) = marks.split_at(count);
    let end = end_of(start, gone);
    Some(Found {
        count,
        change: Change {
            from: start_of(context, start, phrase.1),
            parted: false,
            to: end,
            becomes: phrase.1,
            blank: touches(end, behind),
            finding: finding_at(word, phrase.2),
            text: None,
        },
    })
}

/// The first phrase, or else the second; each has `most` marks at most.
fn first_of(
    most: usize,
    first: Option<(usize, Phrase)>,
    second: Option<(usize, Phrase)>,
) -> Option<(usize, Phrase)>
    requires first { IfSome first (λ found. found.0 ≤ most) }
    requires second { IfSome second (λ found. found.0 ≤ most) }
    ensures value { result ≡ spec.first_of first second }
    ensures within { IfSome result (λ found. found.0 ≤ most) }
{
    match first {
        Some(found) => Some(found),
        None => second,
    }
}

/// A phrase of `most` marks at most, if it is one where it stands.
fn phrase_if(most: usize, holds: bool, phrase: Option<(usize, Phrase)>) -> Option<(usize, Phrase)>
    requires { IfSome phrase (λ found. found.0 ≤ most) }
    ensures value { result ≡ spec.phrase_if holds phrase }
    ensures within { IfSome result (λ found. found.0 ≤ most) }
{
    if holds { phrase } else { None }
}

/// The phrase of a rule at the front of marks, outside of brackets.
#[tactic(auto, unfolding(crate::specs::Changing::phrase_here))]
fn phrase_here(context: Context, marks: &[Mark<'_>]) -> Option<(usize, Phrase)>
    ensures value { result ≡ spec.phrase_here context marks.now }
    ensures within { IfSome result (λ found. found.0 ≤ length marks.now) }
{
    let most = marks.len();
    let label = phrase_if(most, context.has_label, label_phrase_at(marks));
    let pool = phrase_if(most, context.has_target, pool_phrase_at(marks));
    first_of(most, first_of(most, label, pool), rule_phrase_at(marks))
}

/// A word of a rule outside of brackets, with what it takes, as a change.
#[tactic(auto, unfolding(crate::specs::Changing::phrase_change))]
fn phrase_change<'a>(context: Context, marks: &[Mark<'a>]) -> Option<Found<'a>>
    ensures { result ≡ spec.phrase_change context marks.now }
{
    let (len, phrase) = phrase_here(context, marks)?;
    let word = marks.first()?;
    change_of(context, word, marks, len, phrase)
}

/// How many signs before an option go with it: a comma, or an open bracket.
fn lead_len(marks: &[Mark<'_>]) -> usize
    ensures value { result ≡ spec.lead_len marks.now }
    ensures within { result ≤ length marks.now }
{
    if begins_with(marks, b",") || begins_with(marks, b"(") {
        1
    } else {
        0
    }
}

/// How many signs behind an option go with it: the bracket's end, if it holds nothing else, or a comma, if none went
/// before.
fn trail_len(emptied: bool, takes_comma: bool, behind: &[Mark<'_>]) -> usize
    ensures value { result ≡ spec.trail_len emptied takes_comma behind.now }
    ensures within { result ≤ length behind.now }
{
    if emptied && begins_with(behind, b")") {
        return 1;
    }
    if takes_comma && begins_with(behind, b",") {
        return 1;
    }
    0
}

/// An option in the brackets behind `keep state`, with the signs round it that go with it, as a change of these marks.
fn option_in<'a>(
    context: Context,
    emptied: bool,
    marks: &[Mark<'a>],
    option: &[Mark<'a>],
) -> Option<Found<'a>>
    requires { option.now ≡ drop (spec.lead_len marks.now) marks.now }
    ensures { result ≡ spec.option_found context emptied marks.now option.now (option_at option.now) }
{
    let (len, phrase) = option_at(option)?;
    let word = option.first()?;
    let (_, behind) = option.split_at(len);
    let trail = trail_len(emptied, !begins_with(marks, b","), behind);
    change_of(context, word, marks, lead_len(marks) + len + trail, phrase)
}

/// The same at the front of marks.
#[tactic(auto, unfolding(crate::specs::Changing::option_change))]
fn option_change<'a>(context: Context, emptied: bool, marks: &[Mark<'a>]) -> Option<Found<'a>>
    ensures { result ≡ spec.option_change context emptied marks.now }
{
    let (_, option) = marks.split_at(lead_len(marks));
    option_in(context, emptied, marks, option)
}

/// Whether these marks open brackets that hold nothing but what is left out.
#[tactic(auto, unfolding(crate::specs::Changing::opens_emptied))]
fn opens_emptied(marks: &[Mark<'_>]) -> bool
    ensures { result ≡ spec.opens_emptied marks.now }
{
    match marks.first() {
        Some(first) => {
            is(first, b"(")
                && !begins_with(&marks[1..], b",")
                && are_all_left_out(Group::Options, &marks[1..])
        }
        None => false,
    }
}

/// A word of a list or a value by itself, as a change.
#[tactic(auto, unfolding(crate::specs::Changing::value_change))]
fn value_change<'a>(context: Context, marks: &[Mark<'a>]) -> Option<Found<'a>>
    ensures { result ≡ spec.value_change context marks.now }
{
    let word = marks.first()?;
    let phrase = value_phrase(context.says, word.piece.as_slice())?;
    change_of(context, word, marks, 1, phrase)
}

/// How many marks a sign has at the front of marks: one, or none if it isn't there.
pub fn sign_len(sign: &[u8], marks: &[Mark<'_>]) -> usize
    ensures value { result ≡ spec.sign_len sign.now marks.now }
    ensures within { result ≤ length marks.now }
{
    if begins_with(marks, sign) { 1 } else { 0 }
}

/// How many marks there are up to a comma that follows, with it; none if none does. It may stand on another line.
fn comma_len(behind: &[Mark<'_>]) -> usize
    ensures value { result ≡ spec.comma_len behind.now }
    ensures within { result ≤ length behind.now }
{
    let lines = newlines_len(behind);
    let (_, more) = behind.split_at(lines);
    if begins_with(more, b",") {
        lines + 1
    } else {
        0
    }
}

/// How many marks before an element go with it: a comma, and the ends of lines behind it.
pub fn comma_before(marks: &[Mark<'_>]) -> usize
    ensures value { result ≡ spec.comma_before marks.now }
    ensures within { result ≤ length marks.now }
{
    if !begins_with(marks, b",") {
        return 0;
    }
    1 + newlines_len(&marks[1..])
}

/// The ends of lines among the first `count` marks, which stay.
fn lines_in(marks: &[Mark<'_>], count: usize) -> Becomes
    requires { count ≤ length marks.now }
    ensures { result ≡ spec.lines_in marks.now count }
{
    let Some(first) = marks.first() else {
        return Becomes::Nothing;
    };
    let (gone, _) = marks.split_at(count);
    lines_between(first.start, end_of(first.start, gone))
}

/// The ends of lines between two places.
fn lines_between(start: Place, end: Place) -> Becomes
    ensures { result ≡ spec.lines_between start end }
{
    if start.line == end.line {
        Becomes::Nothing
    } else {
        Becomes::Lines(end.line.saturating_sub(start.line))
    }
}

/// An element of a list that begins behind `lead` of these marks, as a change of them, with the comma behind it if none
/// is before.
fn element_in<'a>(
    context: Context,
    group: Group,
    marks: &[Mark<'a>],
    lead: usize,
    element: &[Mark<'a>],
) -> Option<Found<'a>>
    requires element { element.now ≡ drop lead marks.now }
    requires within { lead ≤ length marks.now }
    ensures { result ≡ spec.element_in context group marks.now lead element.now }
{
    let len = element_len(group, element);
    if len == 0 {
        return None;
    }
    element_of(
        context,
        reason_of(group, element),
        marks,
        lead,
        element,
        len,
    )
}

/// An element of `len` marks that begins behind `lead` of these marks, as a change of them, with the comma behind it if
/// none is before.
pub fn element_of<'a>(
    context: Context,
    reason: Reason,
    marks: &[Mark<'a>],
    lead: usize,
    element: &[Mark<'a>],
    len: usize,
) -> Option<Found<'a>>
    requires element { element.now ≡ drop lead marks.now }
    requires within { lead ≤ length marks.now }
    requires len { len ≤ length element.now }
    ensures { result ≡ spec.element_of context reason marks.now lead element.now len }
{
    let word = element.first()?;
    let (_, behind) = element.split_at(len);
    let trail = if begins_with(marks, b",") {
        0
    } else {
        comma_len(behind)
    };
    let count = lead + len + trail;
    let phrase = Phrase(Takes::Nothing, lines_in(marks, count), reason);
    change_of(context, word, marks, count, phrase)
}

/// Why an element is left out.
fn reason_of(group: Group, element: &[Mark<'_>]) -> Reason
    ensures { result ≡ spec.reason_of group element.now }
{
    match group {
        Group::Timeouts => Reason::Adaptive,
        Group::Limits => Reason::Setting,
        _ => if is_no_address(element) {
            Reason::NoRoute
        } else {
            Reason::Inet6Address
        },
    }
}

/// Which elements are left out of a list of what words say.
fn group_of(says: Says) -> Option<Group>
    ensures { result ≡ spec.group_of says }
{
    match says {
        Says::Address | Says::Target => Some(Group::Unseen),
        Says::Timeout => Some(Group::Timeouts),
        Says::Limit => Some(Group::Limits),
        _ => None,
    }
}

/// Which elements are left out of the list that a word stands in.
fn left_out_of(context: Context) -> Option<Group>
    ensures { result ≡ spec.left_out_of context }
{
    if context.in_braces {
        group_of(context.says)
    } else {
        None
    }
}

/// An element of a list that is left out, with a `!` before it and the comma that goes with it, as a change.
#[tactic(auto, unfolding(crate::specs::Changing::list_change))]
fn list_change<'a>(context: Context, marks: &[Mark<'a>]) -> Option<Found<'a>>
    ensures { result ≡ spec.list_change context marks.now }
{
    let left_out = left_out_of(context)?;
    let comma = comma_before(marks);
    let (_, behind) = marks.split_at(comma);
    let lead = comma + sign_len(b"!", behind);
    let (_, element) = marks.split_at(lead);
    element_in(context, left_out, marks, lead, element)
}

/// A word of a list, as a change.
#[tactic(auto, unfolding(crate::specs::Changing::element_change))]
fn element_change<'a>(context: Context, marks: &[Mark<'a>]) -> Option<Found<'a>>
    ensures { result ≡ spec.element_change context marks.now }
{
    if let Some(found) = list_change(context, marks) {
        return Some(found);
    }
    value_change(context, marks)
}

/// A word of a rule outside of braces, as a change.
#[tactic(auto, unfolding(crate::specs::Changing::word_change))]
fn word_change<'a>(context: Context, marks: &[Mark<'a>]) -> Option<Found<'a>>
    ensures { result ≡ spec.word_change context marks.now }
{
    if opens_emptied(marks) {
        return option_change(context, true, marks);
    }
    if context.in_brackets {
        return option_change(context, context.emptied, marks);
    }
    phrase_change(context, marks)
}

/// A setting that is written otherwise, as a change.
#[tactic(auto, unfolding(crate::specs::Changing::setting_change))]
fn setting_change<'a>(context: Context, marks: &[Mark<'a>]) -> Option<Found<'a>>
    ensures { result ≡ spec.setting_change context marks.now }
{
    if let Some(found) = list_change(context, marks) {
        return Some(found);
    }
    let word = marks.first()?;
    let (len, phrase) = setting_at(marks)?;
    change_of(context, word, marks, len, phrase)
}

/// What is rewritten at the front of marks that stand in a rule.
#[tactic(auto, unfolding(crate::specs::Changing::rule_change))]
fn rule_change<'a>(context: Context, marks: &[Mark<'a>]) -> Option<Found<'a>>
    ensures { result ≡ spec.rule_change context marks.now }
{
    if let Some(found) = element_change(context, marks) {
        return Some(found);
    }
    if context.in_braces {
        None
    } else {
        word_change(context, marks)
    }
}

/// What is rewritten at the front of marks.
#[tactic(auto, unfolding(crate::specs::Changing::change_at))]
pub fn change_at<'a>(context: Context, marks: &[Mark<'a>]) -> Option<Found<'a>>
    ensures { result ≡ spec.change_at context marks.now }
{
    match context.within {
        Within::Nothing => statement_left_out(marks),
        Within::Rule | Within::Anchor => rule_change(context, marks),
        Within::Table => element_change(context, marks),
        Within::Setting => setting_change(context, marks),
        Within::Other => None,
    }
}

/// Puts a change behind those so far, and answers how many marks behind its first one it has.
pub fn put<'a>(
    changes: &mut Items<Change<'a>>,
    found: Option<Found<'a>>,
) -> Result<usize, AllocError>
    ensures changes { OnOk result (changes.new ≡ changes.old ++ spec.change_in found.entry) }
    ensures passed { IfOk result (λ passed. passed ≡ spec.passed_by found.entry) }
{
    match found {
        Some(found) => {
            changes.push(found.change)?;
            Ok(found.count.saturating_sub(1))
        }
        None => Ok(0),
    }
}
