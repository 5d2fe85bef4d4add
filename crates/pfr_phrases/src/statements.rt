//! The statements that are left out whole.
ghost use Rattle.std.specs.Prelude.{◌≡◌, ◌≤◌, length};
ghost use Rattle.pfr_phrases.specs.Statements as spec;

use crate::change::{Becomes, Change, Finding, Found, finding_at};
use crate::options::{Group, are_all_left_out, element_len};
use crate::reason::Reason;
use pfr_marks::mark::{Mark, Place, begins_with, is};
use pfr_words::names::{entry_of, is_among};

/// The first words of statements that are left out.
const STATEMENTS: [(&[u8], Reason); 4] = [
    (b"scrub", Reason::Scrub),
    (b"altq", Reason::Queue),
    (b"queue", Reason::Queue),
    (b"match", Reason::Match),
];

/// The settings that are left out, by the word behind `set`.
const SETTINGS: [(&[u8], Reason); 6] = [
    (b"fingerprints", Reason::Setting),
    (b"syncookies", Reason::Setting),
    (b"keepcounters", Reason::Setting),
    (b"fail-policy", Reason::Setting),
    (b"reassemble", Reason::Reassemble),
    (b"state-defaults", Reason::StateDefaults),
];

/// The words in a rule by which it asks for what packets don't show here.
const CRITERIA: [(&[u8], Reason); 10] = [
    (b"inet6", Reason::Inet6),
    (b"icmp6-type", Reason::Inet6),
    (b"tagged", Reason::Criterion),
    (b"user", Reason::Criterion),
    (b"group", Reason::Criterion),
    (b"os", Reason::Criterion),
    (b"probability", Reason::Criterion),
    (b"fragment", Reason::Criterion),
    (b"tos", Reason::Criterion),
    (b"received-on", Reason::Criterion),
];

/// The words of statements that are left out for what they ask for.
const ASKING: [&[u8]; 8] = [
    b"pass",
    b"block",
    b"match",
    b"nat",
    b"rdr",
    b"binat",
    b"no",
    b"antispoof",
];

/// Why the statement that a word begins is left out, whatever is behind it.
#[tactic(auto, unfolding(crate::specs::Statements::statement_reason))]
fn statement_reason(word: &[u8]) -> Option<Reason>
    ensures { result ≡ spec.statement_reason word.now }
{
    entry_of(&STATEMENTS, word)
}

/// Why a setting is left out, whatever it sets.
#[tactic(auto, unfolding(crate::specs::Statements::setting_reason))]
fn setting_reason(word: &[u8]) -> Option<Reason>
    ensures { result ≡ spec.setting_reason word.now }
{
    entry_of(&SETTINGS, word)
}

/// Why a rule with this word is left out.
#[tactic(auto, unfolding(crate::specs::Statements::criterion_reason))]
fn criterion_reason(word: &[u8]) -> Option<Reason>
    ensures { result ≡ spec.criterion_reason word.now }
{
    entry_of(&CRITERIA, word)
}

/// Whether the statement that a word begins may be left out for what it asks for.
#[tactic(auto, unfolding(crate::specs::Statements::may_ask))]
pub fn may_ask(word: &[u8]) -> bool
    ensures { result ≡ spec.may_ask word.now }
{
    is_among(&ASKING, word)
}

/// Whether a list is open behind a mark, by whether one is before it.
fn in_braces_behind(in_braces: bool, mark: &Mark<'_>) -> bool
    ensures { result ≡ spec.in_braces_behind in_braces mark.now }
{
    if is(mark, b"{") {
        true
    } else if is(mark, b"}") {
        false
    } else {
        in_braces
    }
}

/// How many marks the statement at the front has. An end of line in braces is one of them.
#[tactic(auto, unfolding(crate::specs::Statements::statement_len))]
pub fn statement_len(marks: &[Mark<'_>]) -> usize
    ensures value { result ≡ spec.statement_len marks.now }
    ensures within { result ≤ length marks.now }
{
    let mut in_braces = false;
    for (before, mark) in marks.iter().enumerate() {
        if !in_braces && is(mark, b"\n") {
            return before;
        }
        in_braces = in_braces_behind(in_braces, mark);
    }
    marks.len()
}

/// Whether these marks begin with elements that are left out alone: one, maybe behind a `!`, or a list of them.
#[tactic(auto, unfolding(crate::specs::Statements::are_only))]
fn are_only(group: Group, marks: &[Mark<'_>]) -> bool
    ensures { result ≡ spec.are_only group marks.now }
{
    let Some(first) = marks.first() else {
        return false;
    };
    let behind = &marks[1..];
    if is(first, b"{") {
        return !begins_with(behind, b"}") && are_all_left_out(group, behind);
    }
    if is(first, b"!") {
        return 0 < element_len(group, behind);
    }
    0 < element_len(group, marks)
}

/// Why a rule is left out for what these marks say of addresses, if it is.
pub fn unseen_at(marks: &[Mark<'_>]) -> Option<Reason>
    ensures { result ≡ spec.unseen_at marks.now }
{
    if are_only(Group::Inet6, marks) {
        return Some(Reason::Inet6);
    }
    if are_only(Group::Unseen, marks) {
        Some(Reason::Criterion)
    } else {
        None
    }
}

/// Why a rule is left out for the word at the front of marks, if it is.
#[tactic(auto, unfolding(crate::specs::Statements::criterion_at))]
fn criterion_at<'a>(marks: &[Mark<'a>]) -> Option<Finding<'a>>
    ensures { result ≡ spec.criterion_at marks.now }
{
    let first = marks.first()?;
    if let Some(reason) = criterion_reason(first.piece.as_slice()) {
        return Some(finding_at(first, reason));
    }
    if is(first, b"from") || is(first, b"to") {
        let reason = unseen_at(&marks[1..])?;
        Some(finding_at(first, reason))
    } else {
        None
    }
}

/// Why a rule is left out, at the first word by which it asks for what packets don't show.
pub fn criterion_in<'a>(rule: &[Mark<'a>]) -> Option<Finding<'a>>
    ensures { result ≡ spec.criterion_in rule.now }
{
    for at in 0..rule.len() {
        if let Some(finding) = criterion_at(&rule[at..]) {
            return Some(finding);
        }
    }
    None
}

/// Why `set timeout` or `set limit` is left out, if all that it sets is.
fn setting_left_out(second: &Mark<'_>, behind: &[Mark<'_>]) -> Option<Reason>
    ensures { result ≡ spec.setting_left_out second.now behind.now }
{
    if is(second, b"timeout") && are_only(Group::Timeouts, behind) {
        return Some(Reason::Adaptive);
    }
    if is(second, b"limit") && are_only(Group::Limits, behind) {
        return Some(Reason::Setting);
    }
    setting_reason(second.piece.as_slice())
}

/// The second word of a statement, if the statement is left out for it.
fn second_left_out<'a>(first: &Mark<'a>, behind: &[Mark<'a>]) -> Option<Finding<'a>>
    ensures { result ≡ spec.second_left_out first.now behind.now }
{
    let second = behind.first()?;
    if is(first, b"no") && is(second, b"scrub") {
        return Some(finding_at(second, Reason::Scrub));
    }
    if is(first, b"set") {
        let reason = setting_left_out(second, &behind[1..])?;
        Some(finding_at(second, reason))
    } else {
        None
    }
}

/// Why a statement is left out, at the word for which it is.
#[tactic(auto, unfolding(crate::specs::Statements::left_out_in))]
fn left_out_in<'a>(statement: &[Mark<'a>]) -> Option<Finding<'a>>
    ensures { result ≡ spec.left_out_in statement.now }
{
    let first = statement.first()?;
    if let Some(reason) = statement_reason(first.piece.as_slice()) {
        return Some(finding_at(first, reason));
    }
    if let Some(finding) = second_left_out(first, &statement[1..]) {
        return Some(finding);
    }
    if may_ask(first.piece.as_slice()) {
        criterion_in(statement)
    } else {
        None
    }
}

/// Whether the statement at the front of marks may be left out, by its first word. If it may not, as with a bracket or
/// a brace before that word, it isn't read whole.
fn may_be_left_out(marks: &[Mark<'_>]) -> bool
    ensures { result ≡ spec.may_be_left_out marks.now }
{
    let Some(first) = marks.first() else {
        return false;
    };
    let word = first.piece.as_slice();
    statement_reason(word).is_some() || is(first, b"no") || is(first, b"set") || may_ask(word)
}

/// The end of the last of some marks, or a place if there are none.
pub fn end_of(place: Place, marks: &[Mark<'_>]) -> Place
    ensures { result ≡ spec.end_of place marks.now }
{
    let mut end = place;
    for mark in marks {
        end = mark.end;
    }
    end
}

/// The statement at the front of marks as a change, if it is left out.
#[tactic(auto, unfolding(crate::specs::Statements::statement_left_out))]
pub fn statement_left_out<'a>(marks: &[Mark<'a>]) -> Option<Found<'a>>
    ensures { result ≡ spec.statement_left_out marks.now }
{
    if !may_be_left_out(marks) {
        return None;
    }
    let (statement, _) = marks.split_at(statement_len(marks));
    let finding = left_out_in(statement)?;
    let first = statement.first()?;
    Some(whole(
        first.start,
        end_of(first.end, statement),
        statement.len(),
        finding,
    ))
}

/// What stands between two places, `count` marks, as a change that leaves no word of it.
pub fn whole<'a>(start: Place, end: Place, count: usize, finding: Finding<'a>) -> Found<'a>
    ensures { result ≡ spec.whole start end count finding.entry }
{
    Found {
        count,
        change: Change {
            from: start.offset,
            parted: false,
            to: end,
            becomes: Becomes::Lines(end.line.saturating_sub(start.line)),
            blank: false,
            finding,
            text: None,
        },
    }
}
