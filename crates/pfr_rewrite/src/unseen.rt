//! Rules and elements of lists that are left out for what macros stand for.
ghost use Rattle.std.specs.Prelude.{◌≡◌, IfOk};
ghost use Rattle.pfr_rewrite.specs.Unseen as spec;
ghost use Rattle.pfr_rewrite.specs.UnseenValues as values;

use crate::unseen_list::unseen_list;
use pfr_marks::mark::{Mark, begins_with, is, marks};
use pfr_phrases::change::{Finding, Found, finding_at};
use pfr_phrases::changing::{comma_before, element_of, sign_len};
use pfr_phrases::context::{Context, Says};
use pfr_phrases::options::{Group, element_len};
use pfr_phrases::reason::Reason;
use pfr_phrases::statements::{
    criterion_in, end_of, may_ask, statement_left_out, statement_len, unseen_at, whole,
};
use pfr_spelling::known::Known;
use pfr_spelling::targets::list_len;
use std::alloc::{AllocError, Global};

/// Why a rule with a value is left out, if it is: for a word of the value.
fn reason_in(alloc: Global, value: &[u8]) -> Result<Option<Reason>, AllocError>
    ensures { IfOk result (λ reason. reason ≡ spec.reason_in value.now) }
{
    let words = marks(alloc, value)?;
    match criterion_in(words.as_slice()) {
        Some(finding) => Ok(Some(finding.reason)),
        None => Ok(None),
    }
}

/// Whether these marks are one element of a list and no more, or one list.
fn are_one(words: &[Mark<'_>]) -> bool
    ensures { result ≡ values.are_one words.now }
{
    if begins_with(words, b"{") {
        return list_len(words) == words.len();
    }
    let lead = sign_len(b"!", words);
    let (_, element) = words.split_at(lead);
    element_len(Group::Unseen, element) == element.len()
}

/// Why addresses are left out that are these marks and nothing else, if they are.
fn unseen_of(words: &[Mark<'_>]) -> Option<Reason>
    ensures { result ≡ values.unseen_of words.now }
{
    if are_one(words) {
        unseen_at(words)
    } else {
        None
    }
}

/// Why a rule with a value as addresses is left out, if it is.
fn unseen_in(alloc: Global, value: &[u8]) -> Result<Option<Reason>, AllocError>
    ensures { IfOk result (λ reason. reason ≡ values.unseen_in value.now) }
{
    let words = marks(alloc, value)?;
    Ok(unseen_of(words.as_slice()))
}

/// Why a rule is left out for the macro at the front of marks, if its value has at most `left` bytes.
fn reason_at(
    alloc: Global,
    known: &Known,
    left: usize,
    marks: &[Mark<'_>],
) -> Result<Option<Reason>, AllocError>
    ensures { IfOk result (λ reason. reason ≡ spec.reason_at known.now left marks.now) }
{
    match known.value_within(left, marks) {
        Some(value) => reason_in(alloc, value.as_slice()),
        None => Ok(None),
    }
}

/// Why addresses are left out that are the macro at the front of marks, if its value has at most `left` bytes.
pub(crate) fn unseen_value(
    alloc: Global,
    known: &Known,
    left: usize,
    marks: &[Mark<'_>],
) -> Result<Option<Reason>, AllocError>
    ensures { IfOk result (λ reason. reason ≡ values.unseen_value known.now left marks.now) }
{
    match known.value_within(left, marks) {
        Some(value) => unseen_in(alloc, value.as_slice()),
        None => Ok(None),
    }
}

/// Why the addresses at the front of marks are left out, if they are: a list, or a macro whose value has at most `left`
/// bytes.
fn unseen_here(
    alloc: Global,
    known: &Known,
    left: usize,
    marks: &[Mark<'_>],
) -> Result<Option<Reason>, AllocError>
    ensures { IfOk result (λ reason. reason ≡ spec.unseen_here known.now left marks.now) }
{
    match marks {
        [first, behind @ ..] if is(first, b"{") => unseen_list(alloc, known, left, behind),
        _ => unseen_value(alloc, known, left, marks),
    }
}

/// Why a rule is left out for the word at the front of marks, before others.
fn reason_here(
    alloc: Global,
    known: &Known,
    left: usize,
    first: &Mark<'_>,
    behind: &[Mark<'_>],
    marks: &[Mark<'_>],
) -> Result<Option<Reason>, AllocError>
    ensures { IfOk result (λ reason. reason ≡ spec.reason_here known.now left first.now behind.now marks.now) }
{
    if is(first, b"from") || is(first, b"to") {
        return unseen_here(alloc, known, left, behind);
    }
    reason_at(alloc, known, left, marks)
}

/// Why a rule is left out for the word at the front of marks, and where it is said.
#[tactic(auto, unfolding(crate::specs::Unseen::said_here))]
fn said_here<'a>(
    alloc: Global,
    known: &Known,
    left: usize,
    marks: &[Mark<'a>],
) -> Result<Option<Finding<'a>>, AllocError>
    ensures { IfOk result (λ said. said ≡ spec.said_here known.now left marks.now) }
{
    let Some(first) = marks.first() else {
        return Ok(None);
    };
    match reason_here(alloc, known, left, first, &marks[1..], marks)? {
        Some(reason) => Ok(Some(finding_at(first, reason))),
        None => Ok(None),
    }
}

/// Why a rule is left out for what its macros stand for, at the first of them.
fn said_in<'a>(
    alloc: Global,
    known: &Known,
    rule: &[Mark<'a>],
) -> Result<Option<Finding<'a>>, AllocError>
    ensures { IfOk result (λ said. said ≡ spec.said_from known.now known.now.left rule.now) }
{
    let mut left = known.left;
    for at in 0..rule.len() {
        let here = &rule[at..];
        if let Some(finding) = said_here(alloc, known, left, here)? {
            return Ok(Some(finding));
        }
        left = left.saturating_sub(known.value_len(here));
    }
    Ok(None)
}

/// Whether the statement at the front of marks may be left out for its criteria. If it may not, as with a bracket or a
/// brace before its first word, it isn't read whole.
fn begins_asking(marks: &[Mark<'_>]) -> bool
    ensures { result ≡ spec.begins_asking marks.now }
{
    match marks.first() {
        Some(first) => may_ask(first.piece.as_slice()),
        None => false,
    }
}

/// The rule at the front of marks as a change, if it is left out for what its macros stand for, and not for its own
/// words.
#[tactic(auto, unfolding(crate::specs::Unseen::rule_here))]
pub(crate) fn rule_here<'a>(
    alloc: Global,
    known: &Known,
    marks: &[Mark<'a>],
) -> Result<Option<Found<'a>>, AllocError>
    ensures { IfOk result (λ found. found ≡ spec.rule_here known.now marks.now) }
{
    if !begins_asking(marks) || statement_left_out(marks).is_some() {
        return Ok(None);
    }
    let (statement, _) = marks.split_at(statement_len(marks));
    let Some(first) = statement.first() else {
        return Ok(None);
    };
    match said_in(alloc, known, statement)? {
        Some(finding) => Ok(Some(whole(
            first.start,
            end_of(first.end, statement),
            statement.len(),
            finding,
        ))),
        None => Ok(None),
    }
}

/// Why an element is left out that stands only for what a rule of addresses is left out for.
fn element_reason(reason: Reason) -> Reason
    ensures { result ≡ spec.element_reason reason }
{
    match reason {
        Reason::Inet6 => Reason::Inet6Address,
        _ => Reason::NoRoute,
    }
}

/// Whether a list of addresses is open.
fn lists_addresses(context: Context) -> bool
    ensures { result ≡ spec.lists_addresses context }
{
    match context.says {
        Says::Address | Says::Target => context.in_braces,
        _ => false,
    }
}

/// A macro in a list of addresses that is left out for what it stands for, with the comma that goes with it, as a
/// change.
#[tactic(auto, unfolding(crate::specs::Unseen::element_here))]
pub(crate) fn element_here<'a>(
    alloc: Global,
    known: &Known,
    context: Context,
    marks: &[Mark<'a>],
) -> Result<Option<Found<'a>>, AllocError>
    ensures { IfOk result (λ found. found ≡ spec.element_here known.now context marks.now) }
{
    if !lists_addresses(context) {
        return Ok(None);
    }
    let comma = comma_before(marks);
    let (_, behind) = marks.split_at(comma);
    let lead = comma + sign_len(b"!", behind);
    let (_, element) = marks.split_at(lead);
    match unseen_value(alloc, known, known.left, element)? {
        Some(reason) => Ok(element_of(context, element_reason(reason), marks, lead, element, 1)),
        None => Ok(None),
    }
}
