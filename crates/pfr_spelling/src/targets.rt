//! Targets of several addresses.
ghost use Rattle.std.specs.Prelude.{◌≡◌, ◌≤◌, length, IfOk, IfSome};
ghost use Rattle.pfr_spelling.specs.Targets as spec;

use crate::known::{Known, Replaced, text_change};
use crate::macros::used_value;
use crate::replacing::value_text;
use pfr_given::Given;
use pfr_items::Items;
use pfr_marks::mark::{Mark, begins_with, is, marks};
use pfr_phrases::applying::slash_in;
use pfr_phrases::change::{Found, Text};
use pfr_phrases::context::{Context, Says, Within};
use pfr_phrases::inet6::inet6_len;
use pfr_phrases::reason::Reason;
use pfr_phrases::values::is_network;
use std::alloc::{AllocError, Global};

/// A word, or the address of a network.
fn one_address(word: &[u8]) -> &[u8]
    ensures { result.now ≡ spec.one_address word.now }
{
    if !is_network(word) {
        return word;
    }
    let (address, _) = word.split_at(slash_in(word));
    address
}

/// What is known of a list's beginning.
#[derive(Clone, Copy)]
enum Seen {
    /// No element is here, nor in this many marks behind.
    Nothing(usize),
    /// An element begins.
    Element,
}

/// What is known at the first of these marks, if the first `passed` belong to what was seen.
fn see(passed: usize, marks: &[Mark<'_>]) -> Seen
    ensures { result ≡ spec.seen_at passed marks.now }
{
    if passed > 0 {
        return Seen::Nothing(passed - 1);
    }
    if begins_with(marks, b",") || begins_with(marks, b"\n") {
        return Seen::Nothing(0);
    }
    let len = inet6_len(marks);
    if len == 0 {
        Seen::Element
    } else {
        Seen::Nothing(len - 1)
    }
}

/// How many marks stand before the first element of a list that is no IPv6 address.
fn lead_len(marks: &[Mark<'_>]) -> usize
    ensures value { result ≡ spec.lead_from 0 0 marks.now }
    ensures within { result ≤ length marks.now }
{
    let mut passed: usize = 0;
    for at in 0..marks.len() {
        match see(passed, &marks[at..]) {
            Seen::Nothing(more) => passed = more,
            Seen::Element => return at,
        }
    }
    marks.len()
}

/// How many marks the element at the front has: a word, a word in round brackets or a table; none if there is none.
fn element_len(marks: &[Mark<'_>]) -> usize
    ensures value { result ≡ spec.element_len marks.now }
    ensures within { result ≤ length marks.now }
{
    let Some(first) = marks.first() else {
        return 0;
    };
    if is(first, b"}") {
        return 0;
    }
    if !(is(first, b"(") || is(first, b"<")) {
        return 1;
    }
    if marks.len() >= 3 { 3 } else { 0 }
}

/// The bytes of marks, one behind the other.
fn joined(alloc: Global, marks: &[Mark<'_>]) -> Result<Items<u8>, AllocError>
    ensures { IfOk result (λ made. made ≡ spec.joined marks.now) }
{
    let mut made = Items::new(alloc);
    for mark in marks {
        made.extend_from_slice(mark.piece.as_slice())?;
    }
    Ok(made)
}

/// The address that an element of a list stands for, which may be a macro.
fn address_of(alloc: Global, known: &Known, element: &[u8]) -> Result<Items<u8>, AllocError>
    ensures { IfOk result (λ address. address ≡ spec.address_of known.now element.now) }
{
    match used_value(known.macros.as_slice(), element) {
        Some(value) => Items::copied(alloc, one_address(value.as_slice())),
        None => Items::copied(alloc, one_address(element)),
    }
}

/// The first element of a list that is no IPv6 address. `behind` is what stands behind the list's brace.
#[tactic(auto, unfolding(crate::specs::Targets::first_element))]
fn first_element(alloc: Global, known: &Known, behind: &[Mark<'_>]) -> Result<Items<u8>, AllocError>
    ensures { IfOk result (λ made. made ≡ spec.first_element known.now behind.now) }
{
    let (_, element) = behind.split_at(lead_len(behind));
    let (element, _) = element.split_at(element_len(element));
    let element = joined(alloc, element)?;
    address_of(alloc, known, element.as_slice())
}

/// How many marks a list has from its brace to the one that closes it; none if none does.
pub fn list_len(marks: &[Mark<'_>]) -> usize
    ensures value { result ≡ spec.list_from 0 marks.now }
    ensures within { result ≤ length marks.now }
{
    for (before, mark) in marks.iter().enumerate() {
        if is(mark, b"}") {
            return before + 1;
        }
    }
    0
}

/// The one address that is written for a target, and how many marks the target has.
#[derive(Drop)]
struct First {
    count: usize,
    address: Items<u8>,
}

/// The address of a network.
fn first_of_network(alloc: Global, word: &[u8]) -> Result<Option<First>, AllocError>
    ensures value { IfOk result (λ found. found ≡ spec.first_of_network word.now) }
    ensures within { IfOk result (λ found. IfSome found (λ found. found.count ≡ 1)) }
{
    if !is_network(word) {
        return Ok(None);
    }
    Ok(Some(First {
        count: 1,
        address: Items::copied(alloc, one_address(word))?,
    }))
}

/// The one address that is written for the target at the front of marks.
#[tactic(auto, unfolding(crate::specs::Targets::first_address))]
fn first_address(
    alloc: Global,
    known: &Known,
    marks: &[Mark<'_>],
) -> Result<Option<First>, AllocError>
    ensures value { IfOk result (λ found. found ≡ spec.first_address known.now marks.now) }
    ensures within { IfOk result (λ found. IfSome found (λ found. found.count ≤ length marks.now)) }
{
    let Some(word) = marks.first() else {
        return Ok(None);
    };
    if !is(word, b"{") {
        return first_of_network(alloc, word.piece.as_slice());
    }
    let count = list_len(marks);
    if count == 0 {
        return Ok(None);
    }
    let address = first_element(alloc, known, &marks[1..])?;
    Ok(Some(First { count, address }))
}

/// The address of a macro's value as a target, if it is all of the value, which has `count` marks.
fn as_one(count: usize, found: Option<First>) -> Option<First>
    ensures value { result ≡ spec.as_one count found }
    ensures within { IfSome result (λ found. found.count ≡ 1) }
{
    let found = found?;
    if found.count != count {
        return None;
    }
    Some(First {
        count: 1,
        address: found.address,
    })
}

/// The one address that is written for a macro as a target.
#[tactic(auto, unfolding(crate::specs::Targets::first_of_value))]
fn first_of_value(alloc: Global, known: &Known, value: &[u8]) -> Result<Option<First>, AllocError>
    ensures value { IfOk result (λ found. found ≡ spec.first_of_value known.now value.now) }
    ensures within { IfOk result (λ found. IfSome found (λ found. found.count ≡ 1)) }
{
    let marks = marks(alloc, value)?;
    Ok(as_one(marks.len(), first_address(alloc, known, marks.as_slice())?))
}

/// The one address that is written for the target at the front of marks, of the text or of a macro's value.
#[tactic(auto, unfolding(crate::specs::Targets::first_target))]
fn first_target(
    alloc: Global,
    known: &Known,
    marks: &[Mark<'_>],
) -> Result<Option<First>, AllocError>
    ensures value { IfOk result (λ found. found ≡ spec.first_target known.now marks.now) }
    ensures within { IfOk result (λ found. IfSome found (λ found. found.count ≤ length marks.now)) }
{
    if marks.is_empty() {
        return Ok(None);
    }
    match known.value_within(known.left, marks) {
        Some(value) => first_of_value(alloc, known, value.as_slice()),
        None => first_address(alloc, known, marks),
    }
}

/// The target at the front of marks as a change, if it has several addresses.
#[tactic(auto, unfolding(crate::specs::Targets::target_here))]
pub fn target_here<'a>(
    alloc: Global,
    given: &Given,
    known: &Known,
    context: Context,
    marks: &[Mark<'a>],
) -> Result<Option<Found<'a>>, AllocError>
    ensures { IfOk result (λ found. found ≡ spec.target_here given.now known.now context marks.now) }
{
    if context.within != Within::Rule || context.says != Says::Target || context.in_braces {
        return Ok(None);
    }
    let (Some(word), Some(first)) = (marks.first(), first_target(alloc, known, marks)?) else {
        return Ok(None);
    };
    let text = value_text(alloc, given, known, context, first.address.as_slice())?;
    let replaced = Replaced {
        count: first.count,
        text,
        reason: Reason::Pool,
    };
    Ok(text_change(context, word, marks, Some(replaced)))
}
