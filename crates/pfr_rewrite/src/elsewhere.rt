//! Rules of interfaces that a run isn't about.
ghost use Rattle.std.specs.Prelude.{◌≡◌, ◌++◌, IfOk, OnOk};
ghost use Rattle.pfr_rewrite.specs.Elsewhere as spec;

use crate::interfaces::{UNKNOWN, interfaces_len, is_named, names_in};
use crate::whole::known_before;
use pfr_given::Given;
use pfr_items::Items;
use pfr_marks::braces::are_closed;
use pfr_marks::mark::{BEGINNING, Mark, begins_with, is, marks};
use pfr_phrases::change::{Finding, finding_at};
use pfr_phrases::context::{Context, Within};
use pfr_phrases::reason::Reason;
use pfr_spelling::known::Known;
use std::alloc::{AllocError, Global};

/// Whether a rule of an interface of this name may hold: the interface is one of the run's own, or isn't known.
fn may_hold(own: &[Items<u8>], name: &[u8]) -> bool
    ensures { result ≡ spec.may_hold own.now name.now }
{
    is_named(own, name) || name == UNKNOWN
}

/// Whether a rule of one of these interfaces may hold.
fn one_may_hold(own: &[Items<u8>], names: &[Items<u8>]) -> bool
    ensures { result ≡ spec.one_may_hold own.now names.now }
{
    for name in names {
        if may_hold(own, name.as_slice()) {
            return true;
        }
    }
    false
}

/// Whether one of these marks is a `!`.
fn has_not(marks: &[Mark<'_>]) -> bool
    ensures { result ≡ spec.has_not marks.now }
{
    for mark in marks {
        if is(mark, b"!") {
            return true;
        }
    }
    false
}

/// Whether no packet of a run is on these interfaces.
fn are_elsewhere(
    alloc: Global,
    given: &Given,
    known: &Known,
    interfaces: &[Mark<'_>],
) -> Result<bool, AllocError>
    ensures { IfOk result (λ are. are ≡ spec.are_elsewhere given.now known.now interfaces.now) }
{
    if has_not(interfaces) {
        return Ok(false);
    }
    let names = names_in(alloc, given, known, interfaces)?;
    Ok(names.len() > 0 && !one_may_hold(known.own.as_slice(), names.as_slice()))
}

/// The first interface behind `on`.
fn first_name<'m, 'a>(behind: &'m [Mark<'a>]) -> &'m [Mark<'a>]
    ensures { result.now ≡ spec.first_name behind.now }
{
    if begins_with(behind, b"{") {
        return &behind[1..];
    }
    behind
}

/// What is said of the interfaces behind `on`.
#[tactic(auto, unfolding(crate::specs::Elsewhere::said_behind))]
fn said_behind<'a>(
    alloc: Global,
    given: &Given,
    known: &Known,
    behind: &[Mark<'a>],
) -> Result<Option<Finding<'a>>, AllocError>
    ensures { IfOk result (λ said. said ≡ spec.said_behind given.now known.now behind.now) }
{
    let (interfaces, _) = behind.split_at(interfaces_len(behind));
    if !are_elsewhere(alloc, given, known, interfaces)? {
        return Ok(None);
    }
    match first_name(behind).first() {
        Some(word) => Ok(Some(finding_at(word, Reason::Elsewhere))),
        None => Ok(None),
    }
}

/// Whether the front of these marks is the `on` of a rule or an anchor.
fn begins_interfaces(context: Context, marks: &[Mark<'_>]) -> bool
    ensures { result ≡ spec.begins_interfaces context marks.now }
{
    match context.within {
        Within::Rule | Within::Anchor => !context.in_braces && begins_with(marks, b"on"),
        _ => false,
    }
}

/// Puts what is said of the interfaces of a rule behind the findings so far.
fn put<'a>(
    alloc: Global,
    said: &mut Items<Finding<'a>>,
    given: &Given,
    known: &Known,
    context: Context,
    marks: &[Mark<'a>],
) -> Result<(), AllocError>
    ensures { OnOk result (said.new ≡ said.old ++ spec.said_at given.now known.now context marks.now) }
{
    if !begins_interfaces(context, marks) {
        return Ok(());
    }
    if let Some(finding) = said_behind(alloc, given, known, &marks[1..])? {
        said.push(finding)?;
    }
    Ok(())
}

/// What is said of the interfaces of rules.
fn said_of<'a>(
    alloc: Global,
    marks: &[Mark<'a>],
    given: &Given,
    before: Known,
) -> Result<Items<Finding<'a>>, AllocError>
    ensures { IfOk result (λ said. said ≡ spec.said_from given.now before spec.before marks.now) }
{
    let mut said = Items::new(alloc);
    let mut known = before;
    let mut context = Context::beginning(BEGINNING);
    for at in 0..marks.len() {
        let here = &marks[at..];
        put(alloc, &mut said, given, &known, context, here)?;
        known.go_behind(alloc, context, here)?;
        context = context.behind(here);
    }
    Ok(said)
}

/// The rules and anchors of a text that hold for no packet of a run, since they name other interfaces than the run's
/// own. Each is reported at the first interface that it names.
#[tactic(auto, unfolding(crate::specs::Elsewhere::other_interfaces))]
pub(crate) fn other_interfaces<'a>(
    alloc: Global,
    text: &'a [u8],
    own: Items<Items<u8>>,
    given: &Given,
) -> Result<Items<Finding<'a>>, AllocError>
    ensures { IfOk result (λ said. said ≡ spec.other_interfaces text.now own given.now) }
{
    let marks = marks(alloc, text)?;
    if !are_closed(marks.as_slice()) {
        return Ok(Items::new(alloc));
    }
    let known = known_before(alloc, own, marks.as_slice())?;
    said_of(alloc, marks.as_slice(), given, known)
}
