//! What is rewritten of a whole text.
ghost use Rattle.std.specs.Prelude.{◌≡◌, ◌++◌, IfOk, OnOk};
ghost use Rattle.pfr_rewrite.specs.Whole as spec;

use crate::antispoof::antispoof_here;
use crate::unseen::{element_here, rule_here};
use pfr_given::Given;
use pfr_items::Items;
use pfr_marks::braces::are_closed;
use pfr_marks::mark::{BEGINNING, Mark, marks};
use pfr_phrases::change::{Change, Found};
use pfr_phrases::changing::put;
use pfr_phrases::context::{Context, Within};
use pfr_spelling::known::Known;
use pfr_spelling::replacing::{file_here, macro_here, or_change, value_here};
use pfr_spelling::tables::tables;
use pfr_spelling::targets::target_here;
use std::alloc::{AllocError, Global};

/// How many bytes of macros' values are read at most in a text.
const MOST_BYTES: usize = 4_194_304;

/// What is rewritten at the front of marks in a statement, by what is known beside it.
#[tactic(auto, unfolding(crate::specs::Whole::known_word))]
fn known_word<'a>(
    alloc: Global,
    given: &Given,
    known: &Known,
    context: Context,
    statement: &[Mark<'a>],
    marks: &[Mark<'a>],
) -> Result<Option<Found<'a>>, AllocError>
    ensures { IfOk result (λ found. found ≡ spec.known_word given.now known.now context statement.now marks.now) }
{
    if let Some(found) = target_here(alloc, given, known, context, marks)? {
        return Ok(Some(found));
    }
    if let Some(found) = file_here(alloc, given, known, context, statement, marks)? {
        return Ok(Some(found));
    }
    if let Some(found) = value_here(alloc, given, known, context, marks)? {
        return Ok(Some(found));
    }
    if let Some(found) = element_here(alloc, known, context, marks)? {
        return Ok(Some(found));
    }
    macro_here(alloc, given, known, context, marks)
}

/// The statement at the front of marks as a change, by what is known beside it.
#[tactic(auto, unfolding(crate::specs::Whole::statement_here))]
fn statement_here<'a>(
    alloc: Global,
    given: &Given,
    known: &Known,
    context: Context,
    marks: &[Mark<'a>],
) -> Result<Option<Found<'a>>, AllocError>
    ensures { IfOk result (λ found. found ≡ spec.statement_here given.now known.now context marks.now) }
{
    if let Some(found) = antispoof_here(alloc, given, known, context, marks)? {
        return Ok(Some(found));
    }
    rule_here(alloc, known, marks)
}

/// What is rewritten at the front of marks, by what is known beside their statement.
#[tactic(auto, unfolding(crate::specs::Whole::known_here))]
fn known_here<'a>(
    alloc: Global,
    given: &Given,
    known: &Known,
    context: Context,
    statement: &[Mark<'a>],
    marks: &[Mark<'a>],
) -> Result<Option<Found<'a>>, AllocError>
    ensures { IfOk result (λ found. found ≡ spec.known_here given.now known.now context statement.now marks.now) }
{
    match context.within {
        Within::Nothing => statement_here(alloc, given, known, context, marks),
        Within::Other => Ok(None),
        Within::Rule | Within::Anchor | Within::Table | Within::Setting => known_word(
            alloc, given, known, context, statement, marks,
        ),
    }
}

/// What is rewritten at the front of marks.
#[tactic(auto, unfolding(crate::specs::Whole::found_here))]
fn found_here<'a>(
    alloc: Global,
    given: &Given,
    known: &Known,
    context: Context,
    statement: &[Mark<'a>],
    marks: &[Mark<'a>],
) -> Result<Option<Found<'a>>, AllocError>
    ensures { IfOk result (λ found. found ≡ spec.found_here given.now known.now context statement.now marks.now) }
{
    let found = known_here(alloc, given, known, context, statement, marks)?;
    Ok(or_change(found, context, marks))
}

/// Where a mark stands.
#[derive(Clone, Copy)]
struct At {
    context: Context,
    /// How many marks belong to a change that was found before.
    passed: usize,
}

/// Puts what is rewritten at the front of marks behind the changes so far, and answers how many of the marks behind
/// belong to a change.
fn step<'a>(
    alloc: Global,
    changes: &mut Items<Change<'a>>,
    given: &Given,
    known: &Known,
    at: At,
    statement: &[Mark<'a>],
    marks: &[Mark<'a>],
) -> Result<usize, AllocError>
    ensures changes { OnOk result (changes.new ≡ changes.old ++ spec.changes_at given.now known.now at.context at.passed statement.now marks.now) }
    ensures passed { IfOk result (λ more. more ≡ spec.passed_behind given.now known.now at.context at.passed statement.now marks.now) }
{
    if at.passed > 0 {
        return Ok(at.passed - 1);
    }
    put(
        changes,
        found_here(alloc, given, known, at.context, statement, marks)?,
    )
}

/// Where a mark's statement begins. `before` is where the statement of the mark before begins.
fn begin_at(context: Context, before: usize, here: usize) -> usize
    ensures { result ≡ spec.begin_at context before here }
{
    if context.within == Within::Nothing {
        here
    } else {
        before
    }
}

/// What is known before a text for interfaces of these names.
pub(crate) fn known_before(
    alloc: Global,
    own: Items<Items<u8>>,
    marks: &[Mark<'_>],
) -> Result<Known, AllocError>
    ensures { IfOk result (λ known. known ≡ spec.known_before own marks.now) }
{
    let tables = tables(alloc, marks)?;
    Ok(Known {
        own,
        tables,
        macros: Items::new(alloc),
        left: MOST_BYTES,
    })
}

/// What is rewritten of the words of a text.
fn changes_of<'a>(
    alloc: Global,
    marks: &[Mark<'a>],
    given: &Given,
    before: Known,
) -> Result<Items<Change<'a>>, AllocError>
    ensures { IfOk result (λ changes. changes ≡ spec.changes_from given.now before spec.before 0 marks.now marks.now) }
{
    let mut changes = Items::new(alloc);
    let mut known = before;
    let mut context = Context::beginning(BEGINNING);
    let mut passed = 0;
    let mut begin = 0;
    for at in 0..marks.len() {
        let here = &marks[at..];
        begin = begin_at(context, begin, at);
        let place = At { context, passed };
        passed = step(
            alloc,
            &mut changes,
            given,
            &known,
            place,
            &marks[begin..],
            here,
        )?;
        known.go_behind(alloc, context, here)?;
        context = context.behind(here);
    }
    Ok(changes)
}

/// What is rewritten of a text for interfaces of these names, from its beginning to its end. Nothing is if a brace
/// isn't closed, or closes nothing, since then it isn't known where a statement ends.
#[tactic(auto, unfolding(crate::specs::Whole::changes))]
pub(crate) fn changes<'a>(
    alloc: Global,
    text: &'a [u8],
    own: Items<Items<u8>>,
    given: &Given,
) -> Result<Items<Change<'a>>, AllocError>
    ensures { IfOk result (λ changes. changes ≡ spec.changes text.now own given.now) }
{
    let marks = marks(alloc, text)?;
    if !are_closed(marks.as_slice()) {
        return Ok(Items::new(alloc));
    }
    let known = known_before(alloc, own, marks.as_slice())?;
    changes_of(alloc, marks.as_slice(), given, known)
}
