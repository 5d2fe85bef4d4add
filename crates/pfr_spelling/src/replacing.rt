//! Ports, tables and macros that are written otherwise by what is known beside them.
ghost use Rattle.std.specs.Prelude.{◌≡◌, ◌≤◌, ◌++◌, length, map, false, IfOk, OnOk};
ghost use Rattle.std.specs.Fmt.{decimal};
ghost use Rattle.pfr_phrases.specs.Changing.{change_at, first_found};
ghost use Rattle.pfr_spelling.specs.Replacing as spec;

use crate::known::{Known, Replaced, given_here, replaced_by, text_change};
use crate::macros::{is_plain, used_value};
use crate::tables::{Table, is_table, new_name};
use pfr_digits::Tail;
use pfr_given::{Given, Subject, count_of, joined};
use pfr_items::Items;
use pfr_marks::braces::are_closed;
use pfr_marks::mark::{BEGINNING, Mark, begins_with, is, marks};
use pfr_phrases::applying::{between, rewritten};
use pfr_phrases::change::{Change, Found, Text};
use pfr_phrases::changing::{change_at, change_of, put};
use pfr_phrases::context::{Context, Says, Within};
use pfr_phrases::phrases::file_phrase_at;
use pfr_phrases::reason::Reason;
use pfr_phrases::statements::end_of;
use pfr_phrases::values::number_of;
use pfr_words::names::is_name;
use std::alloc::{AllocError, Global};

/// Where the first colon of a word stands, or its end.
fn colon_in(word: &[u8]) -> usize
    ensures value { result ≡ spec.colon_from 0 word.now }
    ensures within { result ≤ length word.now }
{
    for (before, byte) in word.iter().enumerate() {
        if *byte == b':' {
            return before;
        }
    }
    word.len()
}

/// A number in decimal.
fn number_text(alloc: Global, number: u16) -> Result<Items<u8>, AllocError>
    ensures { IfOk result (λ text. text ≡ decimal number) }
{
    let mut digits = Tail::new();
    digits.put_number(u64::from(number));
    Items::copied(alloc, digits.as_slice())
}

/// The port of a service that the strict reader doesn't know.
#[tactic(auto, unfolding(crate::specs::Replacing::port_text))]
fn port_text(alloc: Global, given: &Given, name: &[u8]) -> Result<Option<Items<u8>>, AllocError>
    ensures { IfOk result (λ text. text ≡ spec.port_text given.now name.now) }
{
    if count_of(given, Subject::Service, name, b"") == 1 {
        return Ok(Some(joined(alloc, given, Subject::Service, name, b"")?));
    }
    match number_of(Says::Port, name) {
        Some(number) => Ok(Some(number_text(alloc, number)?)),
        None => Ok(None),
    }
}

/// Puts a port at the end, or the word that it is written as.
fn put_port(made: &mut Items<u8>, name: &[u8], port: &Option<Items<u8>>) -> Result<(), AllocError>
    ensures { OnOk result (made.new ≡ made.old ++ spec.port_or port.now name.now) }
{
    match port {
        Some(port) => made.extend_from_slice(port.as_slice()),
        None => made.extend_from_slice(name),
    }
}

/// A range of ports with their numbers.
fn range_text(
    alloc: Global,
    low: &[u8],
    first: &Option<Items<u8>>,
    high: &[u8],
    last: &Option<Items<u8>>,
) -> Result<Items<u8>, AllocError>
    ensures { IfOk result (λ text. text ≡ spec.range_text low.now first.now high.now last.now) }
{
    let mut made = Items::new(alloc);
    put_port(&mut made, low, first)?;
    made.push(b':')?;
    put_port(&mut made, high, last)?;
    Ok(made)
}

/// What a range of ports is written as, if the strict reader doesn't know one of them.
#[tactic(auto, unfolding(crate::specs::Replacing::ports_text))]
fn ports_text(alloc: Global, given: &Given, word: &[u8]) -> Result<Option<Items<u8>>, AllocError>
    ensures { IfOk result (λ text. text ≡ spec.ports_text given.now word.now) }
{
    let (low, behind) = word.split_at(colon_in(word));
    if behind.is_empty() {
        return Ok(None);
    }
    let high = &behind[1..];
    let first = port_text(alloc, given, low)?;
    let last = port_text(alloc, given, high)?;
    if first.is_none() && last.is_none() {
        return Ok(None);
    }
    Ok(Some(range_text(alloc, low, &first, high, &last)?))
}

/// A range of ports at the front of marks as a change.
#[tactic(auto, unfolding(crate::specs::Replacing::ports_here))]
fn ports_here<'a>(
    alloc: Global,
    given: &Given,
    context: Context,
    marks: &[Mark<'a>],
) -> Result<Option<Found<'a>>, AllocError>
    ensures { IfOk result (λ found. found ≡ spec.ports_here given.now context marks.now) }
{
    if context.says != Says::Port {
        return Ok(None);
    }
    let Some(word) = marks.first() else {
        return Ok(None);
    };
    let bytes = ports_text(alloc, given, word.piece.as_slice())?;
    Ok(text_change(
        context,
        word,
        marks,
        replaced_by(alloc, bytes, 1, Reason::Name),
    ))
}

/// The table's name at the front of marks that a table may not have here, as a change.
#[tactic(auto, unfolding(crate::specs::Replacing::table_here))]
fn table_here<'a>(
    alloc: Global,
    tables: &[Table],
    context: Context,
    marks: &[Mark<'a>],
) -> Result<Option<Found<'a>>, AllocError>
    ensures { IfOk result (λ found. found ≡ spec.table_here tables.now context marks.now) }
{
    let Some(word) = marks.first() else {
        return Ok(None);
    };
    let name = word.piece.as_slice();
    if !context.in_angles || !is_plain(name) || is_name(name) {
        return Ok(None);
    }
    let bytes = new_name(alloc, tables, name)?;
    Ok(text_change(
        context,
        word,
        marks,
        replaced_by(alloc, bytes, 1, Reason::TableName),
    ))
}

/// What is rewritten at the front of marks, of the text or of a macro's value: the name of a table, a word that is
/// given or a range of ports.
#[tactic(auto, unfolding(crate::specs::Replacing::value_here))]
pub fn value_here<'a>(
    alloc: Global,
    given: &Given,
    known: &Known,
    context: Context,
    marks: &[Mark<'a>],
) -> Result<Option<Found<'a>>, AllocError>
    ensures { IfOk result (λ found. found ≡ spec.value_here given.now known.now context marks.now) }
{
    if let Some(found) = table_here(alloc, known.tables.as_slice(), context, marks)? {
        return Ok(Some(found));
    }
    if let Some(found) = given_here(alloc, given, known, context, marks)? {
        return Ok(Some(found));
    }
    ports_here(alloc, given, context, marks)
}

/// What was found at the front of marks, or else what is rewritten there by the words of the statement alone.
pub fn or_change<'a>(
    found: Option<Found<'a>>,
    context: Context,
    marks: &[Mark<'a>],
) -> Option<Found<'a>>
    ensures { result ≡ first_found found.entry (change_at context marks.now) }
{
    match found {
        Some(found) => Some(found),
        None => change_at(context, marks),
    }
}

/// What is rewritten at the front of a value's marks.
#[tactic(auto, unfolding(crate::specs::Replacing::value_change_at))]
fn value_change_at<'a>(
    alloc: Global,
    given: &Given,
    known: &Known,
    context: Context,
    marks: &[Mark<'a>],
) -> Result<Option<Found<'a>>, AllocError>
    ensures { IfOk result (λ found. found ≡ spec.value_change_at given.now known.now context marks.now) }
{
    let found = value_here(alloc, given, known, context, marks)?;
    Ok(or_change(found, context, marks))
}

/// Puts what is rewritten at the front of a value's marks behind the changes so far, and answers how many of the marks
/// behind belong to a change.
fn value_step<'a>(
    alloc: Global,
    changes: &mut Items<Change<'a>>,
    given: &Given,
    known: &Known,
    context: Context,
    passed: usize,
    marks: &[Mark<'a>],
) -> Result<usize, AllocError>
    ensures changes { OnOk result (changes.new ≡ changes.old ++ spec.value_changes_at given.now known.now context passed marks.now) }
    ensures passed { IfOk result (λ more. more ≡ spec.value_passed given.now known.now context passed marks.now) }
{
    if passed > 0 {
        return Ok(passed - 1);
    }
    put(
        changes,
        value_change_at(alloc, given, known, context, marks)?,
    )
}

/// What is rewritten of a value in a context.
fn value_changes<'a>(
    alloc: Global,
    given: &Given,
    known: &Known,
    before: Context,
    marks: &[Mark<'a>],
) -> Result<Items<Change<'a>>, AllocError>
    ensures { IfOk result (λ changes. changes ≡ spec.value_changes given.now known.now before 0 marks.now) }
{
    let mut changes = Items::new(alloc);
    let mut context = before;
    let mut passed = 0;
    for at in 0..marks.len() {
        let here = &marks[at..];
        passed = value_step(alloc, &mut changes, given, known, context, passed, here)?;
        context = context.behind(here);
    }
    Ok(changes)
}

/// Why words were rewritten.
fn reasons_of(alloc: Global, changes: &[Change<'_>]) -> Result<Items<Reason>, AllocError>
    ensures { IfOk result (λ reasons. reasons ≡ map (λ change. change.finding.reason) changes.now) }
{
    let mut reasons = Items::new(alloc);
    for change in changes {
        reasons.push(change.finding.reason)?;
    }
    Ok(reasons)
}

/// A value as it is written in a context.
#[tactic(auto, unfolding(crate::specs::Replacing::value_text))]
pub(crate) fn value_text(
    alloc: Global,
    given: &Given,
    known: &Known,
    context: Context,
    value: &[u8],
) -> Result<Text, AllocError>
    ensures { IfOk result (λ text. text ≡ spec.value_text given.now known.now context value.now) }
{
    let marks = marks(alloc, value)?;
    let before = context.at(BEGINNING);
    let changes = value_changes(alloc, given, known, before, marks.as_slice())?;
    let made = rewritten(alloc, value, changes.as_slice())?;
    let reasons = reasons_of(alloc, changes.as_slice())?;
    Ok(Text {
        bytes: made.text,
        reasons,
    })
}

/// Whether a macro's value must be written out before these marks, since no macro may stand there.
fn is_written_out(context: Context, behind: &[Mark<'_>]) -> bool
    ensures { result ≡ spec.is_written_out context behind.now }
{
    if context.in_angles || (context.has_value && !context.in_braces) {
        return true;
    }
    match context.says {
        Says::Nothing => context.within != Within::Setting,
        Says::Timeout | Says::Limit => true,
        Says::Port => context.behind_operator || context.has_target,
        Says::IcmpType => begins_with(behind, b"code"),
        _ => false,
    }
}

/// A text in the place of one mark, if it is written there in any case, or words of it were rewritten.
fn if_written(is_written: bool, text: Text) -> Option<Replaced>
    ensures value { result ≡ spec.if_written is_written text }
    ensures within { spec.IsOneMark result }
{
    if text.reasons.len() == 0 && !is_written {
        return None;
    }
    Some(Replaced {
        count: 1,
        text,
        reason: Reason::Macro,
    })
}

/// Whether the last of these marks closes a list.
fn ends_list(marks: &[Mark<'_>]) -> bool
    ensures { result ≡ spec.ends_list false marks.now }
{
    let mut ends = false;
    for mark in marks {
        ends = is(mark, b"}");
    }
    ends
}

/// The part of a value that stands in a list: if the value is a list, what is between its braces.
fn listed<'v>(in_braces: bool, value: &'v [u8], marks: &[Mark<'_>]) -> &'v [u8]
    ensures { result.now ≡ spec.listed in_braces value.now marks.now }
{
    let Some(first) = marks.first() else {
        return value;
    };
    if !(in_braces && is(first, b"{") && ends_list(marks)) {
        return value;
    }
    let end = end_of(BEGINNING, marks);
    between(value, first.end.offset, end.offset.saturating_sub(1))
}

/// What is written for the value of a macro: nothing if a brace of it isn't closed, or closes nothing.
#[tactic(auto, unfolding(crate::specs::Replacing::macro_text))]
fn macro_text(
    alloc: Global,
    given: &Given,
    known: &Known,
    context: Context,
    value: &[u8],
) -> Result<Option<Text>, AllocError>
    ensures { IfOk result (λ text. text ≡ spec.macro_text given.now known.now context value.now) }
{
    let marks = marks(alloc, value)?;
    if !are_closed(marks.as_slice()) {
        return Ok(None);
    }
    let value = listed(context.in_braces, value, marks.as_slice());
    Ok(Some(value_text(alloc, given, known, context, value)?))
}

/// What stands in the place of the use of a macro with this value, before these marks.
fn macro_replaced(
    alloc: Global,
    given: &Given,
    known: &Known,
    context: Context,
    value: &[u8],
    behind: &[Mark<'_>],
) -> Result<Option<Replaced>, AllocError>
    ensures value { IfOk result (λ found. found ≡ spec.macro_replaced given.now known.now context value.now behind.now) }
    ensures within { IfOk result (λ found. spec.IsOneMark found) }
{
    if value.len() > known.left {
        return Ok(None);
    }
    match macro_text(alloc, given, known, context, value)? {
        Some(text) => Ok(if_written(is_written_out(context, behind), text)),
        None => Ok(None),
    }
}

/// The use of a macro at the front of marks as a change, if its value is written out.
#[tactic(auto, unfolding(crate::specs::Replacing::macro_here))]
pub fn macro_here<'a>(
    alloc: Global,
    given: &Given,
    known: &Known,
    context: Context,
    marks: &[Mark<'a>],
) -> Result<Option<Found<'a>>, AllocError>
    ensures { IfOk result (λ found. found ≡ spec.macro_here given.now known.now context marks.now) }
{
    let Some(word) = marks.first() else {
        return Ok(None);
    };
    let Some(value) = used_value(known.macros.as_slice(), word.piece.as_slice()) else {
        return Ok(None);
    };
    let behind = &marks[1..];
    let replaced = macro_replaced(alloc, given, known, context, value.as_slice(), behind)?;
    Ok(text_change(context, word, marks, replaced))
}

/// The name of the table that a statement is about, or nothing.
fn table_named<'a>(statement: &[Mark<'a>]) -> &'a [u8]
    ensures { result.now ≡ spec.table_named statement.now }
{
    if statement.len() >= 1 && is_table(&statement[1..]) {
        statement[2].piece.as_slice()
    } else {
        b""
    }
}

/// Before the entries of a table that are written in braces.
fn among_entries(context: Context) -> Context
    ensures { result ≡ spec.among_entries context }
{
    Context {
        says: Says::Address,
        in_braces: true,
        behind_operator: false,
        has_value: false,
        ..context
    }
}

/// What is given for a table, in braces.
#[tactic(auto, unfolding(crate::specs::Replacing::entries_text))]
fn entries_text(
    alloc: Global,
    given: &Given,
    known: &Known,
    context: Context,
    name: &[u8],
) -> Result<Text, AllocError>
    ensures { IfOk result (λ text. text ≡ spec.entries_text given.now known.now context name.now) }
{
    let entries = joined(alloc, given, Subject::Table, name, b"")?;
    let text = value_text(
        alloc,
        given,
        known,
        among_entries(context),
        entries.as_slice(),
    )?;
    let mut bytes = Items::copied(alloc, b"{ ")?;
    bytes.extend_from_slice(text.bytes.as_slice())?;
    bytes.extend_from_slice(b" }")?;
    Ok(Text {
        bytes,
        reasons: text.reasons,
    })
}

/// `file` and what is behind it at the front of marks as a change, if what the table's files hold is given.
#[tactic(auto, unfolding(crate::specs::Replacing::file_here))]
pub fn file_here<'a>(
    alloc: Global,
    given: &Given,
    known: &Known,
    context: Context,
    statement: &[Mark<'a>],
    marks: &[Mark<'a>],
) -> Result<Option<Found<'a>>, AllocError>
    ensures { IfOk result (λ found. found ≡ spec.file_here given.now known.now context statement.now marks.now) }
{
    if context.within != Within::Table || context.in_braces {
        return Ok(None);
    }
    let (Some((count, phrase)), Some(word)) = (file_phrase_at(marks), marks.first()) else {
        return Ok(None);
    };
    let name = table_named(statement);
    if count_of(given, Subject::Table, name, b"") == 0 {
        return Ok(None);
    }
    if context.has_file {
        return Ok(change_of(context, word, marks, count, phrase));
    }
    let text = entries_text(alloc, given, known, context, name)?;
    let replaced = Replaced {
        count,
        text,
        reason: Reason::TableFile,
    };
    Ok(text_change(context, word, marks, Some(replaced)))
}
