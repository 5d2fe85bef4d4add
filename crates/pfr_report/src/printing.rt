//! A page as a whole.
use crate::ages::{AGES, Ages};
use crate::flows::append_blocked;
use crate::page::Page;
use crate::picture::append_times;
use crate::rules::{lines_of, print_rules, print_unused};
use crate::style::STYLE;
use crate::summary::append_summary;
use crate::tables::{
    Column, append_count_cells, append_none, append_number_cell, append_share_cell,
    append_word_cell, begin_section, begin_table, end_section, end_table,
};
use crate::tally::Counted;
use pfr_capture::Sink;
use pfr_show::{Calendar, Stopped, Walked};
use std::alloc::{AllocError, Global};

/// The interface of a capture, and the name of its file.
pub type Captured<'a> = (&'a str, &'a str);

/// What a page is about.
#[derive(Clone, Copy)]
pub struct Subject<'a> {
    /// The name of the ruleset's file.
    pub name: &'a str,
    /// What the file holds.
    pub text: &'a [u8],
    /// The captures, by the places of their interfaces.
    pub captures: &'a [Captured<'a>],
    /// What there is to warn of.
    pub warnings: &'a [String],
}

/// The columns of the table of states.
const COLUMNS: [Column; 5] = [
    (b"Age", false),
    (b"States", true),
    (b"Packets", true),
    (b"Bytes", true),
    (b"Share", true),
];

/// Appends what stands before the parts of the page.
fn append_head(page: &mut Page, name: &str) -> Result<(), AllocError> {
    page.markup(b"<!DOCTYPE html>\n<html lang=\"en\">\n<head>\n<meta charset=\"utf-8\">\n")?;
    page.markup(b"<meta name=\"viewport\" content=\"width=device-width, initial-scale=1\">\n")?;
    page.markup(b"<title>pfreplay report: ")?;
    page.text(name.as_bytes())?;
    page.markup(b"</title>\n<style>")?;
    page.markup(STYLE)?;
    page.markup(b"</style>\n</head>\n<body>\n<h1>pfreplay report: ")?;
    page.text(name.as_bytes())?;
    page.markup(b"</h1>\n")
}

/// Appends the part of the page with what there is to warn of.
fn append_warnings(page: &mut Page, warnings: &[String]) -> Result<(), AllocError> {
    begin_section(page, b"warnings", b"What may not fit")?;
    if warnings.is_empty() {
        append_none(page)?;
        return end_section(page);
    }
    page.markup(b"<ul>\n")?;
    for warning in warnings {
        page.markup(b"<li>")?;
        page.text(warning.as_bytes())?;
        page.markup(b"</li>\n")?;
    }
    page.markup(b"</ul>\n")?;
    end_section(page)
}

/// Appends the part of the page with states by their ages.
fn append_states(page: &mut Page, ages: &Ages) -> Result<(), AllocError> {
    begin_section(page, b"states", b"States by age")?;
    begin_table(page, b"ages", &COLUMNS)?;
    for ((words, _), of_age) in AGES.iter().zip(&ages.of_age) {
        page.markup(b"<tr>")?;
        append_word_cell(page, words)?;
        append_number_cell(page, of_age.states)?;
        append_count_cells(page, of_age.count)?;
        append_share_cell(page, of_age.states, ages.states)?;
        page.markup(b"</tr>\n")?;
    }
    end_table(page)?;
    end_section(page)
}

/// Prints a page about packets that were counted, and about the states that a run left, by their ages, if they are known.
pub fn print<K: Sink>(
    alloc: Global,
    subject: Subject<'_>,
    counted: &Counted<'_>,
    walked: Walked,
    ages: Option<&Ages>,
    sink: &mut K,
) -> Result<(), Stopped> {
    let mut calendar = Calendar::new(alloc);
    let words = lines_of(alloc, subject.text)?;
    let mut page = Page::new(alloc);
    append_head(&mut page, subject.name)?;
    append_warnings(&mut page, subject.warnings)?;
    append_summary(&mut page, &mut calendar, subject, counted, walked)?;
    append_times(&mut page, &mut calendar, &counted.spans)?;
    print_rules(
        &mut page,
        words.as_slice(),
        &counted.lines,
        walked.packets,
        sink,
    )?;
    print_unused(alloc, &mut page, words.as_slice(), &counted.lines, sink)?;
    append_blocked(alloc, &mut page, subject.captures, &counted.blocked)?;
    if let Some(ages) = ages {
        append_states(&mut page, ages)?;
    }
    page.markup(b"</body>\n</html>\n")?;
    page.print(sink)
}
