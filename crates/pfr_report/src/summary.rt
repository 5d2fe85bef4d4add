//! The part of a page that says what was replayed.
use crate::count::{ByVerdict, VERDICTS};
use crate::page::Page;
use crate::printing::{Captured, Subject};
use crate::tables::{
    Column, append_counted, append_shared_cells, append_text_cell, append_word_cell, begin_section,
    begin_table, end_section, end_table,
};
use crate::tally::Counted;
use pfr_capture::Tail;
use pfr_listing::verdict_word;
use pfr_show::{Calendar, Walked};
use pfr_track::Clock;
use std::alloc::AllocError;

/// The columns of the table of verdicts.
const COLUMNS: [Column; 4] = [
    (b"Verdict", false),
    (b"Packets", true),
    (b"Bytes", true),
    (b"Share", true),
];

/// Begins a row of a table of names and values.
fn begin_row(page: &mut Page, name: &'static [u8]) -> Result<(), AllocError> {
    page.markup(b"<tr><th>")?;
    page.markup(name)?;
    page.markup(b"</th>")
}

/// Appends the row of a capture.
fn append_capture(page: &mut Page, captured: Captured<'_>) -> Result<(), AllocError> {
    let (interface, file) = captured;
    page.markup(b"<tr><th>Capture on ")?;
    page.text(interface.as_bytes())?;
    page.markup(b"</th>")?;
    append_text_cell(page, file.as_bytes())?;
    page.markup(b"</tr>\n")
}

/// Appends the row of the ruleset, and those of the captures.
fn append_files(page: &mut Page, subject: Subject<'_>) -> Result<(), AllocError> {
    begin_row(page, b"Ruleset")?;
    append_text_cell(page, subject.name.as_bytes())?;
    page.markup(b"</tr>\n")?;
    for captured in subject.captures {
        append_capture(page, *captured)?;
    }
    Ok(())
}

/// Appends the row of the packets.
fn append_packets(page: &mut Page, walked: Walked) -> Result<(), AllocError> {
    begin_row(page, b"Packets")?;
    append_counted(page, b"<td>", walked.packets)?;
    match walked.tail {
        Tail::Clean => page.markup(b"</td></tr>\n"),
        Tail::Cut => page.markup(b", cut</td></tr>\n"),
    }
}

/// Appends the row of a clock.
fn append_clock(
    page: &mut Page,
    calendar: &mut Calendar,
    name: &'static [u8],
    clock: Clock,
) -> Result<(), AllocError> {
    begin_row(page, name)?;
    page.markup(b"<td>")?;
    page.second(calendar, u64::from(clock.0))?;
    page.markup(b"</td></tr>\n")
}

/// Appends the table of verdicts.
fn append_verdicts(page: &mut Page, verdicts: &ByVerdict) -> Result<(), AllocError> {
    begin_table(page, b"verdicts", &COLUMNS)?;
    for verdict in VERDICTS {
        page.markup(b"<tr>")?;
        append_word_cell(page, verdict_word(verdict))?;
        append_shared_cells(page, verdicts.of(verdict), verdicts.packets())?;
        page.markup(b"</tr>\n")?;
    }
    end_table(page)
}

/// Appends the part of the page with what was replayed.
pub(crate) fn append_summary(
    page: &mut Page,
    calendar: &mut Calendar,
    subject: Subject<'_>,
    counted: &Counted<'_>,
    walked: Walked,
) -> Result<(), AllocError> {
    begin_section(page, b"summary", b"What was replayed")?;
    page.markup(b"<table><tbody>\n")?;
    append_files(page, subject)?;
    append_packets(page, walked)?;
    if walked.packets > 0 {
        append_clock(page, calendar, b"From", counted.from)?;
        append_clock(page, calendar, b"To", counted.to)?;
    }
    page.markup(b"</tbody></table>\n")?;
    append_verdicts(page, &counted.verdicts)?;
    end_section(page)
}
