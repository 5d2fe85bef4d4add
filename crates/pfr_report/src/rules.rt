//! The parts of a page about the lines of the ruleset's file.
use crate::lines::{Line, Lines};
use crate::page::Page;
use crate::tables::{
    Column, append_code_cell, append_counted, append_none, append_number_cell, append_shared_cells,
    begin_section, begin_table, end_section, end_table,
};
use pfr_capture::Sink;
use pfr_listing::verdict_word;
use pfr_show::Stopped;
use std::alloc::{AllocError, Global};

/// The columns of the table of all lines.
const OF_LINES: [Column; 5] = [
    (b"Line", true),
    (b"Packets", true),
    (b"Bytes", true),
    (b"Share", true),
    (b"Text", false),
];

/// The columns of the table of lines that did nothing.
const OF_UNUSED: [Column; 4] = [
    (b"Line", true),
    (b"Rules", true),
    (b"Why", false),
    (b"Text", false),
];

/// Begins the row of a line. Its class is the verdict of its rules, if packets count for it.
fn begin_line(page: &mut Page, line: Line) -> Result<(), AllocError> {
    if !line.has_rule {
        page.markup(b"<tr>")
    } else if line.count.packets > 0 {
        page.markup(b"<tr class=\"")?;
        page.markup(match line.verdict() {
            Some(verdict) => verdict_word(verdict),
            None => b"used",
        })?;
        page.markup(b"\">")
    } else {
        page.markup(b"<tr class=\"unused\">")
    }
}

/// Appends the row of a line of the ruleset's file.
fn append_line(
    page: &mut Page,
    number: usize,
    line: Line,
    words: &[u8],
    all: u64,
) -> Result<(), AllocError> {
    begin_line(page, line)?;
    append_number_cell(page, number as u64)?;
    if line.has_rule {
        append_shared_cells(page, line.count, all)?;
    } else {
        page.markup(b"<td></td><td></td><td></td>")?;
    }
    append_code_cell(page, words)?;
    page.markup(b"</tr>\n")
}

/// The first line of a text, without its newline, and what stands behind it. Behind the last newline stands a line too.
fn split_line(text: &[u8]) -> (&[u8], &[u8]) {
    for (place, byte) in text.iter().enumerate() {
        if *byte == b'\n' {
            return (&text[..place], &text[place + 1..]);
        }
    }
    (text, &[])
}

/// The lines of a text, without their newlines. What stands behind the last newline is a line, unless it is empty.
pub(crate) fn lines_of<'a>(alloc: Global, text: &'a [u8]) -> Result<Vec<&'a [u8]>, AllocError> {
    let mut lines = Vec::new(alloc);
    let mut rest = text;
    for _ in 0..text.len() {
        if rest.is_empty() {
            return Ok(lines);
        }
        let (line, behind) = split_line(rest);
        lines.push(line)?;
        rest = behind;
    }
    Ok(lines)
}

/// Prints the part of the page with the lines of the ruleset's file.
pub(crate) fn print_rules<K: Sink>(
    page: &mut Page,
    words: &[&[u8]],
    lines: &Lines,
    all: u64,
    sink: &mut K,
) -> Result<(), Stopped> {
    begin_section(page, b"rules", b"Rules by line")?;
    begin_table(page, b"lines", &OF_LINES)?;
    let mut number: usize = 0;
    for line in words {
        number = number.saturating_add(1);
        append_line(page, number, lines.at(number), line, all)?;
        page.print_piece(sink)?;
    }
    end_table(page)?;
    Ok(end_section(page)?)
}

/// Appends why nothing counts for a line, if that is known.
fn append_why(page: &mut Page, room: &mut Vec<u8>, line: Line) -> Result<(), AllocError> {
    if let Some(by) = line.shadowed_by() {
        append_counted(page, b"<td>shadowed by ", by as u64)?;
        return page.markup(b"</td>");
    }
    match line.not_asked() {
        Some(why) => {
            room.clear();
            why.append(room)?;
            page.markup(b"<td>not asked: ")?;
            page.text(room.as_slice())?;
            page.markup(b"</td>")
        }
        None => page.markup(b"<td></td>"),
    }
}

/// Appends the row of a line for which nothing counts.
fn append_unused(
    page: &mut Page,
    room: &mut Vec<u8>,
    number: usize,
    line: Line,
    words: &[u8],
) -> Result<(), AllocError> {
    page.markup(b"<tr>")?;
    append_number_cell(page, number as u64)?;
    append_number_cell(page, line.rules)?;
    append_why(page, room, line)?;
    append_code_cell(page, words)?;
    page.markup(b"</tr>\n")
}

/// Whether nothing counts for one of the lines.
fn has_unused(lines: &Lines) -> bool {
    for number in 0..lines.len() {
        if lines.at(number).is_unused() {
            return true;
        }
    }
    false
}

/// Prints the rows of the lines for which nothing counts.
fn print_unused_rows<K: Sink>(
    alloc: Global,
    page: &mut Page,
    words: &[&[u8]],
    lines: &Lines,
    sink: &mut K,
) -> Result<(), Stopped> {
    let mut room = Vec::new(alloc);
    begin_table(page, b"unused-lines", &OF_UNUSED)?;
    for number in 0..lines.len() {
        let line = lines.at(number);
        if line.is_unused() {
            let words = words.get(number.saturating_sub(1)).copied().unwrap_or(&[]);
            append_unused(page, &mut room, number, line, words)?;
            page.print_piece(sink)?;
        }
    }
    Ok(end_table(page)?)
}

/// Prints the part of the page with the lines for which nothing counts.
pub(crate) fn print_unused<K: Sink>(
    alloc: Global,
    page: &mut Page,
    words: &[&[u8]],
    lines: &Lines,
    sink: &mut K,
) -> Result<(), Stopped> {
    begin_section(page, b"unused", b"Lines that did nothing")?;
    if has_unused(lines) {
        print_unused_rows(alloc, page, words, lines, sink)?;
    } else {
        append_none(page)?;
    }
    Ok(end_section(page)?)
}
