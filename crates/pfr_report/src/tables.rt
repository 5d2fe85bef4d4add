//! Parts of tables.
use crate::count::Count;
use crate::page::Page;
use std::alloc::AllocError;

/// A column: its heading, and whether its cells are numbers.
pub(crate) type Column = (&'static [u8], bool);

/// Appends a number behind what stands before it.
pub(crate) fn append_counted(
    page: &mut Page,
    lead: &'static [u8],
    number: u64,
) -> Result<(), AllocError> {
    page.markup(lead)?;
    page.number(number)
}

/// Begins a table with the headings of its columns.
pub(crate) fn begin_table(
    page: &mut Page,
    id: &'static [u8],
    columns: &[Column],
) -> Result<(), AllocError> {
    page.markup(b"<div class=\"wide\"><table id=\"")?;
    page.markup(id)?;
    page.markup(b"\"><thead><tr>")?;
    for (heading, is_number) in columns {
        let lead: &'static [u8] = if *is_number {
            b"<th class=\"number\">"
        } else {
            b"<th>"
        };
        page.markup(lead)?;
        page.markup(heading)?;
        page.markup(b"</th>")?;
    }
    page.markup(b"</tr></thead>\n<tbody>\n")
}

/// Ends a table.
pub(crate) fn end_table(page: &mut Page) -> Result<(), AllocError> {
    page.markup(b"</tbody></table></div>\n")
}

/// Appends a cell with a number.
pub(crate) fn append_number_cell(page: &mut Page, number: u64) -> Result<(), AllocError> {
    append_counted(page, b"<td class=\"number\">", number)?;
    page.markup(b"</td>")
}

/// Appends a cell with a text that is the page's own.
pub(crate) fn append_word_cell(page: &mut Page, words: &'static [u8]) -> Result<(), AllocError> {
    page.markup(b"<td>")?;
    page.markup(words)?;
    page.markup(b"</td>")
}

/// Appends a cell with a text that somebody else wrote.
pub(crate) fn append_text_cell(page: &mut Page, words: &[u8]) -> Result<(), AllocError> {
    page.markup(b"<td>")?;
    page.text(words)?;
    page.markup(b"</td>")
}

/// Appends a cell with a line of a file.
pub(crate) fn append_code_cell(page: &mut Page, line: &[u8]) -> Result<(), AllocError> {
    if line.is_empty() {
        return append_word_cell(page, b"");
    }
    page.markup(b"<td><code>")?;
    page.text(line)?;
    page.markup(b"</code></td>")
}

/// Appends a part of a whole in per cent, with one digit behind the point.
fn append_percent(page: &mut Page, thousandths: u64) -> Result<(), AllocError> {
    page.number(thousandths / 10)?;
    append_counted(page, b".", thousandths % 10)
}

/// Appends a cell with the share that a part has of a whole.
pub(crate) fn append_share_cell(page: &mut Page, part: u64, whole: u64) -> Result<(), AllocError> {
    let thousandths = part.saturating_mul(1000) / whole.max(1);
    page.markup(b"<td class=\"number share\" style=\"--share:")?;
    append_percent(page, thousandths)?;
    page.markup(b"%\">")?;
    append_percent(page, thousandths)?;
    page.markup(b" %</td>")
}

/// Appends the cells of packets and bytes.
pub(crate) fn append_count_cells(page: &mut Page, count: Count) -> Result<(), AllocError> {
    append_number_cell(page, count.packets)?;
    append_number_cell(page, count.bytes)
}

/// Appends the cells of packets, of bytes, and of their share of all packets.
pub(crate) fn append_shared_cells(
    page: &mut Page,
    count: Count,
    all: u64,
) -> Result<(), AllocError> {
    append_count_cells(page, count)?;
    append_share_cell(page, count.packets, all)
}

/// Begins a part of the page, with its heading.
pub(crate) fn begin_section(
    page: &mut Page,
    id: &'static [u8],
    heading: &'static [u8],
) -> Result<(), AllocError> {
    page.markup(b"<section id=\"")?;
    page.markup(id)?;
    page.markup(b"\"><h2>")?;
    page.markup(heading)?;
    page.markup(b"</h2>\n")
}

/// Ends a part of the page.
pub(crate) fn end_section(page: &mut Page) -> Result<(), AllocError> {
    page.markup(b"</section>\n")
}

/// Says that there is nothing to show.
pub(crate) fn append_none(page: &mut Page) -> Result<(), AllocError> {
    page.markup(b"<p>None.</p>\n")
}
