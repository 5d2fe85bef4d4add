//! The part of a page about flows that are blocked.
use crate::blocked::{BlockedFlows, Told, Why};
use crate::page::Page;
use crate::printing::Captured;
use crate::tables::{
    Column, append_count_cells, append_counted, append_none, append_number_cell, append_text_cell,
    append_word_cell, begin_section, begin_table, end_section, end_table,
};
use pfr_listing::{Flow, reason_word};
use std::alloc::{AllocError, Global};

/// The columns of the table.
const COLUMNS: [Column; 7] = [
    (b"Packets", true),
    (b"Bytes", true),
    (b"Flow", false),
    (b"Interface", false),
    (b"Rule", true),
    (b"Reason", false),
    (b"First", true),
];

/// Appends the cells that say why packets were blocked.
fn append_why(page: &mut Page, why: Why) -> Result<(), AllocError> {
    match why.line {
        Some(line) => append_number_cell(page, line as u64)?,
        None => append_word_cell(page, b"")?,
    }
    append_word_cell(page, reason_word(why.reason))
}

/// Appends the cell of a flow.
fn append_flow_cell(alloc: Global, page: &mut Page, flow: Flow) -> Result<(), AllocError> {
    let mut words = Vec::new(alloc);
    flow.append(&mut words)?;
    append_text_cell(page, words.as_slice())
}

/// The name of the interface at a place.
fn name_at<'a>(captures: &[Captured<'a>], place: u8) -> &'a str {
    match captures.get(usize::from(place)) {
        Some((interface, _)) => interface,
        None => "",
    }
}

/// Appends the row of a flow.
fn append_flow(
    alloc: Global,
    page: &mut Page,
    captures: &[Captured<'_>],
    told: &Told,
) -> Result<(), AllocError> {
    let (place, flow) = told.wire;
    page.markup(b"<tr>")?;
    append_count_cells(page, told.blocked.count)?;
    append_flow_cell(alloc, page, flow)?;
    append_text_cell(page, name_at(captures, place).as_bytes())?;
    append_why(page, told.blocked.why)?;
    append_number_cell(page, told.blocked.first)?;
    page.markup(b"</tr>\n")
}

/// Appends how many flows aren't told, if there are some.
fn append_more(page: &mut Page, blocked: &BlockedFlows, told: &[Told]) -> Result<(), AllocError> {
    let flows = blocked.len().saturating_sub(told.len());
    if flows == 0 {
        return Ok(());
    }
    let mut packets = blocked.packets;
    for flow in told {
        packets = packets.saturating_sub(flow.blocked.count.packets);
    }
    append_counted(page, b"<p>", flows as u64)?;
    append_counted(page, b" flows more with ", packets)?;
    page.markup(b" packets.</p>\n")
}

/// Appends the part of the page with the flows that lost the most packets.
pub(crate) fn append_blocked(
    alloc: Global,
    page: &mut Page,
    captures: &[Captured<'_>],
    blocked: &BlockedFlows,
) -> Result<(), AllocError> {
    begin_section(page, b"blocked", b"Flows blocked most")?;
    let told = blocked.told(alloc)?;
    if told.is_empty() {
        append_none(page)?;
        return end_section(page);
    }
    begin_table(page, b"blocked-flows", &COLUMNS)?;
    for flow in told.as_slice() {
        append_flow(alloc, page, captures, flow)?;
    }
    end_table(page)?;
    append_more(page, blocked, told.as_slice())?;
    end_section(page)
}
