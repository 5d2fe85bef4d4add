//! The picture of verdicts over time.
use crate::count::{ByVerdict, VERDICTS};
use crate::page::Page;
use crate::spans::Spans;
use crate::tables::{append_counted, append_none, begin_section, end_section};
use pfr_listing::verdict_word;
use pfr_packet::Verdict;
use pfr_show::Calendar;
use std::alloc::AllocError;

/// How high the bar of the most packets is.
const HEIGHT: u64 = 1000;

/// How much room is left above it: each part of a bar is rounded up.
const ROOM: u64 = 4;

/// How wide a bar is, with the gap behind it.
const WIDTH: u64 = 10;

/// The verdicts from the bottom of a bar to its top.
const FROM_BOTTOM: [Verdict; 4] = [
    Verdict::Block,
    Verdict::Return,
    Verdict::Pass,
    Verdict::Skip,
];

/// Appends a number with a unit, which has an s behind it if the number isn't 1.
fn append_units(page: &mut Page, number: u64, unit: &'static [u8]) -> Result<(), AllocError> {
    page.number(number)?;
    page.markup(b" ")?;
    page.markup(unit)?;
    if number == 1 {
        return Ok(());
    }
    page.markup(b"s")
}

/// Appends a length of time in its greatest unit.
fn append_length(page: &mut Page, seconds: u64) -> Result<(), AllocError> {
    if seconds >= 86_400 {
        append_units(page, seconds / 86_400, b"day")
    } else if seconds >= 3600 {
        append_units(page, seconds / 3600, b"hour")
    } else if seconds >= 60 {
        append_units(page, seconds / 60, b"minute")
    } else {
        append_units(page, seconds, b"second")
    }
}

/// How many packets the span with the most has.
fn most_in(spans: &Spans) -> u64 {
    let mut most = 0;
    for verdicts in spans.verdicts.as_slice() {
        most = verdicts.packets().max(most);
    }
    most
}

/// Appends what a bar says: when its span begins, and how many packets there are by their verdicts.
fn append_title(
    page: &mut Page,
    calendar: &mut Calendar,
    begin: u64,
    verdicts: &ByVerdict,
) -> Result<(), AllocError> {
    page.markup(b"<title>")?;
    page.second(calendar, begin)?;
    let mut lead: &'static [u8] = b": ";
    for verdict in VERDICTS {
        append_counted(page, lead, verdicts.of(verdict).packets)?;
        page.markup(b" ")?;
        page.markup(verdict_word(verdict))?;
        lead = b", ";
    }
    page.markup(b"</title>")
}

/// Appends a verdict's part of a bar, `height` high, above parts that are `below` high, and answers how high they are together.
fn append_part(
    page: &mut Page,
    verdict: Verdict,
    left: u64,
    below: u64,
    height: u64,
) -> Result<u64, AllocError> {
    let above = below.saturating_add(height);
    page.markup(b"<rect class=\"")?;
    page.markup(verdict_word(verdict))?;
    append_counted(page, b"\" x=\"", left)?;
    append_counted(page, b"\" y=\"", (HEIGHT + ROOM).saturating_sub(above))?;
    append_counted(page, b"\" width=\"", WIDTH - 1)?;
    append_counted(page, b"\" height=\"", height)?;
    page.markup(b"\"/>")?;
    Ok(above)
}

/// How high a part of a bar is, rounded up, so that one packet shows.
fn height_of(packets: u64, most: u64) -> u64 {
    let most = most.max(1);
    packets.saturating_mul(HEIGHT).saturating_add(most - 1) / most
}

/// Appends the bar of a span.
fn append_bar(
    page: &mut Page,
    left: u64,
    verdicts: &ByVerdict,
    most: u64,
) -> Result<(), AllocError> {
    let mut below = 0;
    for verdict in FROM_BOTTOM {
        let packets = verdicts.of(verdict).packets;
        if packets > 0 {
            below = append_part(page, verdict, left, below, height_of(packets, most))?;
        }
    }
    Ok(())
}

/// Appends the bars of all spans.
fn append_bars(
    page: &mut Page,
    calendar: &mut Calendar,
    spans: &Spans,
    most: u64,
) -> Result<(), AllocError> {
    for (place, verdicts) in spans.verdicts.as_slice().iter().enumerate() {
        page.markup(b"<g>")?;
        append_title(page, calendar, spans.begin_of(place), verdicts)?;
        let left = (place as u64).saturating_mul(WIDTH);
        append_bar(page, left, verdicts, most)?;
        page.markup(b"</g>\n")?;
    }
    Ok(())
}

/// Appends what colours mean.
fn append_key(page: &mut Page) -> Result<(), AllocError> {
    for verdict in VERDICTS {
        page.markup(b"<span class=\"key ")?;
        page.markup(verdict_word(verdict))?;
        page.markup(b"\">&#9632;</span> ")?;
        page.markup(verdict_word(verdict))?;
    }
    Ok(())
}

/// Appends the lines above the picture: how long a span is, how many packets the highest bar has, and what colours mean.
fn append_lead(page: &mut Page, spans: &Spans, most: u64) -> Result<(), AllocError> {
    page.markup(b"<p>Each bar is ")?;
    append_length(page, spans.length)?;
    page.markup(b".</p>\n")?;
    append_counted(page, b"<p class=\"axis\"><span>Highest bar: ", most)?;
    page.markup(b" packets</span><span>")?;
    append_key(page)?;
    page.markup(b"</span></p>\n")
}

/// Appends the clocks at which the first span and the last begin.
fn append_axis(page: &mut Page, calendar: &mut Calendar, spans: &Spans) -> Result<(), AllocError> {
    page.markup(b"<p class=\"axis\"><span>")?;
    page.second(calendar, spans.begin_of(0))?;
    page.markup(b"</span><span>")?;
    let last = spans.verdicts.len().saturating_sub(1);
    page.second(calendar, spans.begin_of(last))?;
    page.markup(b"</span></p>\n")
}

/// Appends the picture with the bars of all spans.
fn append_svg(
    page: &mut Page,
    calendar: &mut Calendar,
    spans: &Spans,
    most: u64,
) -> Result<(), AllocError> {
    let width = (spans.verdicts.len() as u64).saturating_mul(WIDTH);
    append_counted(
        page,
        b"<svg role=\"img\" aria-label=\"Packets by time and verdict\" preserveAspectRatio=\"none\" viewBox=\"0 0 ",
        width,
    )?;
    append_counted(page, b" ", HEIGHT + ROOM)?;
    page.markup(b"\">\n")?;
    append_bars(page, calendar, spans, most)?;
    page.markup(b"</svg>\n")
}

/// Appends the part of the page with verdicts over time.
pub(crate) fn append_times(
    page: &mut Page,
    calendar: &mut Calendar,
    spans: &Spans,
) -> Result<(), AllocError> {
    begin_section(page, b"time", b"Verdicts over time")?;
    if spans.verdicts.is_empty() {
        append_none(page)?;
        return end_section(page);
    }
    let most = most_in(spans);
    append_lead(page, spans, most)?;
    append_svg(page, calendar, spans, most)?;
    append_axis(page, calendar, spans)?;
    end_section(page)
}
