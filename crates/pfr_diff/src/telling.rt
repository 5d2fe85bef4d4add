//! How changes are told in words.
use crate::changes::{Cause, Sum};
use crate::comparing::Compared;
use crate::decision::{Decision, Pair};
use crate::untried::append_untried;
use pfr_capture::Tail;
use pfr_texts::append_number;
use std::alloc::AllocError;

/// Appends a number and a word, with an `s` behind it unless the number is one.
fn append_count(text: &mut Vec<u8>, number: u64, word: &[u8]) -> Result<(), AllocError> {
    append_number(text, number)?;
    text.extend_from_slice(b" ")?;
    text.extend_from_slice(word)?;
    if number == 1 {
        Ok(())
    } else {
        text.extend_from_slice(b"s")
    }
}

/// Appends `, K follow`, if any do.
fn append_follow(text: &mut Vec<u8>, follow: u64) -> Result<(), AllocError> {
    if follow == 0 {
        return Ok(());
    }
    text.extend_from_slice(b", ")?;
    append_number(text, follow)?;
    text.extend_from_slice(if follow == 1 { b" follows" } else { b" follow" })
}

/// Appends ` L` and a line.
fn append_line(text: &mut Vec<u8>, line: usize) -> Result<(), AllocError> {
    text.extend_from_slice(b" L")?;
    append_number(text, line as u64)
}

/// Appends `VERDICT[ REASON][ LLINE][ KIND LLINE]`.
fn append_decision(text: &mut Vec<u8>, decision: &Decision<'_>) -> Result<(), AllocError> {
    text.extend_from_slice(decision.verdict)?;
    if let Some(reason) = decision.reason {
        text.extend_from_slice(b" ")?;
        text.extend_from_slice(reason)?;
    }
    if let Some(line) = decision.rule {
        append_line(text, line)?;
    }
    if let Some((kind, line)) = decision.translation {
        text.extend_from_slice(b" ")?;
        text.extend_from_slice(kind)?;
        append_line(text, line)?;
    }
    Ok(())
}

/// Appends `DECISION -> DECISION`.
fn append_pair(text: &mut Vec<u8>, pair: &Pair<'_>) -> Result<(), AllocError> {
    append_decision(text, &pair.old)?;
    text.extend_from_slice(b" -> ")?;
    append_decision(text, &pair.new)
}

/// Appends ` on NAME`, if the run has several interfaces.
fn append_place(text: &mut Vec<u8>, interfaces: &[&str], place: u8) -> Result<(), AllocError> {
    if interfaces.len() <= 1 {
        return Ok(());
    }
    match interfaces.get(usize::from(place)) {
        Some(name) => {
            text.extend_from_slice(b" on ")?;
            text.extend_from_slice(name.as_bytes())
        }
        None => Ok(()),
    }
}

/// Appends the line of a cause.
pub(crate) fn append_cause(
    text: &mut Vec<u8>,
    interfaces: &[&str],
    cause: &Cause<'_>,
) -> Result<(), AllocError> {
    cause.flow.append(text)?;
    append_place(text, interfaces, cause.place)?;
    text.extend_from_slice(b"  ")?;
    append_pair(text, &cause.pair)?;
    text.extend_from_slice(b"  1 packet, first ")?;
    append_number(text, cause.number)?;
    append_follow(text, cause.follow)?;
    text.extend_from_slice(b"\n")
}

/// Appends the line of a sum.
fn append_sum(text: &mut Vec<u8>, sum: &Sum<'_>) -> Result<(), AllocError> {
    append_pair(text, &sum.pair)?;
    text.extend_from_slice(b": ")?;
    append_count(text, sum.packets, b"packet")?;
    text.extend_from_slice(b" in ")?;
    append_count(text, sum.flows, b"flow")?;
    append_follow(text, sum.follow)?;
    text.extend_from_slice(b"\n")
}

/// Appends a line for each sum.
pub(crate) fn append_sums(text: &mut Vec<u8>, sums: &[Sum<'_>]) -> Result<(), AllocError> {
    for sum in sums {
        append_sum(text, sum)?;
    }
    Ok(())
}

/// Appends what stands behind the sums: lines about what isn't judged, and one for all packets.
pub(crate) fn append_end(text: &mut Vec<u8>, compared: &Compared<'_>) -> Result<(), AllocError> {
    append_untried(text, &compared.untried)?;
    compared.unjudged.append(text)?;
    append_number(text, compared.changes.changed)?;
    text.extend_from_slice(b" of ")?;
    append_count(text, compared.packets, b"packet")?;
    text.extend_from_slice(b" change")?;
    append_causes(text, compared.changes.causes(), compared.differences())?;
    match compared.tail {
        Tail::Clean => text.extend_from_slice(b"\n"),
        Tail::Cut => text.extend_from_slice(b", cut\n"),
    }
}

/// Appends how many causes there are, and how many differences couldn't be asked.
fn append_causes(text: &mut Vec<u8>, causes: u64, differences: u64) -> Result<(), AllocError> {
    if causes > 0 {
        text.extend_from_slice(b": ")?;
        append_count(text, causes, b"cause")?;
    }
    if differences > 0 {
        text.extend_from_slice(b", ")?;
        append_count(text, differences, b"difference")?;
        text.extend_from_slice(b" not judged")?;
    }
    Ok(())
}
