//! How changes are told as JSON, an object on each line.
use crate::changes::{Cause, Sum};
use crate::comparing::Compared;
use crate::decision::{Decision, Pair};
use crate::unjudged::Unjudged;
use pfr_asked::{Idle, Kind, Place, Unasked, Untried, Which};
use pfr_capture::Tail;
use pfr_listing::{put_count, put_option, put_string};
use std::alloc::{AllocError, Global};

/// Appends `lead` and a string, or null.
fn put_word(text: &mut Vec<u8>, lead: &[u8], word: Option<&[u8]>) -> Result<(), AllocError> {
    text.extend_from_slice(lead)?;
    match word {
        Some(word) => put_string(text, word),
        None => text.extend_from_slice(b"null"),
    }
}

/// A line's number, if there is a line.
fn number_of(line: Option<usize>) -> Option<u64> {
    match line {
        Some(line) => Some(line as u64),
        None => None,
    }
}

/// Appends `lead` and a decision.
fn put_decision(
    text: &mut Vec<u8>,
    lead: &[u8],
    decision: &Decision<'_>,
) -> Result<(), AllocError> {
    let (kind, line) = match decision.translation {
        Some((kind, line)) => (Some(kind), Some(line)),
        None => (None, None),
    };
    text.extend_from_slice(lead)?;
    put_word(text, b"{\"verdict\":", Some(decision.verdict))?;
    put_word(text, b",\"reason\":", decision.reason)?;
    put_option(text, b",\"line\":", number_of(decision.rule))?;
    put_word(text, b",\"translation\":", kind)?;
    put_option(text, b",\"translation_line\":", number_of(line))?;
    text.extend_from_slice(b"}")
}

/// Appends both decisions.
fn put_pair(text: &mut Vec<u8>, pair: &Pair<'_>) -> Result<(), AllocError> {
    put_decision(text, b",\"old\":", &pair.old)?;
    put_decision(text, b",\"new\":", &pair.new)
}

/// Appends the object of a cause.
pub(crate) fn put_cause(
    text: &mut Vec<u8>,
    interfaces: &[&str],
    cause: &Cause<'_>,
) -> Result<(), AllocError> {
    let name = match interfaces.get(usize::from(cause.place)) {
        Some(name) => Some(name.as_bytes()),
        None => None,
    };
    put_word(text, b"{\"kind\":\"cause\",\"interface\":", name)?;
    text.extend_from_slice(b",")?;
    cause.flow.put_json(text)?;
    put_pair(text, &cause.pair)?;
    put_count(text, b",\"first\":", cause.number)?;
    put_count(text, b",\"follow\":", cause.follow)?;
    text.extend_from_slice(b"}\n")
}

/// Appends the object of a sum.
fn put_sum(text: &mut Vec<u8>, sum: &Sum<'_>) -> Result<(), AllocError> {
    text.extend_from_slice(b"{\"kind\":\"decisions\"")?;
    put_pair(text, &sum.pair)?;
    put_count(text, b",\"packets\":", sum.packets)?;
    put_count(text, b",\"flows\":", sum.flows)?;
    put_count(text, b",\"follow\":", sum.follow)?;
    text.extend_from_slice(b"}\n")
}

/// Appends an object for each sum.
pub(crate) fn put_sums(text: &mut Vec<u8>, sums: &[Sum<'_>]) -> Result<(), AllocError> {
    for sum in sums {
        put_sum(text, sum)?;
    }
    Ok(())
}

/// Appends where a rule stands, behind others of a list.
fn put_place(text: &mut Vec<u8>, lead: &[u8], place: &Place) -> Result<(), AllocError> {
    text.extend_from_slice(lead)?;
    text.extend_from_slice(match place.which {
        Which::Old => b"{\"ruleset\":\"old\"",
        Which::New => b"{\"ruleset\":\"new\"",
    })?;
    put_count(text, b",\"line\":", place.line as u64)?;
    text.extend_from_slice(b"}")
}

/// The word for a kind of rules.
fn kind_word(kind: Kind) -> &'static [u8] {
    match kind {
        Kind::Nat => b"nat",
        Kind::Rdr => b"rdr",
        Kind::Binat => b"binat",
        Kind::Filter => b"filter",
    }
}

/// How the object of rules begins that couldn't be asked.
const NOT_ASKED: &[u8] = b"{\"kind\":\"not asked\",\"rules\":[";

/// Appends the end of the object of rules that couldn't be asked: their kind, and why.
fn put_why(text: &mut Vec<u8>, room: &mut Vec<u8>, unasked: &Unasked) -> Result<(), AllocError> {
    room.clear();
    unasked.why.append(room)?;
    put_word(text, b"],\"of\":", Some(kind_word(unasked.kind)))?;
    put_word(text, b",\"why\":", Some(room.as_slice()))?;
    text.extend_from_slice(b"}\n")
}

/// Appends an object for the rules of each kind that couldn't be asked for one reason.
fn put_unasked(
    text: &mut Vec<u8>,
    room: &mut Vec<u8>,
    unasked: &[Unasked],
) -> Result<(), AllocError> {
    let mut before: Option<&Unasked> = None;
    for one in unasked {
        match before {
            Some(last) if last.kind == one.kind && last.why == one.why => {
                put_place(text, b",", &one.place)?;
            }
            Some(last) => {
                put_why(text, room, last)?;
                put_place(text, NOT_ASKED, &one.place)?;
            }
            None => put_place(text, NOT_ASKED, &one.place)?,
        }
        before = Some(one);
    }
    match before {
        Some(last) => put_why(text, room, last),
        None => Ok(()),
    }
}

/// Appends the object of an option.
fn put_idle(text: &mut Vec<u8>, room: &mut Vec<u8>, idle: &Idle) -> Result<(), AllocError> {
    room.clear();
    idle.append_option(room)?;
    put_word(
        text,
        b"{\"kind\":\"not asked\",\"option\":",
        Some(room.as_slice()),
    )?;
    room.clear();
    idle.append_why(room)?;
    put_word(text, b",\"why\":", Some(room.as_slice()))?;
    text.extend_from_slice(b"}\n")
}

/// Appends the object of the rules that no packet met, if there are any.
fn put_unmet(text: &mut Vec<u8>, unmet: &[Place]) -> Result<(), AllocError> {
    let Some((first, others)) = unmet.split_first() else {
        return Ok(());
    };
    put_place(text, b"{\"kind\":\"met by no packet\",\"rules\":[", first)?;
    for place in others {
        put_place(text, b",", place)?;
    }
    text.extend_from_slice(b"]}\n")
}

/// Appends the objects of what no packet tried.
fn put_untried(alloc: Global, text: &mut Vec<u8>, untried: &Untried) -> Result<(), AllocError> {
    let mut room = Vec::new(alloc);
    put_unasked(text, &mut room, untried.unasked.as_slice())?;
    for idle in untried.idle.as_slice() {
        put_idle(text, &mut room, idle)?;
    }
    put_unmet(text, untried.unmet.as_slice())
}

/// Appends the object of the packets that aren't judged.
fn put_unjudged(text: &mut Vec<u8>, unjudged: &Unjudged) -> Result<(), AllocError> {
    put_count(text, b"{\"kind\":\"not judged\",\"cut\":", unjudged.cut)?;
    put_count(text, b",\"ipv6\":", unjudged.ipv6)?;
    put_count(text, b",\"arp\":", unjudged.arp)?;
    put_count(text, b",\"pppoe\":", unjudged.pppoe)?;
    put_count(text, b",\"two_tags\":", unjudged.two_tags)?;
    put_count(text, b",\"other\":", unjudged.other)?;
    put_count(text, b",\"midway\":", unjudged.midway)?;
    put_count(text, b",\"parts\":", unjudged.parts)?;
    text.extend_from_slice(b"}\n")
}

/// Appends what stands behind the sums: objects about what isn't judged, and one for all packets.
pub(crate) fn put_end(
    alloc: Global,
    text: &mut Vec<u8>,
    compared: &Compared<'_>,
) -> Result<(), AllocError> {
    put_untried(alloc, text, &compared.untried)?;
    put_unjudged(text, &compared.unjudged)?;
    put_count(
        text,
        b"{\"kind\":\"all\",\"changed\":",
        compared.changes.changed,
    )?;
    put_count(text, b",\"packets\":", compared.packets)?;
    put_count(text, b",\"causes\":", compared.changes.causes())?;
    put_count(text, b",\"differences\":", compared.differences())?;
    text.extend_from_slice(match compared.tail {
        Tail::Clean => b",\"capture_cut\":false}\n",
        Tail::Cut => b",\"capture_cut\":true}\n",
    })
}
