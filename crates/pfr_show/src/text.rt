//! Packets as lines for people.
use crate::moment::Calendar;
use crate::shown::{Named, Shown};
use bitflags::Flags;
use pfr_headers::{IcmpHeader, Packet, TcpFlags, Transport, View};
use pfr_listing::{Flow, reason_word, verdict_word};
use pfr_net::{Direction, FlagSet};
use pfr_packet::Outcome;
use pfr_texts::append_number;
use pfr_wording::append_letters;
use std::alloc::AllocError;

/// Appends the letters of the flags that are set.
pub(crate) fn append_flags(text: &mut Vec<u8>, flags: TcpFlags) -> Result<(), AllocError> {
    append_letters(text, FlagSet(flags.bits()))
}

/// Appends a number behind a word.
fn append_counted(text: &mut Vec<u8>, word: &[u8], number: u64) -> Result<(), AllocError> {
    text.extend_from_slice(word)?;
    append_number(text, number)
}

/// Appends ` type TYPE code CODE`.
fn append_icmp(text: &mut Vec<u8>, header: &IcmpHeader) -> Result<(), AllocError> {
    append_counted(text, b" type ", u64::from(header.kind.0))?;
    append_counted(text, b" code ", u64::from(header.code))
}

/// Appends what is told of the header behind a packet's IPv4 header.
fn append_transport(text: &mut Vec<u8>, transport: &Transport) -> Result<(), AllocError> {
    match transport {
        Transport::Tcp(header) => {
            text.extend_from_slice(b" flags ")?;
            if header.flags.bits() == 0 {
                text.extend_from_slice(b"none")
            } else {
                append_flags(text, header.flags)
            }
        }
        Transport::Icmp(header) => append_icmp(text, header),
        Transport::Fragment => text.extend_from_slice(b" fragment"),
        Transport::Udp(_) | Transport::Other => Ok(()),
    }
}

/// Appends what stands behind a packet's flow.
fn append_packet(text: &mut Vec<u8>, packet: &Packet) -> Result<(), AllocError> {
    append_transport(text, &packet.transport)?;
    append_counted(text, b" length ", u64::from(packet.total_length))
}

/// Appends `rule N LLINE`, with another word for its kind.
fn append_rule(text: &mut Vec<u8>, kind: &[u8], rule: Named<'_>) -> Result<(), AllocError> {
    text.extend_from_slice(kind)?;
    append_counted(text, b" ", rule.number)?;
    append_counted(text, b" L", rule.told.line as u64)
}

/// Appends the rules that are named.
fn append_rules(text: &mut Vec<u8>, shown: &Shown<'_>) -> Result<(), AllocError> {
    match shown.rule {
        Some(rule) => append_rule(text, b"rule", rule)?,
        None => text.extend_from_slice(b"no rule")?,
    }
    match shown.translation {
        Some(rule) => {
            text.extend_from_slice(b", ")?;
            append_rule(text, rule.told.kind(), rule)
        }
        None => Ok(()),
    }
}

/// Appends ` (REASON, state S): VERDICT DIR`.
fn append_outcome(text: &mut Vec<u8>, outcome: &Outcome) -> Result<(), AllocError> {
    text.extend_from_slice(b" (")?;
    text.extend_from_slice(reason_word(outcome.reason))?;
    if let Some(state) = outcome.state {
        append_counted(text, b", state ", state.0)?;
    }
    text.extend_from_slice(b"): ")?;
    text.extend_from_slice(verdict_word(outcome.verdict))?;
    match outcome.direction {
        Some(Direction::In) => text.extend_from_slice(b" in"),
        Some(Direction::Out) => text.extend_from_slice(b" out"),
        None => Ok(()),
    }
}

/// Appends what a packet is.
fn append_view(text: &mut Vec<u8>, view: &View) -> Result<(), AllocError> {
    Flow::of(view).append(text)?;
    match view {
        View::Ipv4(packet) => append_packet(text, packet),
        View::Skip | View::Short => Ok(()),
    }
}

/// Appends the line of a packet.
pub(crate) fn append_text(
    text: &mut Vec<u8>,
    calendar: &mut Calendar,
    shown: &Shown<'_>,
) -> Result<(), AllocError> {
    calendar.append(text, shown.moment)?;
    text.extend_from_slice(b" ")?;
    append_rules(text, shown)?;
    append_outcome(text, shown.outcome)?;
    text.extend_from_slice(b" on ")?;
    text.extend_from_slice(shown.interface.as_bytes())?;
    text.extend_from_slice(b": ")?;
    append_view(text, shown.met.view)?;
    append_counted(text, b", packet ", shown.met.number)?;
    text.extend_from_slice(b"\n")
}
