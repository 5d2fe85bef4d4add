//! Packets as JSON, each an object on a line of its own.
use crate::shown::{Named, Shown};
use crate::text::append_flags;
use pfr_headers::{Packet, Transport, View};
use pfr_listing::{Flow, put_count, put_option, put_string, reason_word, verdict_word};
use pfr_net::Direction;
use pfr_packet::Outcome;
use std::alloc::AllocError;

/// What stands for the headers of a packet that isn't IPv4, or is too short.
const NO_HEADERS: &[u8] =
    b",\"flags\":null,\"icmp_type\":null,\"icmp_code\":null,\"fragment\":null,\"length\":null";

/// Appends `number_lead` and the number of a rule, and `line_lead` and its line.
fn append_rule(
    text: &mut Vec<u8>,
    number_lead: &[u8],
    line_lead: &[u8],
    rule: Option<Named<'_>>,
) -> Result<(), AllocError> {
    match rule {
        Some(rule) => {
            put_count(text, number_lead, rule.number)?;
            put_count(text, line_lead, rule.told.line as u64)
        }
        None => {
            put_option(text, number_lead, None)?;
            put_option(text, line_lead, None)
        }
    }
}

/// Appends what a packet came to.
fn append_outcome(text: &mut Vec<u8>, outcome: &Outcome) -> Result<(), AllocError> {
    let direction: &[u8] = match outcome.direction {
        Some(Direction::In) => b"\"in\"",
        Some(Direction::Out) => b"\"out\"",
        None => b"null",
    };
    text.extend_from_slice(b",\"direction\":")?;
    text.extend_from_slice(direction)?;
    text.extend_from_slice(b",\"verdict\":\"")?;
    text.extend_from_slice(verdict_word(outcome.verdict))?;
    text.extend_from_slice(b"\",\"reason\":\"")?;
    text.extend_from_slice(reason_word(outcome.reason))?;
    text.extend_from_slice(b"\"")
}

/// Appends TCP's flags, or null for other packets.
fn append_tcp(text: &mut Vec<u8>, transport: &Transport) -> Result<(), AllocError> {
    match transport {
        Transport::Tcp(header) => {
            text.extend_from_slice(b",\"flags\":\"")?;
            append_flags(text, header.flags)?;
            text.extend_from_slice(b"\"")
        }
        _ => text.extend_from_slice(b",\"flags\":null"),
    }
}

/// Appends ICMP's type and code, or null for other packets.
fn append_icmp(text: &mut Vec<u8>, transport: &Transport) -> Result<(), AllocError> {
    let (kind, code) = match transport {
        Transport::Icmp(header) => (Some(u64::from(header.kind.0)), Some(u64::from(header.code))),
        _ => (None, None),
    };
    put_option(text, b",\"icmp_type\":", kind)?;
    put_option(text, b",\"icmp_code\":", code)
}

/// Appends what the headers of a packet say.
fn append_headers(text: &mut Vec<u8>, packet: &Packet) -> Result<(), AllocError> {
    append_tcp(text, &packet.transport)?;
    append_icmp(text, &packet.transport)?;
    let fragment: &[u8] = match packet.transport {
        Transport::Fragment => b"true",
        _ => b"false",
    };
    text.extend_from_slice(b",\"fragment\":")?;
    text.extend_from_slice(fragment)?;
    put_count(text, b",\"length\":", u64::from(packet.total_length))
}

/// Appends what a packet is.
fn append_view(text: &mut Vec<u8>, view: &View) -> Result<(), AllocError> {
    text.extend_from_slice(b",")?;
    Flow::of(view).put_json(text)?;
    match view {
        View::Ipv4(packet) => append_headers(text, packet),
        View::Skip | View::Short => text.extend_from_slice(NO_HEADERS),
    }
}

/// Appends the object of a packet.
pub(crate) fn append_json(text: &mut Vec<u8>, shown: &Shown<'_>) -> Result<(), AllocError> {
    put_count(text, b"{\"number\":", shown.met.number)?;
    put_count(text, b",\"seconds\":", u64::from(shown.moment.seconds))?;
    put_count(text, b",\"nanoseconds\":", shown.moment.nanoseconds)?;
    text.extend_from_slice(b",\"interface\":")?;
    put_string(text, shown.interface.as_bytes())?;
    append_outcome(text, shown.outcome)?;
    append_rule(text, b",\"rule\":", b",\"line\":", shown.rule)?;
    append_rule(
        text,
        b",\"translation\":",
        b",\"translation_line\":",
        shown.translation,
    )?;
    let state = match shown.outcome.state {
        Some(state) => Some(state.0),
        None => None,
    };
    put_option(text, b",\"state\":", state)?;
    append_view(text, shown.met.view)?;
    put_count(text, b",\"captured\":", shown.met.packet.bytes.len() as u64)?;
    text.extend_from_slice(b"}\n")
}
