//! Packets as a capture that pflog(4) of FreeBSD 13 writes.
use crate::joining::Met;
use crate::shown::Shown;
use pfr_capture::ByteOrder;
use pfr_headers::{View, datagram_place};
use pfr_net::Direction;
use pfr_packet::{Outcome, Reason, Verdict};
use std::alloc::AllocError;

/// The magic number of captures that count microseconds.
const MICROSECONDS: u32 = 0xa1b2_c3d4;

/// The magic number of captures that count nanoseconds.
const NANOSECONDS: u32 = 0xa1b2_3c4d;

/// The link type of pflog.
const PFLOG: u32 = 117;

/// The version of the format, 2.4.
const VERSION: [u8; 4] = [2, 0, 4, 0];

/// How many bytes stand before each packet.
const BEFORE: u64 = 64;

/// The most bytes of a record: the most that are read of one, and the header.
const MOST: u32 = 262_208;

/// How many bytes of an interface's name are written.
const MOST_OF_NAME: usize = 15;

/// The header's length without the padding at its end.
const LENGTH: u8 = 61;

/// The address family of IPv4.
const INET: u8 = 2;

/// The number for no rule.
const NONE: u32 = u32::MAX;

/// The number for no process.
const NO_PROCESS: u32 = 100_000;

/// Appends the header of a capture, which counts nanoseconds if `is_fine`.
pub(crate) fn append_opening(text: &mut Vec<u8>, is_fine: bool) -> Result<(), AllocError> {
    let magic = if is_fine { NANOSECONDS } else { MICROSECONDS };
    text.extend_from_slice(&magic.to_le_bytes())?;
    text.extend_from_slice(&VERSION)?;
    text.extend_from_slice(&[0; 8])?;
    text.extend_from_slice(&MOST.to_le_bytes())?;
    text.extend_from_slice(&PFLOG.to_le_bytes())
}

/// The number of a verdict.
fn action(verdict: Verdict) -> u8 {
    match verdict {
        Verdict::Pass | Verdict::Skip => 0,
        Verdict::Block | Verdict::Return => 1,
    }
}

/// The number of a reason, as pf has it (PFRES_).
fn reason(reason: Reason) -> u8 {
    match reason {
        Reason::Short => 3,
        Reason::IpOption => 8,
        Reason::StateMismatch => 10,
        Reason::StateInsert => 11,
        Reason::StateLimit => 12,
        Reason::NatExhausted => 15,
        _ => 0,
    }
}

/// The number of a direction.
fn direction(direction: Option<Direction>) -> u8 {
    match direction {
        Some(Direction::In) => 1,
        Some(Direction::Out) => 2,
        None => 0,
    }
}

/// The number of the filter rule.
fn rule(outcome: &Outcome) -> u32 {
    match outcome.rule {
        Some(number) => number.0.min(NONE as usize) as u32,
        None => NONE,
    }
}

/// The name of an interface with zeros behind it.
fn name_field(name: &[u8]) -> [u8; 16] {
    let length = name.len().min(MOST_OF_NAME);
    let mut field = [0; 16];
    field[..length].copy_from_slice(&name[..length]);
    field
}

/// Appends what stands before a packet.
fn append_header(text: &mut Vec<u8>, shown: &Shown<'_>) -> Result<(), AllocError> {
    let outcome = shown.outcome;
    let begin = [
        LENGTH,
        INET,
        action(outcome.verdict),
        reason(outcome.reason),
    ];
    text.extend_from_slice(&begin)?;
    text.extend_from_slice(&name_field(shown.interface.as_bytes()))?;
    // no ruleset's name
    text.extend_from_slice(&[0; 16])?;
    text.extend_from_slice(&rule(outcome).to_be_bytes())?;
    // no rule in another ruleset, and no user
    text.extend_from_slice(&[255; 8])?;
    text.extend_from_slice(&NO_PROCESS.to_le_bytes())?;
    // who loaded the rules
    text.extend_from_slice(&[0; 8])?;
    text.extend_from_slice(&[direction(outcome.direction), 0, 0, 0])
}

/// The bytes of a packet behind the header of its link.
#[derive(Clone, Copy)]
struct Datagram<'a> {
    /// Those that were captured.
    captured: &'a [u8],
    /// How many there were.
    original: u64,
}

/// The first bytes of a datagram, as many as its header says. It is whole if fewer were captured, or if its header
/// can't be read.
fn first_of<'a>(datagram: &'a [u8], view: &View) -> &'a [u8] {
    match view {
        View::Ipv4(packet) => datagram
            .get(..usize::from(packet.total_length))
            .unwrap_or(datagram),
        View::Skip | View::Short => datagram,
    }
}

/// A packet without the header of its link, and without what stands behind it in its frame.
fn datagram_of<'a>(met: Met<'a>, order: ByteOrder) -> Datagram<'a> {
    let frame = met.packet.bytes.as_slice();
    let place = datagram_place(met.packet.link, frame).unwrap_or(0);
    let captured = first_of(frame.get(place..).unwrap_or(&[]), met.view);
    let around = frame.len().saturating_sub(captured.len()) as u64;
    let header = &met.packet.header[..];
    let original = u64::from(order.read_u32(&header[12..16]));
    Datagram {
        captured,
        original: original.saturating_sub(around).max(captured.len() as u64),
    }
}

/// A number as four bytes have it.
fn four_bytes(number: u64) -> [u8; 4] {
    (number.min(u64::from(u32::MAX)) as u32).to_le_bytes()
}

/// Appends the record of a packet to a capture, which counts nanoseconds if `is_fine`. What isn't an IPv4 packet is
/// left out.
pub(crate) fn append_record(
    text: &mut Vec<u8>,
    shown: &Shown<'_>,
    order: ByteOrder,
    is_fine: bool,
) -> Result<(), AllocError> {
    if is_skipped(shown.met.view) {
        return Ok(());
    }
    let datagram = datagram_of(shown.met, order);
    let fraction = shown.moment.carried_nanoseconds();
    let unit = if is_fine { 1 } else { 1000 };
    text.extend_from_slice(&four_bytes(shown.moment.carried_seconds()))?;
    text.extend_from_slice(&four_bytes(fraction / unit))?;
    text.extend_from_slice(&four_bytes((datagram.captured.len() as u64).saturating_add(BEFORE)))?;
    text.extend_from_slice(&four_bytes(datagram.original.saturating_add(BEFORE)))?;
    append_header(text, shown)?;
    text.extend_from_slice(datagram.captured)
}

/// Whether a packet isn't IPv4.
fn is_skipped(view: &View) -> bool {
    match view {
        View::Skip => true,
        _ => false,
    }
}
