//! Packets that aren't judged, or not as the firewall would judge them.
use pfr_capture::Record;
use pfr_headers::{Transport, View};
use pfr_notices::{SkippedAs, is_cut, is_midway, skipped_as};
use pfr_packet::{Outcome, Reason};
use pfr_texts::append_number;
use std::alloc::AllocError;

/// What a run says of a packet beyond what it comes to.
#[derive(Clone, Copy)]
pub(crate) struct Doubt {
    /// The packet is too short.
    is_short: bool,
    /// Packets of its interface aren't filtered.
    is_unfiltered: bool,
    /// It is one of a TCP connection that began before it, and met no state.
    is_midway: bool,
}

impl Doubt {
    /// By what a packet with this view came to.
    pub(crate) fn of(view: &View, outcome: &Outcome) -> Doubt {
        Doubt {
            is_short: matches!(outcome.reason, Reason::Short),
            is_unfiltered: matches!(outcome.reason, Reason::SkipOn),
            is_midway: is_midway(view, outcome),
        }
    }
}

/// How many packets there are of each kind that isn't judged, or not as the firewall would judge it.
#[derive(Clone, Copy)]
pub(crate) struct Unjudged {
    /// Too short, since not all of them was captured.
    pub(crate) cut: u64,
    pub(crate) ipv6: u64,
    pub(crate) arp: u64,
    pub(crate) pppoe: u64,
    pub(crate) two_tags: u64,
    /// Frames of other kinds.
    pub(crate) other: u64,
    /// Midway in a TCP connection, in one of both runs.
    pub(crate) midway: u64,
    /// Parts of packets. The firewall may put them together first.
    pub(crate) parts: u64,
}

/// One more.
fn raise(count: &mut u64) {
    *count = count.saturating_add(1);
}

/// Appends how many packets there are of a kind, by the word for one and the word for several. What is said of the
/// kinds begins at `start` of the text.
fn append_kind(
    text: &mut Vec<u8>,
    start: usize,
    count: u64,
    one: &[u8],
    several: &[u8],
) -> Result<(), AllocError> {
    if count == 0 {
        return Ok(());
    }
    if text.len() == start {
        text.extend_from_slice(b"not judged: ")?;
    } else {
        text.extend_from_slice(b", ")?;
    }
    append_number(text, count)?;
    text.extend_from_slice(b" ")?;
    text.extend_from_slice(if count == 1 { one } else { several })
}

impl Unjudged {
    /// No packet yet.
    pub(crate) fn new() -> Unjudged {
        Unjudged {
            cut: 0,
            ipv6: 0,
            arp: 0,
            pppoe: 0,
            two_tags: 0,
            other: 0,
            midway: 0,
            parts: 0,
        }
    }

    /// Adds a packet, by what both runs say of it.
    pub(crate) fn add(&mut self, packet: &Record, view: &View, old: Doubt, new: Doubt) {
        match view {
            View::Skip => self.add_skipped(skipped_as(packet.link, packet.bytes.as_slice())),
            View::Short => {
                if (old.is_short || new.is_short) && is_cut(packet) {
                    raise(&mut self.cut);
                }
            }
            View::Ipv4(shown) => {
                if matches!(shown.transport, Transport::Fragment)
                    && !(old.is_unfiltered && new.is_unfiltered)
                {
                    raise(&mut self.parts);
                }
            }
        }
        if old.is_midway || new.is_midway {
            raise(&mut self.midway);
        }
    }

    /// Adds a frame that is no IPv4 packet.
    fn add_skipped(&mut self, kind: SkippedAs) {
        match kind {
            SkippedAs::Arp => raise(&mut self.arp),
            SkippedAs::Ipv6 => raise(&mut self.ipv6),
            SkippedAs::Pppoe => raise(&mut self.pppoe),
            SkippedAs::TwoTags => raise(&mut self.two_tags),
            SkippedAs::Other => raise(&mut self.other),
        }
    }

    /// How many packets aren't judged at all.
    fn unseen(&self) -> u64 {
        self.cut
            .saturating_add(self.ipv6)
            .saturating_add(self.arp)
            .saturating_add(self.pppoe)
            .saturating_add(self.two_tags)
            .saturating_add(self.other)
    }

    /// Whether nothing may be concluded of packets that don't change: some were cut, or of `packets` in all none was
    /// judged.
    pub(crate) fn leaves_open(&self, packets: u64) -> bool {
        self.cut > 0 || self.unseen() >= packets
    }

    /// Appends a line of the kinds of which there are packets, if there are any.
    pub(crate) fn append(&self, text: &mut Vec<u8>) -> Result<(), AllocError> {
        let start = text.len();
        append_kind(
            text,
            start,
            self.cut,
            b"packet cut by the snapshot length",
            b"packets cut by the snapshot length",
        )?;
        append_kind(text, start, self.ipv6, b"IPv6", b"IPv6")?;
        append_kind(text, start, self.arp, b"ARP", b"ARP")?;
        append_kind(text, start, self.pppoe, b"PPPoE", b"PPPoE")?;
        append_kind(
            text,
            start,
            self.two_tags,
            b"with two VLAN tags",
            b"with two VLAN tags",
        )?;
        append_kind(text, start, self.other, b"other frame", b"other frames")?;
        append_kind(text, start, self.midway, b"midway", b"midway")?;
        append_kind(
            text,
            start,
            self.parts,
            b"part of a packet",
            b"parts of packets",
        )?;
        if text.len() == start {
            Ok(())
        } else {
            text.extend_from_slice(b"\n")
        }
    }
}
