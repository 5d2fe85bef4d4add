//! Packets and bytes.
ghost use Rattle.std.specs.Prelude.{◌≡◌};
ghost use Rattle.pfr_report.specs.Counts as spec;

use pfr_headers::View;
use pfr_packet::Verdict;

/// A number of packets, and their bytes: the total lengths in their IPv4 headers. Neither passes the greatest number of 64 bits.
#[derive(Clone, Copy, Debug, PartialEq, Eq)]
pub struct Count {
    pub packets: u64,
    pub bytes: u64,
}

/// No packet.
pub(crate) const NONE: Count = Count {
    packets: 0,
    bytes: 0,
};

impl Count {
    /// Counts one packet more, of `bytes` bytes.
    pub fn add(&mut self, bytes: u64)
        ensures { self.new ≡ spec.with_one bytes self.old }
    {
        self.packets = self.packets.saturating_add(1);
        self.bytes = self.bytes.saturating_add(bytes);
    }

    /// Counts other packets too.
    pub fn add_all(&mut self, more: Count)
        ensures { self.new ≡ spec.with_all more self.old }
    {
        self.packets = self.packets.saturating_add(more.packets);
        self.bytes = self.bytes.saturating_add(more.bytes);
    }
}

/// How many bytes count for a packet.
pub(crate) fn bytes_of(view: &View) -> u64 {
    match view {
        View::Ipv4(packet) => u64::from(packet.total_length),
        View::Skip | View::Short => 0,
    }
}

/// Something for each verdict.
#[derive(Clone, Copy)]
pub(crate) struct ByVerdict {
    pub(crate) pass: Count,
    pub(crate) block: Count,
    pub(crate) returned: Count,
    pub(crate) skip: Count,
}

/// The words for verdicts, in the order in which they are told.
pub(crate) const VERDICTS: [Verdict; 4] = [
    Verdict::Pass,
    Verdict::Block,
    Verdict::Return,
    Verdict::Skip,
];

impl ByVerdict {
    /// No packets.
    pub(crate) fn new() -> ByVerdict {
        ByVerdict {
            pass: NONE,
            block: NONE,
            returned: NONE,
            skip: NONE,
        }
    }

    /// The packets with a verdict.
    pub(crate) fn of(&self, verdict: Verdict) -> Count {
        match verdict {
            Verdict::Pass => self.pass,
            Verdict::Block => self.block,
            Verdict::Return => self.returned,
            Verdict::Skip => self.skip,
        }
    }

    /// Counts a packet with a verdict.
    pub(crate) fn add(&mut self, verdict: Verdict, bytes: u64) {
        match verdict {
            Verdict::Pass => self.pass.add(bytes),
            Verdict::Block => self.block.add(bytes),
            Verdict::Return => self.returned.add(bytes),
            Verdict::Skip => self.skip.add(bytes),
        }
    }

    /// Counts others too.
    pub(crate) fn add_all(&mut self, more: &ByVerdict) {
        self.pass.add_all(more.pass);
        self.block.add_all(more.block);
        self.returned.add_all(more.returned);
        self.skip.add_all(more.skip);
    }

    /// How many packets there are.
    pub(crate) fn packets(&self) -> u64 {
        let first = self.pass.packets.saturating_add(self.block.packets);
        let second = self.returned.packets.saturating_add(self.skip.packets);
        first.saturating_add(second)
    }
}
