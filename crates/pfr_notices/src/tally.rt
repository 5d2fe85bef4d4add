//! What is counted of the packets of a run.
use crate::cut::is_cut;
use crate::midway::{is_midway, requests};
use crate::named::{is_among, missing, named_interfaces};
use crate::skipped::{SkippedAs, skipped_as};
use crate::warning::{Skipped, Warning};
use pfr_asked::{Targets, interface_allows, is_translated, opens, targets_of};
use pfr_capture::Record;
use pfr_headers::{Direction, Transport, View};
use pfr_net::IfName;
use pfr_packet::{Outcome, Reason};
use pfr_ruleset::{Interface, Ruleset};
use std::alloc::{AllocError, Global};
use std::sync::atomic::{AtomicU64, Ordering};

/// A count that grows while others look on.
#[derive(Drop)]
struct Count(AtomicU64);

impl Count {
    fn new() -> Count {
        Count(AtomicU64::new(0))
    }

    fn raise(&self) {
        let _ = self.0.fetch_add(1, Ordering::SeqCst);
    }

    fn get(&self) -> u64 {
        self.0.load(Ordering::SeqCst)
    }
}

/// An interface of the run, and how many of its packets go which way.
#[derive(Drop)]
struct Seen {
    name: IfName,
    /// Whether a rule names it.
    is_named: bool,
    /// Whether its packets are filtered.
    is_filtered: bool,
    /// Whether a rule translates what goes out there.
    is_translated: bool,
    come_in: Count,
    go_out: Count,
    /// Packets that begin a connection outwards, and are shown behind their translation, or before it.
    behind: Count,
    before: Count,
}

/// Counts of the records that are skipped, by what they hold.
#[derive(Drop)]
struct SkippedCounts {
    arp: Count,
    ipv6: Count,
    pppoe: Count,
    two_tags: Count,
    other: Count,
}

/// What is counted of the packets of a run.
#[derive(Drop)]
pub(crate) struct Tally {
    /// The interfaces of the run by their places.
    interfaces: Vec<Seen>,
    /// The interfaces that rules name and the run doesn't have.
    missing: Vec<IfName>,
    /// Whether rules name interfaces.
    names_any: bool,
    /// The addresses that packets have behind their translation.
    targets: Targets,
    skipped: SkippedCounts,
    /// Packets that are too short, and of which not all was captured.
    cut: Count,
    /// Parts of packets.
    parts: Count,
    /// Packets of TCP connections that began before them, without a state.
    midway: Count,
    /// Packets that request a TCP connection.
    requests: Count,
    /// States that a limit refused.
    refused: Count,
}

impl SkippedCounts {
    fn new() -> SkippedCounts {
        SkippedCounts {
            arp: Count::new(),
            ipv6: Count::new(),
            pppoe: Count::new(),
            two_tags: Count::new(),
            other: Count::new(),
        }
    }

    fn add(&self, kind: SkippedAs) {
        match kind {
            SkippedAs::Arp => self.arp.raise(),
            SkippedAs::Ipv6 => self.ipv6.raise(),
            SkippedAs::Pppoe => self.pppoe.raise(),
            SkippedAs::TwoTags => self.two_tags.raise(),
            SkippedAs::Other => self.other.raise(),
        }
    }

    fn get(&self) -> Skipped {
        Skipped {
            arp: self.arp.get(),
            ipv6: self.ipv6.get(),
            pppoe: self.pppoe.get(),
            two_tags: self.two_tags.get(),
            other: self.other.get(),
        }
    }
}

/// Who is told of warnings.
pub trait Hearer {
    fn hear(&mut self, warning: &Warning<'_>);
}

/// Which warnings are told.
#[derive(Clone, Copy, PartialEq, Eq)]
pub enum Wanted {
    Nothing,
    /// All but those of packets that aren't judged: an answer tells them.
    Beside,
    Everything,
}

impl Seen {
    /// Warns of packets that go one way alone, if they are filtered.
    fn tell_ways<H: Hearer>(&self, hearer: &mut H) {
        if self.is_filtered && self.go_out.get() == 0 {
            hearer.hear(&Warning::NoneGoesOut(self.name));
        }
        if self.is_filtered && self.come_in.get() == 0 {
            hearer.hear(&Warning::NoneComesIn(self.name));
        }
    }

    /// Warns of packets that go out behind their translation, if they are filtered.
    fn tell_translated<H: Hearer>(&self, hearer: &mut H) {
        let shows = self.behind.get() > 0 && self.before.get() == 0;
        if self.is_filtered && self.is_translated && shows {
            hearer.hear(&Warning::Translated(self.name));
        }
    }
}

/// Whether a rule of `nat` or `binat` translates what goes out of the interface of a name.
fn is_translated_on(rules: &Ruleset, name: &IfName) -> bool {
    for rule in rules.translations.nats.as_slice() {
        if rule.target.is_some() && interface_allows(&rule.packet.interface, name) {
            return true;
        }
    }
    for rule in rules.translations.binats.as_slice() {
        if rule.target.is_some() && interface_allows(&rule.packet.interface, name) {
            return true;
        }
    }
    false
}

/// The interfaces of a run of which no packet was seen yet.
fn unseen(alloc: Global, rules: &Ruleset, named: &[IfName]) -> Result<Vec<Seen>, AllocError> {
    let interfaces = rules.interfaces.as_slice();
    let skipped = rules.options.skipped.as_slice();
    let mut unseen = Vec::with_capacity(alloc, interfaces.len())?;
    for interface in interfaces {
        let name = interface.name;
        unseen.push(Seen {
            name,
            is_named: is_among(named, &name),
            is_filtered: !is_among(skipped, &name),
            is_translated: is_translated_on(rules, &name),
            come_in: Count::new(),
            go_out: Count::new(),
            behind: Count::new(),
            before: Count::new(),
        })?;
    }
    Ok(unseen)
}

impl Tally {
    /// Nothing is counted yet of a run through a ruleset.
    pub(crate) fn new(alloc: Global, rules: &Ruleset) -> Result<Tally, AllocError> {
        let named = named_interfaces(alloc, rules)?;
        let interfaces = rules.interfaces.as_slice();
        Ok(Tally {
            interfaces: unseen(alloc, rules, named.as_slice())?,
            missing: missing(alloc, interfaces, named.as_slice())?,
            names_any: !named.is_empty(),
            targets: targets_of(alloc, rules, rules)?,
            skipped: SkippedCounts::new(),
            cut: Count::new(),
            parts: Count::new(),
            midway: Count::new(),
            requests: Count::new(),
            refused: Count::new(),
        })
    }

    /// Counts a packet with this view, which came to an outcome.
    pub(crate) fn add(&self, packet: &Record, view: &View, outcome: &Outcome) {
        self.add_way(packet, view, outcome);
        match outcome.reason {
            Reason::NotIp => self
                .skipped
                .add(skipped_as(packet.link, packet.bytes.as_slice())),
            Reason::StateLimit => self.refused.raise(),
            Reason::Short if is_cut(packet) => self.cut.raise(),
            Reason::SkipOn => {}
            _ => self.add_part(view),
        }
        if is_midway(view, outcome) {
            self.midway.raise();
        }
        if requests(view) {
            self.requests.raise();
        }
    }

    /// Counts a packet if it is a part of one.
    fn add_part(&self, view: &View) {
        if let View::Ipv4(shown) = view {
            if matches!(shown.transport, Transport::Fragment) {
                self.parts.raise();
            }
        }
    }

    /// Counts a packet of its interface by the way that it goes.
    fn add_way(&self, packet: &Record, view: &View, outcome: &Outcome) {
        if let Some(seen) = self.interfaces.get(usize::from(packet.place)) {
            match outcome.direction {
                Some(Direction::In) => seen.come_in.raise(),
                Some(Direction::Out) => {
                    seen.go_out.raise();
                    if opens(view, outcome) {
                        self.add_outward(seen, packet, view);
                    }
                }
                None => {}
            }
        }
    }

    /// Counts a packet that begins a connection outwards.
    fn add_outward(&self, seen: &Seen, packet: &Record, view: &View) {
        if is_translated(packet, view, &self.targets, false) {
            seen.behind.raise();
        } else {
            seen.before.raise();
        }
    }

    /// Tells what there is to warn of, behind the last of `packets` packets. If the run is told so, its captures show the
    /// wire.
    pub(crate) fn tell<H: Hearer>(
        &self,
        packets: u64,
        wanted: Wanted,
        shows_wire: bool,
        hearer: &mut H,
    ) {
        for seen in self.interfaces.as_slice() {
            seen.tell_ways(hearer);
            if self.names_any && !seen.is_named {
                hearer.hear(&Warning::NoRule(seen.name));
            }
            if !shows_wire {
                seen.tell_translated(hearer);
            }
        }
        for name in self.missing.as_slice() {
            hearer.hear(&Warning::NoCapture(*name));
        }
        if wanted == Wanted::Everything {
            self.tell_unjudged(packets, hearer);
        }
        self.tell_midway(wanted, hearer);
        let refused = self.refused.get();
        tell_if(refused, &Warning::Refused(refused), hearer);
    }

    /// Tells of packets that aren't judged.
    fn tell_unjudged<H: Hearer>(&self, packets: u64, hearer: &mut H) {
        let skipped = self.skipped.get();
        if skipped.count() > 0 {
            hearer.hear(&Warning::Skipped { packets, skipped });
        }
        let (cut, parts) = (self.cut.get(), self.parts.get());
        tell_if(cut, &Warning::Cut(cut), hearer);
        tell_if(parts, &Warning::Parts(parts), hearer);
    }

    /// Tells of packets midway in a connection. That no connection begins is always told.
    fn tell_midway<H: Hearer>(&self, wanted: Wanted, hearer: &mut H) {
        let midway = self.midway.get();
        if self.requests.get() == 0 {
            tell_if(midway, &Warning::NoneBegins(midway), hearer);
        } else if wanted == Wanted::Everything {
            tell_if(midway, &Warning::Midway(midway), hearer);
        }
    }
}

/// Tells of a number of packets, unless it is none.
fn tell_if<H: Hearer>(count: u64, warning: &Warning<'_>, hearer: &mut H) {
    if count > 0 {
        hearer.hear(warning);
    }
}
