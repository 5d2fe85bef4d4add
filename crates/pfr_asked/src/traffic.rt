//! What the packets of a run are, as far as it says which rules they could have asked.
use crate::asking::{interface_allows, opens};
use crate::seen::{Seen, add_packet, none_seen};
use pfr_capture::Record;
use pfr_headers::View;
use pfr_net::{Direction, Ipv4Address, RuleNumber};
use pfr_packet::Outcome;
use pfr_ruleset::Ruleset;
use std::alloc::{AllocError, Global};
use std::collections::BTreeSet;

/// The addresses that packets of an interface have behind their translation, by the place of the interface.
pub type Targets = BTreeSet<(u8, u32)>;

/// Adds the addresses that the `nat` and `binat` rules of a ruleset translate to on the interface at a place.
fn add_targets(
    targets: &mut Targets,
    rules: &Ruleset,
    place: u8,
    name: &pfr_net::IfName,
) -> Result<(), AllocError> {
    for rule in rules.translations.nats.as_slice() {
        if let Some(target) = rule.target {
            if interface_allows(&rule.packet.interface, name) {
                targets.insert((place, target.address.0))?;
            }
        }
    }
    for rule in rules.translations.binats.as_slice() {
        if let Some(Ipv4Address(target)) = rule.target {
            if interface_allows(&rule.packet.interface, name) {
                targets.insert((place, target))?;
            }
        }
    }
    Ok(())
}

/// The addresses that packets have behind their translation by one of two rulesets, and the interfaces' own.
pub fn targets_of(alloc: Global, old: &Ruleset, new: &Ruleset) -> Result<Targets, AllocError> {
    let mut targets = BTreeSet::new(alloc);
    let mut place = 0;
    for interface in old.interfaces.as_slice() {
        targets.insert((place, interface.address.0))?;
        add_targets(&mut targets, old, place, &interface.name)?;
        add_targets(&mut targets, new, place, &interface.name)?;
        place = place.saturating_add(1);
    }
    Ok(targets)
}

/// Which ways packets of an interface go, and connections begin.
#[derive(Clone, Copy)]
pub(crate) struct Ways {
    pub(crate) come_in: bool,
    pub(crate) go_out: bool,
    pub(crate) connect_in: bool,
    pub(crate) connect_out: bool,
    /// Connections begin by packets that go out, and are shown behind their translation.
    pub(crate) connect_translated: bool,
}

/// What the packets of a run are.
#[derive(Drop)]
pub struct Traffic {
    /// Where they came to the filter, by the places of the interfaces.
    pub(crate) seen: Vec<Seen>,
    /// Which ways they go, by the places of the interfaces.
    pub(crate) ways: Vec<Ways>,
    /// The filter rules that are named for a packet, by their numbers.
    pub(crate) filter: Vec<bool>,
    /// The translation rules that are.
    pub(crate) translations: Vec<bool>,
    /// Whether a packet has a state.
    pub(crate) has_states: bool,
}

/// As many marks as there are rules, none of them set.
fn no_marks(alloc: Global, count: u32) -> Result<Vec<bool>, AllocError> {
    let mut marks = Vec::new(alloc);
    for _ in 0..count {
        marks.push(false)?;
    }
    Ok(marks)
}

/// Sets the mark of a rule, if there is one.
fn mark(marks: &mut [bool], rule: Option<RuleNumber>) {
    if let Some(RuleNumber(number)) = rule {
        if let Some(mark) = marks.get_mut(number) {
            *mark = true;
        }
    }
}

impl Traffic {
    /// No packet yet of a run with these rules.
    pub fn new(alloc: Global, rules: &Ruleset) -> Result<Traffic, AllocError> {
        let interfaces = rules.interfaces.as_slice();
        let mut ways = Vec::new(alloc);
        for _ in interfaces {
            ways.push(Ways {
                come_in: false,
                go_out: false,
                connect_in: false,
                connect_out: false,
                connect_translated: false,
            })?;
        }
        let (filter, translations) = rules.counts();
        Ok(Traffic {
            seen: none_seen(alloc, interfaces)?,
            ways,
            filter: no_marks(alloc, filter)?,
            translations: no_marks(alloc, translations)?,
            has_states: false,
        })
    }

    /// Adds a packet by what it came to. If it goes out, it may be shown behind its translation.
    pub fn add(&mut self, packet: &Record, view: &View, outcome: &Outcome, is_translated: bool) {
        add_packet(self.seen.as_mut_slice(), packet.place, outcome);
        mark(self.filter.as_mut_slice(), outcome.rule);
        mark(self.translations.as_mut_slice(), outcome.translation);
        if outcome.state.is_some() {
            self.has_states = true;
        }
        let opens = opens(view, outcome);
        if let Some(ways) = self.ways.get_mut(usize::from(packet.place)) {
            match outcome.direction {
                Some(Direction::In) => {
                    ways.come_in = true;
                    ways.connect_in = ways.connect_in || opens;
                }
                Some(Direction::Out) => {
                    ways.go_out = true;
                    ways.connect_translated = ways.connect_translated || (opens && is_translated);
                    ways.connect_out = ways.connect_out || (opens && !is_translated);
                }
                None => {}
            }
        }
    }
}

/// Whether a packet is shown behind its translation if it goes out: it is captured on the wire, or its source is an
/// address that packets have there.
pub fn is_translated(packet: &Record, view: &View, targets: &Targets, shows_wire: bool) -> bool {
    match view {
        View::Ipv4(shown) => shows_wire || targets.contains(&(packet.place, shown.source.0)),
        View::Skip | View::Short => false,
    }
}
