//! What differs between two rulesets and was tried by no packet.
use crate::differences::{Difference, Kind, Which, all_rules, differences};
use crate::keys::Told;
use crate::traffic::Traffic;
use crate::unasked::{Name, Why, append_name, is_met, why_not};
use pfr_net::IfName;
use pfr_ruleset::Options;
use std::alloc::{AllocError, Global};

/// Rules of a line that no packet could have asked, and why.
#[derive(Clone, Copy, PartialEq, Eq, PartialOrd, Ord)]
pub struct Unasked {
    pub kind: Kind,
    pub why: Why,
    pub place: Place,
}

/// Where a rule stands: in which ruleset, and on which line of its file, from 1.
#[derive(Clone, Copy, PartialEq, Eq, PartialOrd, Ord)]
pub struct Place {
    pub which: Which,
    pub line: usize,
}

/// An option that differs, and that says nothing about the packets.
#[derive(Clone, Copy)]
pub enum Idle {
    /// `set skip on` an interface of which there is no capture.
    Skip(Name),
    /// Options about states, and no packet has one.
    Timeouts,
    StateLimit,
}

/// What differs between two rulesets, and no packet could have asked, or none met.
#[derive(Drop)]
pub struct Untried {
    /// Rules that no packet could have asked, each once, by their kinds and reasons.
    pub unasked: Vec<Unasked>,
    pub idle: Vec<Idle>,
    /// Rules that could have been asked, and that no packet names, each once, by their places.
    pub unmet: Vec<Place>,
}

/// Whether a name is among others.
fn is_among(names: &[IfName], name: &IfName) -> bool {
    for other in names {
        if other == name {
            return true;
        }
    }
    false
}

/// Adds the interfaces that the first options skip and the second don't, and of which there is no capture.
fn add_skipped(
    idle: &mut Vec<Idle>,
    first: &Options,
    second: &Options,
    traffic: &Traffic,
) -> Result<(), AllocError> {
    for name in first.skipped.as_slice() {
        let mut is_there = is_among(second.skipped.as_slice(), name);
        for seen in &traffic.seen {
            is_there = is_there || seen.name == *name;
        }
        if !is_there {
            idle.push(Idle::Skip(name.bytes))?;
        }
    }
    Ok(())
}

/// The options that differ and say nothing about the packets of these runs.
fn idle_options(
    alloc: Global,
    old: &Options,
    new: &Options,
    before: &Traffic,
    after: &Traffic,
) -> Result<Vec<Idle>, AllocError> {
    let mut idle = Vec::new(alloc);
    add_skipped(&mut idle, old, new, before)?;
    add_skipped(&mut idle, new, old, after)?;
    if before.has_states || after.has_states {
        return Ok(idle);
    }
    if old.timeouts.seconds != new.timeouts.seconds {
        idle.push(Idle::Timeouts)?;
    }
    if old.state_limit != new.state_limit {
        idle.push(Idle::StateLimit)?;
    }
    Ok(idle)
}

/// Sorted elements, each of them once.
fn each_once<T: Copy + Ord + Drop>(alloc: Global, mut all: Vec<T>) -> Result<Vec<T>, AllocError> {
    all.sort()?;
    let mut once = Vec::new(alloc);
    for one in all.as_slice() {
        if once.last() != Some(one) {
            once.push(*one)?;
        }
    }
    Ok(once)
}

/// Puts a rule that differs among those that no packet could have asked, or among those that none met.
fn put(
    rule: &Difference,
    told: Told<'_, '_>,
    traffic: &Traffic,
    unasked: &mut Vec<Unasked>,
    unmet: &mut Vec<Place>,
) -> Result<(), AllocError> {
    let place = Place {
        which: rule.which,
        line: rule.line,
    };
    match why_not(told.rules, traffic, rule) {
        Some(why) => unasked.push(Unasked {
            kind: rule.kind,
            why,
            place,
        })?,
        None => {
            if rule.is_named && !is_met(traffic, rule) {
                unmet.push(place)?;
            }
        }
    }
    Ok(())
}

/// The line of a rule, and why no packet could have asked it.
pub type NotAsked = (usize, Why);

/// The rules of a ruleset that no packet could have asked, and for which a packet might count: all but those that begin
/// with `no`.
pub fn not_asked(
    alloc: Global,
    told: Told<'_, '_>,
    traffic: &Traffic,
) -> Result<Vec<NotAsked>, AllocError> {
    let rules = all_rules(alloc, told)?;
    let mut found = Vec::new(alloc);
    for rule in rules.as_slice() {
        if rule.is_named {
            if let Some(why) = why_not(told.rules, traffic, rule) {
                found.push((rule.line, why))?;
            }
        }
    }
    Ok(found)
}

impl Untried {
    /// By both rulesets, and by what was seen of the packets of both runs.
    pub fn of<'a>(
        alloc: Global,
        old: Told<'_, 'a>,
        new: Told<'_, 'a>,
        before: &Traffic,
        after: &Traffic,
    ) -> Result<Untried, AllocError> {
        let found = differences(alloc, old, new)?;
        let mut unasked = Vec::new(alloc);
        let mut unmet = Vec::new(alloc);
        for rule in found.as_slice() {
            match rule.which {
                Which::Old => put(rule, old, before, &mut unasked, &mut unmet)?,
                Which::New => put(rule, new, after, &mut unasked, &mut unmet)?,
            }
        }
        Ok(Untried {
            unasked: each_once(alloc, unasked)?,
            idle: idle_options(alloc, &old.rules.options, &new.rules.options, before, after)?,
            unmet: each_once(alloc, unmet)?,
        })
    }

    /// How many differences couldn't be asked.
    pub fn count(&self) -> usize {
        self.unasked.len().saturating_add(self.idle.len())
    }
}

impl Idle {
    /// Appends the option as pf.conf(5) has it.
    pub fn append_option(&self, text: &mut Vec<u8>) -> Result<(), AllocError> {
        match self {
            Idle::Skip(name) => {
                text.extend_from_slice(b"set skip on ")?;
                append_name(text, name)
            }
            Idle::Timeouts => text.extend_from_slice(b"set timeout"),
            Idle::StateLimit => text.extend_from_slice(b"set limit states"),
        }
    }

    /// Appends why it says nothing about the packets.
    pub fn append_why(&self, text: &mut Vec<u8>) -> Result<(), AllocError> {
        match self {
            Idle::Skip(name) => {
                text.extend_from_slice(b"no capture of ")?;
                append_name(text, name)
            }
            Idle::Timeouts | Idle::StateLimit => text.extend_from_slice(b"no packet has a state"),
        }
    }
}
