//! The packets that come to something else, and those by which they do.
use crate::decision::{Meaning, Pair};
use pfr_capture::Record;
use pfr_headers::View;
use pfr_listing::Flow;
use std::alloc::{AllocError, Global};
use std::collections::{BTreeMap, BTreeSet};

/// A packet that changes, and that follows no other one.
#[derive(Clone, Copy)]
pub(crate) struct Cause<'a> {
    /// Its number.
    pub(crate) number: u64,
    /// The place of its interface.
    pub(crate) place: u8,
    pub(crate) flow: Flow,
    pub(crate) pair: Pair<'a>,
    /// How many packets follow it.
    pub(crate) follow: u64,
}

/// A sum over the packets that come to the same two decisions.
#[derive(Clone, Copy)]
pub(crate) struct Sum<'a> {
    pub(crate) pair: Pair<'a>,
    pub(crate) packets: u64,
    pub(crate) flows: u64,
    /// How many of the packets follow others.
    pub(crate) follow: u64,
}

/// A flow on an interface, whichever way its packets go.
type Key = (u8, Flow);

/// The packets that come to something else by a new ruleset.
///
/// A packet that changes follows another one that changed before it: one of its flow, or the one that made the state
/// which it met in one of the runs. If there is none, it is a cause.
#[derive(Drop)]
pub struct Changes<'a> {
    /// Whether another verdict alone is a change.
    verdicts_alone: bool,
    /// In the order of their numbers.
    causes: Vec<Cause<'a>>,
    /// The places of the causes that the next packets of flows follow.
    flows: BTreeMap<Key, usize>,
    /// The same for packets of a state, by the number of the packet that made it.
    makers: BTreeMap<u64, usize>,
    /// In the order of their first packets.
    sums: Vec<Sum<'a>>,
    /// The places of the sums.
    pairs: BTreeMap<Pair<'a>, usize>,
    /// The flows in each sum, by its place.
    summed: BTreeSet<(usize, Key)>,
    /// How many packets change.
    pub(crate) changed: u64,
}

/// What is told of the packets that change, and first of those that are newly let in.
#[derive(Drop)]
pub struct Told<'a> {
    pub(crate) causes: Vec<Cause<'a>>,
    pub(crate) sums: Vec<Sum<'a>>,
}

impl<'a> Changes<'a> {
    /// None yet.
    pub(crate) fn new(alloc: Global, verdicts_alone: bool) -> Changes<'a> {
        Changes {
            verdicts_alone,
            causes: Vec::new(alloc),
            flows: BTreeMap::new(alloc),
            makers: BTreeMap::new(alloc),
            sums: Vec::new(alloc),
            pairs: BTreeMap::new(alloc),
            summed: BTreeSet::new(alloc),
            changed: 0,
        }
    }

    /// Whether a packet changes that comes to `old` in the old run and to `new` in the new one.
    fn is_change(&self, old: &Meaning<'a>, new: &Meaning<'a>) -> bool {
        if self.verdicts_alone {
            old.differs_in_verdict(new)
        } else {
            old.differs(new)
        }
    }

    /// Adds a packet, if it changes.
    pub(crate) fn add(
        &mut self,
        number: u64,
        packet: &Record,
        view: &View,
        old: &Meaning<'a>,
        new: &Meaning<'a>,
    ) -> Result<(), AllocError> {
        if !self.is_change(old, new) {
            return Ok(());
        }
        self.changed = self.changed.saturating_add(1);
        let pair = Pair {
            old: old.decision(),
            new: new.decision(),
        };
        let flow = Flow::of(view);
        let key = (packet.place, flow.either_way());
        let cause = self.cause_of(key, old.maker, new.maker);
        let sum = self.sum_of(pair)?;
        let is_new = self.is_new_in(sum, key)?;
        add_to(&mut self.sums, sum, is_new, cause.is_some());
        let place = match cause {
            Some(place) => {
                follow(&mut self.causes, place);
                place
            }
            None => self.begin(number, packet.place, flow, pair)?,
        };
        self.lead(key, place)?;
        self.note_maker(number, place, old.maker, new.maker)
    }

    /// The place of the cause that a packet follows, if there is one: that of its flow, or that of the packet which made
    /// the state of the old run, or of the new one.
    fn cause_of(&self, key: Key, old: Option<u64>, new: Option<u64>) -> Option<usize> {
        if let Some(place) = self.flows.get(&key) {
            return Some(*place);
        }
        match self.cause_of_state(old) {
            Some(place) => Some(place),
            None => self.cause_of_state(new),
        }
    }

    /// The place of the cause that packets of the state follow which the packet with a number made.
    fn cause_of_state(&self, maker: Option<u64>) -> Option<usize> {
        self.makers.get(&maker?).copied()
    }

    /// Adds a cause, and answers its place.
    fn begin(
        &mut self,
        number: u64,
        place: u8,
        flow: Flow,
        pair: Pair<'a>,
    ) -> Result<usize, AllocError> {
        self.causes.push(Cause {
            number,
            place,
            flow,
            pair,
            follow: 0,
        })?;
        Ok(self.causes.len().saturating_sub(1))
    }

    /// Has later packets of a flow follow the cause at a place, if they follow none yet.
    fn lead(&mut self, key: Key, place: usize) -> Result<(), AllocError> {
        if !self.flows.contains_key(&key) {
            self.flows.insert(key, place)?;
        }
        Ok(())
    }

    /// Has packets of the state follow the cause at a place, if the packet with this number made one in one of the runs.
    fn note_maker(
        &mut self,
        number: u64,
        place: usize,
        old: Option<u64>,
        new: Option<u64>,
    ) -> Result<(), AllocError> {
        if old == Some(number) || new == Some(number) {
            self.makers.insert(number, place)?;
        }
        Ok(())
    }

    /// The place of the sum of a pair of decisions.
    fn sum_of(&mut self, pair: Pair<'a>) -> Result<usize, AllocError> {
        if let Some(place) = self.pairs.get(&pair) {
            return Ok(*place);
        }
        let place = self.sums.len();
        self.pairs.insert(pair, place)?;
        self.sums.push(Sum {
            pair,
            packets: 0,
            flows: 0,
            follow: 0,
        })?;
        Ok(place)
    }

    /// Whether no packet of a flow is in the sum at a place yet.
    fn is_new_in(&mut self, sum: usize, key: Key) -> Result<bool, AllocError> {
        if self.summed.contains(&(sum, key)) {
            return Ok(false);
        }
        self.summed.insert((sum, key))?;
        Ok(true)
    }

    /// Whether no packet changes.
    pub fn is_empty(&self) -> bool {
        self.changed == 0
    }

    /// How many causes there are.
    pub(crate) fn causes(&self) -> u64 {
        self.causes.len() as u64
    }

    /// What is told of them.
    pub(crate) fn told(&self, alloc: Global) -> Result<Told<'a>, AllocError> {
        let mut told = Told {
            causes: Vec::new(alloc),
            sums: Vec::new(alloc),
        };
        self.add_told(&mut told, true)?;
        self.add_told(&mut told, false)?;
        Ok(told)
    }

    /// Adds those causes and sums by which packets are newly let in, or all others.
    fn add_told(&self, told: &mut Told<'a>, lets_in: bool) -> Result<(), AllocError> {
        for cause in self.causes.as_slice() {
            if cause.pair.lets_in() == lets_in {
                told.causes.push(*cause)?;
            }
        }
        for sum in self.sums.as_slice() {
            if sum.pair.lets_in() == lets_in {
                told.sums.push(*sum)?;
            }
        }
        Ok(())
    }
}

/// One more packet in the sum at a place, maybe of a flow that isn't in it yet, and maybe one that follows another.
fn add_to(sums: &mut Vec<Sum<'_>>, place: usize, is_new: bool, follows: bool) {
    if let Some(sum) = sums.get_mut(place) {
        sum.packets = sum.packets.saturating_add(1);
        sum.flows = sum.flows.saturating_add(u64::from(is_new));
        sum.follow = sum.follow.saturating_add(u64::from(follows));
    }
}

/// One more packet follows the cause at a place.
fn follow(causes: &mut Vec<Cause<'_>>, place: usize) {
    if let Some(cause) = causes.get_mut(place) {
        cause.follow = cause.follow.saturating_add(1);
    }
}
