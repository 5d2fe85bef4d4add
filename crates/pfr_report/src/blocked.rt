//! Flows of which packets are blocked.
use crate::count::{Count, NONE};
use pfr_listing::Flow;
use pfr_packet::Reason;
use std::alloc::{AllocError, Global};
use std::collections::BTreeMap;

/// How many flows are told.
const TOLD: usize = 20;

/// Why the first packet of a flow was blocked.
#[derive(Clone, Copy)]
pub(crate) struct Why {
    /// The line of the filter rule, if one is named.
    pub(crate) line: Option<usize>,
    pub(crate) reason: Reason,
}

/// Packets of a flow that are blocked.
#[derive(Clone, Copy)]
pub(crate) struct Blocked {
    pub(crate) count: Count,
    /// The number of the first one.
    pub(crate) first: u64,
    pub(crate) why: Why,
}

/// A flow on an interface, by its place.
pub(crate) type Wire = (u8, Flow);

/// A flow, and its packets that are blocked.
#[derive(Clone, Copy)]
pub(crate) struct Told {
    pub(crate) wire: Wire,
    pub(crate) blocked: Blocked,
}

/// The flows of which packets are blocked.
#[derive(Drop)]
pub(crate) struct BlockedFlows {
    flows: BTreeMap<Wire, Blocked>,
    /// All packets that are blocked.
    pub(crate) packets: u64,
}

/// Whether one flow is told before another one.
fn is_before(one: &Blocked, other: &Blocked) -> bool {
    one.count.packets > other.count.packets
        || (one.count.packets == other.count.packets && one.first < other.first)
}

/// The place at which a flow comes among others that are told in order.
fn place_among(told: &[Told], blocked: &Blocked) -> usize {
    for (place, other) in told.iter().enumerate() {
        if is_before(blocked, &other.blocked) {
            return place;
        }
    }
    told.len()
}

/// Puts a flow among others, in their order, if it is one of those that are told.
fn put(told: &mut Vec<Told>, flow: Told) -> Result<(), AllocError> {
    let place = place_among(told.as_slice(), &flow.blocked);
    if place >= TOLD {
        return Ok(());
    }
    told.truncate(TOLD - 1);
    let place = place.min(told.len());
    told.insert(place, flow)?;
    Ok(())
}

impl BlockedFlows {
    /// None yet.
    pub(crate) fn new(alloc: Global) -> BlockedFlows {
        BlockedFlows {
            flows: BTreeMap::new(alloc),
            packets: 0,
        }
    }

    /// Counts a packet that is blocked.
    pub(crate) fn add(
        &mut self,
        wire: Wire,
        number: u64,
        why: Why,
        bytes: u64,
    ) -> Result<(), AllocError> {
        self.packets = self.packets.saturating_add(1);
        if let Some(blocked) = self.flows.get_mut(&wire) {
            blocked.count.add(bytes);
            return Ok(());
        }
        let mut blocked = Blocked {
            count: NONE,
            first: number,
            why,
        };
        blocked.count.add(bytes);
        self.flows.insert(wire, blocked)?;
        Ok(())
    }

    /// How many flows there are.
    pub(crate) fn len(&self) -> usize {
        self.flows.len()
    }

    /// The flows with the most packets, and of those with as many the ones that come first.
    pub(crate) fn told(&self, alloc: Global) -> Result<Vec<Told>, AllocError> {
        let mut told = Vec::new(alloc);
        for (wire, blocked) in &self.flows {
            put(
                &mut told,
                Told {
                    wire: *wire,
                    blocked: *blocked,
                },
            )?;
        }
        Ok(told)
    }
}
