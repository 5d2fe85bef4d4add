//! Where packets of a run came to the filter.
ghost use Rattle.std.specs.Prelude.{◌≡◌, slice_get, IfOk};
ghost use Rattle.pfr_asked.specs.Seen as spec;

use crate::asking::{came, is_allowed};
use pfr_net::{Direction, IfName};
use pfr_packet::Outcome;
use pfr_ruleset::{FilterRules, Interface};
use std::alloc::{AllocError, Global};

/// An interface of a run, and which ways packets came to the filter there.
#[derive(Clone, Copy)]
pub struct Seen {
    pub name: IfName,
    pub come_in: bool,
    pub go_out: bool,
}

/// The interfaces of a run by their places, before its first packet.
pub fn none_seen(alloc: Global, interfaces: &[Interface]) -> Result<Vec<Seen>, AllocError>
    ensures { IfOk result (λ seen. seen.items ≡ spec.none_seen interfaces.now) }
{
    let mut seen = Vec::with_capacity(alloc, interfaces.len())?;
    for interface in interfaces {
        seen.push(Seen::none(interface))?;
    }
    Ok(seen)
}

impl Seen {
    /// No packet came to the filter on an interface.
    fn none(interface: &Interface) -> Seen
        ensures { result ≡ spec.unseen interface.now }
    {
        Seen {
            name: interface.name,
            come_in: false,
            go_out: false,
        }
    }

    /// A packet came to the filter that goes this way.
    fn with_way(self, direction: Direction) -> Seen
        ensures { result ≡ spec.with_way direction self }
    {
        match direction {
            Direction::In => Seen {
                come_in: true,
                ..self
            },
            Direction::Out => Seen {
                go_out: true,
                ..self
            },
        }
    }

    /// Whether packets came to the filter that the filter rule at a place allows.
    fn asks(&self, filter: &FilterRules, rule: usize) -> bool
        ensures { result ≡ spec.asks_at filter.now rule self.now }
    {
        (self.come_in && is_allowed(filter, rule, &self.name, Direction::In))
            || (self.go_out && is_allowed(filter, rule, &self.name, Direction::Out))
    }
}

/// Adds a packet of the interface at a place, by what it came to.
pub fn add_packet(seen: &mut [Seen], place: u8, outcome: &Outcome)
    ensures { seen.new ≡ spec.seen_with seen.old place outcome.now }
{
    if came(outcome) {
        match outcome.direction {
            Some(direction) => add_way(seen, usize::from(place), direction),
            None => {}
        }
    }
}

/// Adds a packet that goes this way on the interface at a place.
fn add_way(seen: &mut [Seen], place: usize, direction: Direction)
    ensures { seen.new ≡ spec.with_one seen.old place direction (slice_get seen.old place) }
{
    if place < seen.len() {
        seen[place] = seen[place].with_way(direction);
    }
}

/// Whether the filter rule at a place could have been asked by one of the packets that were added.
pub fn could_be_asked(seen: &[Seen], filter: &FilterRules, rule: usize) -> bool
    ensures { result ≡ spec.asks_in filter.now rule seen.now }
{
    for one in seen {
        if one.asks(filter, rule) {
            return true;
        }
    }
    false
}
