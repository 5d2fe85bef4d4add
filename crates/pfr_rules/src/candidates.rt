//! The rules that may hold for a packet, by what they pin.
ghost use Rattle.std.specs.Prelude.{◌<◌, ◌≤◌, length};
ghost use Rattle.pfr_rules.specs.Candidates as spec;

use pfr_criteria::pins_in;
use pfr_headers::Packet;
use pfr_ruleset::shape::{NO_SHAPE, shape_at};
use pfr_ruleset::{Aids, Index};

/// The places of a packet on the chains that it follows: one for each shape, and one for the rules that pin nothing.
#[derive(Clone, Copy)]
pub(crate) struct Trail {
    /// The places on the chains, in the order of the shapes. The chain of the rules that pin nothing is the last one.
    places: [usize; 16],
    /// From where the packet has come to, no rule before this place is on the chain of a shape.
    pinned: usize,
}

impl Trail {
    /// Before the first rule.
    pub(crate) fn new() -> Trail {
        Trail {
            places: [0; 16],
            pinned: 0,
        }
    }
}

/// Goes to the first rule of the chain of each shape, and answers the least of these places, or the number of rules.
fn begin_pinned(index: &Index, packet: &Packet, places: &mut [usize; 16]) -> usize
    requires few { length index.now.shapes ≤ 15 }
    requires sized { 0 < index.now.size }
    ensures { spec.IsBegun (length index.now.shapes) index.now packet.now result places.new }
{
    let shapes = index.shapes();
    let mut least = index.len();
    for shape in 0..shapes.len() {
        let place = index.first(shape, pins_in(&shape_at(shapes, shape), packet));
        places[shape] = place;
        least = least.min(place);
    }
    least
}

/// Goes to the first rule of each chain.
fn begin(index: &Index, packet: &Packet, trail: &mut Trail)
    requires few { length index.now.shapes ≤ 15 }
    requires sized { 0 < index.now.size }
    ensures { spec.IsFollowing index.now packet.now 0 trail.new }
{
    trail.pinned = begin_pinned(index, packet, &mut trail.places);
    let last = index.shapes().len();
    trail.places[last] = index.first(last, pins_in(&NO_SHAPE, packet));
}

/// The first rule at or behind `from` that is on the chain of a shape, or the number of rules.
fn next_pinned(index: &Index, places: &mut [usize; 16], from: usize) -> usize
    requires few { length index.now.shapes ≤ 15 }
    requires within { from ≤ length index.now.chains }
    ensures { spec.PassesBelow (length index.now.shapes) index.now from places.old result places.new }
{
    let mut least = index.len();
    for shape in 0..index.shapes().len() {
        let place = index.behind(places[shape], from);
        places[shape] = place;
        least = least.min(place);
    }
    least
}

/// Goes along the chains of shapes, unless no rule before `from` is on them.
fn bring_up(index: &Index, trail: &mut Trail, from: usize)
    requires few { length index.now.shapes ≤ 15 }
    requires within { from ≤ length index.now.chains }
    ensures { spec.IsBroughtUp index.now from trail.old trail.new }
{
    if from <= trail.pinned {
        return;
    }
    trail.pinned = next_pinned(index, &mut trail.places, from);
}

/// The first rule at or behind `from` that is on a chain that the packet follows, or the number of rules.
fn next_candidate(index: &Index, trail: &mut Trail, from: usize) -> usize
    requires few { length index.now.shapes ≤ 15 }
    requires within { from ≤ length index.now.chains }
    ensures { spec.FindsCandidate index.now from trail.old result trail.new }
{
    bring_up(index, trail, from);
    let last = index.shapes().len();
    let unpinned = index.behind(trail.places[last], from);
    trail.places[last] = unpinned;
    unpinned.min(trail.pinned)
}

/// A packet at the first rule of each chain that it follows, if there is an index.
pub(crate) fn begin_asking(aids: &Aids, packet: &Packet) -> Trail
    requires { spec.IsIndexRight aids.now.index }
    ensures { spec.IsFollowingIn aids.now.index packet.now 0 result }
{
    let mut trail = Trail::new();
    if let Some(index) = &aids.index {
        begin(index, packet, &mut trail);
    }
    trail
}

/// The first rule at or behind `from` that may hold for the packet, or the number of rules.
pub(crate) fn next_asked(aids: &Aids, trail: &mut Trail, from: usize) -> usize
    requires few { spec.IsIndexFit aids.now.index from }
    ensures { spec.FindsAsked aids.now.index from trail.old result trail.new }
{
    match &aids.index {
        None => from,
        Some(index) => next_candidate(index, trail, from),
    }
}
