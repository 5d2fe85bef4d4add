//! Rules by what they pin.
ghost use Rattle.std.specs.Prelude.{◌≡◌, ◌<◌, ◌≤◌, ℕ, length, map, All, IfOk};
ghost use Rattle.pfr_chains.specs.Chains.{IsNext};
ghost use Rattle.pfr_ruleset.specs.Indexes as spec;
ghost use Rattle.pfr_ruleset.specs.Shapes as keyed;

use crate::criterion::Asked;
use crate::shape::{NO_SHAPE, Pins, Shape, key, key_of_rule};
use pfr_chains::Chains;
use pfr_items::Items;
use std::alloc::{AllocError, Global};
use std::collections::BTreeMap;

/// The most shapes of an index. A rule of another shape counts as of one that pins less, or as of none.
pub const MOST_SHAPES: usize = 15;

/// A shape with fewer rules is not worth the look-up that it costs each packet.
const FEWEST_RULES: usize = 4;

/// For each shape of rules the places of the rules that pin the same. A packet is only tested against the rules on one
/// chain of each shape.
#[derive(Drop)]
pub struct Index {
    /// Shapes that pin more bits come first, so that a rule counts as of the most exact one.
    shapes: Items<Shape>,
    chains: Chains,
    /// The keys are below it.
    size: u32,
}

/// How many rules each shape has.
fn counted_shapes(alloc: Global, asked: &[Asked]) -> Result<BTreeMap<Shape, usize>, AllocError> {
    let mut counts: BTreeMap<Shape, usize> = BTreeMap::new(alloc);
    for asked in asked {
        let shape = Shape::of(&asked.packet);
        let count = counts.get(&shape).copied().unwrap_or(0);
        counts.insert(shape, count.saturating_add(1))?;
    }
    Ok(counts)
}

/// The shapes that most rules have, those that pin more bits first.
fn common_shapes(alloc: Global, asked: &[Asked]) -> Result<Items<Shape>, AllocError>
    ensures { IfOk result (λ shapes. length shapes ≤ 15) }
{
    let counts = counted_shapes(alloc, asked)?;
    let mut common: Vec<(usize, Shape)> = Vec::new(alloc);
    for (shape, count) in &counts {
        if *count >= FEWEST_RULES && *shape != NO_SHAPE {
            common.push((*count, *shape))?;
        }
    }
    common.sort_by_key(|(count, _)| usize::MAX - *count)?;
    common.truncate(MOST_SHAPES);
    let mut shapes: Vec<Shape> = Vec::new(alloc);
    for (_, shape) in &common {
        shapes.push(*shape)?;
    }
    shapes.sort_by_key(|shape| u32::MAX - shape.bits())?;
    shapes.truncate(MOST_SHAPES);
    Ok(Items::of(shapes))
}

/// The bound of the keys of `count` rules: twice `count`, so that few rules that pin different values share a key.
fn size_for(count: usize) -> u32
    ensures { 0 < result }
{
    let count = count.min(2147483647) as u32;
    (2 * count).max(1)
}

fn keys_of(
    alloc: Global,
    shapes: &[Shape],
    size: u32,
    asked: &[Asked],
) -> Result<Vec<u32>, AllocError>
    requires { 0 < size }
    ensures keys { IfOk result (λ keys. keys.items ≡ map (keyed.key_of_rule shapes.now size) asked.now) }
    ensures below { IfOk result (λ keys. All (λ key. key < size) keys.items) }
{
    let mut keys = Vec::with_capacity(alloc, asked.len())?;
    for asked in asked {
        keys.push(key_of_rule(shapes, size, asked))?;
    }
    Ok(keys)
}

impl Index {
    /// The index of the rules that ask for `asked`.
    pub(crate) fn over(alloc: Global, asked: &[Asked]) -> Result<Index, AllocError>
        requires few { length asked.now ≤ 4294967295 }
        ensures { IfOk result (λ index. spec.IsIndex asked.now index) }
    {
        let shapes = common_shapes(alloc, asked)?;
        let size = size_for(asked.len());
        let keys = keys_of(alloc, shapes.as_slice(), size, asked)?;
        let chains = Chains::over(alloc, keys, size)?;
        Ok(Index {
            shapes,
            chains,
            size,
        })
    }

    /// How many rules there are.
    #[inline]
    pub fn len(&self) -> usize
        ensures { result ≡ length self.now.chains }
    {
        self.chains.len()
    }

    #[inline]
    pub fn shapes(&self) -> &[Shape]
        ensures { result.now ≡ self.now.shapes }
    {
        self.shapes.as_slice()
    }

    /// The first rule that may pin `pins` and count as of the shape at `place`, or the number of rules.
    #[inline]
    pub fn first(&self, place: usize, pins: Pins) -> usize
        requires { 0 < self.now.size }
        ensures { IsNext self.now.chains (keyed.key place pins self.now.size) 0 result }
    {
        self.chains.first(key(place, pins, self.size))
    }

    /// The first rule at or behind `from` that has the key of the one at `place`.
    #[inline]
    pub fn behind(&self, place: usize, from: usize) -> usize
        requires within { from ≤ length self.now.chains }
        ensures { (key low : ℕ) → low ≤ from → IsNext self.now.chains key low place → IsNext self.now.chains key from result }
    {
        self.chains.behind(place, from)
    }
}
