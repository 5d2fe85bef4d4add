//! Waits by the second at which they come up.
ghost use Rattle.std.specs.Prelude.{◌≡◌, ◌≤◌, ◌++◌, [], ◌∷◌, true, false, Bool, IfOk, OnOk};
ghost use Rattle.std.specs.BinaryHeap.{IsHeap, heap_items};
ghost use Rattle.std.specs.List.{All, FoldsTo, filter};
ghost use Rattle.std.specs.List.Sorted.{IsPermutation};
ghost use Rattle.pfr_deadlines.specs.Waits.{Decides, Wait, reversed_cmp};
ghost use Rattle.pfr_deadlines.specs.Wheel as spec;

use crate::wait::Wait;
use pfr_track::Clock;
use std::alloc::{AllocError, Global};
use std::cmp::Reverse;
use std::collections::BinaryHeap;
use std::marker::Model;

/// The number of buckets.
const BUCKETS: u64 = 256;

/// Waits in buckets by the second at which they come up: a wait stands in the bucket of the remainder of its deadline.
/// Contracts see the waits in no order, with a bound; no wait has a deadline below it.
///
/// Each second one bucket is gone through. A wait that lies more laps ahead is looked at once in [`BUCKETS`] seconds,
/// and stays in its bucket.
#[derive(Drop)]
pub(crate) struct Wheel {
    alloc: Global,
    /// None until they are made.
    buckets: Vec<Vec<Reverse<Wait>>>,
    bound: u64,
}

impl Model for Wheel {
    ghost use Rattle.pfr_deadlines.specs.Wheel.{StandRight, Turning, items_of};

    ghost Value = { Turning };

    ghost view = { λ w. record { items = items_of w.buckets.items; bound = w.bound } };

    ghost invariant = { λ w. StandRight w.bound w.buckets.items };
}

/// Moves the waits of a bucket that come up before the second `end` into the heap. If memory is refused, the others
/// stay.
fn take_before(
    bucket: &mut Vec<Reverse<Wait>>,
    end: u64,
    near: &mut BinaryHeap<Reverse<Wait>>,
) -> Result<(), AllocError>
    ensures heap { IsHeap reversed_cmp (heap_items near.old) → IsHeap reversed_cmp (heap_items near.new) }
    ensures same { IsPermutation (heap_items near.old ++ bucket.old.items) (heap_items near.new ++ bucket.new.items) }
    ensures fewer { spec.IsPart bucket.new.items bucket.old.items }
    ensures done { OnOk result (All (spec.IsItemFrom end) bucket.new.items) }
{
    let mut index = 0;
    while index < bucket.len() {
        let wait = bucket[index];
        if wait.0.0.0 < end {
            near.push(wait)?;
            bucket.swap_remove(index);
        } else {
            index += 1;
        }
    }
    Ok(())
}

/// The same with the bucket at an index, if there is one.
fn take_at(
    buckets: &mut Vec<Vec<Reverse<Wait>>>,
    index: usize,
    end: u64,
    near: &mut BinaryHeap<Reverse<Wait>>,
) -> Result<(), AllocError>
    ensures heap { IsHeap reversed_cmp (heap_items near.old) → IsHeap reversed_cmp (heap_items near.new) }
    ensures same { IsPermutation (heap_items near.old ++ spec.items_of buckets.old.items) (heap_items near.new ++ spec.items_of buckets.new.items) }
    ensures fewer { spec.ArePart buckets.new.items buckets.old.items }
    ensures done { OnOk result (spec.IsTaken end index buckets.new.items) }
{
    if index >= buckets.len() {
        return Ok(());
    }
    take_before(&mut buckets[index], end, near)
}

/// The same with the buckets of the seconds from `from` up to `end`.
fn take_seconds(
    buckets: &mut Vec<Vec<Reverse<Wait>>>,
    from: u64,
    end: u64,
    near: &mut BinaryHeap<Reverse<Wait>>,
) -> Result<(), AllocError>
    requires { from ≤ end }
    ensures heap { IsHeap reversed_cmp (heap_items near.old) → IsHeap reversed_cmp (heap_items near.new) }
    ensures same { IsPermutation (heap_items near.old ++ spec.items_of buckets.old.items) (heap_items near.new ++ spec.items_of buckets.new.items) }
    ensures fewer { spec.ArePart buckets.new.items buckets.old.items }
    ensures done { OnOk result (spec.AreTaken from end buckets.new.items) }
{
    for ahead in 0..(end - from).min(BUCKETS) {
        take_at(buckets, ((from + ahead) % BUCKETS) as usize, end, near)?;
    }
    Ok(())
}

/// Puts a wait into the bucket at an index, if there is one and memory isn't refused. Says whether it has.
fn put_at(buckets: &mut Vec<Vec<Reverse<Wait>>>, index: usize, wait: Reverse<Wait>) -> bool
    ensures done { result ≡ true → IsPermutation (wait ∷ spec.items_of buckets.old.items) (spec.items_of buckets.new.items) }
    ensures kept { result ≡ false → spec.items_of buckets.new.items ≡ spec.items_of buckets.old.items }
    ensures more { spec.ArePartBut index wait buckets.new.items buckets.old.items }
{
    if index >= buckets.len() {
        return false;
    }
    buckets[index].push(wait).is_ok()
}

/// [`BUCKETS`] empty buckets.
fn empty_buckets(alloc: Global) -> Result<Vec<Vec<Reverse<Wait>>>, AllocError>
    ensures { IfOk result (λ buckets. spec.items_of buckets.items ≡ []) }
{
    let mut buckets = Vec::with_capacity(alloc, BUCKETS as usize)?;
    for _turn in 0..BUCKETS {
        buckets.push(Vec::new(alloc))?;
    }
    Ok(buckets)
}

/// Keeps the waits of a bucket for which a test answers true.
fn sweep_bucket<F: Fn(Wait) -> bool>(bucket: &mut Vec<Reverse<Wait>>, is_kept: &F)
    requires { F.IsAlwaysCallable is_kept.now }
    ensures items { (test : Wait → Bool) → Decides (F.post is_kept.now) test → bucket.new.items ≡ filter (λ wait. test wait.0) bucket.old.items }
    ensures fewer { spec.IsPart bucket.new.items bucket.old.items }
{
    bucket.retain(|wait| is_kept(wait.0));
}

/// The same with each bucket.
fn sweep_buckets<F: Fn(Wait) -> bool>(buckets: &mut Vec<Vec<Reverse<Wait>>>, is_kept: &F)
    requires { F.IsAlwaysCallable is_kept.now }
    ensures items { (test : Wait → Bool) → Decides (F.post is_kept.now) test → spec.items_of buckets.new.items ≡ filter (λ wait. test wait.0) (spec.items_of buckets.old.items) }
    ensures fewer { spec.ArePart buckets.new.items buckets.old.items }
{
    for index in 0..buckets.len() {
        sweep_bucket(&mut buckets[index], is_kept);
    }
}

/// Whether a wait in the bucket of an index can have come at a clock, if no deadline in the bucket is below the bound.
fn may_have_come(bound: u64, index: u64, clock: Clock) -> bool
    ensures { result ≡ false → (wait : Reverse Wait) → spec.StandsIn bound index wait → spec.has_come clock wait ≡ false }
{
    let ahead = (index % BUCKETS + BUCKETS - bound % BUCKETS) % BUCKETS;
    let clock = u64::from(clock.0);
    bound <= clock && ahead <= clock - bound
}

/// Goes through the waits of a bucket that have come. The step gets what the step before it answered.
pub(crate) fn fold_bucket<B, F: Fn(B, Wait) -> B>(
    bucket: &[Reverse<Wait>],
    clock: Clock,
    start: B,
    step: &F,
) -> B
    requires { F.IsAlwaysCallable step.now }
    ensures { FoldsTo (λ before wait after. F.post step.now before wait.0 after) start (spec.come_of clock bucket.now) result }
{
    let mut last = start;
    for wait in bucket {
        if !wait.0.0.has_come(clock) {
            continue;
        }
        last = step(last, wait.0);
    }
    last
}

impl Wheel {
    /// No waits. It takes memory only once the buckets are made.
    pub(crate) fn new(alloc: Global) -> Wheel
        ensures { result.items ≡ [] }
    {
        Wheel {
            alloc,
            buckets: Vec::new(alloc),
            bound: 0,
        }
    }

    /// Makes the buckets, if there are none yet.
    #[inline]
    pub(crate) fn reserve(&mut self) -> Result<(), AllocError>
        ensures { self.new.items ≡ self.old.items }
    {
        if self.buckets.is_empty() {
            self.buckets = empty_buckets(self.alloc)?;
        }
        Ok(())
    }

    /// The bound: no wait of the wheel has a deadline below it.
    #[inline]
    pub(crate) fn bound(&self) -> u64
        ensures bound { result ≡ self.now.bound }
        ensures from { All (spec.IsItemFrom self.now.bound) self.now.items }
    {
        self.bound
    }

    /// The number of waits.
    pub(crate) fn count(&self) -> usize {
        let mut count: usize = 0;
        for bucket in &self.buckets {
            count = count.saturating_add(bucket.len());
        }
        count
    }

    /// Puts a wait into its bucket, if its deadline isn't below the bound and memory isn't refused. Says whether it
    /// has.
    #[inline]
    pub(crate) fn put(&mut self, wait: Wait) -> bool
        ensures done { result ≡ true → IsPermutation (record { 0 = wait } ∷ self.old.items) self.new.items }
        ensures kept { result ≡ false → self.new.items ≡ self.old.items }
        ensures bound { self.new.bound ≡ self.old.bound }
    {
        let deadline = wait.0.0;
        if deadline < self.bound {
            return false;
        }
        put_at(
            &mut self.buckets,
            (deadline % BUCKETS) as usize,
            Reverse(wait),
        )
    }

    /// Moves the waits that have come into the heap, and the bound behind the clock. If memory is refused, the waits
    /// that haven't moved stay, and the bound stays as it is.
    pub(crate) fn advance(&mut self, clock: Clock, near: &mut BinaryHeap<Reverse<Wait>>)
        ensures heap { IsHeap reversed_cmp (heap_items near.old) → IsHeap reversed_cmp (heap_items near.new) }
        ensures same { IsPermutation (heap_items near.old ++ self.old.items) (heap_items near.new ++ self.new.items) }
    {
        let end = u64::from(clock.0) + 1;
        if end <= self.bound {
            return;
        }
        if take_seconds(&mut self.buckets, self.bound, end, near).is_ok() {
            self.bound = end;
        }
    }

    /// Keeps the waits for which a test answers true.
    pub(crate) fn sweep<F: Fn(Wait) -> bool>(&mut self, is_kept: &F)
        requires { F.IsAlwaysCallable is_kept.now }
        ensures { (test : Wait → Bool) → Decides (F.post is_kept.now) test → self.new.items ≡ filter (λ wait. test wait.0) self.old.items }
    {
        sweep_buckets(&mut self.buckets, is_kept);
    }

    /// Goes through the waits that have come at a clock. The step gets what the step before it answered.
    pub(crate) fn fold_come<B, F: Fn(B, Wait) -> B>(&self, clock: Clock, start: B, step: &F) -> B
        requires { F.IsAlwaysCallable step.now }
        ensures { FoldsTo (λ before wait after. F.post step.now before wait.0 after) start (spec.come_of clock self.now.items) result }
    {
        let mut last = start;
        for index in 0..self.buckets.len() {
            if !may_have_come(self.bound, index as u64, clock) {
                continue;
            }
            last = fold_bucket(self.buckets[index].as_slice(), clock, last, step);
        }
        last
    }
}
