//! Deadlines by which states wait, the first one first.
ghost use Rattle.std.specs.Prelude.{◌≡◌, ◌<◌, [], ◌∷◌, Bool, nat_lt, IfNone, IfSome, OnOk};
ghost use Rattle.std.specs.List.{All, AllByRecursion, FoldsTo, filter};
ghost use Rattle.std.specs.List.Sorted.{IsPermutation};
ghost use Rattle.pfr_deadlines.specs.Waits as spec;
ghost use Rattle.pfr_deadlines.specs.Waits.{Wait};

use crate::wait::Wait;
use crate::wheel::{Wheel, fold_bucket};
use pfr_track::{Clock, Deadline};
use std::alloc::{AllocError, Global};
use std::cmp::Reverse;
use std::collections::BinaryHeap;
use std::marker::Model;

/// Deadlines by which no state waits are looked for only if there are more than twice as many deadlines as this.
const FEW: usize = 64;

/// Deadlines by which states wait. Contracts see them in no order except for the first one below a bound. They also see
/// that bound, and how many more deadlines there is room for.
///
/// Later deadlines turn in a wheel, each second in a bucket of its own. When a clock reaches their second they move
/// into a heap, which gives them in order. So the cost of a second depends on the deadlines of that second and on those
/// of its bucket that lie further ahead, and not on the number of all deadlines. A deadline that the wheel doesn't take
/// is put into the heap at once: one that has come, or one for which memory is refused.
#[derive(Drop)]
pub struct Deadlines {
    near: BinaryHeap<Reverse<Wait>>,
    wheel: Wheel,
    /// The number of deadlines.
    count: usize,
    /// The number of deadlines when those by which no state waited were last dropped.
    kept: usize,
}

impl Model for Deadlines {
    ghost use Rattle.std.specs.BinaryHeap.{IsHeap, heap_items};
    ghost use Rattle.std.specs.Prelude.{◌++◌};
    ghost use Rattle.pfr_deadlines.specs.Waits.{Waiting, reversed_cmp, room_of, waits_of};

    ghost Value = { Waiting };

    ghost view = { λ d. record { waits = waits_of (heap_items d.near ++ d.wheel.items); bound = d.wheel.bound; room = room_of d.near } };

    ghost invariant = { λ d. IsHeap reversed_cmp (heap_items d.near) };
}

impl Deadlines {
    /// No deadlines. It takes memory only once room is made.
    pub fn new(alloc: Global) -> Deadlines
        ensures { result.waits ≡ [] }
    {
        Deadlines {
            near: BinaryHeap::new(alloc),
            wheel: Wheel::new(alloc),
            count: 0,
            kept: 0,
        }
    }

    /// The number of deadlines that come up below the bound, at most.
    #[inline]
    pub fn near_count(&self) -> usize {
        self.near.len()
    }

    /// Makes room for one more.
    pub fn reserve(&mut self) -> Result<(), AllocError>
        ensures same { self.new.waits ≡ self.old.waits }
        ensures room { OnOk result (0 < self.new.room) }
    {
        self.wheel.reserve()?;
        self.near.reserve(1)
    }

    /// Puts a deadline into the wheel, or else into the heap.
    fn put(&mut self, wait: Wait)
        requires { 0 < self.old.room }
        ensures { IsPermutation (wait ∷ self.old.waits) self.new.waits }
    {
        if self.wheel.put(wait) {
            return;
        }
        match self.near.push(Reverse(wait)) {
            Ok(()) => {}
            Err(_) => unreachable!(),
        }
    }

    /// Adds a deadline.
    pub fn add(&mut self, wait: Wait)
        requires { 0 < self.old.room }
        ensures { IsPermutation (wait ∷ self.old.waits) self.new.waits }
    {
        self.count = self.count.saturating_add(1);
        self.put(wait);
    }

    /// Whether the bound lies behind a clock, so that no deadline from the bound on has come.
    #[inline]
    pub fn are_ahead_of(&self, clock: Clock) -> bool
        ensures { result ≡ nat_lt clock.0 self.now.bound }
    {
        u64::from(clock.0) < self.wheel.bound()
    }

    /// Moves the bound behind a clock, if memory isn't refused.
    #[inline]
    pub fn advance(&mut self, clock: Clock)
        ensures { IsPermutation self.old.waits self.new.waits }
    {
        if !self.are_ahead_of(clock) {
            self.wheel.advance(clock, &mut self.near);
        }
    }

    /// The first deadline below the bound; of equal deadlines the one with the least number.
    #[inline]
    pub fn first(&self) -> Option<Wait>
        ensures below { result ≡ spec.first_below self.now.bound (spec.head self.now.waits) }
        ensures first { IfSome result (λ wait. AllByRecursion (spec.IsBefore wait) self.now.waits) }
        ensures none { IfNone result (All (spec.IsFrom self.now.bound) self.now.waits) }
    {
        let bound = self.wheel.bound();
        let Some(first) = self.near.peek() else {
            return None;
        };
        let first = first.0;
        if first.0.0 < bound { Some(first) } else { None }
    }

    /// Takes the first deadline out.
    pub fn drop_first(&mut self)
        ensures { IfSome (spec.first_below self.old.bound (spec.head self.old.waits)) (λ first. IsPermutation self.old.waits (first ∷ self.new.waits)) }
    {
        let _ = self.wheel.bound();
        let Some(_first) = self.near.pop() else {
            return;
        };
        self.count = self.count.saturating_sub(1);
    }

    /// Replaces the first deadline by another one, for the same state. It can't fail.
    pub fn put_off(&mut self, own: Deadline)
        ensures { IfSome (spec.first_below self.old.bound (spec.head self.old.waits)) (λ first. spec.IsPutOff first own self.old.waits self.new.waits) }
    {
        let _ = self.wheel.bound();
        let Some(first) = self.near.pop() else {
            return;
        };
        let (_, number, place) = first.0;
        self.put((own, number, place));
    }

    /// Whether there are more than twice as many deadlines as states, as [`FEW`], and as were left when those by which
    /// no state waited were last dropped.
    pub fn are_many(&self, states: usize) -> bool {
        self.count / 2 > self.kept.max(states).max(FEW)
    }

    /// Keeps the deadlines for which a test says that a state waits by them.
    pub fn sweep<F: Fn(Wait) -> bool>(&mut self, is_kept: F)
        requires { F.IsAlwaysCallable is_kept }
        ensures { (test : Wait → Bool) → spec.Decides (F.post is_kept) test → IsPermutation (filter test self.old.waits) self.new.waits }
    {
        self.near.retain(|wait| is_kept(wait.0));
        self.wheel.sweep(&is_kept);
        self.count = self.near.len().saturating_add(self.wheel.count());
        self.kept = self.count;
    }

    /// Goes through the deadlines that have come at a clock, in no order. The step gets what the step before it
    /// answered.
    ///
    /// It looks at those below the bound, and at the buckets of the seconds from the bound up to the clock.
    pub fn fold_come<B, F: Fn(B, Wait) -> B>(&self, clock: Clock, start: B, step: F) -> B
        requires { F.IsAlwaysCallable step }
        ensures { FoldsTo (λ before wait after. F.post step before wait after) start (spec.come_at clock self.now.waits) result }
    {
        let first = fold_bucket(self.near.as_slice(), clock, start, &step);
        self.wheel.fold_come(clock, first, &step)
    }
}
