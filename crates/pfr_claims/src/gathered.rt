//! What all passes of a batch drew together.
ghost use Rattle.std.specs.Prelude.{◌≡◌, ℕ, ◌+◌, ◌<◌, [], ◌++◌, vec_len};
ghost use Rattle.std.specs.List.{All, concat};
ghost use Rattle.std.specs.List.Sorted.{IsStrictlyIncreasing};
ghost use Rattle.pfr_claims.specs.Batches.{lists_of};
ghost use Rattle.pfr_claims.specs.Counting.{times, once_below};
ghost use Rattle.pfr_claims.specs.Drawing.{knows};

use crate::claims::Claims;
use crate::passes::EndedPass;
use crate::rule::{Close, Collect, SeatView, Sizes};
use atomic_table::Seat;
use std::snapshot::Snapshot;

/// All passes of a batch, ended, and the word's value then. In each pass's list the numbers rise, and all lists
/// together are the numbers below the word, each once.
#[derive(Drop)]
pub struct Gathered {
    /// The seat that all passes were joined in. Only `gather` has one to make such a value of.
    all: Seat<(), SeatView>,
    /// The word: the count of the batch, and one for each worker.
    pub word: u64,
    /// The sizes of the batch.
    pub sizes: Sizes,
    /// The claims of the batch, as contracts see them.
    pub claims: Snapshot<Claims>,
    /// The passes, as contracts see them.
    pub passes: Snapshot<Vec<EndedPass>>,
    pub ghost sized: { sizes ≡ claims.value.sizes },
    pub ghost own: { All (λ pass. pass.batch ≡ claims.value) passes.value.items },
    pub ghost whole: { vec_len passes.value ≡ sizes.workers },
    pub ghost past: { word ≡ sizes.count + sizes.workers },
    pub ghost rising: { All IsStrictlyIncreasing (lists_of passes.value.items) },
    pub ghost once: { (number : ℕ) → times number (concat (lists_of passes.value.items)) ≡ once_below number word },
}

impl Claims {
    /// Takes a pass into the seat of those that were joined before.
    fn collect(&self, all: &mut Seat<(), SeatView>, pass: EndedPass)
        requires pass { pass.batch ≡ self.now }
        requires all { (all.old.table_id ≡ self.now.table) × (0 < all.old.me.0.ended) × (all.old.me ≡ (knows self.now.sizes all.old.me.0.drawn 0 all.old.me.0.ended, [])) }
        ensures table { all.new.table_id ≡ all.old.table_id }
        ensures knows { all.new.me ≡ (knows self.now.sizes (all.old.me.0.drawn ++ pass.drawn) 0 (all.old.me.0.ended + 1), []) }
        ensures rises { IsStrictlyIncreasing pass.drawn }
    {
        self.table
            .shared
            .join_seat::<Collect>(all, pass.into_seat());
    }

    /// Joins all passes in one seat.
    fn collect_all(&self, passes: Vec<EndedPass>) -> Seat<(), SeatView>
        requires own { All (λ pass. pass.batch ≡ self.now) passes.items }
        requires some { 0 < vec_len passes }
        ensures table { result.table_id ≡ self.now.table }
        ensures knows { result.me ≡ (knows self.now.sizes result.me.0.drawn 0 (vec_len passes), []) }
        ensures rising { All IsStrictlyIncreasing (lists_of passes.items) }
        ensures drawn { (number : ℕ) → times number result.me.0.drawn ≡ times number (concat (lists_of passes.items)) }
    {
        let mut others = passes;
        let Some(last) = others.pop() else {
            unreachable!()
        };
        let mut all = last.into_seat();
        for pass in others {
            self.collect(&mut all, pass);
        }
        all
    }

    /// Joins all passes of the batch, each ended, and looks at the word once. It takes no memory and can't fail.
    pub fn gather(&self, passes: Vec<EndedPass>) -> Gathered
        requires own { All (λ pass. pass.batch ≡ self.now) passes.items }
        requires whole { (vec_len passes ≡ self.now.sizes.workers) × (0 < vec_len passes) }
        ensures claims { result.claims.value ≡ self.now }
        ensures passes { (result.sizes ≡ self.now.sizes) × (result.passes.value ≡ passes) }
    {
        let claims = Snapshot::of(self);
        let seen = Snapshot::of(&passes);
        let mut all = self.collect_all(passes);
        let word = self.table.shared.load::<Close>(&mut all, 0);
        Gathered {
            all,
            word,
            sizes: self.sizes,
            claims,
            passes: seen,
        }
    }
}
