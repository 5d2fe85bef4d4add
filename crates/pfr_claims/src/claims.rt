//! The word of a batch, from which its passes draw.
ghost use Rattle.std.specs.Prelude.{◌≡◌, ℕ, ◌<◌, ◌≤◌, [], ◌++◌, List, IfOk, vec_len};
ghost use Rattle.std.specs.List.{All};
ghost use Rattle.pfr_claims.specs.Batches.{batch_of, held};
ghost use Rattle.pfr_claims.specs.Claiming.{Claimed};
ghost use Rattle.pfr_claims.specs.Drawing.{knows};

use crate::passes::{Claim, ClaimPass, EndedPass};
use crate::rule::{Deal, Draw, Numbers, SeatView, Sizes};
use atomic_table::{Seat, Table};
use std::alloc::{AllocError, Global};
use std::marker::Model;

/// A batch whose numbers are drawn. Workers share it by reference. Contracts see which batch it is, and its sizes.
#[derive(Drop)]
pub struct Claims {
    pub(crate) table: Table<(), SeatView, Sizes, Numbers, Global>,
    pub(crate) sizes: Sizes,
}

impl Model for Claims {
    ghost use Rattle.std.specs.Prelude.{◌≡◌};
    ghost use Rattle.pfr_claims.specs.Batches.{Batch, batch_of};

    ghost Value = { Batch };

    ghost view = { λ claims. batch_of claims.table.shared.table_id claims.sizes };

    ghost invariant = { λ claims. (claims.table.shared.key ≡ claims.sizes) × (claims.table.shared.table_id.words ≡ 1) };
}

/// Deals a pass to each worker. The seat that deals has drawn nothing, and is dropped once it stands for no pass.
fn deal(
    alloc: Global,
    table: &Table<(), SeatView, Sizes, Numbers, Global>,
    mut dealer: Seat<(), SeatView>,
    workers: u64,
) -> Result<Vec<ClaimPass>, AllocError>
    requires table { (table.now.shared.table_id.words ≡ 1) × (dealer.table_id ≡ table.now.shared.table_id) }
    requires dealer { dealer.me ≡ (knows table.now.shared.key [] workers 0, []) }
    ensures count { IfOk result (λ passes. vec_len passes ≡ workers) }
    ensures passes { IfOk result (λ passes. All (λ pass. pass ≡ held (batch_of table.now.shared.table_id table.now.shared.key) []) passes.items) }
{
    let mut passes = Vec::with_capacity(alloc, workers as usize)?;
    for _worker in 0..workers {
        let seat = table.shared.split_seat::<Deal>(&mut dealer);
        passes.push(ClaimPass { seat })?;
    }
    Ok(passes)
}

impl Claims {
    /// A batch of `count` packets, at most 4096, and a pass for each of its 1 to 64 workers. The word that they draw from
    /// begins at 0. The only error is that memory was refused.
    pub fn new(
        alloc: Global,
        count: u64,
        workers: u64,
    ) -> Result<(Claims, Vec<ClaimPass>), AllocError>
        requires count { count ≤ 4096 }
        requires workers { (0 < workers) × (workers ≤ 64) }
        ensures sizes { IfOk result (λ made. (made.0.sizes.count ≡ count) × (made.0.sizes.workers ≡ workers)) }
        ensures passes { IfOk result (λ made. (vec_len made.1 ≡ workers) × All (λ pass. pass ≡ held made.0 []) made.1.items) }
    {
        let sizes = Sizes { count, workers };
        let (table, dealer) = Table::of_words(alloc, &[0], &sizes)?;
        let passes = deal(alloc, &table, dealer, workers)?;
        Ok((Claims { table, sizes }, passes))
    }

    /// Draws the next number of the batch with a pass. A number below the count is a place in the batch, from 0; at any
    /// other the pass ends. It waits for nobody, takes no memory and can't fail.
    // A call would hand the claim back through memory, for which the step before has to wait.
    #[inline(always)]
    pub fn claim(&self, pass: ClaimPass) -> Claim
        requires { pass.batch ≡ self.now }
        ensures { Claimed self.now pass.drawn result }
    {
        let ClaimPass { mut seat } = pass;
        let number = self.table.shared.fetch_add::<Draw>(&mut seat, 0, 1);
        if number < self.sizes.count {
            Claim::Number(number, ClaimPass { seat })
        } else {
            Claim::Ended(EndedPass { seat })
        }
    }

    /// Draws with a pass until it ends. What is drawn is dropped: this is for a worker that works no more.
    pub fn drain(&self, pass: ClaimPass) -> EndedPass
        requires { pass.batch ≡ self.now }
        ensures batch { result.batch ≡ self.now }
        ensures drawn { (rest : List ℕ) × (result.drawn ≡ pass.drawn ++ rest) }
    {
        let mut live = pass;
        'draws: loop {
            match self.claim(live) {
                Claim::Number(_, pass) => live = pass,
                Claim::Ended(pass) => return pass,
            }
        }
    }
}
