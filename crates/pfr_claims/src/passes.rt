//! The passes of a batch's workers.
ghost use Rattle.std.specs.Prelude.{◌≡◌, []};
ghost use Rattle.std.specs.List.Sorted.{IsStrictlyIncreasing};
ghost use Rattle.pfr_claims.specs.Drawing.{knows};

use crate::rule::SeatView;
use atomic_table::Seat;
use std::marker::Model;

/// The right of one worker to draw numbers of a batch. It has no bytes, and there is no way to make a second one of it.
/// Contracts see its batch and the numbers that were drawn with it so far.
#[derive(Drop)]
pub struct ClaimPass {
    pub(crate) seat: Seat<(), SeatView>,
}

impl Model for ClaimPass {
    ghost use Rattle.std.specs.Prelude.{◌≡◌, []};
    ghost use Rattle.std.specs.List.Sorted.{IsStrictlyIncreasing};
    ghost use Rattle.pfr_claims.specs.Drawing.{knows};
    ghost use Rattle.pfr_claims.specs.Batches.{Held, batch_of, held};

    ghost Value = { Held };

    ghost view = { λ pass. held (batch_of pass.seat.table_id pass.seat.me.0.sizes) pass.seat.me.0.drawn };

    ghost invariant = { λ pass. (pass.seat.me ≡ (knows pass.seat.me.0.sizes pass.seat.me.0.drawn 1 0, [])) × IsStrictlyIncreasing pass.seat.me.0.drawn };
}

/// A pass that has drawn its last number, the one that was at or above the batch's count. It draws no more.
#[derive(Drop)]
pub struct EndedPass {
    pub(crate) seat: Seat<(), SeatView>,
}

impl Model for EndedPass {
    ghost use Rattle.std.specs.Prelude.{◌≡◌, []};
    ghost use Rattle.std.specs.List.Sorted.{IsStrictlyIncreasing};
    ghost use Rattle.pfr_claims.specs.Drawing.{knows};
    ghost use Rattle.pfr_claims.specs.Batches.{Held, batch_of, held};

    ghost Value = { Held };

    ghost view = { λ pass. held (batch_of pass.seat.table_id pass.seat.me.0.sizes) pass.seat.me.0.drawn };

    ghost invariant = { λ pass. (pass.seat.me ≡ (knows pass.seat.me.0.sizes pass.seat.me.0.drawn 0 1, [])) × IsStrictlyIncreasing pass.seat.me.0.drawn };
}

impl EndedPass {
    /// The seat of the pass.
    pub(crate) fn into_seat(self) -> Seat<(), SeatView>
        ensures table { result.table_id ≡ self.batch.table }
        ensures knows { result.me ≡ (knows self.batch.sizes self.drawn 0 1, []) }
        ensures rises { IsStrictlyIncreasing self.drawn }
    {
        let EndedPass { seat } = self;
        seat
    }
}

/// What a worker is given by a claim: a number of the batch, from 0, with its pass back, or its pass ended.
#[derive(Drop)]
pub enum Claim {
    Number(u64, ClaimPass),
    Ended(EndedPass),
}
