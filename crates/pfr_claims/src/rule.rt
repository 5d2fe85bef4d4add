//! The rule of the word that passes draw from, and the steps that keep it.
use atomic_table::{Join, Play, Split, TableRule};
use std::collections::LinkedList;

/// How many packets a batch has, and how many workers draw their numbers.
#[derive(Clone, Copy)]
pub struct Sizes {
    pub count: u64,
    pub workers: u64,
}

/// What a seat knows: the sizes of the batch, the numbers that were drawn with it, and how many live and ended passes it
/// stands for. No value of it is made.
pub struct SeatView {
    pub sizes: Sizes,
    pub drawn: LinkedList<u64>,
    pub live: u64,
    pub ended: u64,
}

/// What all passes drew is the numbers below the word, each once.
pub struct Numbers;

impl TableRule<(), SeatView, Sizes> for Numbers {
    ghost use Rattle.std.specs.Prelude.{[]};
    ghost use Rattle.pfr_claims.specs.Drawing.{knows, Drawn};

    ghost holds = { Drawn };

    ghost first = { λ sizes. knows sizes [] sizes.workers 0 };
}

/// The step that draws a number.
pub struct Draw;

impl Play<(), SeatView> for Draw {
    ghost use Rattle.pfr_claims.specs.Drawing.{Draws};

    ghost then = { Draws };
}

/// The step that finds the word's value once all passes have ended.
pub struct Close;

impl Play<(), SeatView> for Close {
    ghost use Rattle.pfr_claims.specs.Drawing.{Closes};

    ghost then = { Closes };
}

/// Gives away one pass.
pub struct Deal;

impl Split<SeatView> for Deal {
    ghost use Rattle.pfr_claims.specs.Drawing.{rest_of, pass_of};

    ghost left = { rest_of };

    ghost right = { pass_of };
}

/// Takes in what another pass drew.
pub struct Collect;

impl Join<SeatView> for Collect {
    ghost use Rattle.pfr_claims.specs.Drawing as drawing;

    ghost both = { drawing.both };

    ghost spent = { drawing.spent };
}
