//! Which batches were opened, one after the other.
ghost use Rattle.std.specs.Prelude.{◌≡◌, ◌++◌, ◌∷◌, [], IfSome, MatchOption};
ghost use Rattle.pfr_workers.specs.Opening.{IsNumbered};

use pfr_claims::Claims;
use pfr_history::{Front, History, Naming};
use std::marker::Model;
use std::snapshot::Snapshot;

/// The claims of a batch that was opened, as contracts see them.
#[derive(Drop)]
pub struct OpenedClaims {
    pub(crate) claims: Snapshot<Claims>,
}

/// The history of the batches that were opened. A pass that comes back on a channel doesn't say which batch it is of:
/// the message names its batch by its number in this history. Contracts see the claims of the batches, in order.
#[derive(Drop)]
pub struct Openings<J: Naming> {
    history: History<J, OpenedClaims>,
    front: Front<J, OpenedClaims>,
}

impl<J: Naming> Model for Openings<J> {
    ghost use Rattle.std.specs.Prelude.{List};
    ghost use Rattle.pfr_claims.specs.Batches.{Batch};
    ghost use Rattle.pfr_workers.specs.Opening.{claims_of};

    ghost Value = { List Batch };

    ghost view = { λ openings. claims_of openings.front };
}

/// Where the history has a batch: its number there, in a beginning that has it.
#[derive(Drop)]
pub(crate) struct Numbered<J: Naming> {
    pub(crate) front: Front<J, OpenedClaims>,
    pub(crate) number: u64,
}

impl<J: Naming> Numbered<J> {
    /// The same once more.
    pub(crate) fn again(&self) -> Numbered<J>
        ensures front { result.front ≡ self.now.front }
        ensures number { result.number ≡ self.now.number }
    {
        Numbered {
            front: self.front.again(),
            number: self.number,
        }
    }
}

impl<J: Naming> Openings<J> {
    /// No batch yet.
    pub fn new(history: History<J, OpenedClaims>) -> Openings<J>
        ensures { result ≡ [] }
    {
        let front = history.start();
        Openings { history, front }
    }

    /// Adds a batch to the history. It is refused, and nothing changes, if the history is as long as 64 bits can say, or if
    /// somebody else adds to it.
    pub(crate) fn add(&mut self, claims: &Claims) -> Option<Numbered<J>>
        ensures numbered { IfSome result (λ numbered. IsNumbered numbered.front numbered.number claims.now) }
        ensures opened { MatchOption result (self.new ≡ self.old) (λ numbered. self.new ≡ self.old ++ claims.now ∷ []) }
    {
        let mut front = self.front.again();
        let number = front.len();
        let opened = OpenedClaims {
            claims: Snapshot::of(claims),
        };
        if !front.add(&self.history, &opened) {
            return None;
        }
        self.front = front.again();
        Some(Numbered { front, number })
    }
}
