//! What goes to a worker, and what comes back.
ghost use Rattle.std.specs.Prelude.{◌≡◌, ◌≢◌, MatchOption};
ghost use Rattle.std.specs.Arc.{arc_value};
ghost use Rattle.pfr_workers.specs.Opening.{IsNumbered};

use crate::opening::Numbered;
use crossbeam_channel::Sender;
use pfr_claims::{ClaimPass, Claims, EndedPass};
use pfr_history::Naming;
use std::sync::Arc;

/// A batch for one worker: the claims and its pass of them, what the workers of the batch share, the sender of its results, and
/// which batch it is.
#[derive(Drop)]
pub(crate) struct Task<J: Naming, B: Drop, G: Drop> {
    pub(crate) claims: Arc<Claims>,
    pub(crate) pass: ClaimPass,
    pub(crate) batch: Arc<B>,
    pub(crate) results: Sender<Reply<J, G>>,
    pub(crate) numbered: Numbered<J>,
    pub ghost own: { pass.batch ≡ arc_value claims },
    pub ghost named: { IsNumbered numbered.front numbered.number (arc_value claims) },
}

/// What a worker sends on a batch's channel.
#[derive(Drop)]
pub(crate) enum Reply<J: Naming, G: Drop> {
    /// What it found out about some numbers.
    Group(G),
    /// Its pass, with its last answers, if there are any.
    Back(Back<J>, Option<G>),
}

/// A pass that comes back, with the batch that it is of.
#[derive(Drop)]
pub(crate) struct Back<J: Naming> {
    pub(crate) numbered: Numbered<J>,
    pub(crate) pass: EndedPass,
    pub ghost own: { IsNumbered numbered.front numbered.number pass.batch },
}

/// The pass that came back, or None only if its number is another batch's.
#[tactic(auto, using(crate::proofs::OpeningLemmas::same_batch))]
pub(crate) fn pass_of<J: Naming>(
    mine: &Numbered<J>,
    claims: &Claims,
    back: Back<J>,
) -> Option<EndedPass>
    requires { IsNumbered mine.now.front mine.now.number claims.now }
    ensures { MatchOption result (back.numbered.number ≢ mine.now.number) (λ pass. pass.batch ≡ claims.now) }
{
    let Back { numbered, pass } = back;
    if numbered.number != mine.number {
        return None;
    }
    // both are beginnings of one history, so one of them begins the other
    let _longer = mine.front.longer(&numbered.front);
    Some(pass)
}
