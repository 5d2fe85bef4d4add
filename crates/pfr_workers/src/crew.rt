//! The workers of a run.
ghost use Rattle.std.specs.Prelude.{◌≡◌, IfOk, vec_len};

use crate::hand::{Hand, serve};
use crate::task::Task;
use crossbeam_channel::{Sender, unbounded};
use pfr_history::Naming;
use std::alloc::{AllocError, Global};
use std::sync::Wait;
use std::thread::{Scope, Threads};

/// The sender of each worker's tasks, if the worker was started. The workers end once the crew is dropped.
#[derive(Drop)]
pub struct Crew<J: Naming, B: Drop, G: Drop> {
    pub(crate) desks: Vec<Option<Sender<Task<J, B, G>>>>,
}

/// Starts a worker. There is none if its channel or its thread is refused.
fn start<'s, E, J: Naming + Send + Sync + 's, R: Threads + Wait + Sync, H: Hand + Send + Drop + 's>(
    scope: &Scope<'s, E>,
    rt: &'s R,
    alloc: Global,
    hand: H,
) -> Option<Sender<Task<J, H::Batch, H::Group>>> {
    let (sender, tasks) = unbounded(alloc).ok()?;
    match scope.spawn(move || serve(rt, hand, tasks)) {
        Ok(_) => Some(sender),
        Err(_) => None,
    }
}

/// Starts a worker for each hand, in a scope that ends once they have ended. One whose hand is missing isn't started. The only
/// error is that memory was refused for their list.
pub fn hire<
    's,
    E,
    J: Naming + Send + Sync + 's,
    R: Threads + Wait + Sync,
    H: Hand + Send + Drop + 's,
>(
    scope: &Scope<'s, E>,
    rt: &'s R,
    alloc: Global,
    mut hands: Vec<Option<H>>,
) -> Result<Crew<J, H::Batch, H::Group>, AllocError>
    ensures { IfOk result (λ crew. vec_len crew.desks ≡ vec_len hands) }
{
    let mut desks = Vec::with_capacity(alloc, hands.len())?;
    while let Some(hand) = hands.pop() {
        let desk = match hand {
            Some(hand) => start(scope, rt, alloc, hand),
            None => None,
        };
        desks.push(desk)?;
    }
    Ok(Crew { desks })
}
