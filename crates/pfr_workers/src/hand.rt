//! What a worker does with the numbers that it draws.
ghost use Rattle.std.specs.Prelude.{◌≡◌};

use crate::outbox::Outbox;
use crate::task::{Back, Task};
use crossbeam_channel::Receiver;
use pfr_claims::{Claim, ClaimPass, Claims, EndedPass};
use pfr_history::Naming;
use std::sync::Wait;

/// What one worker works with, and how it answers a number of a batch. A number is a place in the batch, from 0, and below its
/// count.
pub trait Hand {
    /// What the workers of a batch share.
    type Batch: Send + Sync + Drop;
    /// Answers of one worker that are sent together. What a caller may rely on stands in the type's own ghost fields.
    type Group: Send + Drop;

    /// It has begun a batch: it knows what came with it.
    ghost begun: { Self → Self.Batch → Type 0 };

    /// Takes note of a batch before it draws its first number of it.
    fn begin(&mut self, batch: &Self::Batch)
        ensures { begun self.new batch.now };

    /// A group with no answers, which is to take `room` answers, or None if memory is refused.
    fn group(&self, room: usize) -> Option<Self::Group>;

    /// Answers a number of a batch that it has begun, puts the answer into a group and says so. Nothing is put into it if there
    /// is nothing to say about the number, or no memory to keep the answer.
    fn answer(&mut self, batch: &Self::Batch, number: u64, group: &mut Self::Group) -> bool
        requires { begun self.old batch.now }
        ensures { begun self.new batch.now };

    /// Is called once a number's answer is kept to be sent: it goes with the next ones, or when the pass ends. The
    /// worker that answered the number calls this before it draws another one, so a hand may hold up a later number
    /// until this one is answered. It isn't called if there was no memory to keep the answer. An answer that is kept
    /// may still be dropped later, if there is no memory to send its group or to receive it.
    fn answered(&self, batch: &Self::Batch, number: u64);
}

/// Draws numbers of a batch that the hand has begun, and answers them until the pass ends.
fn answer_numbers<J: Naming, R: Wait, H: Hand>(
    rt: &R,
    hand: &mut H,
    batch: &H::Batch,
    claims: &Claims,
    outbox: &mut Outbox<J, H::Group>,
    pass: ClaimPass,
) -> EndedPass
    requires pass { pass.batch ≡ claims.now }
    requires begun { H.begun hand.old batch.now }
    ensures { result.batch ≡ claims.now }
{
    let mut live = pass;
    'draws: loop {
        match claims.claim(live) {
            Claim::Number(number, pass) => {
                outbox.answer(rt, hand, batch, number);
                live = pass;
            }
            Claim::Ended(pass) => return pass,
        }
    }
}

/// Draws the numbers of a task's pass and answers them, and sends the pass back. By then it has released the batch.
fn take_task<J: Naming, R: Wait, H: Hand>(rt: &R, hand: &mut H, task: Task<J, H::Batch, H::Group>) {
    let Task {
        claims,
        pass,
        batch,
        results,
        numbered,
    } = task;
    hand.begin(&batch);
    let mut outbox = Outbox::new(results);
    let pass = answer_numbers(rt, hand, &batch, &claims, &mut outbox, pass);
    drop(batch);
    outbox.close(rt, Back { numbered, pass });
}

/// Takes tasks until the last sender of them is gone.
pub(crate) fn serve<J: Naming, R: Wait, H: Hand + Drop>(
    rt: &R,
    mut hand: H,
    tasks: Receiver<Task<J, H::Batch, H::Group>>,
) {
    for task in tasks.iter(rt) {
        take_task(rt, &mut hand, task);
    }
}
