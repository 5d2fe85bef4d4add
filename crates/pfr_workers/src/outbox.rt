//! What a worker has answered and not sent yet.

use crate::hand::Hand;
use crate::task::{Back, Reply};
use crossbeam_channel::Sender;
use pfr_history::Naming;
use std::sync::Wait;

/// How many answers a worker sends at once. A send takes a lock and may wake the receiver, which costs more than answering a
/// number does. Shared by this many answers that cost is small, and so is the room that a worker takes for them. If a
/// batch has fewer numbers for each worker, all answers come with the pass.
const GROUP: usize = 128;

/// A worker's sender, the group that it is to send next, if one is begun, and how many answers were put into that.
#[derive(Drop)]
pub(crate) struct Outbox<J: Naming, G: Drop> {
    sender: Sender<Reply<J, G>>,
    group: Option<G>,
    count: usize,
}

impl<J: Naming, G: Drop> Outbox<J, G> {
    /// An outbox with no group begun.
    pub(crate) fn new(sender: Sender<Reply<J, G>>) -> Outbox<J, G> {
        Outbox {
            sender,
            group: None,
            count: 0,
        }
    }

    /// Has a number answered into the group that is to be sent next, and says whether it was. It isn't if no memory is left
    /// for a group.
    fn put<H: Hand<Group = G>>(&mut self, hand: &mut H, batch: &H::Batch, number: u64) -> bool
        requires { H.begun hand.old batch.now }
        ensures { H.begun hand.new batch.now }
    {
        if self.group.is_none() {
            self.group = hand.group(GROUP);
        }
        let Some(group) = &mut self.group else {
            return false;
        };
        if !hand.answer(batch, number, group) {
            return false;
        }
        self.count = self.count.saturating_add(1);
        true
    }

    /// Sends the group. If the send is refused for want of memory, the group is dropped.
    fn send<R: Wait>(&mut self, rt: &R) {
        self.count = 0;
        if let Some(group) = self.group.take() {
            let _sent = self.sender.send(rt, Reply::Group(group));
        }
    }

    /// Has a number answered, says so, and sends the group if it is whole.
    pub(crate) fn answer<R: Wait, H: Hand<Group = G>>(
        &mut self,
        rt: &R,
        hand: &mut H,
        batch: &H::Batch,
        number: u64,
    )
        requires { H.begun hand.old batch.now }
        ensures { H.begun hand.new batch.now }
    {
        if self.put(hand, batch, number) {
            hand.answered(batch, number);
        }
        if self.count >= GROUP {
            self.send(rt);
        }
    }

    /// Sends the pass with the answers that are left, if there are any, and drops the sender.
    pub(crate) fn close<R: Wait>(mut self, rt: &R, back: Back<J>) {
        let last = if self.count > 0 {
            self.group.take()
        } else {
            None
        };
        let _sent = self.sender.send(rt, Reply::Back(back, last));
    }
}
