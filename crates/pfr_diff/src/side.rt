//! A run with one of the rulesets.
ghost use Rattle.std.specs.Prelude.{◌≡◌, ◌≤◌, ◌+◌, ◌^◌, length, IfOk, OnOk};
ghost use Rattle.std.specs.List.{All};
ghost use Rattle.pfr_headers.specs.View.{view_of};
ghost use Rattle.pfr_commit.specs.Books.{LeadsOn, StandsAt, after_packets};
ghost use Rattle.pfr_commit.specs.World.{opening};

use pfr_capture::Record;
use pfr_commit::{Book, Emitted, Gate};
use pfr_headers::View;
use pfr_packet::Job;
use std::alloc::{AllocError, Global};
use std::sync::Arc;

/// A run with one of two rulesets, which writes nothing to a file.
#[derive(Drop)]
pub struct Side {
    pub book: Book,
    /// What the packets add that the run took last.
    pub emitted: Emitted,
}

impl Side {
    /// A run with a job that has taken no packet.
    pub fn new(alloc: Global, job: Job) -> Result<Side, AllocError>
        ensures world { IfOk result (λ side. StandsAt side.book (opening job)) }
        ensures none { IfOk result (λ side. side.book.count ≡ 0) }
    {
        let job = Arc::new(alloc, job)?;
        let book = Book::new(alloc, job)?;
        Ok(Side {
            book,
            emitted: Emitted::new(alloc),
        })
    }

    /// Takes the next packets. What is emitted then is what a run with the side's ruleset writes of them behind what it
    /// has written before. A gate is told what they come to.
    pub fn take<G: Gate>(&mut self, packets: &[(Record, View)], gate: &G) -> Result<(), AllocError>
        requires views { All (λ packet. packet.1 ≡ view_of packet.0.link packet.0.bytes.items) packets.now }
        requires few { self.old.book.count + length packets.now ≤ 2 ^ 43 }
        ensures lines { OnOk result (LeadsOn self.old.book self.new.book self.new.emitted (after_packets self.old.book packets.now)) }
        ensures counted { OnOk result (self.new.book.count ≡ self.old.book.count + length packets.now) }
    {
        self.emitted.clear();
        self.book
            .commit_batch_alone(packets, gate, &mut self.emitted)
    }

    /// How many packets it has taken.
    pub(crate) fn committed(&self) -> u64
        ensures { result ≡ self.now.book.count }
    {
        self.book.committed()
    }

    /// The lines of the packets that it took last.
    pub(crate) fn lines(&self) -> &[u8]
        ensures { result.now ≡ self.now.emitted.verdicts.items }
    {
        self.emitted.verdicts.as_slice()
    }
}
