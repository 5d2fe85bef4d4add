//! The packets of a batch.
ghost use Rattle.std.specs.Prelude.{IfOk};
ghost use Rattle.pfr_feed.specs.Runs.{AreViewed};

use pfr_capture::Record;
use pfr_headers::{View, view};
use std::alloc::{AllocError, Global};

/// Records of a batch, each with its view.
pub type Packets = Vec<(Record, View)>;

/// Records, each with its view.
#[tactic(auto, using(crate::proofs::ViewLemmas::none_viewed, crate::proofs::ViewLemmas::one_viewed))]
pub fn viewed(alloc: Global, records: Vec<Record>) -> Result<Packets, AllocError>
    ensures { IfOk result (λ packets. AreViewed records.items packets.items) }
{
    let mut packets = Vec::with_capacity(alloc, records.len())?;
    for packet in records {
        let view = view(packet.link, packet.bytes.as_slice());
        packets.push((packet, view))?;
    }
    Ok(packets)
}
