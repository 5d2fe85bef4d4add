//! Batches of packets.
ghost use Rattle.std.specs.Prelude.{◌≡◌, IfOk};
ghost use Rattle.std.specs.List.{All, AllZip};
ghost use Rattle.pfr_headers.specs.View.{view_of};
ghost use Rattle.pfr_feed.specs.Batches.{IsViewOf};
ghost use Rattle.pfr_feed.specs.Runs.{AreViewed};

use crate::found::OfRun;
use crate::views::views;
use pfr_capture::Record;
use pfr_feed::{Packets, viewed};
use pfr_headers::View;
use pfr_published::Told;
use pfr_track::Clock;
use std::alloc::{AllocError, Global};
use std::thread::Threads;

/// What the workers of a batch share.
#[derive(Drop)]
pub(crate) struct Batch<J: OfRun> {
    pub(crate) packets: Packets,
    /// The clock at each record.
    pub(crate) clocks: Vec<Clock>,
    /// The number of the first packet, and how many packets, from the first on, are evaluated ahead.
    pub(crate) first: u64,
    pub(crate) most: u64,
    /// How far the published table had come when the batch was opened.
    pub(crate) told: Told<J>,
    pub ghost viewed: { All (λ packet. packet.1 ≡ view_of packet.0.link packet.0.bytes.items) packets.items },
}

/// Records, each with its view from `views`.
pub(crate) fn with_views(
    alloc: Global,
    records: Vec<Record>,
    views: &[View],
) -> Result<Packets, AllocError>
    requires { AllZip IsViewOf records.items views.now }
    ensures { IfOk result (λ packets. AreViewed records.items packets.items) }
{
    let mut packets = Vec::with_capacity(alloc, records.len())?;
    for packet in records {
        match views.get(packets.len()) {
            Some(view) => packets.push((packet, *view))?,
            None => unreachable!(),
        }
    }
    Ok(packets)
}

/// Records, each with its view. As many threads as there are processors make the views.
fn viewed_beside<R: Threads + Sync>(
    rt: &R,
    alloc: Global,
    records: Vec<Record>,
) -> Result<Packets, AllocError>
    ensures { IfOk result (λ packets. AreViewed records.items packets.items) }
{
    let views = views(rt, alloc, records.as_slice())?;
    with_views(alloc, records, views.as_slice())
}

/// Records, each with its view. The calling thread makes all views if `most` is 0, so that no worker evaluates any of
/// them.
pub(crate) fn viewed_for<R: Threads + Sync>(
    rt: &R,
    alloc: Global,
    records: Vec<Record>,
    most: u64,
) -> Result<Packets, AllocError>
    ensures { IfOk result (λ packets. AreViewed records.items packets.items) }
{
    if most == 0 {
        viewed(alloc, records)
    } else {
        viewed_beside(rt, alloc, records)
    }
}

/// The clock at each record after `clock`: the greatest second so far.
pub(crate) fn clocks(
    alloc: Global,
    clock: Clock,
    packets: &[(Record, View)],
) -> Result<Vec<Clock>, AllocError> {
    let mut clocks = Vec::with_capacity(alloc, packets.len())?;
    let mut last = clock;
    for (record, _view) in packets {
        last = Clock(last.0.max(record.seconds));
        clocks.push(last)?;
    }
    Ok(clocks)
}
