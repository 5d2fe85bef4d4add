//! The views of the records of a batch.
ghost use Rattle.std.specs.Prelude.{IfOk};
ghost use Rattle.std.specs.List.{AllZip};
ghost use Rattle.pfr_feed.specs.Batches.{IsViewOf};

use pfr_capture::Record;
use pfr_headers::{View, view};
use rayon::prelude::*;
use std::alloc::{AllocError, Global};
use std::thread::Threads;

/// The view of each record, one after the other.
fn views_in_turn(alloc: Global, records: &[Record]) -> Result<Vec<View>, AllocError>
    ensures { IfOk result (λ views. AllZip IsViewOf records.now views.items) }
{
    let mut views = Vec::with_capacity(alloc, records.len())?;
    for record in records {
        views.push(view(record.link, record.bytes.as_slice()))?;
    }
    Ok(views)
}

/// The view of each record, from as many threads as there are processors. If that is refused they are made one after the other.
pub(crate) fn views<R: Threads + Sync>(
    rt: &R,
    alloc: Global,
    records: &[Record],
) -> Result<Vec<View>, AllocError>
    ensures { IfOk result (λ views. AllZip IsViewOf records.now views.items) }
{
    let made = records
        .par_iter()
        .map(
            |record: &Record| -> View
                ensures { IsViewOf record.now result }
            { view(record.link, record.bytes.as_slice()) },
        )
        .collect(rt, alloc);
    match made {
        Ok(views) => Ok(views),
        Err(_) => views_in_turn(alloc, records),
    }
}
