//! What the packets of runs are evaluated by.
ghost use Rattle.std.specs.Prelude.{◌≡◌, IfOk};
ghost use Rattle.pfr_files.specs.Jobs as spec;

use crate::failure::{Failure, text_refused};
use pfr_packet::Job;
use pfr_prepare::{Prepared, Request};
use pfr_values::Ways;
use std::alloc::Global;
use std::io::Write;

/// The job of a run with the text of a ruleset. A fault of the text is said to `err`, with the name of its file if one is given.
pub fn job_by<'a, E: Write>(
    alloc: Global,
    rules: &Request<'_>,
    text: &Prepared,
    ways: &Ways,
    seed: [u8; 32],
    file: Option<&str>,
    err: &mut E,
) -> Result<Job, Failure<'a>>
    ensures { IfOk result (spec.IsAsked rules.now ways.now seed) }
{
    let job = Job::new(
        alloc,
        text.text.as_slice(),
        rules.interfaces.as_slice(),
        ways.inside.networks.as_slice(),
        seed,
    );
    match job {
        Ok(job) => with_ways(alloc, job, ways),
        Err(fault) => Err(text_refused(file, text, &fault, err)),
    }
}

/// A job with what the words say of the ways that packets go, besides the inside networks.
fn with_ways<'a>(alloc: Global, job: Job, ways: &Ways) -> Result<Job, Failure<'a>>
    ensures { IfOk result (λ made. made ≡ spec.with_ways ways.now job) }
{
    let job = job
        .with_tap(ways.tap)
        .with_excepted(alloc, ways.inside.excepted.as_slice())?;
    Ok(job.with_link_addresses(alloc, ways.link_addresses.as_slice())?)
}
