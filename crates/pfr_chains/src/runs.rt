//! Where the runs of a list end.
ghost use Rattle.std.specs.Prelude.{◌≡◌, ◌+◌, ◌<◌, ◌≤◌, length, IfOk};
ghost use Rattle.pfr_chains.specs.Runs as spec;

use std::alloc::{AllocError, Global};

/// Writes where the run of a place ends, and answers the first beginning from that place on.
fn mark_end(begins: &[bool], ends: &mut [u32], place: usize, end: u32) -> u32
    requires few { length begins.now ≤ 4294967295 }
    requires place { place < length begins.now }
    requires next { spec.IsBeginFrom begins.now (place + 1) end }
    requires behind { spec.AreRunEndsFrom (place + 1) begins.now ends.old }
    ensures next { spec.IsBeginFrom begins.now place result }
    ensures marked { spec.AreRunEndsFrom place begins.now ends.new }
{
    ends[place] = end;
    if begins[place] {
        return place as u32;
    }
    end
}

/// Writes for each place where its run ends.
fn mark_ends(begins: &[bool], ends: &mut [u32])
    requires few { length begins.now ≤ 4294967295 }
    requires size { length ends.old ≡ length begins.now }
    ensures { spec.AreRunEnds begins.now ends.new }
{
    let mut end = begins.len() as u32;
    let mut place = begins.len();
    while place > 0 {
        place -= 1;
        end = mark_end(begins, ends, place, end);
    }
}

/// For each place the end of its run: the next place at which a new run begins, or the list's length.
/// `begins[place]` says whether a run begins at a place.
pub fn run_ends(alloc: Global, begins: &[bool]) -> Result<Vec<u32>, AllocError>
    requires few { length begins.now ≤ 4294967295 }
    ensures { IfOk result (λ ends. spec.AreRunEnds begins.now ends.items) }
{
    let mut ends = vec![in alloc; 0; begins.len()]?;
    mark_ends(begins, &mut ends);
    Ok(ends)
}
