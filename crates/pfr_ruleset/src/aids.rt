//! What is kept beside rules, so that a walk skips those that don't hold.
ghost use Rattle.std.specs.Prelude.{◌≡◌, ◌<◌, ◌≤◌, length, IfOk};
ghost use Rattle.std.specs.List.{slice_index_or};
ghost use Rattle.pfr_ruleset.specs.Indexes as spec;

use crate::criterion::Asked;
use crate::index::Index;
use crate::skips::Skips;
use pfr_chains::run_ends;
use std::alloc::{AllocError, Global};

/// Fewer rules than this are tested one after the other in less time than an index takes to find one of them
/// (bench/README.md has the figures).
const FEWEST_INDEXED: usize = 6;

/// The most rules beside which anything is kept, as places have 32 bits there.
pub(crate) const MOST_INDEXED: usize = 4294967295;

/// The skips of rules, and their index if there are enough of them.
#[derive(Drop)]
pub struct Aids {
    pub skips: Skips,
    pub index: Option<Index>,
}

/// The skips and the index of filter rules, and how far a walk may go without a look at its last hit.
#[derive(Drop)]
pub struct FilterAids {
    pub rules: Aids,
    /// For each place the next one at which a hit before it may end a walk, or the number of rules.
    open_ends: Vec<u32>,
}

/// The index of rules, if there are enough of them.
fn index_of(alloc: Global, asked: &[Asked]) -> Result<Option<Index>, AllocError>
    requires few { length asked.now ≤ 4294967295 }
    ensures { IfOk result (λ index. spec.MayBeIndex asked.now index) }
{
    if asked.len() < FEWEST_INDEXED {
        return Ok(None);
    }
    let index = Index::over(alloc, asked)?;
    Ok(Some(index))
}

impl Aids {
    /// What is kept beside the rules that ask for `asked`.
    pub(crate) fn over(alloc: Global, asked: &[Asked]) -> Result<Aids, AllocError>
        requires few { length asked.now ≤ 4294967295 }
        ensures { IfOk result (λ aids. spec.AreAids asked.now aids) }
    {
        let skips = Skips::over(alloc, asked)?;
        let index = index_of(alloc, asked)?;
        Ok(Aids { skips, index })
    }
}

/// For each place whether a hit before it may end a walk there.
fn closings(alloc: Global, openings: &[usize]) -> Result<Vec<bool>, AllocError>
    ensures { IfOk result (λ begins. spec.AreClosings openings.now begins.items) }
{
    let mut begins = Vec::with_capacity(alloc, openings.len())?;
    for opening in openings {
        let place = begins.len();
        begins.push(*opening < place)?;
    }
    Ok(begins)
}

/// For each place the next one at which a hit before it may end a walk.
fn open_ends_of(alloc: Global, openings: &[usize]) -> Result<Vec<u32>, AllocError>
    requires few { length openings.now ≤ 4294967295 }
    ensures { IfOk result (λ ends. spec.AreOpenEnds openings.now ends.items) }
{
    let closings = closings(alloc, openings)?;
    let open_ends = run_ends(alloc, &closings)?;
    Ok(open_ends)
}

impl FilterAids {
    /// What is kept beside the filter rules that ask for `asked`, with the openings of their places.
    pub(crate) fn over(
        alloc: Global,
        asked: &[Asked],
        openings: &[usize],
    ) -> Result<FilterAids, AllocError>
        requires few { length asked.now ≤ 4294967295 }
        requires size { length openings.now ≡ length asked.now }
        ensures { IfOk result (λ aids. spec.AreFilterAids asked.now openings.now aids) }
    {
        let open_ends = open_ends_of(alloc, openings)?;
        let rules = Aids::over(alloc, asked)?;
        Ok(FilterAids { rules, open_ends })
    }

    /// The next place behind `place` at which a hit before it may end a walk, or the number of rules.
    #[inline]
    pub fn open_end(&self, place: usize) -> usize
        requires { place < length self.now.open_ends.items }
        ensures { result ≡ slice_index_or self.now.open_ends.items place 0 }
    {
        self.open_ends[place] as usize
    }
}
