//! What was found out ahead about the packets of a batch, at the place of each packet.
ghost use Rattle.std.specs.Prelude.{◌≡◌, false, None, Some, IfNone, IfOk, IfSome, length, replicate};
ghost use Rattle.std.specs.Option.{option_map};
ghost use Rattle.pfr_commit.specs.ResultsByPlace.{AreByPlace, result_at};
ghost use Rattle.pfr_commit.specs.Results as spec;

use pfr_record::Speculation;
use std::alloc::{AllocError, Global};

/// For each packet of a batch its result, if there is one.
pub(crate) type Places<'r> = Vec<Option<&'r Speculation>>;

/// The results of packets, each at its packet's place. `are_of_job` says that all are of the committer's job. Results
/// are borrowed, not moved.
#[derive(Drop)]
pub(crate) struct ResultsByPlace<'r> {
    pub(crate) places: Places<'r>,
    pub(crate) are_of_job: bool,
}

/// `count` places, with nothing in them.
fn empty_places<'r>(alloc: Global, count: usize) -> Result<Places<'r>, AllocError>
    ensures { IfOk result (λ places. places.items ≡ replicate count None) }
{
    let mut places = Vec::with_capacity(alloc, count)?;
    for _place in 0..count {
        places.push(None)?;
    }
    Ok(places)
}

/// Whether `place` exists and is empty.
fn is_free(places: &Places<'_>, place: usize) -> bool
    ensures { result ≡ spec.is_free places.now.items place }
{
    place < places.len() && places[place].is_none()
}

/// Puts a result at its packet's place, unless there is one already. A result of another packet is left out.
fn put_result<'r>(places: &mut Places<'r>, first: u64, found: &'r Speculation)
    ensures length { length places.new.items ≡ length places.old.items }
    ensures placed { spec.Puts first found.now places.old.items places.new.items }
{
    let number = found.number();
    if number < first {
        return;
    }
    let place = (number - first) as usize;
    if is_free(places, place) {
        places[place] = Some(found);
    }
}

/// Puts the results of a group at their places.
fn put_group<'r>(places: &mut Places<'r>, first: u64, group: &'r [Speculation])
    ensures length { length places.new.items ≡ length places.old.items }
    ensures placed { spec.PutsGroup first group.now places.old.items places.new.items }
{
    for index in 0..group.len() {
        put_result(places, first, &group[index]);
    }
}

/// The result of each of `count` packets, numbered from `first`. If a packet has several results, the first one is
/// taken.
fn placed<'r>(
    alloc: Global,
    groups: &'r [Vec<Speculation>],
    first: u64,
    count: usize,
) -> Result<Places<'r>, AllocError>
    ensures length { IfOk result (λ places. length places.items ≡ count) }
    ensures placed { IfOk result (λ places. spec.ArePlaced (spec.results_of groups.now) first places.items) }
{
    let mut places = empty_places(alloc, count)?;
    for index in 0..groups.len() {
        put_group(&mut places, first, groups[index].as_slice());
    }
    Ok(places)
}

/// The results for `count` packets, numbered from `first`. If a packet has several results, the first one is taken.
/// They take no room if there are no groups. `are_of_job` says that all are of the committer's job.
pub(crate) fn in_places<'r>(
    alloc: Global,
    groups: &'r [Vec<Speculation>],
    first: u64,
    count: usize,
    are_of_job: bool,
) -> Result<ResultsByPlace<'r>, AllocError>
    ensures places { IfOk result (λ placed. AreByPlace (spec.results_of groups.now) first count placed) }
    ensures of_job { IfOk result (λ placed. placed.are_of_job ≡ are_of_job) }
{
    let places = if groups.is_empty() {
        Vec::new(alloc)
    } else {
        placed(alloc, groups, first, count)?
    };
    Ok(ResultsByPlace { places, are_of_job })
}

/// One place with a result, or no place if there is no result. The result may be of another job.
pub(crate) fn of_one<'r>(
    alloc: Global,
    found: Option<&'r Speculation>,
) -> Result<ResultsByPlace<'r>, AllocError>
    ensures place { IfOk result (λ held. result_at 0 held ≡ option_map (λ it. it.now) found.entry) }
    ensures of_job { IfOk result (λ held. held.are_of_job ≡ false) }
{
    let mut places = Vec::new(alloc);
    if found.is_some() {
        places.push(found)?;
    }
    Ok(ResultsByPlace {
        places,
        are_of_job: false,
    })
}

impl<'r> ResultsByPlace<'r> {
    /// The result at `place`, if there is one.
    #[inline]
    pub(crate) fn at(&self, place: usize) -> Option<&'r Speculation>
        ensures some { IfSome result (λ found. result_at place self.now ≡ Some found.now) }
        ensures none { IfNone result (result_at place self.now ≡ None) }
    {
        match self.places.get(place) {
            Some(found) => *found,
            None => None,
        }
    }
}
