//! A batch that workers draw from.
ghost use Rattle.std.specs.Prelude.{◌≡◌, ◌⊎◌, ◌≤◌, ◌<◌, ◌++◌, ◌∷◌, [], IfOk, IfSome, MatchResult, vec_len, vec_capacity};
ghost use Rattle.std.specs.Arc.{arc_value};
ghost use Rattle.std.specs.List.{All};
ghost use Rattle.pfr_workers.specs.Opening.{IsNumbered};

use crate::crew::Crew;
use crate::incomplete::Incomplete;
use crate::opening::{Numbered, Openings};
use crate::task::{Reply, Task, pass_of};
use crossbeam_channel::{Receiver, Sender, unbounded};
use pfr_claims::{ClaimPass, Claims, EndedPass, Gathered};
use pfr_history::Naming;
use std::alloc::{AllocError, Global};
use std::snapshot::Snapshot;
use std::sync::{Arc, Wait};

/// A batch that workers draw from: what they share of it, and the passes that no worker could be given. Those wait until the
/// others have ended.
#[derive(Drop)]
pub struct OpenBatch<J: Naming, B: Drop, G: Drop> {
    pub batch: Arc<B>,
    pub(crate) claims: Arc<Claims>,
    numbered: Numbered<J>,
    inbox: Receiver<Reply<J, G>>,
    kept: Vec<ClaimPass>,
    ended: Vec<EndedPass>,
    pub count: u64,
    pub workers: u64,
    pub ghost some: { 0 < workers },
    ghost sizes: { ((arc_value claims).sizes.count ≡ count) × ((arc_value claims).sizes.workers ≡ workers) },
    ghost named: { IsNumbered numbered.front numbered.number (arc_value claims) },
    ghost kept_own: { All (λ pass. pass.batch ≡ arc_value claims) kept.items },
    ghost ended_own: { All (λ pass. pass.batch ≡ arc_value claims) ended.items },
}

/// What came of a batch: the groups of answers in the order in which they arrived, what the workers shared, and the batch with all
/// its passes ended, if they all came back. A group has answers of one worker, in the order of their numbers.
#[derive(Drop)]
pub struct Finished<B: Drop, G: Drop> {
    pub groups: Vec<G>,
    pub batch: Arc<B>,
    pub gathered: Result<Gathered, Incomplete>,
}

/// Gives a worker its pass of a batch. The pass comes back if there is no such worker, or memory is refused.
fn give<J: Naming, R: Wait, B: Drop, G: Drop>(
    rt: &R,
    desk: &Option<Sender<Task<J, B, G>>>,
    claims: &Arc<Claims>,
    batch: &Arc<B>,
    results: &Sender<Reply<J, G>>,
    numbered: &Numbered<J>,
    pass: ClaimPass,
) -> Option<ClaimPass>
    requires own { pass.batch ≡ arc_value claims.now }
    requires named { IsNumbered numbered.now.front numbered.now.number (arc_value claims.now) }
    ensures { IfSome result (λ pass. pass.batch ≡ arc_value claims.now) }
{
    let Some(desk) = desk else {
        return Some(pass);
    };
    let Ok(its_claims) = Arc::try_clone(claims) else {
        return Some(pass);
    };
    let Ok(its_batch) = Arc::try_clone(batch) else {
        return Some(pass);
    };
    let Ok(its_results) = results.clone() else {
        return Some(pass);
    };
    let task = Task {
        claims: its_claims,
        pass,
        batch: its_batch,
        results: its_results,
        numbered: numbered.again(),
    };
    match desk.send(rt, task) {
        Ok(()) => None,
        Err(refused) => {
            let Task {
                claims: _,
                pass,
                batch: _,
                results: _,
                numbered: _,
            } = refused.into_inner();
            Some(pass)
        }
    }
}

/// Gives each worker its pass, as far as there are workers. The passes that no worker could be given go to a list that has room
/// for all.
fn give_all<J: Naming, R: Wait, B: Drop, G: Drop>(
    rt: &R,
    desks: &[Option<Sender<Task<J, B, G>>>],
    claims: &Arc<Claims>,
    batch: &Arc<B>,
    results: Sender<Reply<J, G>>,
    numbered: &Numbered<J>,
    mut passes: Vec<ClaimPass>,
    mut kept: Vec<ClaimPass>,
) -> Vec<ClaimPass>
    requires own { All (λ pass. pass.batch ≡ arc_value claims.now) passes.items }
    requires kept { All (λ pass. pass.batch ≡ arc_value claims.now) kept.items }
    requires named { IsNumbered numbered.now.front numbered.now.number (arc_value claims.now) }
    ensures { All (λ pass. pass.batch ≡ arc_value claims.now) result.items }
{
    for desk in desks {
        if let Some(pass) = passes.pop()
            && let Some(pass) = give(rt, desk, claims, batch, &results, numbered, pass)
        {
            let _has_room = kept.push(pass);
        }
    }
    while let Some(pass) = passes.pop() {
        let _has_room = kept.push(pass);
    }
    kept
}

impl<J: Naming, B: Drop, G: Drop> Crew<J, B, G> {
    /// Opens a batch of `count` numbers, at most 4096. At most `most` workers are given their passes; the passes of the others
    /// wait. The only error is that memory was refused: then the batch isn't in the history.
    pub fn open<R: Wait>(
        &self,
        rt: &R,
        alloc: Global,
        openings: &mut Openings<J>,
        batch: B,
        count: u64,
        most: usize,
    ) -> Result<OpenBatch<J, B, G>, AllocError>
        requires count { count ≤ 4096 }
        requires workers { (0 < vec_len self.now.desks) × (vec_len self.now.desks ≤ 64) }
        ensures batch { IfOk result (λ open_batch. arc_value open_batch.batch ≡ batch) }
        ensures sizes { IfOk result (λ open_batch. (open_batch.count ≡ count) × (open_batch.workers ≡ vec_len self.now.desks)) }
        ensures opened { MatchResult result (λ it. openings.new ≡ openings.old ++ arc_value it.claims ∷ []) (λ _. openings.new ≡ openings.old) }
    {
        let workers = self.desks.len() as u64;
        let (claims, passes) = Claims::new(alloc, count, workers)?;
        let claims = Arc::new(alloc, claims)?;
        let batch = Arc::new(alloc, batch)?;
        let kept = Vec::with_capacity(alloc, self.desks.len())?;
        let ended = Vec::with_capacity(alloc, self.desks.len())?;
        let (results, inbox) = unbounded(alloc)?;
        let numbered = openings.add(&claims).ok_or(AllocError)?;
        let given = most.min(self.desks.len());
        let desks = &self.desks[..given];
        let kept = give_all(rt, desks, &claims, &batch, results, &numbered, passes, kept);
        Ok(OpenBatch {
            batch,
            claims,
            numbered,
            inbox,
            kept,
            ended,
            count,
            workers,
        })
    }
}

/// Puts a pass behind others, for which there is room.
fn keep(ended: &mut Vec<EndedPass>, pass: EndedPass)
    ensures kept { vec_len ended.old < vec_capacity ended.old → ended.new.items ≡ ended.old.items ++ pass ∷ [] }
    ensures own { (ended.new.items ≡ ended.old.items) ⊎ (ended.new.items ≡ ended.old.items ++ pass ∷ []) }
{
    let _has_room = ended.push(pass);
}

/// What has come back of a batch.
#[derive(Drop)]
struct Returned<G: Drop> {
    groups: Vec<G>,
    ended: Vec<EndedPass>,
}

impl<G: Drop> Returned<G> {
    /// Takes a message of a batch. A group is dropped if there is no memory for it.
    fn take<J: Naming>(&mut self, numbered: &Numbered<J>, claims: &Claims, reply: Reply<J, G>)
        requires named { IsNumbered numbered.now.front numbered.now.number claims.now }
        requires own { All (λ pass. pass.batch ≡ claims.now) self.old.ended.items }
        ensures { All (λ pass. pass.batch ≡ claims.now) self.new.ended.items }
    {
        match reply {
            Reply::Group(group) => {
                let _kept = self.groups.push(group);
            }
            Reply::Back(back, last) => {
                if let Some(group) = last {
                    let _kept = self.groups.push(group);
                }
                if let Some(pass) = pass_of(numbered, claims, back) {
                    keep(&mut self.ended, pass);
                }
            }
        }
    }
}

/// Receives groups of answers and passes until the last sender is gone.
fn receive<J: Naming, R: Wait, G: Drop>(
    rt: &R,
    inbox: Receiver<Reply<J, G>>,
    numbered: &Numbered<J>,
    claims: &Claims,
    returned: Returned<G>,
) -> Returned<G>
    requires named { IsNumbered numbered.now.front numbered.now.number claims.now }
    requires own { All (λ pass. pass.batch ≡ claims.now) returned.ended.items }
    ensures { All (λ pass. pass.batch ≡ claims.now) result.ended.items }
{
    let mut returned = returned;
    for reply in inbox.iter(rt) {
        returned.take(numbered, claims, reply);
    }
    returned
}

/// Draws passes of a batch to their ends, one after the other, and puts them behind others.
fn drain_all(
    claims: &Claims,
    mut passes: Vec<ClaimPass>,
    mut ended: Vec<EndedPass>,
) -> Vec<EndedPass>
    requires passes { All (λ pass. pass.batch ≡ claims.now) passes.items }
    requires ended { All (λ pass. pass.batch ≡ claims.now) ended.items }
    ensures { All (λ pass. pass.batch ≡ claims.now) result.items }
{
    while let Some(pass) = passes.pop() {
        keep(&mut ended, claims.drain(pass));
    }
    ended
}

/// The batch with all its passes ended, if as many came back as there were workers.
fn gathered(claims: &Claims, workers: u64, ended: Vec<EndedPass>) -> Result<Gathered, Incomplete>
    requires own { All (λ pass. pass.batch ≡ claims.now) ended.items }
    requires workers { (claims.now.sizes.workers ≡ workers) × (0 < workers) }
    ensures { MatchResult result (λ gathered. gathered.claims.value ≡ claims.now) (λ lost. lost.claims.value ≡ claims.now) }
{
    let came = ended.len() as u64;
    if came == workers {
        return Ok(claims.gather(ended));
    }
    Err(Incomplete {
        claims: Snapshot::of(claims),
        came,
    })
}

impl<J: Naming, B: Drop, G: Drop> OpenBatch<J, B, G> {
    /// Waits until all workers have ended their passes of the batch, and draws the other passes to their ends then. Passes are
    /// missing if a worker was refused memory to send its own back. The workers have released what they shared.
    pub fn finish<R: Wait>(self, rt: &R, alloc: Global) -> Finished<B, G>
        ensures batch { result.batch ≡ self.batch }
        ensures own { MatchResult result.gathered (λ it. it.claims.value ≡ arc_value self.claims) (λ it. it.claims.value ≡ arc_value self.claims) }
    {
        let OpenBatch {
            batch,
            claims,
            numbered,
            inbox,
            kept,
            ended,
            count: _,
            workers,
        } = self;
        let returned = Returned {
            groups: Vec::new(alloc),
            ended,
        };
        let Returned { groups, ended } = receive(rt, inbox, &numbered, &claims, returned);
        let ended = drain_all(&claims, kept, ended);
        Finished {
            groups,
            batch,
            gathered: gathered(&claims, workers, ended),
        }
    }
}
