//! Batches whose numbers are answered by workers that live longer.
ghost use Rattle.std.specs.Prelude.{◌≡◌, ◌<◌, ◌≤◌, IfOk, vec_len};

use pfr_history::{Naming, Opened};
use pfr_workers::{Crew, Finished, Hand, OpenBatch, OpenedClaims, Openings, hire};
use std::alloc::{AllocError, Global};
use std::marker::Brand;
use std::sync::atomic::{AtomicBool, AtomicU64, Ordering};
use std::sync::{Arc, Wait};
use std::test::Fail;
use std::thread::{Scope, Threads, scope, scope_env, sleep};
use std::time::{Clock, Duration};

/// Waits for a flag, for ten seconds or more at most, and answers whether it came.
fn wait_for<R: Clock>(rt: &R, flag: &AtomicBool) -> bool {
    for _turn in 0..10_000u32 {
        if flag.load(Ordering::SeqCst) {
            return true;
        }
        sleep(rt, Duration::from_millis(1));
    }
    false
}

/// What the workers of a batch share: its id, how many numbers it has, how often it was begun, and how many answers
/// were told.
#[derive(Drop)]
struct Sheet {
    id: u64,
    count: u64,
    begun: AtomicU64,
    told: AtomicU64,
}

/// A number of a batch that was answered, and whether that was in time: the hand had taken note of the batch, and had
/// told of its answer before.
#[derive(Clone, Copy, PartialEq, Eq)]
struct Answer {
    batch: u64,
    number: u64,
    in_time: bool,
}

/// Stands for the number that is still to be told of, if there is none.
const ALL_TOLD: u64 = u64::MAX;

/// Answers number 0 once all batches are open, and none of the numbers 2, 5, 8 and so on.
#[derive(Drop)]
struct Clerk<'a, R: Clock + Sync> {
    alloc: Global,
    rt: &'a R,
    all_open: &'a AtomicBool,
    noted: Option<u64>,
    untold: AtomicU64,
}

impl<'a, R: Clock + Sync> Hand for Clerk<'a, R> {
    type Batch = Sheet;

    type Group = Vec<Answer>;

    ghost begun = { λ clerk sheet. Unit {0} };

    fn begin(&mut self, batch: &Sheet) {
        batch.begun.fetch_add(1, Ordering::SeqCst);
        self.noted = Some(batch.id);
    }

    fn group(&self, room: usize) -> Option<Vec<Answer>> {
        Vec::with_capacity(self.alloc, room).ok()
    }

    fn answer(&mut self, batch: &Sheet, number: u64, group: &mut Vec<Answer>) -> bool {
        if number % 3 == 2 {
            return false;
        }
        let noted = self.noted == Some(batch.id);
        let told = self.untold.swap(number, Ordering::SeqCst) == ALL_TOLD;
        let open = number != 0 || wait_for(self.rt, self.all_open);
        let answer = Answer {
            batch: batch.id,
            number,
            in_time: noted && told && open,
        };
        group.push(answer).is_ok()
    }

    fn answered(&self, batch: &Sheet, number: u64) {
        batch.told.fetch_add(1, Ordering::SeqCst);
        if self.untold.load(Ordering::SeqCst) == number {
            self.untold.store(ALL_TOLD, Ordering::SeqCst);
        }
    }
}

/// How many workers there are to be, and how many of them have no hand.
#[derive(Clone, Copy)]
struct Staff {
    workers: u64,
    missing: u64,
    ghost some: { 0 < workers },
    ghost few: { workers ≤ 64 },
}

/// A hand for each worker.
fn hands<'a, R: Clock + Sync>(
    rt: &'a R,
    alloc: Global,
    staff: Staff,
    all_open: &'a AtomicBool,
) -> Result<Vec<Option<Clerk<'a, R>>>, AllocError>
    ensures { IfOk result (λ hands. vec_len hands ≡ staff.workers) }
{
    let mut hands = Vec::new(alloc);
    for worker in 0..staff.workers {
        let clerk = Clerk {
            alloc,
            rt,
            all_open,
            noted: None,
            untold: AtomicU64::new(ALL_TOLD),
        };
        hands.push((worker >= staff.missing).then_some(clerk))?;
    }
    Ok(hands)
}

/// A batch that is to be opened: how many numbers it has, and how many workers it is given to at most.
#[derive(Clone, Copy)]
struct Planned {
    count: u64,
    most: usize,
    ghost few: { count ≤ 4096 },
}

/// Opens batches one after the other.
fn open_all<K: Naming, R: Wait>(
    rt: &R,
    alloc: Global,
    crew: &Crew<K, Sheet, Vec<Answer>>,
    mut openings: Openings<K>,
    plan: &[Planned],
) -> Result<Vec<OpenBatch<K, Sheet, Vec<Answer>>>, AllocError>
    requires { (0 < vec_len crew.now.desks) × (vec_len crew.now.desks ≤ 64) }
{
    let mut open_batches = Vec::new(alloc);
    for (index, planned) in plan.iter().enumerate() {
        let Planned { count, most } = *planned;
        let sheet = Sheet {
            id: index as u64,
            count,
            begun: AtomicU64::new(0),
            told: AtomicU64::new(0),
        };
        open_batches.push(crew.open(rt, alloc, &mut openings, sheet, count, most)?)?;
    }
    Ok(open_batches)
}

/// Finishes batches, those that were opened first before the others.
fn finish_all<K: Naming, R: Wait>(
    rt: &R,
    alloc: Global,
    open_batches: Vec<OpenBatch<K, Sheet, Vec<Answer>>>,
) -> Result<Vec<Finished<Sheet, Vec<Answer>>>, AllocError> {
    let mut finished = Vec::new(alloc);
    for open_batch in open_batches {
        finished.push(open_batch.finish(rt, alloc))?;
    }
    Ok(finished)
}

/// Hires workers, opens all batches, and finishes them then.
fn in_scope<'s, E, K: Naming + Send + Sync + 's, R: Threads + Wait + Clock + Sync>(
    scope: &Scope<'s, E>,
    rt: &'s R,
    alloc: Global,
    hands: Vec<Option<Clerk<'s, R>>>,
    all_open: &'s AtomicBool,
    openings: Openings<K>,
    plan: &[Planned],
) -> Result<Vec<Finished<Sheet, Vec<Answer>>>, AllocError>
    requires { (0 < vec_len hands) × (vec_len hands ≤ 64) }
{
    let crew = hire(scope, rt, alloc, hands)?;
    let open_batches = open_all(rt, alloc, &crew, openings, plan)?;
    all_open.store(true, Ordering::SeqCst);
    finish_all(rt, alloc, open_batches)
}

/// The same in a scope of its own.
fn finished_under<K: Naming + Send + Sync + 'static, R: Threads + Wait + Clock + Sync>(
    rt: &R,
    alloc: Global,
    opened: Opened<OpenedClaims>,
    staff: Staff,
    plan: &[Planned],
) -> Result<Vec<Finished<Sheet, Vec<Answer>>>, AllocError>
    requires { opened ≡ K.history }
{
    let openings = Openings::new(opened.named::<K>());
    let all_open = AtomicBool::new(false);
    let all_open = &all_open;
    let hands = hands(rt, alloc, staff, all_open)?;
    scope(
        scope_env(),
        rt,
        move |scope| -> Result<Vec<Finished<Sheet, Vec<Answer>>>, AllocError>
            requires { (0 < vec_len hands) × (vec_len hands ≤ 64) }
        { in_scope(scope, rt, alloc, hands, all_open, openings, plan) },
    )
}

/// Opens all batches of a plan, and finishes them then.
fn finished<R: Threads + Wait + Clock + Sync>(
    rt: &R,
    alloc: Global,
    staff: Staff,
    plan: &[Planned],
) -> Result<Vec<Finished<Sheet, Vec<Answer>>>, AllocError> {
    finished_under::<Brand, _>(rt, alloc, Opened::new(), staff, plan)
}

/// What can be seen of a finished batch: its id, where the word of its claims stood, how often it was begun, how many
/// answers were told, how many came, and how many of its numbers have one answer in time.
#[derive(Clone, Copy, Debug, PartialEq, Eq)]
struct Seen {
    id: u64,
    word: u64,
    begun: u64,
    told: u64,
    came: u64,
    right: u64,
}

/// How often an answer is in some groups.
fn times_in(groups: &[Vec<Answer>], wanted: Answer) -> u64 {
    let mut times = 0u64;
    for group in groups {
        for answer in group {
            times = times.saturating_add(u64::from(*answer == wanted));
        }
    }
    times
}

/// How many answers are in some groups.
fn answers_in(groups: &[Vec<Answer>]) -> u64 {
    let mut answers = 0u64;
    for group in groups {
        answers = answers.saturating_add(group.len() as u64);
    }
    answers
}

/// How many numbers of a batch have one answer in some groups, which was in time.
fn right_in(groups: &[Vec<Answer>], sheet: &Sheet) -> u64 {
    let mut right = 0u64;
    for number in 0..sheet.count {
        let wanted = Answer {
            batch: sheet.id,
            number,
            in_time: true,
        };
        right = right.saturating_add(u64::from(times_in(groups, wanted) == 1));
    }
    right
}

/// What can be seen of a batch whose passes all came back, and that the workers have released.
fn seen_of(finished: Finished<Sheet, Vec<Answer>>) -> Option<Seen> {
    let Finished {
        groups,
        batch,
        gathered,
    } = finished;
    match (Arc::into_inner(batch), gathered) {
        (Some(sheet), Ok(gathered)) => Some(Seen {
            id: sheet.id,
            word: gathered.word,
            begun: sheet.begun.load(Ordering::SeqCst),
            told: sheet.told.load(Ordering::SeqCst),
            came: answers_in(groups.as_slice()),
            right: right_in(groups.as_slice(), &sheet),
        }),
        _ => None,
    }
}

/// Opens all batches of a plan, finishes them, and answers what can be seen of each.
fn play<R: Threads + Wait + Clock + Sync>(
    rt: &R,
    alloc: Global,
    staff: Staff,
    plan: &[Planned],
) -> Result<Vec<Option<Seen>>, AllocError> {
    let mut all_seen = Vec::new(alloc);
    for finished in finished(rt, alloc, staff, plan)? {
        all_seen.push(seen_of(finished))?;
    }
    Ok(all_seen)
}

/// A whole batch: `begun` workers began it, and each of its answers was told, and came once and in time.
fn whole(id: u64, word: u64, begun: u64, answers: u64) -> Option<Seen> {
    Some(Seen {
        id,
        word,
        begun,
        told: answers,
        came: answers,
        right: answers,
    })
}

/// Whether workers, some without a hand, leave `expected` of the batches of a plan.
fn leaves<R: Threads + Wait + Clock + Sync>(
    rt: &R,
    alloc: Global,
    staff: Staff,
    plan: &[Planned],
    expected: &[Option<Seen>],
) -> bool {
    match play(rt, alloc, staff, plan) {
        Ok(seen) => seen.as_slice() == expected,
        Err(_) => false,
    }
}

/// Workers who each have a hand.
fn hired(workers: u64) -> Staff
    requires { (0 < workers) × (workers ≤ 64) }
{
    Staff {
        workers,
        missing: 0,
    }
}

/// A batch of `count` numbers that all workers are to answer.
fn answered(count: u64) -> Planned
    requires { count ≤ 4096 }
{
    Planned { count, most: 64 }
}

/// Each number is answered by one worker.
#[test]
fn each_number_is_answered_once(rt: HostRuntime) {
    let (many, few, none) = (answered(200), answered(5), answered(0));
    assert!(rt; leaves(&rt, rt.alloc(), hired(1), &[many], &[whole(0, 201, 1, 134)]));
    assert!(rt; leaves(&rt, rt.alloc(), hired(3), &[many], &[whole(0, 203, 3, 134)]));
    assert!(rt; leaves(&rt, rt.alloc(), hired(8), &[many], &[whole(0, 208, 8, 134)]));
    assert!(rt; leaves(&rt, rt.alloc(), hired(8), &[few], &[whole(0, 13, 8, 4)]));
    assert!(rt; leaves(&rt, rt.alloc(), hired(64), &[few], &[whole(0, 69, 64, 4)]));
    assert!(rt; leaves(&rt, rt.alloc(), hired(3), &[none], &[whole(0, 3, 3, 0)]));
}

/// Batches that are open at once each have answers of their own alone.
#[test]
fn batches_are_open_at_once(rt: HostRuntime) {
    let plan = [answered(200), answered(64), answered(5)];
    let expected = [
        whole(0, 203, 3, 134),
        whole(1, 67, 3, 43),
        whole(2, 8, 3, 4),
    ];
    assert!(rt; leaves(&rt, rt.alloc(), hired(3), &plan[..2], &expected[..2]));
    assert!(rt; leaves(&rt, rt.alloc(), hired(3), &plan, &expected));
}

/// While workers rest a batch is whole without any answer, and they answer the next one again.
#[test]
fn workers_rest(rt: HostRuntime) {
    let resting = Planned {
        count: 200,
        most: 0,
    };
    let plan = [answered(64), resting, answered(5)];
    let expected = [whole(0, 67, 3, 43), whole(1, 203, 0, 0), whole(2, 8, 3, 4)];
    assert!(rt; leaves(&rt, rt.alloc(), hired(3), &plan, &expected));
}

/// A batch is given to as many workers as are requested, and these answer all its numbers.
#[test]
fn few_workers_are_given_a_batch(rt: HostRuntime) {
    let plan = [
        Planned {
            count: 200,
            most: 2,
        },
        Planned { count: 64, most: 1 },
        Planned { count: 5, most: 3 },
    ];
    let expected = [
        whole(0, 203, 2, 134),
        whole(1, 67, 1, 43),
        whole(2, 8, 3, 4),
    ];
    assert!(rt; leaves(&rt, rt.alloc(), hired(3), &plan, &expected));
}

/// If hands are missing the others answer all numbers. If all are missing nobody does.
#[test]
fn hands_are_missing(rt: HostRuntime) {
    let plan = [answered(200), answered(64)];
    let two_hands = Staff {
        workers: 3,
        missing: 1,
    };
    let expected = [whole(0, 203, 2, 134), whole(1, 67, 2, 43)];
    assert!(rt; leaves(&rt, rt.alloc(), two_hands, &plan, &expected));
    let one_hand = Staff {
        workers: 3,
        missing: 2,
    };
    let expected = [whole(0, 203, 1, 134), whole(1, 67, 1, 43)];
    assert!(rt; leaves(&rt, rt.alloc(), one_hand, &plan, &expected));
    let no_hand = Staff {
        workers: 3,
        missing: 3,
    };
    let expected = [whole(0, 203, 0, 0), whole(1, 67, 0, 0)];
    assert!(rt; leaves(&rt, rt.alloc(), no_hand, &plan, &expected));
}

/// Whether the numbers of answers rise from a least one on.
fn rise(answers: &[Answer], first: u64) -> bool {
    let mut least = first;
    for answer in answers {
        if answer.number < least {
            return false;
        }
        least = answer.number.saturating_add(1);
    }
    true
}

/// Whether groups are one of 128 answers and one of 6, whose numbers rise, those of the second from 192 on.
fn are_two(groups: &[Vec<Answer>]) -> bool {
    match groups {
        [first, second] => {
            first.len() == 128
                && second.len() == 6
                && rise(first.as_slice(), 0)
                && rise(second.as_slice(), 192)
        }
        _ => false,
    }
}

/// Whether there is one batch, which came in two such groups.
fn came_in_two(finished: &[Finished<Sheet, Vec<Answer>>]) -> bool {
    match finished {
        [batch] => are_two(batch.groups.as_slice()),
        _ => false,
    }
}

/// One worker sends 128 of its 134 answers in a group, and the rest with its pass, in the order of their numbers.
#[test]
fn answers_are_sent_in_groups(rt: HostRuntime) -> Result<(), Fail> {
    let finished = finished(&rt, rt.alloc(), hired(1), &[answered(200)])?;
    assert!(rt; came_in_two(finished.as_slice()));
    Ok(())
}
