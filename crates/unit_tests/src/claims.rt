//! Batches whose numbers are drawn by passes in turn.
ghost use Rattle.std.specs.Prelude.{◌≡◌, ◌+◌, ◌<◌, ◌≤◌, [], vec_len, IfOk, OnOk};
ghost use Rattle.std.specs.List.{All};
ghost use Rattle.std.specs.VecDeque.{deque_len};

use pfr_claims::{Claim, ClaimPass, Claims, EndedPass};
use std::alloc::{AllocError, Global};
use std::collections::VecDeque;
use std::test::Fail;
use std::thread::{Threads, join};

/// What was drawn in some turns, in their order, and the word once all passes had ended.
#[derive(Drop)]
struct Played {
    numbers: Vec<u64>,
    word: u64,
}

/// Lets the pass that has waited longest draw a number.
fn play(
    claims: &Claims,
    waiting: &mut VecDeque<ClaimPass>,
    ended: &mut Vec<EndedPass>,
    numbers: &mut Vec<u64>,
) -> Result<(), AllocError>
    requires { All (λ pass. pass.batch ≡ claims.now) waiting.old.items × All (λ pass. pass.batch ≡ claims.now) ended.old.items }
    ensures own { OnOk result (All (λ pass. pass.batch ≡ claims.now) waiting.new.items × All (λ pass. pass.batch ≡ claims.now) ended.new.items) }
    ensures whole { OnOk result (deque_len waiting.new + vec_len ended.new ≡ deque_len waiting.old + vec_len ended.old) }
{
    let Some(pass) = waiting.pop_front() else {
        return Ok(());
    };
    match claims.claim(pass) {
        Claim::Number(number, pass) => {
            numbers.push(number)?;
            waiting.push_back(pass)?;
            Ok(())
        }
        Claim::Ended(pass) => {
            ended.push(pass)?;
            Ok(())
        }
    }
}

/// Lets passes draw in turn, `turns` times, and drains them then.
fn play_all(
    claims: &Claims,
    passes: Vec<ClaimPass>,
    turns: u64,
    numbers: &mut Vec<u64>,
    mut ended: Vec<EndedPass>,
) -> Result<Vec<EndedPass>, AllocError>
    requires own { All (λ pass. pass.batch ≡ claims.now) passes.items }
    requires none { ended.items ≡ [] }
    ensures own { IfOk result (λ ended. All (λ pass. pass.batch ≡ claims.now) ended.items) }
    ensures whole { IfOk result (λ ended. vec_len ended ≡ vec_len passes) }
{
    let mut waiting = VecDeque::from_vec(passes);
    for _turn in 0..turns {
        play(claims, &mut waiting, &mut ended, numbers)?;
    }
    while let Some(pass) = waiting.pop_front() {
        ended.push(claims.drain(pass))?;
    }
    Ok(ended)
}

/// A batch whose passes draw numbers in turn, `turns` times, and are drained then.
fn play_batch(alloc: Global, count: u64, workers: u64, turns: u64) -> Result<Played, AllocError>
    requires count { count ≤ 4096 }
    requires workers { (0 < workers) × (workers ≤ 64) }
{
    let (claims, passes) = Claims::new(alloc, count, workers)?;
    let mut numbers = Vec::new(alloc);
    let ended = play_all(&claims, passes, turns, &mut numbers, Vec::new(alloc))?;
    let word = claims.gather(ended).word;
    Ok(Played { numbers, word })
}

/// Whether the passes of a batch draw `numbers` in turn, and leave the word at `word`.
fn draws(alloc: Global, count: u64, workers: u64, turns: u64, numbers: &[u64], word: u64) -> bool
    requires count { count ≤ 4096 }
    requires workers { (0 < workers) × (workers ≤ 64) }
{
    match play_batch(alloc, count, workers, turns) {
        Ok(played) => played.word == word && played.numbers.as_slice() == numbers,
        Err(_) => false,
    }
}

/// A number that is at or above the count is drawn by each pass once, and given to nobody.
#[test]
fn numbers_are_drawn_in_turn(rt: HostRuntime) {
    assert!(rt; draws(rt.alloc(), 5, 2, 3, &[0, 1, 2], 7));
    assert!(rt; draws(rt.alloc(), 5, 2, 7, &[0, 1, 2, 3, 4], 7));
    assert!(rt; draws(rt.alloc(), 5, 64, 70, &[0, 1, 2, 3, 4], 69));
    assert!(rt; draws(rt.alloc(), 0, 3, 1, &[], 3));
    assert!(rt; draws(rt.alloc(), 4096, 1, 4, &[0, 1, 2, 3], 4097));
}

/// Drains two passes in two threads.
fn drain_beside<R: Threads + Sync>(
    rt: &R,
    claims: &Claims,
    first: ClaimPass,
    second: ClaimPass,
) -> (EndedPass, EndedPass)
    requires { (first.batch ≡ claims.now) × (second.batch ≡ claims.now) }
    ensures { (result.0.batch ≡ claims.now) × (result.1.batch ≡ claims.now) }
{
    join(
        rt,
        move || -> EndedPass
            requires { first.batch ≡ claims.now }
            ensures { result.batch ≡ claims.entry.now }
        { claims.drain(first) },
        move || -> EndedPass
            requires { second.batch ≡ claims.now }
            ensures { result.batch ≡ claims.entry.now }
        { claims.drain(second) },
    )
}

/// A batch and its passes may cross threads.
#[test]
fn two_threads_draw(rt: HostRuntime) -> Result<(), Fail> {
    let (claims, mut passes) = Claims::new(rt.alloc(), 4096, 2)?;
    let Some(second) = passes.pop() else {
        panic!(rt; "there is no second pass")
    };
    let Some(first) = passes.pop() else {
        panic!(rt; "there is no first pass")
    };
    let (first, second) = drain_beside(&rt, &claims, first, second);
    assert!(rt; claims.gather(vec![in rt.alloc(); first, second]?).word == 4098);
    Ok(())
}
