//! A table that is published while others look at it.
ghost use Rattle.std.specs.Prelude.{◌≡◌};

use crate::states::{key, number_of, state};
use pfr_history::Opened;
use pfr_published::{Published, StoreWriter, TableNaming, Told, Viewer};
use pfr_states::{Change, TableChange};
use pfr_track::Clock;
use std::alloc::Global;
use std::marker::Brand;
use std::process::Abort;
use std::sync::{Arc, Mutex, Wait};
use std::thread::{Threads, sleep, spawn};
use std::time::Duration;

/// The making of a state whose key no state of another number has.
fn made(number: u32, deadline: u64) -> Change {
    let key = key(number);
    Change::Apply(TableChange::Made(state(u64::from(number), key, key, deadline)))
}

/// A list of changes.
fn list<R: Abort>(rt: &R, alloc: Global, changes: &[Change]) -> Vec<Change> {
    let mut list = Vec::new(alloc);
    list.extend_from_slice(changes).expect(rt, "memory");
    list
}

/// The viewer behind a look at the table, with how many states it has and the least number of one.
fn look<J: TableNaming>(viewer: Viewer<J>) -> (Viewer<J>, (usize, u64)) {
    match viewer.enter() {
        Ok(showing) => {
            let table = showing.table();
            let seen = (table.len(), number_of(table.first()));
            (showing.leave(), seen)
        }
        Err(viewer) => (viewer, (0, 0)),
    }
}

/// Waits until something was told, for ten seconds or more at most.
fn wait_for<J: TableNaming, R: Wait + std::time::Clock>(
    rt: &R,
    told: &Mutex<Option<Told<J>>>,
) -> Option<Told<J>> {
    for _turn in 0..10_000u32 {
        let found = told.lock(rt).take();
        if found.is_some() {
            return found;
        }
        sleep(rt, Duration::from_millis(1));
    }
    None
}

/// Looks once something was told.
fn look_when_told<J: TableNaming, R: Wait + std::time::Clock>(
    rt: &R,
    told: &Mutex<Option<Told<J>>>,
    mut viewer: Viewer<J>,
) -> (usize, u64) {
    match wait_for(rt, told) {
        Some(told) => {
            viewer.learn(told);
            look(viewer).1
        }
        None => (0, 0),
    }
}

fn seen_beside<
    J: TableNaming + Send + Sync + 'static,
    R: Threads + Wait + Abort + std::time::Clock + Copy + Send + 'static,
>(rt: R, alloc: Global, opened: Opened<Change>, limit: usize) -> (usize, u64)
    requires history { opened ≡ J.history }
    requires limit { limit ≡ J.limit }
{
    let history = opened.named::<J>();
    let published = Published::new(alloc, &history, limit, 1).expect(&rt, "memory");
    let viewer = published.viewer(&history).expect(&rt, "a place");
    let told = Arc::new(alloc, Mutex::new(None)).expect(&rt, "memory");
    let theirs = Arc::try_clone(&told).expect(&rt, "memory");
    let child = spawn(&rt, move || look_when_told(&rt, &theirs, viewer)).ok();
    let changes = [
        made(1, 60),
        made(2, 90),
        Change::Purge(Clock(60)),
        made(3, 90),
    ];
    let changes = list(&rt, alloc, &changes);
    let (published, outcome) = published.publish(&rt, &history, changes);
    *told.lock(&rt) = Some(published.tell());
    let seen = child.expect(&rt, "a thread").join(&rt);
    let table = published.close(&rt).expect(&rt, "a table");
    assert!(rt; outcome.is_ok() && table.len() == 2);
    seen
}

/// The table may have two states. A viewer in another thread is told of three, of which one has expired.
#[test]
fn another_thread_sees_what_is_published(rt: HostRuntime) {
    let seen = seen_beside::<Brand, _>(rt, rt.alloc(), Opened::new(), 2);
    assert!(rt; seen == (2, 2));
}
