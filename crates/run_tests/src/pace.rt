//! When workers rest and are given up, and how much they are given, by rows of what batches came to.

use pfr_work::pace::{BatchReport, Pace};
use std::test::Fail;

/// A batch of `packets` packets. `asked` rules were tested on each. The first `ahead` were evaluated ahead, and all of
/// these results held.
fn held(packets: u64, ahead: u64, asked: u64, changes: u64) -> BatchReport {
    BatchReport {
        packets,
        evaluated_ahead: ahead,
        rerun: packets.saturating_sub(ahead),
        changes,
        asked_rules: packets.saturating_mul(asked),
    }
}

/// The same, but none of the results held.
fn rerun(packets: u64, ahead: u64, asked: u64, changes: u64) -> BatchReport {
    BatchReport {
        packets,
        evaluated_ahead: ahead,
        rerun: packets,
        changes,
        asked_rules: packets.saturating_mul(asked),
    }
}

/// A pace after one batch.
fn after(rules: u64, workers: u64, batch: BatchReport) -> Pace {
    let mut pace = Pace::new(rules, workers);
    pace.note(batch);
    pace
}

/// At its beginning a run tries all workers with 256 packets, and opens no further batch while these are open.
#[test]
fn a_run_begins_with_a_trial(rt: HostRuntime) -> Result<(), Fail> {
    let pace = Pace::new(1000, 4);
    assert!(rt; !pace.rests() && !pace.has_given_up());
    assert!(rt; pace.ahead() == 256 && pace.workers() == 4);
    for (open, waits) in [(0, false), (255, false), (256, true), (4096, true)] {
        assert!(rt; pace.waits(open) == waits, "{open} open");
    }
    Ok(())
}

/// Nothing is judged before 256 packets were evaluated ahead, in as many batches as that takes.
#[test]
fn a_trial_may_take_several_batches(rt: HostRuntime) -> Result<(), Fail> {
    let mut pace = after(1000, 2, rerun(255, 255, 1000, 0));
    assert!(rt; pace.ahead() == 256 && pace.waits(256));
    pace.note(rerun(1, 1, 1000, 0));
    assert!(rt; pace.ahead() == 0 && pace.workers() == 0);
    Ok(())
}

/// Two workers save half of the rules. In a batch of 256 packets a result costs 30 rules, and its share of two starts
/// nearly 6. In one of 1024 packets that share is nearly 1.5. A change for each packet adds 50.
#[test]
fn a_batch_pays_by_the_rules_that_packets_are_asked_about(rt: HostRuntime) -> Result<(), Fail> {
    for (packets, asked, changes, pays) in [
        (256, 70, 0, false),
        (256, 71, 0, true),
        (1024, 62, 0, false),
        (1024, 63, 0, true),
        (1024, 162, 1024, false),
        (1024, 163, 1024, true),
    ] {
        let pace = after(1000, 2, held(packets, 256, asked, changes));
        assert!(rt; pace.rests() != pays, "{packets} packets, {asked} rules");
        let ahead = if pays { u64::MAX } else { 0 };
        assert!(rt; pace.ahead() == ahead, "{packets} packets, {asked} rules");
        assert!(rt;
            pace.waits(4096) != pays,
            "{packets} packets, {asked} rules"
        );
        assert!(rt; !pace.has_given_up(), "{packets} packets, {asked} rules");
    }
    Ok(())
}

/// 100 rules are tested on a packet, so a result that holds saves 50, and each one costs nearly 36: 184 of 256 have to
/// hold.
#[test]
fn a_batch_pays_by_the_results_that_hold(rt: HostRuntime) -> Result<(), Fail> {
    for (holding, pays) in [(256, true), (184, true), (183, false), (0, false)] {
        let batch = BatchReport {
            packets: 256,
            evaluated_ahead: 256,
            rerun: 256u64.saturating_sub(holding),
            changes: 0,
            asked_rules: 25_600,
        };
        assert!(rt; after(1000, 2, batch).rests() != pays, "{holding} hold");
    }
    Ok(())
}

/// The estimate of rules changes after 8 packets. In a batch of 7 a result costs nearly 245 rules: 30, and its share of
/// two starts. It saves 500 by the packets before it, and nothing by its own.
#[test]
fn a_few_packets_do_not_tell_how_many_rules_are_asked(rt: HostRuntime) -> Result<(), Fail> {
    for (packets, pays) in [(7, true), (8, false)] {
        let mut pace = after(1000, 2, held(256, 256, 1000, 0));
        pace.note(held(packets, packets, 0, 0));
        assert!(rt; pace.rests() != pays, "{packets} packets");
    }
    Ok(())
}

/// Packets that come while workers rest tell too: here one of eight. 500 rules are tested on each of the seven others.
/// In their batch a result costs nearly 245 rules. It saves 219 if 437 rules are tested on a packet on average, and 250
/// if 500 are tested on each.
#[test]
fn packets_of_a_rest_tell_how_many_rules_are_asked(rt: HostRuntime) -> Result<(), Fail> {
    for (asked, pays) in [(0, false), (500, true)] {
        let mut pace = after(1000, 2, held(256, 256, 0, 0));
        pace.note(held(1023, 0, 0, 0));
        pace.note(held(1, 0, asked, 0));
        assert!(rt; pace.ahead() == 256);
        pace.note(held(7, 7, 500, 0));
        assert!(rt; pace.rests() != pays, "{asked} rules");
    }
    Ok(())
}

/// With two workers a result saves 30 rules of 59, and with four 30 of 39. With one it saves nothing.
#[test]
fn workers_are_given_up_if_there_are_few_rules(rt: HostRuntime) -> Result<(), Fail> {
    for (rules, workers, gives_up) in [
        (58, 2, true),
        (59, 2, false),
        (38, 4, true),
        (39, 4, false),
        (1000, 1, true),
        (0, 4, true),
    ] {
        let mut pace = after(rules, workers, held(255, 255, 0, 0));
        assert!(rt; !pace.has_given_up(), "{rules} rules, {workers} workers");
        pace.note(held(1, 1, 0, 0));
        assert!(rt;
            pace.has_given_up() == gives_up,
            "{rules} rules, {workers} workers"
        );
        assert!(rt; pace.rests(), "{rules} rules, {workers} workers");
        pace.note(held(4096, 0, 0, 0));
        assert!(rt;
            pace.rests() == gives_up,
            "{rules} rules, {workers} workers"
        );
    }
    Ok(())
}

/// Each rest takes four times as many packets as the one before, up to 262 144. A batch that was open before a rest
/// counts too.
#[test]
fn rests_grow(rt: HostRuntime) -> Result<(), Fail> {
    let mut pace = Pace::new(1000, 2);
    for rest in [1024u64, 4096, 16_384, 65_536, 262_144, 262_144] {
        pace.note(held(256, 256, 0, 0));
        pace.note(held(256, 256, 0, 0));
        pace.note(held(rest.saturating_sub(257), 0, 0, 0));
        assert!(rt; pace.ahead() == 0 && pace.workers() == 0, "{rest} packets");
        pace.note(held(1, 0, 0, 0));
        assert!(rt;
            pace.ahead() == 256 && pace.workers() == 2,
            "{rest} packets"
        );
        assert!(rt; !pace.has_given_up(), "{rest} packets");
    }
    Ok(())
}

/// Once a batch has paid, the next rest is a first one.
#[test]
fn rests_are_short_again_after_a_batch_that_pays(rt: HostRuntime) -> Result<(), Fail> {
    let mut pace = after(1000, 2, held(256, 256, 0, 0));
    pace.note(held(1024, 0, 0, 0));
    pace.note(held(256, 256, 1000, 0));
    assert!(rt; pace.ahead() == u64::MAX);
    pace.note(held(256, 256, 0, 0));
    pace.note(held(1023, 0, 0, 0));
    assert!(rt; pace.rests());
    pace.note(held(1, 0, 0, 0));
    assert!(rt; pace.ahead() == 256);
    Ok(())
}

/// Workers that never paid are given up once 1280 packets have come, if one in eight of these changed the table.
#[test]
fn workers_are_given_up_if_many_packets_change_the_table(rt: HostRuntime) -> Result<(), Fail> {
    for (packets, changes, gives_up) in [
        (1280, 160, true),
        (1280, 159, false),
        (1279, 1279, false),
        (4096, 512, true),
        (4096, 511, false),
    ] {
        let pace = after(1000, 2, rerun(packets, 256, 1000, changes));
        assert!(rt; pace.rests(), "{changes} of {packets}");
        assert!(rt; pace.has_given_up() == gives_up, "{changes} of {packets}");
    }
    Ok(())
}

/// Packets of a rest count, but none from before the judgement that it follows.
#[test]
fn packets_of_a_rest_tell_whether_many_change_the_table(rt: HostRuntime) -> Result<(), Fail> {
    for (changes, gives_up) in [(128, true), (127, false)] {
        let mut pace = after(1000, 2, rerun(256, 256, 1000, 256));
        assert!(rt; !pace.has_given_up());
        pace.note(rerun(1024, 0, 1000, changes));
        assert!(rt; !pace.rests());
        pace.note(rerun(256, 256, 1000, 32));
        assert!(rt; pace.has_given_up() == gives_up, "{changes} changes");
    }
    Ok(())
}

/// Workers that paid before are given up after they didn't pay twice in turn.
#[test]
fn workers_that_paid_are_given_up_the_second_time(rt: HostRuntime) -> Result<(), Fail> {
    let mut pace = after(1000, 2, held(256, 256, 1000, 0));
    pace.note(rerun(4096, 4096, 1000, 4096));
    assert!(rt; pace.rests() && !pace.has_given_up());
    pace.note(rerun(4096, 0, 1000, 4096));
    assert!(rt; pace.ahead() == 256);
    pace.note(rerun(4096, 256, 1000, 4096));
    assert!(rt; pace.has_given_up());
    Ok(())
}

/// To evaluate a packet takes 50 rules beside its own. To take it over takes 50 rules, and 150 more for each change.
#[test]
fn no_more_workers_are_given_a_batch_than_keep_up(rt: HostRuntime) -> Result<(), Fail> {
    for (asked, changes, workers) in [
        (75, 0, 3),
        (99, 0, 3),
        (100, 0, 4),
        (500, 0, 8),
        (500, 1024, 3),
        (500, 512, 5),
    ] {
        let pace = after(1000, 8, held(1024, 256, asked, changes));
        assert!(rt;
            pace.workers() == workers,
            "{asked} rules, {changes} changes"
        );
    }
    Ok(())
}
