//! How often rules are evaluated, which is counted at the ends of the runs of rules that a packet visits.
use pfr_rules::{Evaluations, Visits};
use std::alloc::{AllocError, Global};

/// The rules of a walk.
fn visits_of(alloc: Global, rules: &[usize]) -> Result<Visits, AllocError> {
    let mut visits = Visits::new(alloc);
    for rule in rules {
        visits.push(*rule)?;
    }
    Ok(visits)
}

/// How often each of five rules is evaluated by a walk that visits these.
fn counts_of(alloc: Global, rules: &[usize]) -> Result<Vec<u64>, AllocError> {
    let visits = visits_of(alloc, rules)?;
    let mut evaluations = Evaluations::new(alloc, 5)?;
    evaluations.count(&visits);
    evaluations.counts(alloc)
}

/// Whether a walk that visits these rules evaluates each of five rules this often.
fn counts(alloc: Global, rules: &[usize], expected: [u64; 5]) -> bool {
    match counts_of(alloc, rules) {
        Ok(counts) => counts.as_slice() == expected.as_slice(),
        Err(_) => false,
    }
}

/// Walks over some rules, past the last one and over none, and rules that are visited out of order or again.
#[test]
fn each_visited_rule_is_counted(rt: HostRuntime) {
    assert!(rt; counts(rt.alloc(), &[1, 2, 3], [0, 1, 1, 1, 0]));
    assert!(rt; counts(rt.alloc(), &[3, 4, 5, 6], [0, 0, 0, 1, 1]));
    assert!(rt; counts(rt.alloc(), &[], [0, 0, 0, 0, 0]));
    assert!(rt; counts(rt.alloc(), &[0, 2, 3, 0, 2], [2, 0, 2, 1, 0]));
}
