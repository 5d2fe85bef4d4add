//! Numbers that one thread changes while others may look on.
use std::sync::atomic::{AtomicU64, Ordering};

/// What stands for a number that isn't known.
const UNKNOWN: u64 = u64::MAX;

/// A number.
#[derive(Drop)]
pub(crate) struct Number(AtomicU64);

impl Number {
    pub(crate) fn new(number: u64) -> Number {
        Number(AtomicU64::new(number))
    }

    pub(crate) fn get(&self) -> u64 {
        self.0.load(Ordering::Relaxed)
    }

    pub(crate) fn set(&self, number: u64) {
        self.0.store(number, Ordering::Relaxed);
    }

    /// Adds to it.
    pub(crate) fn add(&self, more: u64) {
        self.set(self.get().saturating_add(more));
    }
}

/// A number that isn't known at first.
#[derive(Drop)]
pub(crate) struct Late(Number);

impl Late {
    pub(crate) fn new() -> Late {
        Late(Number::new(UNKNOWN))
    }

    pub(crate) fn get(&self) -> Option<u64> {
        match self.0.get() {
            UNKNOWN => None,
            number => Some(number),
        }
    }

    pub(crate) fn set(&self, number: Option<u64>) {
        self.0.set(number.unwrap_or(UNKNOWN));
    }
}
