//! Who says how far a command has come.
use crate::counts::{Late, Number};
use crate::reading::{Reading, per_second, share_of};
use pfr_capture::Record;
use pfr_commit::Gate;
use pfr_headers::View;
use pfr_packet::Outcome;
use pfr_track::StateNumber;
use std::io::Write;
use std::sync::atomic::{AtomicBool, Ordering};
use std::time::Clock;

/// How many milliseconds lie between two lines on a terminal at least.
const ON_TERMINAL: u64 = 500;

/// How many milliseconds lie between two lines elsewhere at least.
const ELSEWHERE: u64 = 10_000;

/// How many bytes the header of a record has in a capture.
const RECORD_HEADER: u64 = 16;

/// Is told of packets, and says how far a command has come.
pub trait Meter: Gate {
    /// Packets are taken from here on. The captures' files have `size` bytes, of which `read` were read, if that is known.
    fn begin(&self, read: u64, size: Option<u64>);

    /// No more packets are taken: a line that was begun ends.
    fn end(&self);
}

/// Says on a stream how far a command has come: on a terminal in one line, which is rewritten, and elsewhere in lines of their own.
#[derive(Drop)]
pub struct Shown<'a, C, E> {
    clock: &'a C,
    err: E,
    is_terminal: bool,
    /// Whether the command is between its begin and its end.
    is_running: AtomicBool,
    packets: Number,
    made: Number,
    read: Number,
    size: Late,
    /// When the first packet was taken, in milliseconds.
    begun: Late,
    /// When the next line is due, in milliseconds.
    due: Number,
    /// How many lines were written.
    lines: Number,
}

impl<'a, C: Clock, E: Write + Copy> Shown<'a, C, E> {
    /// Says nothing until the command begins.
    pub fn new(clock: &'a C, err: E, is_terminal: bool) -> Shown<'a, C, E> {
        Shown {
            clock,
            err,
            is_terminal,
            is_running: AtomicBool::new(false),
            packets: Number::new(0),
            made: Number::new(0),
            read: Number::new(0),
            size: Late::new(),
            begun: Late::new(),
            due: Number::new(0),
            lines: Number::new(0),
        }
    }

    /// Milliseconds of the clock, if it can be read.
    fn now(&self) -> Option<u64> {
        let time = self.clock.monotonic().ok()?;
        let seconds = time.as_secs().saturating_mul(1000);
        Some(seconds.saturating_add(u64::from(time.subsec_millis())))
    }

    /// How many milliseconds lie between two lines at least.
    fn pause(&self) -> u64 {
        if self.is_terminal {
            ON_TERMINAL
        } else {
            ELSEWHERE
        }
    }

    /// How far the command has come, `milliseconds` milliseconds behind its first packet.
    fn reading(&self, milliseconds: u64) -> Reading {
        let packets = self.packets.get();
        Reading {
            packets,
            per_second: per_second(packets, milliseconds),
            share: match self.size.get() {
                Some(size) => Some(share_of(self.read.get(), size)),
                None => None,
            },
            made: self.made.get(),
        }
    }

    /// Writes a line.
    fn say(&self, milliseconds: u64) {
        let reading = self.reading(milliseconds);
        let mut err = self.err;
        // If this can't be written, nothing else depends on it.
        let _ = if self.is_terminal {
            write!(err, "\rpfreplay: {reading}\x1b[K")
        } else {
            writeln!(err, "pfreplay: {reading}")
        };
        self.lines.add(1);
    }

    /// Counts a packet.
    fn count(&self, packet: &Record, outcome: &Outcome) {
        self.packets.add(1);
        self.read
            .add(RECORD_HEADER.saturating_add(packet.bytes.len() as u64));
        if outcome.state == Some(StateNumber(self.packets.get())) {
            self.made.add(1);
        }
    }

    /// Writes a line, if one is due.
    fn turn(&self) {
        let Some(now) = self.now() else {
            return;
        };
        match self.begun.get() {
            None => self.begun.set(Some(now)),
            Some(_) if now < self.due.get() => return,
            Some(begun) => self.say(now.saturating_sub(begun)),
        }
        self.due.set(now.saturating_add(self.pause()));
    }
}

impl<C: Clock + Sync, E: Write + Copy + Sync> Gate for Shown<'_, C, E> {
    fn taken(&self, packet: &Record, _view: &View, outcome: &Outcome) {
        if self.is_running.load(Ordering::Relaxed) {
            self.count(packet, outcome);
            self.turn();
        }
    }
}

impl<C: Clock + Sync, E: Write + Copy + Sync> Meter for Shown<'_, C, E> {
    fn begin(&self, read: u64, size: Option<u64>) {
        self.read.set(read);
        self.size.set(size);
        self.is_running.store(true, Ordering::Relaxed);
    }

    fn end(&self) {
        if self.is_terminal && 0 < self.lines.get() {
            let mut err = self.err;
            let _ = writeln!(err);
        }
        self.lines.set(0);
        self.is_running.store(false, Ordering::Relaxed);
    }
}
