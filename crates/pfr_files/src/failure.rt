//! What the program says when something is wrong, in one line, and the statuses that it ends with.
use pfr_capture::CaptureError;
use pfr_feed::{Output, Stop};
use pfr_prepare::{Prepared, Refusal};
use pfr_terms::{ConfError, ConfErrorKind};
use pfr_values::CaptureWords;
use std::alloc::AllocError;
use std::{fmt, io};

/// All was done.
pub const DONE: u8 = 0;
/// The command line, the ruleset or the capture was refused.
pub const REFUSED: u8 = 1;
/// Two rulesets come to something else for a packet.
pub const CHANGED: u8 = 1;
/// All was done, and the capture ends inside a record.
pub const CUT: u8 = 2;
/// The command line, a ruleset or a capture was refused, where 1 says that something changes.
pub const TROUBLE: u8 = 2;
/// A device failed, or a file could not be opened or a peer be reached.
pub const DEVICE: u8 = 3;
/// Memory was refused.
pub const NO_MEMORY: u8 = 4;
/// Two rulesets come to something else for no packet, but not all packets were judged.
pub const UNJUDGED: u8 = 5;

/// Why the program did not do what was asked.
#[derive(Clone, Copy)]
pub struct Failure<'a> {
    /// The status that the program ends with.
    pub status: u8,
    /// What its line is about.
    pub place: Place<'a>,
    /// What is wrong there.
    pub reason: &'static str,
}

/// What the line of a failure is about, and how it is written.
#[derive(Clone, Copy)]
pub enum Place<'a> {
    /// It was said where it was met: no line is left to say.
    Said,
    /// `REASON`
    Whole,
    /// `REASON: NAME`, of a file.
    Name(&'a str),
    /// `REASON: NAME`, of a file or a peer for which the system gives this reason.
    Unopened(&'a str, io::Error),
    /// `THING NUMBER: REASON`, of a line of a file, or of a packet.
    Number(&'static str, u64),
    /// `packet NUMBER REASON`
    Packet(u64),
    /// `message NUMBER refused: CODE`
    Message(u64, u8),
    /// `REASON: NAME, committed COUNT`, with the name of an output, or without a name.
    Committed(Option<&'a str>, u64),
    /// The same of the capture at a place, with the name of its interface if the run has several.
    Unread(usize, Option<&'a str>, u64),
    /// `REASON, after COUNT messages`
    Messages(u64),
    /// `capture NAME: REFUSAL`, with the number of the packets committed if it is refused for a record. It has the name of its
    /// interface if the run has several.
    Capture(Option<&'a str>, CaptureError, u64),
    /// `--mac INTERFACE: capture of link type NUMBER`
    Link(&'a str, u16),
}

/// What a command counts, and says if memory is refused.
#[derive(Clone, Copy)]
pub enum Counted {
    /// The packets that it has committed.
    Packets,
    /// The messages that it has taken.
    Messages,
    Nothing,
}

/// Memory was refused, with nothing replayed.
impl From<AllocError> for Failure<'_> {
    fn from(_refused: AllocError) -> Self {
        Failure::memory_after(0)
    }
}

impl<'a> From<Refusal<'a>> for Failure<'a> {
    fn from(refusal: Refusal<'a>) -> Self {
        match refusal {
            Refusal::CannotOpen(name, reason) => {
                Failure::new(DEVICE, Place::Unopened(name, reason), "cannot open")
            }
            Refusal::Memory => Failure::rules_unread(),
        }
    }
}

impl<'a> Failure<'a> {
    pub fn new(status: u8, place: Place<'a>, reason: &'static str) -> Failure<'a> {
        Failure {
            status,
            place,
            reason,
        }
    }

    /// What is wrong was said where it was met.
    pub fn said(status: u8) -> Failure<'a> {
        Failure::new(status, Place::Said, "")
    }

    /// The output of this name is a capture, the ruleset or another output, or standard input is to be read twice.
    pub fn same_file(name: &'a str) -> Failure<'a> {
        Failure::new(REFUSED, Place::Name(name), "same file")
    }

    /// The failure for a file that can't be opened or created, or a peer that can't be reached.
    pub fn of_opening(name: &'a str, error: &io::Error) -> Failure<'a> {
        match error.kind() {
            io::ErrorKind::OutOfMemory => Failure::from(AllocError),
            _ => Failure::new(DEVICE, Place::Unopened(name, *error), "cannot open"),
        }
    }

    /// The file of this name was opened, and can't be read, or no further.
    pub fn of_reading(name: &'a str) -> Failure<'a> {
        Failure::new(DEVICE, Place::Name(name), "cannot read")
    }

    /// Standard output failed.
    pub fn of_printing() -> Failure<'a> {
        Failure::new(DEVICE, Place::Whole, "write failed: standard output")
    }

    /// Memory was refused to a command that counts nothing.
    pub fn no_memory() -> Failure<'a> {
        Failure::new(NO_MEMORY, Place::Whole, "no memory")
    }

    /// Memory was refused when a ruleset was read.
    fn rules_unread() -> Failure<'a> {
        Failure::new(NO_MEMORY, Place::Whole, "rules line 0: no memory")
    }

    /// The failure for the capture at a place that is refused, or can't be read, behind this many packets.
    pub fn of_capture(
        captures: &[CaptureWords<'a>],
        place: usize,
        refusal: CaptureError,
        committed: u64,
    ) -> Failure<'a> {
        let name = name_at(captures, place);
        match refusal {
            CaptureError::Read => {
                Failure::new(DEVICE, Place::Unread(place, name, committed), "read failed")
            }
            CaptureError::Memory => Failure::memory_after(committed),
            refusal => Failure::new(REFUSED, Place::Capture(name, refusal, committed), ""),
        }
    }

    /// Memory was refused behind this many packets.
    fn memory_after(committed: u64) -> Failure<'a> {
        Failure::new(NO_MEMORY, Place::Committed(None, committed), "no memory")
    }

    /// The failure for a run of these captures that was stopped. If it was for a fault of the ruleset, `err` is told.
    pub fn of_run<E: io::Write>(
        stop: &Stop,
        captures: &[CaptureWords<'a>],
        err: &mut E,
    ) -> Failure<'a> {
        match stop {
            Stop::Ruleset(fault) => rules_refused(None, fault.line, fault, err),
            Stop::Capture(place, refusal, committed) => {
                Failure::of_capture(captures, *place, *refusal, *committed)
            }
            Stop::Read(place, committed) => {
                Failure::of_capture(captures, *place, CaptureError::Read, *committed)
            }
            Stop::Write(output, committed) => {
                let place = Place::Committed(Some(output_name(*output)), *committed);
                Failure::new(DEVICE, place, "write failed")
            }
            Stop::Memory(committed) => Failure::memory_after(*committed),
        }
    }

    /// The same as a command says it that counts this.
    pub fn counting(self, counted: Counted) -> Failure<'a> {
        if self.status != NO_MEMORY {
            return self;
        }
        match (counted, self.place) {
            (Counted::Nothing, _) => Failure::no_memory(),
            (Counted::Messages, Place::Committed(_, _)) => {
                Failure::new(NO_MEMORY, Place::Messages(0), self.reason)
            }
            _ => self,
        }
    }
}

/// The name of the interface at a place, if there are several.
fn name_at<'a>(captures: &[CaptureWords<'a>], place: usize) -> Option<&'a str> {
    match captures.get(place) {
        Some(words) if captures.len() > 1 => Some(words.interface),
        _ => None,
    }
}

/// The word for an output.
fn output_name(output: Output) -> &'static str {
    match output {
        Output::Verdicts => "verdicts",
        Output::Packets(_) => "packets",
        Output::Counters => "counters",
        Output::States => "states",
        Output::Messages => "messages",
    }
}

/// Says the fault of a ruleset's text at the line of the ruleset's file, and answers what the program ends with. The file's name is said
/// too if the command reads several rulesets.
pub fn text_refused<'a, E: io::Write>(
    name: Option<&str>,
    text: &Prepared,
    fault: &ConfError,
    err: &mut E,
) -> Failure<'a> {
    rules_refused(name, text.line_of(fault.line), fault, err)
}

/// Says a fault of a ruleset at this line.
fn rules_refused<'a, E: io::Write>(
    name: Option<&str>,
    line: usize,
    fault: &ConfError,
    err: &mut E,
) -> Failure<'a> {
    let kind = &fault.kind;
    if let ConfErrorKind::Memory = kind {
        return Failure::rules_unread();
    }
    // If this can't be written, the status alone says it.
    let _ = match name {
        Some(name) => writeln!(err, "pfreplay: rules {name} line {line}: {kind}"),
        None => writeln!(err, "pfreplay: rules line {line}: {kind}"),
    };
    Failure::said(REFUSED)
}

/// Says in one line what is wrong, unless that was said, and answers the status to end with.
pub fn report<E: io::Write>(failure: Failure<'_>, err: &mut E) -> u8 {
    match failure.place {
        Place::Said => {}
        _ => {
            // If this can't be written either, the status alone says it.
            let _ = writeln!(err, "pfreplay: {failure}");
        }
    }
    failure.status
}

impl fmt::Display for Failure<'_> {
    fn fmt<W: fmt::Write>(&self, f: &mut fmt::Formatter<W>) -> fmt::Result {
        let reason = self.reason;
        match self.place {
            Place::Said => Ok(()),
            Place::Whole => write!(f, "{reason}"),
            Place::Name(name) | Place::Unopened(name, _) => write!(f, "{reason}: {name}"),
            Place::Number(thing, number) => write!(f, "{thing} {number}: {reason}"),
            Place::Packet(number) => write!(f, "packet {number} {reason}"),
            Place::Message(number, code) => write!(f, "message {number} refused: {code}"),
            Place::Committed(name, count) | Place::Unread(_, name, count) => {
                write_committed(reason, name, count, f)
            }
            Place::Messages(count) => write!(f, "{reason}, after {count} messages"),
            Place::Capture(name, refusal, count) => write_refusal(name, refusal, count, f),
            Place::Link(name, link) => write!(f, "--mac {name}: capture of link type {link}"),
        }
    }
}

/// Writes what is wrong, maybe with a name, and the number of the packets committed.
fn write_committed<W: fmt::Write>(
    reason: &str,
    name: Option<&str>,
    count: u64,
    f: &mut fmt::Formatter<W>,
) -> fmt::Result {
    match name {
        Some(name) => write!(f, "{reason}: {name}, committed {count}"),
        None => write!(f, "{reason}, committed {count}"),
    }
}

/// Writes why a capture is refused, with the number of the packets committed if it is refused for a record.
fn write_refusal<W: fmt::Write>(
    name: Option<&str>,
    refusal: CaptureError,
    count: u64,
    f: &mut fmt::Formatter<W>,
) -> fmt::Result {
    match name {
        Some(name) => write!(f, "capture {name}: {refusal}")?,
        None => write!(f, "capture: {refusal}")?,
    }
    match refusal {
        CaptureError::RecordTooLong(_) => write!(f, ", committed {count}"),
        _ => Ok(()),
    }
}
