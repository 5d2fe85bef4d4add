//! Packets of captures, taken one by one with their lines of verdicts.
ghost use Rattle.std.specs.Prelude.{◌≡◌, ◌≤◌, ◌<◌, ◌-◌, ◌^◌, IfNone, IfOk, length};
ghost use Rattle.pfr_merge.specs.MergeReading.{HasPassedOn, NoneRefused};

use crate::joining::{Met, Misfit, Run, join};
use pfr_capture::{CaptureError, Form, Record, Source, Tail};
use pfr_feed::{Sources, give_back, viewed};
use pfr_headers::View;
use pfr_merge::Merge;
use pfr_packet::Outcome;
use pfr_track::Clock;
use std::alloc::{AllocError, Global};
use std::io;
use std::io::{BufRead, Read};

/// How many packets are read at a time.
const BATCH: usize = 256;

/// How many bytes a line of verdicts may have, with its newline: more than a run writes.
const MOST_OF_LINE: u64 = 256;

/// Why packets aren't taken any further.
#[derive(Clone, Copy)]
pub enum Stopped {
    /// The capture at a place is refused, or can't be read, behind this many packets.
    Reading(usize, CaptureError, u64),
    /// The lines can't be read.
    Lines(io::Error),
    /// No line is joined with the packet of this number.
    Misfit(u64, Misfit),
    /// What takes the output failed.
    Printing,
    /// Memory was refused.
    Memory,
}

impl From<AllocError> for Stopped {
    fn from(_refused: AllocError) -> Self {
        Stopped::Memory
    }
}

impl From<io::Error> for Stopped {
    fn from(error: io::Error) -> Self {
        match error.kind() {
            io::ErrorKind::OutOfMemory => Stopped::Memory,
            _ => Stopped::Lines(error),
        }
    }
}

/// Takes the packets of captures one by one, each with what it came to by its line.
pub trait Taker {
    /// Packets of captures with these headers follow, by the places of the captures.
    fn begin(&mut self, forms: Vec<Form>) -> Result<(), Stopped>;

    /// Takes the next packet.
    fn take(&mut self, met: Met<'_>, outcome: &Outcome) -> Result<(), Stopped>;

    /// Some packets were taken. More may follow, unless one isn't joined.
    fn rest(&mut self) -> Result<(), Stopped>;
}

/// The packets that were taken: all of the captures.
#[derive(Clone, Copy)]
pub struct Walked {
    /// How many there are.
    pub packets: u64,
    /// How the captures end: cut if one of them is.
    pub tail: Tail,
}

/// How far reading has come.
#[derive(Clone, Copy)]
struct Turn {
    /// How many packets were taken.
    taken: u64,
    /// How the captures end, if they have ended.
    tail: Option<Tail>,
}

/// What joins packets with lines.
#[derive(Drop)]
struct Joiner<'a> {
    run: Run<'a>,
    clock: Clock,
    /// Room for a line of verdicts.
    line: Vec<u8>,
    /// Room for what a run writes.
    room: Vec<u8>,
}

/// Reads the next line without its newline, and answers whether there is one.
fn read_line<L: BufRead>(lines: &mut L, line: &mut Vec<u8>) -> io::Result<bool> {
    line.clear();
    lines.by_ref().take(MOST_OF_LINE).read_until(b'\n', line)?;
    Ok(line.pop() == Some(b'\n'))
}

/// Whether there is one line more.
fn has_line<L: BufRead>(lines: &mut L) -> io::Result<bool> {
    Ok(!lines.fill_buf()?.is_empty())
}

impl Joiner<'_> {
    /// Reads the line of the packet with this number, joins the two, and hands the packet on.
    fn take_one<L: BufRead, T: Taker>(
        &mut self,
        alloc: Global,
        number: u64,
        packet: &Record,
        view: &View,
        lines: &mut L,
        taker: &mut T,
    ) -> Result<(), Stopped> {
        if !read_line(lines, &mut self.line)? {
            return Err(Stopped::Misfit(number, Misfit::NoLine));
        }
        self.clock = Clock(self.clock.0.max(packet.seconds));
        let met = Met {
            number,
            clock: self.clock,
            packet,
            view,
        };
        match join(alloc, self.run, met, self.line.as_slice(), &mut self.room) {
            Ok(outcome) => taker.take(met, &outcome),
            Err(Misfit::Memory) => Err(Stopped::Memory),
            Err(misfit) => Err(Stopped::Misfit(number, misfit)),
        }
    }

    /// Joins packets with the next lines, and hands them on. They come behind `taken` others.
    fn take_each<L: BufRead, T: Taker>(
        &mut self,
        alloc: Global,
        taken: u64,
        packets: &[(Record, View)],
        lines: &mut L,
        taker: &mut T,
    ) -> Result<(), Stopped> {
        let mut number = taken;
        for (packet, view) in packets {
            number = number.saturating_add(1);
            self.take_one(alloc, number, packet, view, lines, taker)?;
        }
        Ok(())
    }

    /// The same, and then the taker rests, even if a packet isn't joined with a line.
    fn take<L: BufRead, T: Taker>(
        &mut self,
        alloc: Global,
        taken: u64,
        packets: &[(Record, View)],
        lines: &mut L,
        taker: &mut T,
    ) -> Result<(), Stopped> {
        let end = self.take_each(alloc, taken, packets, lines, taker);
        taker.rest()?;
        end
    }
}

/// What the headers of captures say, by their places.
fn forms_of(alloc: Global, merge: &Merge) -> Result<Vec<Form>, AllocError> {
    let headers = merge.headers(alloc)?;
    let mut forms = Vec::new(alloc);
    for place in 0..headers.len() {
        forms.push(merge.capture(place).form())?;
    }
    Ok(forms)
}

/// Takes the packets of records, behind `taken` others, and gives the records back.
fn take_records<L: BufRead, T: Taker>(
    alloc: Global,
    merge: &mut Merge,
    joiner: &mut Joiner<'_>,
    taken: u64,
    records: Vec<Record>,
    lines: &mut L,
    taker: &mut T,
) -> Result<(), Stopped>
    ensures { merge.new ≡ merge.old }
{
    let packets = viewed(alloc, records)?;
    joiner.take(alloc, taken, packets.as_slice(), lines, taker)?;
    give_back(merge, packets);
    Ok(())
}

/// Reads the next packets of captures, behind `taken` others, and takes them.
fn take_turn<R: Source, L: BufRead, T: Taker>(
    alloc: Global,
    merge: &mut Merge,
    sources: &mut Sources<R>,
    joiner: &mut Joiner<'_>,
    taken: u64,
    lines: &mut L,
    taker: &mut T,
) -> Result<Turn, Stopped>
    requires reading { NoneRefused merge.old }
    requires captures { (length sources.old ≡ length merge.old) × (length merge.old ≤ 8) }
    requires passed { HasPassedOn taken merge.old }
    ensures reading { IfOk result (λ turn. IfNone turn.tail (NoneRefused merge.new)) }
    ensures captures { (length sources.new ≡ length merge.new) × (length merge.new ≤ 8) }
    ensures passed { IfOk result (λ turn. HasPassedOn turn.taken merge.new) }
    ensures nearer { IfOk result (λ turn. IfNone turn.tail (2 ^ 43 - turn.taken < 2 ^ 43 - taken)) }
{
    let mut records = Vec::new(alloc);
    let end = sources.read_batch(merge, BATCH, &mut records);
    let read = taken + records.len() as u64;
    take_records(alloc, merge, joiner, taken, records, lines, taker)?;
    match end {
        None => Ok(Turn {
            taken: read,
            tail: None,
        }),
        Some(Ok(tail)) => Ok(Turn {
            taken: read,
            tail: Some(tail),
        }),
        Some(Err(refusal)) => Err(Stopped::Reading(refusal.0, refusal.1, read)),
    }
}

/// Reads captures of which no record was given to their end, and takes their packets.
fn take_all<R: Source, L: BufRead, T: Taker>(
    alloc: Global,
    mut merge: Merge,
    sources: &mut Sources<R>,
    joiner: &mut Joiner<'_>,
    lines: &mut L,
    taker: &mut T,
) -> Result<Walked, Stopped>
    requires reading { NoneRefused merge }
    requires captures { (length sources.old ≡ length merge) × (length merge ≤ 8) }
    requires passed { HasPassedOn 0 merge }
{
    let mut taken = 0;
    'turns: loop {
        let turn = take_turn(alloc, &mut merge, sources, joiner, taken, lines, taker)?;
        taken = turn.taken;
        if let Some(tail) = turn.tail {
            return Ok(Walked {
                packets: taken,
                tail,
            });
        }
    }
}

/// Takes the packets of captures of which no record was given. No line may be left.
fn walk_all<R: Source, L: BufRead, T: Taker>(
    alloc: Global,
    merge: Merge,
    sources: &mut Sources<R>,
    joiner: &mut Joiner<'_>,
    lines: &mut L,
    taker: &mut T,
) -> Result<Walked, Stopped>
    requires reading { NoneRefused merge }
    requires captures { (length sources.old ≡ length merge) × (length merge ≤ 8) }
    requires passed { HasPassedOn 0 merge }
{
    taker.begin(forms_of(alloc, &merge)?)?;
    let walked = take_all(alloc, merge, sources, joiner, lines, taker)?;
    taker.rest()?;
    if has_line(lines)? {
        let behind = walked.packets.saturating_add(1);
        return Err(Stopped::Misfit(behind, Misfit::OtherCapture));
    }
    Ok(walked)
}

/// Joins the packets of captures with the lines of verdicts that a run wrote of them, and hands them on, one by one.
pub fn walk<R: Source, L: BufRead, T: Taker>(
    alloc: Global,
    sources: &mut Sources<R>,
    lines: &mut L,
    run: Run<'_>,
    taker: &mut T,
) -> Result<Walked, Stopped>
    requires { length sources.old ≤ 8 }
{
    let mut joiner = Joiner {
        run,
        clock: Clock(0),
        line: Vec::new(alloc),
        room: Vec::new(alloc),
    };
    match sources.open(alloc) {
        Ok(merge) => walk_all(alloc, merge, sources, &mut joiner, lines, taker),
        Err(refusal) => Err(Stopped::Reading(refusal.0, refusal.1, 0)),
    }
}
