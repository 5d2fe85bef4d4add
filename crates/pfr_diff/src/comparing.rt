//! Two runs over one pass of captures.
ghost use Rattle.std.specs.Prelude.{◌≡◌, ◌≤◌, ◌<◌, ◌+◌, ◌-◌, ◌^◌, length, IfNone, IfOk, OnOk};
ghost use Rattle.std.specs.List.{All};
ghost use Rattle.pfr_headers.specs.View.{view_of};
ghost use Rattle.pfr_merge.specs.MergeReading.{HasPassedOn, NoneRefused};

use crate::changes::Changes;
use crate::decision::Meaning;
use crate::side::Side;
use crate::unjudged::Unjudged;
use crate::witness::Witness;
use pfr_asked::{Told, Untried};
use pfr_capture::{CaptureError, Record, Source, Tail};
use pfr_commit::{Gate, Unwatched};
use pfr_feed::{Sources, give_back, viewed};
use pfr_headers::View;
use pfr_listing::{first_line, judged_in};
use pfr_merge::Merge;
use pfr_packet::Outcome;
use pfr_wording::RulesTold;
use std::alloc::{AllocError, Global};

/// How many packets are taken at a time.
const BATCH: usize = 256;

/// What another ruleset changes for the packets of captures.
#[derive(Drop)]
pub struct Compared<'a> {
    pub changes: Changes<'a>,
    /// The packets that aren't judged, or not as the firewall would judge them.
    pub(crate) unjudged: Unjudged,
    /// What differs between the rulesets, and no packet could have asked, or none met.
    pub(crate) untried: Untried,
    /// How many packets the captures have.
    pub packets: u64,
    /// How the captures end: cut if one of them is.
    pub tail: Tail,
}

/// Why runs aren't compared.
#[derive(Clone, Copy)]
pub enum Stopped {
    /// The capture at a place is refused, or can't be read, behind this many packets.
    Reading(usize, CaptureError, u64),
    /// Memory was refused.
    Memory,
    /// What a run writes of the packet with this number isn't read.
    Untold(u64),
}

impl From<AllocError> for Stopped {
    fn from(_refused: AllocError) -> Self {
        Stopped::Memory
    }
}

/// How the rules of both rulesets are told.
#[derive(Clone, Copy)]
pub struct BothTold<'a> {
    pub old: &'a RulesTold<'a>,
    pub new: &'a RulesTold<'a>,
}

/// Two runs, and what was found so far.
#[derive(Drop)]
struct Both<'a> {
    before: Side,
    after: Side,
    told: BothTold<'a>,
    changes: Changes<'a>,
    witness: Witness,
    /// Room for a line.
    room: Vec<u8>,
}

/// What the packet with this number came to by a run's line.
fn outcome_at(
    alloc: Global,
    line: &[u8],
    number: u64,
    room: &mut Vec<u8>,
) -> Result<Outcome, Stopped> {
    match judged_in(alloc, line, room)? {
        Some(judged) => Ok(judged.outcome),
        None => Err(Stopped::Untold(number)),
    }
}

/// The next of a run's lines, without its newline.
fn next_line<'a>(lines: &mut &'a [u8], number: u64) -> Result<&'a [u8], Stopped> {
    match first_line(lines) {
        Some((line, behind)) => {
            *lines = behind;
            Ok(line)
        }
        None => Err(Stopped::Untold(number)),
    }
}

/// Compares what both runs came to for a packet.
fn compare_outcomes<'a>(
    told: BothTold<'a>,
    changes: &mut Changes<'a>,
    witness: &mut Witness,
    number: u64,
    packet: &Record,
    view: &View,
    old: &Outcome,
    new: &Outcome,
) -> Result<(), AllocError> {
    witness.add(packet, view, old, new);
    let old_meaning = Meaning::of(told.old, old);
    let new_meaning = Meaning::of(told.new, new);
    changes.add(number, packet, view, &old_meaning, &new_meaning)
}

/// Compares what both runs wrote of a packet.
fn compare_lines<'a>(
    alloc: Global,
    told: BothTold<'a>,
    changes: &mut Changes<'a>,
    witness: &mut Witness,
    room: &mut Vec<u8>,
    number: u64,
    packet: &Record,
    view: &View,
    old_line: &[u8],
    new_line: &[u8],
) -> Result<(), Stopped> {
    let old = outcome_at(alloc, old_line, number, room)?;
    match outcome_at(alloc, new_line, number, room) {
        Ok(new) => {
            let added = compare_outcomes(told, changes, witness, number, packet, view, &old, &new);
            drop(new);
            drop(old);
            match added {
                Ok(()) => Ok(()),
                Err(refused) => Err(Stopped::from(refused)),
            }
        }
        Err(stopped) => {
            drop(old);
            Err(stopped)
        }
    }
}

/// Compares what both runs wrote of `packets`, which they took last, behind `taken` others.
fn gather<'a>(
    alloc: Global,
    before: &Side,
    after: &Side,
    told: BothTold<'a>,
    changes: &mut Changes<'a>,
    witness: &mut Witness,
    room: &mut Vec<u8>,
    taken: u64,
    packets: &[(Record, View)],
) -> Result<(), Stopped> {
    let mut old_lines = before.lines();
    let mut new_lines = after.lines();
    let mut number = taken;
    for (packet, view) in packets {
        number = number.saturating_add(1);
        let old_line = next_line(&mut old_lines, number)?;
        let new_line = next_line(&mut new_lines, number)?;
        compare_lines(
            alloc, told, changes, witness, room, number, packet, view, old_line, new_line,
        )?;
    }
    Ok(())
}

impl<'a> Both<'a> {
    /// Has both runs take packets, and compares what they write of them. A gate is told what they come to in the new
    /// run.
    fn take<G: Gate>(
        &mut self,
        alloc: Global,
        packets: &[(Record, View)],
        gate: &G,
    ) -> Result<(), Stopped>
        requires views { All (λ packet. packet.1 ≡ view_of packet.0.link packet.0.bytes.items) packets.now }
        requires few_before { self.old.before.book.count + length packets.now ≤ 2 ^ 43 }
        requires few_after { self.old.after.book.count + length packets.now ≤ 2 ^ 43 }
        ensures before { OnOk result (self.new.before.book.count ≡ self.old.before.book.count + length packets.now) }
        ensures after { OnOk result (self.new.after.book.count ≡ self.old.after.book.count + length packets.now) }
    {
        let taken = self.before.committed();
        self.before.take(packets, &Unwatched)?;
        self.after.take(packets, gate)?;
        gather(
            alloc,
            &self.before,
            &self.after,
            self.told,
            &mut self.changes,
            &mut self.witness,
            &mut self.room,
            taken,
            packets,
        )
    }
}

/// Has both runs take the packets of records, and gives the records back.
fn take_records<G: Gate>(
    alloc: Global,
    merge: &mut Merge,
    both: &mut Both<'_>,
    records: Vec<Record>,
    gate: &G,
) -> Result<(), Stopped>
    requires few { both.old.before.book.count + length records.items ≤ 2 ^ 43 }
    requires same { both.old.after.book.count ≡ both.old.before.book.count }
    ensures merge { merge.new ≡ merge.old }
    ensures before { OnOk result (both.new.before.book.count ≡ both.old.before.book.count + length records.items) }
    ensures same { OnOk result (both.new.after.book.count ≡ both.new.before.book.count) }
{
    let packets = viewed(alloc, records)?;
    both.take(alloc, packets.as_slice(), gate)?;
    give_back(merge, packets);
    Ok(())
}

/// Reads the next packets of captures, and has both runs take them. If the reading ends with them, it answers how the
/// captures end.
fn take_turn<R: Source, G: Gate>(
    alloc: Global,
    merge: &mut Merge,
    sources: &mut Sources<R>,
    both: &mut Both<'_>,
    gate: &G,
) -> Result<Option<Tail>, Stopped>
    requires reading { NoneRefused merge.old }
    requires captures { (length sources.old ≡ length merge.old) × (length merge.old ≤ 8) }
    requires passed { HasPassedOn both.old.before.book.count merge.old }
    requires same { both.old.after.book.count ≡ both.old.before.book.count }
    ensures reading { IfOk result (λ tail. IfNone tail (NoneRefused merge.new)) }
    ensures captures { (length sources.new ≡ length merge.new) × (length merge.new ≤ 8) }
    ensures passed { OnOk result (HasPassedOn both.new.before.book.count merge.new) }
    ensures same { OnOk result (both.new.after.book.count ≡ both.new.before.book.count) }
    ensures nearer { IfOk result (λ tail. IfNone tail (2 ^ 43 - both.new.before.book.count < 2 ^ 43 - both.old.before.book.count)) }
{
    let taken = both.before.committed();
    let mut records = Vec::new(alloc);
    let end = sources.read_batch(merge, BATCH, &mut records);
    match end {
        None => {
            take_records(alloc, merge, both, records, gate)?;
            Ok(None)
        }
        Some(Ok(tail)) => {
            take_records(alloc, merge, both, records, gate)?;
            Ok(Some(tail))
        }
        Some(Err(refusal)) => {
            let read = taken.saturating_add(records.len() as u64);
            Err(Stopped::Reading(refusal.0, refusal.1, read))
        }
    }
}

/// Reads captures of which no record was given to their end, and has both runs take their packets.
fn take_all<R: Source, G: Gate>(
    alloc: Global,
    mut merge: Merge,
    sources: &mut Sources<R>,
    both: &mut Both<'_>,
    gate: &G,
) -> Result<Tail, Stopped>
    requires reading { NoneRefused merge }
    requires captures { (length sources.old ≡ length merge) × (length merge ≤ 8) }
    requires passed { HasPassedOn both.old.before.book.count merge }
    requires same { both.old.after.book.count ≡ both.old.before.book.count }
{
    'turns: loop {
        if let Some(tail) = take_turn(alloc, &mut merge, sources, both, gate)? {
            return Ok(tail);
        }
    }
}

/// What was found, if all packets were taken.
fn concluded<'a>(
    alloc: Global,
    both: Both<'a>,
    end: Result<Tail, Stopped>,
) -> Result<Compared<'a>, Stopped> {
    let Both {
        before,
        after,
        told,
        changes,
        witness,
        ..
    } = both;
    match end {
        Ok(tail) => {
            let packets = before.committed();
            let untried = untried_of(alloc, &before, &after, told, &witness);
            drop(before);
            drop(after);
            let unjudged = witness.unjudged;
            drop(witness);
            match untried {
                Ok(untried) => Ok(Compared {
                    changes,
                    unjudged,
                    untried,
                    packets,
                    tail,
                }),
                Err(refused) => {
                    drop(changes);
                    Err(Stopped::from(refused))
                }
            }
        }
        Err(stopped) => Err(stopped),
    }
}

/// What differs between the rulesets of two runs, and no packet could have asked, or none met.
fn untried_of<'a>(
    alloc: Global,
    before: &Side,
    after: &Side,
    told: BothTold<'a>,
    witness: &Witness,
) -> Result<Untried, AllocError> {
    let old = Told {
        rules: before.book.job().rules(),
        told: told.old,
    };
    let new = Told {
        rules: after.book.job().rules(),
        told: told.new,
    };
    Untried::of(alloc, old, new, &witness.old, &witness.new)
}

/// Has two runs that have taken no packet take the packets of captures, and gathers the packets for which they write
/// something else. With `verdicts_alone` it gathers only those with another verdict. If the captures show the wire,
/// packets that go out are shown behind their translation. A gate is told what the packets come to in the new run.
pub fn compare<'a, R: Source, G: Gate>(
    alloc: Global,
    sources: &mut Sources<R>,
    old: Side,
    new: Side,
    told: BothTold<'a>,
    verdicts_alone: bool,
    shows_wire: bool,
    gate: &G,
) -> Result<Compared<'a>, Stopped>
    requires captures { length sources.old ≤ 8 }
    requires old { old.book.count ≡ 0 }
    requires new { new.book.count ≡ 0 }
{
    match Witness::of(
        alloc,
        old.book.job().rules(),
        new.book.job().rules(),
        shows_wire,
    ) {
        Ok(witness) => {
            let mut both = Both {
                before: old,
                after: new,
                told,
                changes: Changes::new(alloc, verdicts_alone),
                witness,
                room: Vec::new(alloc),
            };
            let end = match sources.open(alloc) {
                Ok(merge) => take_all(alloc, merge, sources, &mut both, gate),
                Err(refusal) => Err(Stopped::Reading(refusal.0, refusal.1, 0)),
            };
            concluded(alloc, both, end)
        }
        Err(refused) => {
            drop(old);
            drop(new);
            Err(Stopped::from(refused))
        }
    }
}
