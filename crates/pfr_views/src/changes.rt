//! What `pfreplay diff` does.
ghost use Rattle.std.specs.Prelude.{◌≡◌, ◌≤◌, length};

use crate::rules::rules_of;
use pfr_capture::Source;
use pfr_command::DiffWords;
use pfr_diff::{BothTold, Compared, Side, Stopped, Told, compare};
use pfr_feed::Sources;
use pfr_files::{
    CHANGED, DONE, Failure, Place, REFUSED, STANDARD, UNJUDGED, begin_progress, job_by, names_of,
    print, print_piece, repeats_input, sources,
};
use pfr_headers::Tap;
use pfr_notices::{Meter, Two, Wanted, Watch};
use pfr_packet::Job;
use pfr_prepare::{Prepared, Request, prepared_text};
use pfr_wording::{Rules, RulesTold};
use std::alloc::{AllocGlobal, Global};
use std::io::{Read, Write};
use std::rt::Files;

/// What a run with a ruleset begins with, and its rules.
#[derive(Drop)]
struct Ruled {
    side: Side,
    rules: Rules,
    ghost none: { side.book.count ≡ 0 },
}

/// Runs with two rulesets, neither of which has taken a packet.
#[derive(Drop)]
struct Sides {
    before: Side,
    after: Side,
    ghost none_before: { before.book.count ≡ 0 },
    ghost none_after: { after.book.count ≡ 0 },
}

/// Says for which packets of captures another ruleset comes to something else, and answers the status.
pub fn tell_changes<'a, R: Files + AllocGlobal, I: Read + Drop, O: Write, E: Write, M: Meter>(
    rt: &R,
    asked: &DiffWords<'a>,
    input: I,
    out: &mut O,
    err: &mut E,
    meter: &M,
) -> Result<u8, Failure<'a>> {
    if repeats_input(asked.captures.as_slice()) {
        return Err(Failure::same_file(STANDARD));
    }
    let old = with_ruleset(rt, asked, &asked.old, err)?;
    match with_ruleset(rt, asked, &asked.new, err) {
        Ok(new) => compare_ruled(rt, asked, old, new, input, out, err, meter),
        Err(failure) => {
            drop(old);
            Err(failure)
        }
    }
}

/// Has two runs take the packets of captures, and prints what changes.
fn compare_ruled<'a, R: Files + AllocGlobal, I: Read + Drop, O: Write, E: Write, M: Meter>(
    rt: &R,
    asked: &DiffWords<'a>,
    old: Ruled,
    new: Ruled,
    input: I,
    out: &mut O,
    err: &mut E,
    meter: &M,
) -> Result<u8, Failure<'a>> {
    let Ruled {
        side: before,
        rules: old,
        ..
    } = old;
    let Ruled {
        side: after,
        rules: new,
        ..
    } = new;
    let sides = Sides { before, after };
    let ended = compare_rules(rt, asked, sides, &old, &new, input, out, err, meter);
    drop(new);
    drop(old);
    ended
}

/// A run with a ruleset. What is said of the ruleset's file goes to `err`.
fn with_ruleset<'a, R: Files + AllocGlobal, E: Write>(
    rt: &R,
    asked: &DiffWords<'a>,
    request: &Request<'a>,
    err: &mut E,
) -> Result<Ruled, Failure<'a>> {
    let text = prepared_text(rt, request, err)?;
    let name = Some(request.name);
    let job = job_by(
        rt.alloc(),
        request,
        &text,
        &asked.ways,
        asked.seed,
        name,
        err,
    )?;
    ruled_by(rt.alloc(), &text, job)
}

/// A run with a job, whose ruleset this text means.
fn ruled_by<'a>(alloc: Global, text: &Prepared, job: Job) -> Result<Ruled, Failure<'a>> {
    match rules_of(alloc, text, job.rules()) {
        Ok(rules) => with_rules(alloc, job, rules),
        Err(failure) => {
            drop(job);
            Err(failure)
        }
    }
}

/// A run with a job, and its rules.
fn with_rules<'a>(alloc: Global, job: Job, rules: Rules) -> Result<Ruled, Failure<'a>> {
    match Side::new(alloc, job) {
        Ok(side) => Ok(Ruled { side, rules }),
        Err(refused) => {
            drop(rules);
            Err(Failure::from(refused))
        }
    }
}

/// Has two runs with these rules take the packets of captures, and prints what changes.
fn compare_rules<'a, R: Files + AllocGlobal, I: Read + Drop, O: Write, E: Write, M: Meter>(
    rt: &R,
    asked: &DiffWords<'a>,
    sides: Sides,
    old: &Rules,
    new: &Rules,
    input: I,
    out: &mut O,
    err: &mut E,
    meter: &M,
) -> Result<u8, Failure<'a>> {
    match old.told(rt.alloc()) {
        Ok(old) => {
            let ended = compare_told(rt, asked, sides, &old, new, input, out, err, meter);
            drop(old);
            ended
        }
        Err(refused) => {
            drop(sides);
            Err(Failure::from(refused))
        }
    }
}

/// Has two runs take the packets of captures, and prints what changes. The old rules are told already.
fn compare_told<'a, R: Files + AllocGlobal, I: Read + Drop, O: Write, E: Write, M: Meter>(
    rt: &R,
    asked: &DiffWords<'a>,
    sides: Sides,
    old: &RulesTold<'_>,
    new: &Rules,
    input: I,
    out: &mut O,
    err: &mut E,
    meter: &M,
) -> Result<u8, Failure<'a>> {
    match new.told(rt.alloc()) {
        Ok(new) => {
            let told = BothTold { old, new: &new };
            let ended = compare_captures(rt, asked, sides, told, input, out, err, meter);
            drop(new);
            ended
        }
        Err(refused) => {
            drop(sides);
            Err(Failure::from(refused))
        }
    }
}

/// Opens the captures, has two runs take their packets, and prints what changes.
fn compare_captures<'a, R: Files + AllocGlobal, I: Read + Drop, O: Write, E: Write, M: Meter>(
    rt: &R,
    asked: &DiffWords<'a>,
    sides: Sides,
    told: BothTold<'_>,
    input: I,
    out: &mut O,
    err: &mut E,
    meter: &M,
) -> Result<u8, Failure<'a>> {
    let captures = asked.captures.as_slice();
    let addresses = asked.ways.link_addresses.as_slice();
    begin_progress(rt, asked.progresses, captures, meter);
    match sources(rt, captures, addresses, input) {
        Ok(mut sources) => {
            let ended = compare_sources(
                rt.alloc(),
                asked,
                sides,
                told,
                &mut sources,
                out,
                err,
                meter,
            );
            drop(sources);
            ended
        }
        Err(failure) => {
            drop(sides);
            Err(failure)
        }
    }
}

/// Has two runs take the packets of sources, and prints what changes, and what there is to warn of.
fn compare_sources<'a, S: Source, O: Write, E: Write, M: Meter>(
    alloc: Global,
    asked: &DiffWords<'a>,
    sides: Sides,
    told: BothTold<'_>,
    sources: &mut Sources<S>,
    out: &mut O,
    err: &mut E,
    meter: &M,
) -> Result<u8, Failure<'a>>
    requires { length sources.old ≤ 8 }
{
    let wanted = if asked.warns {
        Wanted::Beside
    } else {
        Wanted::Nothing
    };
    let rules = sides.after.book.job().rules();
    match Watch::new(alloc, rules, wanted, shows_wire(asked)) {
        Ok(watch) => {
            let ended = compare_watched(
                alloc, asked, sides, told, sources, out, err, meter, &watch,
            );
            drop(watch);
            ended
        }
        Err(refused) => {
            drop(sides);
            Err(Failure::from(refused))
        }
    }
}

/// Whether the captures show packets as they are on the wire.
fn shows_wire(asked: &DiffWords<'_>) -> bool {
    matches!(asked.ways.tap, Tap::Wire)
}

/// Has two runs take the packets of sources, of which the new one is watched, and prints what changes.
fn compare_watched<'a, S: Source, O: Write, E: Write, M: Meter>(
    alloc: Global,
    asked: &DiffWords<'a>,
    sides: Sides,
    told: BothTold<'_>,
    sources: &mut Sources<S>,
    out: &mut O,
    err: &mut E,
    meter: &M,
    watch: &Watch,
) -> Result<u8, Failure<'a>>
    requires { length sources.old ≤ 8 }
{
    let gate = Two {
        first: watch,
        second: meter,
    };
    let found = compare(
        alloc,
        sources,
        sides.before,
        sides.after,
        told,
        asked.verdicts_alone,
        shows_wire(asked),
        &gate,
    );
    meter.end();
    match found {
        Ok(compared) => {
            watch.warn(compared.packets, err);
            print_changes(alloc, asked, &compared, out)
        }
        Err(stopped) => Err(failure_of(stopped, asked)),
    }
}

/// What is said if it isn't known what changes.
fn failure_of<'a>(stopped: Stopped, asked: &DiffWords<'a>) -> Failure<'a> {
    match stopped {
        Stopped::Reading(place, refusal, read) => {
            Failure::of_capture(asked.captures.as_slice(), place, refusal, read)
        }
        Stopped::Untold(number) => Failure::new(
            REFUSED,
            Place::Packet(number),
            "not told: please report this",
        ),
        Stopped::Memory => Failure::no_memory(),
    }
}

/// Prints what changes, a piece of its lines at a time.
fn print_changes<'a, O: Write>(
    alloc: Global,
    asked: &DiffWords<'a>,
    compared: &Compared<'_>,
    out: &mut O,
) -> Result<u8, Failure<'a>> {
    let names = names_of(alloc, asked.captures.as_slice())?;
    let told = compared.told(alloc)?;
    print_told(alloc, asked.as_json, names.as_slice(), compared, &told, out)?;
    if !compared.changes.is_empty() {
        Ok(CHANGED)
    } else if compared.is_unjudged() {
        Ok(UNJUDGED)
    } else {
        Ok(DONE)
    }
}

/// Prints each packet that is a cause, and behind them the sums. Packets are of interfaces with these names.
fn print_told<'a, O: Write>(
    alloc: Global,
    as_json: bool,
    names: &[&str],
    compared: &Compared<'_>,
    told: &Told<'_>,
    out: &mut O,
) -> Result<u8, Failure<'a>> {
    let mut text = Vec::new(alloc);
    for place in 0..told.len() {
        told.append_cause(as_json, names, place, &mut text)?;
        print_piece(out, &mut text)?;
    }
    told.append_sums(as_json, &mut text)?;
    compared.append_end(alloc, as_json, &mut text)?;
    print(out, text.as_slice())
}
