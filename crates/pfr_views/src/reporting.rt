//! What `pfreplay report` does.
use crate::joined::{failure_of, take_joined, takes_input, takes_input_twice};
use crate::rules::{Told, told_in};
use crate::states::states_refused;
use pfr_capture::WriterSink;
use pfr_command::ReportWords;
use pfr_commit::Gate;
use pfr_files::{DONE, Failure, STANDARD, begin_progress, is_standard, opened, text_of};
use pfr_items::Items;
use pfr_listing::listed;
use pfr_notices::{Hearer, Meter, Two, Wanted, Warning, Watch};
use pfr_prepare::{held_text, prepared_from};
use pfr_report::{Ages, Captured, Counted, Subject, Tally, ages_of, print};
use pfr_ruleset::Ruleset;
use pfr_shadows::Shadow;
use pfr_show::Walked;
use pfr_track::Clock;
use pfr_values::CaptureWords;
use pfr_wording::RulesTold;
use std::alloc::{AllocError, AllocGlobal, Global};
use std::fmt::Write as _;
use std::io::{Read, Write, empty};
use std::rt::Files;

/// The ruleset that a page is about.
#[derive(Clone, Copy)]
struct About<'r> {
    /// What its file holds.
    words: &'r [u8],
    ruleset: &'r Ruleset,
    rules: &'r RulesTold<'r>,
    /// The rules that are shadowed.
    shadows: &'r [Shadow],
}

/// Whether more than one of the files is standard input.
fn repeats_standard(asked: &ReportWords<'_>) -> bool {
    match asked.states {
        Some(name) if is_standard(name) => takes_input(&asked.joined),
        _ => takes_input_twice(&asked.joined),
    }
}

/// Prints a page about packets with what a run wrote of them, and answers the status.
pub fn report_on<'a, R: Files + AllocGlobal, I: Read + Drop, O: Write, E: Write, M: Meter>(
    rt: &R,
    asked: &ReportWords<'a>,
    input: I,
    out: &mut O,
    err: &mut E,
    meter: &M,
) -> Result<u8, Failure<'a>> {
    if repeats_standard(asked) {
        return Err(Failure::same_file(STANDARD));
    }
    let request = &asked.joined.rules;
    let held = held_text(rt, request)?;
    let words = Items::copied(rt.alloc(), held.as_slice())?;
    let text = prepared_from(rt, request, held, err)?;
    let told = told_in(rt.alloc(), request, &text, err);
    drop(text);
    let told = told?;
    let ended = report_ruled(rt, asked, words.as_slice(), &told, input, out, err, meter);
    drop(told);
    ended
}

/// Prints a page about packets of a run with a ruleset that is told.
fn report_ruled<'a, R: Files + AllocGlobal, I: Read + Drop, O: Write, E: Write, M: Meter>(
    rt: &R,
    asked: &ReportWords<'a>,
    words: &[u8],
    told: &Told,
    input: I,
    out: &mut O,
    err: &mut E,
    meter: &M,
) -> Result<u8, Failure<'a>> {
    let rules = told.rules.told(rt.alloc())?;
    let ended = report_told(rt, asked, words, told, &rules, input, out, err, meter);
    drop(rules);
    ended
}

/// Prints a page about packets of a run with a ruleset, and its rules as they are told.
fn report_told<'a, R: Files + AllocGlobal, I: Read + Drop, O: Write, E: Write, M: Meter>(
    rt: &R,
    asked: &ReportWords<'a>,
    words: &[u8],
    told: &Told,
    rules: &RulesTold<'_>,
    input: I,
    out: &mut O,
    err: &mut E,
    meter: &M,
) -> Result<u8, Failure<'a>> {
    let about = About {
        words,
        ruleset: &told.ruleset,
        rules,
        shadows: told.shadows.as_slice(),
    };
    report_rules(rt, asked, about, input, out, err, meter)
}

/// Prints a page about packets of a run with these rules. Standard input goes to what names it.
fn report_rules<'a, R: Files + AllocGlobal, I: Read + Drop, O: Write, E: Write, M: Meter>(
    rt: &R,
    asked: &ReportWords<'a>,
    about: About<'_>,
    input: I,
    out: &mut O,
    err: &mut E,
    meter: &M,
) -> Result<u8, Failure<'a>> {
    match asked.states {
        Some(name) if is_standard(name) => {
            let states = text_of(rt.alloc(), name, input)?;
            let given = states.as_slice();
            report_packets(rt, asked, about, given, empty(), out, err, meter)
        }
        _ => report_packets(rt, asked, about, &[], input, out, err, meter),
    }
}

/// Prints the page, with what standard input has of states, and with what stands for it among the captures and the verdicts.
fn report_packets<'a, R: Files + AllocGlobal, I: Read + Drop, O: Write, E: Write, M: Meter>(
    rt: &R,
    asked: &ReportWords<'a>,
    about: About<'_>,
    given: &[u8],
    input: I,
    out: &mut O,
    err: &mut E,
    meter: &M,
) -> Result<u8, Failure<'a>> {
    // where the captures were taken isn't known here
    let watch = Watch::new(rt.alloc(), about.ruleset, Wanted::Everything, true)?;
    let ended = report_watched(rt, asked, about, given, input, out, err, meter, &watch);
    drop(watch);
    ended
}

/// Prints the page about packets that are watched.
fn report_watched<'a, R: Files + AllocGlobal, I: Read + Drop, O: Write, E: Write, M: Meter>(
    rt: &R,
    asked: &ReportWords<'a>,
    about: About<'_>,
    given: &[u8],
    input: I,
    out: &mut O,
    err: &mut E,
    meter: &M,
    watch: &Watch,
) -> Result<u8, Failure<'a>> {
    let captures = asked.joined.captures.as_slice();
    begin_progress(rt, asked.progresses, captures, meter);
    let gate = Two {
        first: watch,
        second: meter,
    };
    report_told_to(
        rt, asked, about, given, input, out, err, meter, watch, &gate,
    )
}

/// Prints the page about packets that a gate is told of.
fn report_told_to<
    'a,
    R: Files + AllocGlobal,
    I: Read + Drop,
    O: Write,
    E: Write,
    M: Meter,
    G: Gate,
>(
    rt: &R,
    asked: &ReportWords<'a>,
    about: About<'_>,
    given: &[u8],
    input: I,
    out: &mut O,
    err: &mut E,
    meter: &M,
    watch: &Watch,
    gate: &G,
) -> Result<u8, Failure<'a>> {
    let mut tally = Tally::new(rt.alloc(), about.ruleset, about.rules, about.shadows, gate)?;
    let ended = take_joined(rt, &asked.joined, about.rules, input, &mut tally);
    meter.end();
    let ended = match ended {
        Ok(walked) => match tally.counted(rt.alloc(), about.ruleset) {
            Ok(counted) => report_counted(
                rt,
                asked,
                about.words,
                given,
                walked,
                counted,
                out,
                err,
                watch,
            ),
            Err(refused) => Err(Failure::from(refused)),
        },
        Err(failure) => Err(failure),
    };
    drop(tally);
    ended
}

/// Prints the page about packets that were counted and watched.
fn report_counted<'a, R: Files + AllocGlobal, O: Write, E: Write>(
    rt: &R,
    asked: &ReportWords<'a>,
    words: &[u8],
    given: &[u8],
    walked: Walked,
    counted: &Counted<'_>,
    out: &mut O,
    err: &mut E,
    watch: &Watch,
) -> Result<u8, Failure<'a>> {
    let ages = ages_by(rt, asked, given, counted.clock())?;
    let warnings = warnings_of(rt.alloc(), watch, walked.packets)?;
    let page = Page {
        words,
        warnings: warnings.as_slice(),
        counted,
        walked,
    };
    if asked.warns {
        watch.warn(walked.packets, err);
    }
    print_page(rt.alloc(), asked, page, ages, out)
}

/// Warnings, as they are heard.
#[derive(Drop)]
struct Heard {
    alloc: Global,
    texts: Vec<String>,
    /// Whether memory was refused.
    is_refused: bool,
}

impl Heard {
    /// Keeps the text of a warning.
    fn keep(&mut self, warning: &Warning<'_>) -> Result<(), AllocError> {
        let mut text = String::new(self.alloc);
        if write!(text, "{warning}").is_err() {
            return Err(AllocError);
        }
        self.texts.push(text)?;
        Ok(())
    }
}

impl Hearer for Heard {
    fn hear(&mut self, warning: &Warning<'_>) {
        if self.keep(warning).is_err() {
            self.is_refused = true;
        }
    }
}

/// What there is to warn of behind the last of `packets` packets.
fn warnings_of(alloc: Global, watch: &Watch, packets: u64) -> Result<Vec<String>, AllocError> {
    let mut heard = Heard {
        alloc,
        texts: Vec::new(alloc),
        is_refused: false,
    };
    watch.tell(packets, &mut heard);
    let Heard {
        texts,
        is_refused,
        ..
    } = heard;
    if is_refused {
        Err(AllocError)
    } else {
        Ok(texts)
    }
}

/// What a page says.
#[derive(Clone, Copy)]
struct Page<'p> {
    /// What the ruleset's file holds.
    words: &'p [u8],
    /// What there is to warn of.
    warnings: &'p [String],
    counted: &'p Counted<'p>,
    walked: Walked,
}

/// The states that the words name by their ages at a clock. Their file is read now, unless standard input gave them.
fn ages_by<'a, R: Files + AllocGlobal>(
    rt: &R,
    asked: &ReportWords<'a>,
    given: &[u8],
    clock: Clock,
) -> Result<Option<Ages>, Failure<'a>> {
    match asked.states {
        None => Ok(None),
        Some(name) if is_standard(name) => Ok(Some(ages_in(rt.alloc(), given, clock)?)),
        Some(name) => {
            let states = text_of(rt.alloc(), name, opened(rt, name)?)?;
            Ok(Some(ages_in(rt.alloc(), states.as_slice(), clock)?))
        }
    }
}

/// The states of these lines by their ages at a clock.
fn ages_in<'a>(alloc: Global, states: &[u8], clock: Clock) -> Result<Ages, Failure<'a>> {
    match listed(alloc, states) {
        Ok(states) => Ok(ages_of(states.as_slice(), clock)),
        Err(refused) => Err(states_refused(refused)),
    }
}

/// Prints the page, with states of these ages.
fn print_page<'a, O: Write>(
    alloc: Global,
    asked: &ReportWords<'a>,
    page: Page<'_>,
    ages: Option<Ages>,
    out: &mut O,
) -> Result<u8, Failure<'a>> {
    let captures = captured(alloc, asked.joined.captures.as_slice())?;
    let subject = Subject {
        name: asked.joined.rules.name,
        text: page.words,
        captures: captures.as_slice(),
        warnings: page.warnings,
    };
    let mut sink = WriterSink::new(&mut *out);
    match print(
        alloc,
        subject,
        page.counted,
        page.walked,
        ages.as_ref(),
        &mut sink,
    ) {
        Ok(()) => Ok(DONE),
        Err(stopped) => Err(failure_of(stopped, &asked.joined)),
    }
}

/// The interfaces of captures and their files.
fn captured<'a>(
    alloc: Global,
    captures: &[CaptureWords<'a>],
) -> Result<Vec<Captured<'a>>, AllocError> {
    let mut files = Vec::new(alloc);
    for words in captures {
        files.push((words.interface, words.capture))?;
    }
    Ok(files)
}
