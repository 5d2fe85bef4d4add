//! Packets of captures with what a run wrote of them, as words name them.
ghost use Rattle.std.specs.Prelude.{◌≡◌, ◌≤◌, length};

use pfr_capture::Source;
use pfr_command::JoinedWords;
use pfr_feed::Sources;
use pfr_files::{
    Failure, Place, REFUSED, has_standard_capture, is_standard, opened, repeats_input, sources,
};
use pfr_headers::EthernetAddress;
use pfr_show::{Misfit, Run, Stopped, Taker, Walked, walk};
use pfr_values::MOST_INTERFACES;
use pfr_wording::RulesTold;
use std::alloc::{AllocGlobal, Global};
use std::io::{BufRead, BufReader, Read, empty};
use std::rt::Files;

/// How many bytes of the lines of verdicts are read at a time.
const READ: usize = 65536;

/// Interfaces without a link-level address.
const NO_ADDRESSES: [Option<EthernetAddress>; MOST_INTERFACES] = [None; MOST_INTERFACES];

/// Whether more than one of the files is standard input.
pub(crate) fn takes_input_twice(words: &JoinedWords<'_>) -> bool {
    let captures = words.captures.as_slice();
    repeats_input(captures) || (is_standard(words.verdicts) && has_standard_capture(captures))
}

/// Whether one of the files is standard input.
pub(crate) fn takes_input(words: &JoinedWords<'_>) -> bool {
    is_standard(words.verdicts) || has_standard_capture(words.captures.as_slice())
}

/// Joins the packets of captures with the lines of a run whose rules are told, and hands them on, one by one. Standard input goes to
/// what names it.
pub(crate) fn take_joined<'a, R: Files + AllocGlobal, I: Read + Drop, T: Taker>(
    rt: &R,
    words: &JoinedWords<'a>,
    told: &RulesTold<'_>,
    input: I,
    taker: &mut T,
) -> Result<Walked, Failure<'a>> {
    if is_standard(words.verdicts) {
        take_lines(rt, words, told, empty(), input, taker)
    } else {
        let lines = opened(rt, words.verdicts)?;
        take_lines(rt, words, told, input, lines, taker)
    }
}

/// Joins packets with the lines that an input has, and hands them on. Another input stands for standard input among the captures.
fn take_lines<'a, R: Files + AllocGlobal, I: Read + Drop, L: Read + Drop, T: Taker>(
    rt: &R,
    words: &JoinedWords<'a>,
    told: &RulesTold<'_>,
    input: I,
    lines: L,
    taker: &mut T,
) -> Result<Walked, Failure<'a>> {
    let Ok(mut lines) = BufReader::with_capacity(rt.alloc(), READ, lines) else {
        return Err(Failure::no_memory());
    };
    let ended = take_read(rt, words, told, input, &mut lines, taker);
    drop(lines);
    ended
}

/// Opens the captures, joins their packets with lines, and hands them on.
fn take_read<'a, R: Files + AllocGlobal, I: Read + Drop, L: BufRead, T: Taker>(
    rt: &R,
    words: &JoinedWords<'a>,
    told: &RulesTold<'_>,
    input: I,
    lines: &mut L,
    taker: &mut T,
) -> Result<Walked, Failure<'a>> {
    let captures = words.captures.as_slice();
    let mut sources = sources(rt, captures, &NO_ADDRESSES[..captures.len()], input)?;
    let ended = take_sources(rt.alloc(), words, told, &mut sources, lines, taker);
    drop(sources);
    ended
}

/// Joins the packets of sources with lines, and hands them on.
fn take_sources<'a, S: Source, L: BufRead, T: Taker>(
    alloc: Global,
    words: &JoinedWords<'a>,
    told: &RulesTold<'_>,
    sources: &mut Sources<S>,
    lines: &mut L,
    taker: &mut T,
) -> Result<Walked, Failure<'a>>
    requires { length sources.old ≤ 8 }
{
    let run = Run {
        interfaces: words.rules.interfaces.as_slice(),
        rules: told,
    };
    match walk(alloc, sources, lines, run, taker) {
        Ok(walked) => Ok(walked),
        Err(stopped) => Err(failure_of(stopped, words)),
    }
}

/// What is said if packets aren't taken any further.
pub(crate) fn failure_of<'a>(stopped: Stopped, words: &JoinedWords<'a>) -> Failure<'a> {
    match stopped {
        Stopped::Reading(place, refusal, read) => {
            Failure::of_capture(words.captures.as_slice(), place, refusal, read)
        }
        Stopped::Lines(_) => Failure::of_reading(words.verdicts),
        Stopped::Misfit(number, misfit) => unjoined(number, misfit),
        Stopped::Printing => Failure::of_printing(),
        Stopped::Memory => Failure::no_memory(),
    }
}

/// What is said of a packet with which no line is joined.
fn unjoined<'a>(number: u64, misfit: Misfit) -> Failure<'a> {
    let reason = match misfit {
        Misfit::NoLine => "no line of verdicts",
        Misfit::OtherCapture => "not of this capture",
        Misfit::OtherRuleset => "not of this ruleset",
        Misfit::Memory => "no memory",
    };
    Failure::new(REFUSED, Place::Number("packet", number), reason)
}
