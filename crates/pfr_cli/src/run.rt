//! What the program does.
use pfr_command::{Asked, CommandName, command_of, parse};
use pfr_files::{Counted, Failure, REFUSED, TROUBLE, print, report};
use pfr_notices::Meter;
use pfr_runs::{Host, adapt, check, replay, stand_by};
use pfr_values::Refused;
use pfr_views::{list_states, report_on, show_packets, tell_changes, tell_rules};
use std::alloc::AllocError;
use std::io::{Read, Write};

/// Does what the words ask, the program's name first among them, and answers the status to end with. What
/// is wrong goes to `err`, in one line. The meter says how far a command has come, if the words ask for that.
pub fn run<R: Host, I: Read + Drop, O: Write + Copy, E: Write, M: Meter>(
    rt: &R,
    words: &[String],
    input: I,
    out: &mut O,
    err: &mut E,
    meter: &M,
) -> u8 {
    match parse(rt.alloc(), words) {
        Ok(asked) => {
            let ended = work(rt, &asked, input, out, err, meter);
            drop(asked);
            status_of(ended, words, err)
        }
        Err(refused) => refuse(refused, words, err),
    }
}

/// The status that a command answered. If it failed, it is said.
fn status_of<E: Write>(ended: Result<u8, Failure<'_>>, words: &[String], err: &mut E) -> u8 {
    match ended {
        Ok(status) => status,
        Err(failure) => fail(failure, words, err),
    }
}

/// Says that words were refused, and answers the status to end with.
pub fn refuse<E: Write>(refused: Refused<'_>, words: &[String], err: &mut E) -> u8 {
    match refused {
        Refused::Memory => fail(Failure::from(AllocError), words, err),
        _ => {
            // If this can't be written either, the status alone says it.
            let _ = writeln!(err, "pfreplay: {refused}");
            fail(Failure::said(REFUSED), words, err)
        }
    }
}

/// Says what is wrong as the command says it that these words ask for, and answers the status to end with.
fn fail<E: Write>(failure: Failure<'_>, words: &[String], err: &mut E) -> u8 {
    let command = command_of(words);
    let status = report(failure.counting(counted_by(command)), err);
    match command {
        Some(CommandName::Diff) if status == REFUSED => TROUBLE,
        _ => status,
    }
}

/// What a command counts, and says if memory is refused.
fn counted_by(command: Option<CommandName>) -> Counted {
    match command {
        None | Some(CommandName::Run) | Some(CommandName::Check) | Some(CommandName::Adapt) => {
            Counted::Packets
        }
        Some(CommandName::Standby) => Counted::Messages,
        Some(CommandName::States)
        | Some(CommandName::Rules)
        | Some(CommandName::Diff)
        | Some(CommandName::Show)
        | Some(CommandName::Report) => Counted::Nothing,
    }
}

/// Does what is asked, and answers the status.
fn work<'a, R: Host, I: Read + Drop, O: Write + Copy, E: Write, M: Meter>(
    rt: &R,
    asked: &Asked<'a>,
    input: I,
    out: &mut O,
    err: &mut E,
    meter: &M,
) -> Result<u8, Failure<'a>> {
    match asked {
        Asked::Text(text) => print(out, text.as_bytes()),
        Asked::Usage(text) => Err(misused(text.as_str(), err)),
        Asked::Check(rules) => check(rt, rules, out, err),
        Asked::Adapt(rules) => adapt(rt, rules, out, err),
        Asked::Run(asked) => replay(rt, asked, input, out, err, meter),
        Asked::Standby(stream) => stand_by(rt, stream, input, out),
        Asked::States(asked) => list_states(rt, asked, input, out),
        Asked::Rules(asked) => tell_rules(rt, asked, out, err),
        Asked::Diff(asked) => tell_changes(rt, asked, input, out, err, meter),
        Asked::Show(asked) => show_packets(rt, asked, input, out, err),
        Asked::Report(asked) => report_on(rt, asked, input, out, err, meter),
    }
}

/// Says that the words don't fit, as this text does.
fn misused<'a, E: Write>(text: &str, err: &mut E) -> Failure<'a> {
    // If this can't be written either, the status alone says it.
    let _ = writeln!(err, "pfreplay: {text}");
    Failure::said(REFUSED)
}
