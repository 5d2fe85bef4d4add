//! What `pfreplay show` does.
use crate::joined::{take_joined, takes_input_twice};
use crate::rules::rules_in;
use pfr_capture::{Sink, WriterSink};
use pfr_command::{JoinedWords, ShowWords};
use pfr_files::{DONE, Failure, STANDARD, names_of, print};
use pfr_prepare::prepared_text;
use pfr_show::{Asked, Counts, Form, Printer, Run, Walked};
use pfr_wording::{Rules, RulesTold};
use std::alloc::{AllocGlobal, Global};
use std::io::{Read, Write};
use std::rt::Files;

/// Shows packets with what a run wrote of them, and answers the status.
pub fn show_packets<'a, R: Files + AllocGlobal, I: Read + Drop, O: Write, E: Write>(
    rt: &R,
    asked: &ShowWords<'a>,
    input: I,
    out: &mut O,
    err: &mut E,
) -> Result<u8, Failure<'a>> {
    if takes_input_twice(&asked.joined) {
        return Err(Failure::same_file(STANDARD));
    }
    let request = &asked.joined.rules;
    let text = prepared_text(rt, request, err)?;
    let rules = rules_in(rt.alloc(), request, &text, err);
    drop(text);
    let rules = rules?;
    let ended = show_ruled(rt, asked, &rules, input, out);
    drop(rules);
    ended
}

/// Shows packets of a run with these rules, and answers the status.
fn show_ruled<'a, R: Files + AllocGlobal, I: Read + Drop, O: Write>(
    rt: &R,
    asked: &ShowWords<'a>,
    rules: &Rules,
    input: I,
    out: &mut O,
) -> Result<u8, Failure<'a>> {
    let told = rules.told(rt.alloc())?;
    let counts = print_shown(rt, asked, &told, input, out);
    drop(told);
    let counts = counts?;
    match asked.form {
        Form::Count => print_counts(rt.alloc(), counts, out),
        Form::Text | Form::Json | Form::Pflog => Ok(DONE),
    }
}

/// Prints the selected packets, and answers how many there are.
fn print_shown<'a, R: Files + AllocGlobal, I: Read + Drop, O: Write>(
    rt: &R,
    asked: &ShowWords<'a>,
    told: &RulesTold<'_>,
    input: I,
    out: &mut O,
) -> Result<Counts, Failure<'a>> {
    let names = names_of(rt.alloc(), asked.joined.captures.as_slice())?;
    let shown = Asked {
        run: Run {
            interfaces: asked.joined.rules.interfaces.as_slice(),
            rules: told,
        },
        names: names.as_slice(),
        selection: asked.selection,
        form: asked.form,
    };
    let mut sink = WriterSink::new(&mut *out);
    let mut printer = Printer::new(rt.alloc(), shown, &mut sink);
    let walked = print_joined(rt, &asked.joined, told, input, &mut printer)?;
    Ok(Counts {
        shown: printer.shown(),
        packets: walked.packets,
        tail: walked.tail,
    })
}

/// Joins packets with the lines of a run, and has a printer take them.
fn print_joined<'a, R: Files + AllocGlobal, I: Read + Drop, K: Sink>(
    rt: &R,
    words: &JoinedWords<'a>,
    told: &RulesTold<'_>,
    input: I,
    printer: &mut Printer<'_, K>,
) -> Result<Walked, Failure<'a>> {
    take_joined(rt, words, told, input, printer)
}

/// Prints how many packets there are.
fn print_counts<'a, O: Write>(
    alloc: Global,
    counts: Counts,
    out: &mut O,
) -> Result<u8, Failure<'a>> {
    let mut text = Vec::new(alloc);
    counts.append(&mut text)?;
    print(out, text.as_slice())
}
