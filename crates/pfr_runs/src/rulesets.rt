//! What `pfreplay check` and `pfreplay adapt` do.
use crate::summary::Summary;
use pfr_files::{DONE, Failure, NO_MEMORY, Place, REFUSED, print, text_refused};
use pfr_prepare::{Prepared, Request, prepared_text, say_faults};
use std::alloc::{AllocGlobal, Global};
use std::io::Write;
use std::rt::Files;

/// Prints what a ruleset makes for an interface.
pub fn check<'a, R: Files + AllocGlobal, O: Write, E: Write>(
    rt: &R,
    rules: &Request<'a>,
    out: &mut O,
    err: &mut E,
) -> Result<u8, Failure<'a>> {
    let text = prepared_text(rt, rules, err)?;
    let summary = summed(rt.alloc(), rules, &text, err);
    drop(text);
    print_summary(rt.alloc(), summary?, out)
}

/// What is printed of a ruleset's text. A fault of the text is said to `err`.
fn summed<'a, E: Write>(
    alloc: Global,
    rules: &Request<'_>,
    text: &Prepared,
    err: &mut E,
) -> Result<Summary, Failure<'a>> {
    match Summary::of(alloc, text.text.as_slice(), rules.interfaces.as_slice()) {
        Ok(summary) => Ok(summary),
        Err(fault) => Err(text_refused(None, text, &fault, err)),
    }
}

/// Prints the line of a summary.
fn print_summary<'a, O: Write>(
    alloc: Global,
    summary: Summary,
    out: &mut O,
) -> Result<u8, Failure<'a>> {
    let line = summary.line(alloc)?;
    print(out, line.as_bytes())
}

/// Says what was rewritten of a ruleset's text and all that is refused still, and prints the text in the words of the strict reader.
/// Nothing is printed where memory is refused.
pub fn adapt<'a, R: Files + AllocGlobal, O: Write, E: Write>(
    rt: &R,
    rules: &Request<'a>,
    out: &mut O,
    err: &mut E,
) -> Result<u8, Failure<'a>> {
    let text = prepared_text(rt, rules, err)?;
    let ended = print_adapted(rt.alloc(), rules, &text, out, err);
    drop(text);
    ended
}

/// Says all that is refused of a text, prints it, and answers the status.
fn print_adapted<'a, O: Write, E: Write>(
    alloc: Global,
    rules: &Request<'_>,
    text: &Prepared,
    out: &mut O,
    err: &mut E,
) -> Result<u8, Failure<'a>> {
    let status = faults(alloc, rules, text, err)?;
    print(out, text.text.as_slice())?;
    Ok(status)
}

/// Says all that is refused of a text, and answers the status.
fn faults<'a, E: Write>(
    alloc: Global,
    rules: &Request<'_>,
    text: &Prepared,
    err: &mut E,
) -> Result<u8, Failure<'a>> {
    match say_faults(alloc, rules, text, err) {
        Ok(true) => Ok(REFUSED),
        Ok(false) => Ok(DONE),
        Err(_) => Err(Failure::new(NO_MEMORY, Place::Whole, "rules line 0: no memory")),
    }
}
