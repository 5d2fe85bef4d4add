//! What `pfreplay states` does.
use pfr_command::StatesWords;
use pfr_files::{Failure, NO_MEMORY, Place, REFUSED, origin_of, print, print_piece, text_of};
use pfr_listing::{Listed, Refused, listed, put_json, put_pfctl};
use std::alloc::{AllocError, Global};
use std::io::{Read, Write};
use std::rt::Files;

/// Prints the states that a run left, and answers the status.
pub fn list_states<'a, R: Files + AllocGlobal, I: Read + Drop, O: Write>(
    rt: &R,
    asked: &StatesWords<'a>,
    input: I,
    out: &mut O,
) -> Result<u8, Failure<'a>> {
    let text = text_of(rt.alloc(), asked.name, origin_of(rt, asked.name, input)?)?;
    match listed(rt.alloc(), text.as_slice()) {
        Ok(states) => print_all(rt.alloc(), asked.as_json, states.as_slice(), out),
        Err(refused) => Err(states_refused(refused)),
    }
}

/// What is said of a file that isn't one of states.
pub(crate) fn states_refused<'a>(refused: Refused) -> Failure<'a> {
    match refused {
        Refused::Line(number) => {
            Failure::new(REFUSED, Place::Number("states line", number), "no state")
        }
        Refused::Memory => Failure::new(NO_MEMORY, Place::Whole, "no memory"),
    }
}

/// Prints states, a piece of their lines at a time.
fn print_all<'a, O: Write>(
    alloc: Global,
    as_json: bool,
    states: &[Listed<'_>],
    out: &mut O,
) -> Result<u8, Failure<'a>> {
    let mut text = Vec::new(alloc);
    for state in states {
        put(as_json, state, &mut text)?;
        print_piece(out, &mut text)?;
    }
    print(out, text.as_slice())
}

/// Appends the line of a state.
fn put(as_json: bool, state: &Listed<'_>, text: &mut Vec<u8>) -> Result<(), AllocError> {
    if as_json {
        put_json(state, text)
    } else {
        put_pfctl(state, text)
    }
}
