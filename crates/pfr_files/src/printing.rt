//! What goes to standard output.
use crate::failure::{DONE, Failure};
use std::io::Write;

/// How many bytes are printed at a time, and a line more.
const PIECE: usize = 65536;

/// Prints a text and no more.
pub fn print<'a, O: Write>(out: &mut O, text: &[u8]) -> Result<u8, Failure<'a>> {
    match out.write_all(text) {
        Ok(()) => Ok(DONE),
        Err(_) => Err(Failure::of_printing()),
    }
}

/// Prints a text that grows and empties it, once it has the bytes of a piece.
pub fn print_piece<'a, O: Write>(out: &mut O, text: &mut Vec<u8>) -> Result<(), Failure<'a>> {
    if text.len() >= PIECE {
        print(out, text.as_slice())?;
        text.clear();
    }
    Ok(())
}
