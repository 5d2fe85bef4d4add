//! Where the bytes of an input come from.
ghost use Rattle.pfr_files.specs.Origins.{remaining_of};

use crate::failure::Failure;
use crate::files::opened;
use crate::standard::is_standard;
use std::io;
use std::io::Read;
use std::rt::Files;

/// A file, or standard input.
#[derive(Drop)]
pub enum Origin<F, I> {
    File(F),
    Standard(I),
}

impl<F: Read, I: Read> Read for Origin<F, I> {
    ghost remaining = { remaining_of F.remaining I.remaining };

    fn read(&mut self, piece: &mut [u8]) -> io::Result<usize> {
        match self {
            Origin::File(file) => file.read(piece),
            Origin::Standard(input) => input.read(piece),
        }
    }
}

/// Opens the file of this name, or takes standard input.
pub fn origin_of<'a, R: Files, I: Read + Drop>(
    rt: &R,
    name: &'a str,
    input: I,
) -> Result<Origin<R::File, I>, Failure<'a>> {
    if is_standard(name) {
        return Ok(Origin::Standard(input));
    }
    Ok(Origin::File(opened(rt, name)?))
}
