//! Where the bytes of an output go.
ghost use Rattle.pfr_files.specs.Destinations.{contents_of};

use std::io;
use std::io::Write;

/// A file, standard output, a stream to a peer, or nowhere: what is written there is dropped.
#[derive(Drop)]
pub enum Destination<F, O, S> {
    File(F),
    Standard(O),
    Stream(S),
    Nowhere,
}

impl<F: Write, O: Write, S: Write> Write for Destination<F, O, S> {
    ghost contents = { contents_of F.contents O.contents S.contents };

    fn write(&mut self, piece: &[u8]) -> io::Result<usize> {
        match self {
            Destination::File(file) => file.write(piece),
            Destination::Standard(out) => out.write(piece),
            Destination::Stream(stream) => stream.write(piece),
            Destination::Nowhere => Ok(piece.len()),
        }
    }

    fn flush(&mut self) -> io::Result<()> {
        match self {
            Destination::File(file) => file.flush(),
            Destination::Standard(out) => out.flush(),
            Destination::Stream(stream) => stream.flush(),
            Destination::Nowhere => Ok(()),
        }
    }
}
