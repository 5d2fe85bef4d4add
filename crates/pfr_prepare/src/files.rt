//! The files that are read.
use pfr_expand::LONGEST_TEXT;
use pfr_items::Items;
use std::alloc::AllocError;
use std::fs::File;
use std::io;
use std::io::{ErrorKind, Read};
use std::rt::Files;

/// Why a ruleset's text can't be had.
#[derive(Clone, Copy)]
pub enum Refusal<'a> {
    /// The file of this name can't be opened or read, for this reason.
    CannotOpen(&'a str, io::Error),
    /// Memory was refused.
    Memory,
}

impl From<AllocError> for Refusal<'_> {
    fn from(_refused: AllocError) -> Self {
        Refusal::Memory
    }
}

/// How many bytes of a ruleset's file are read at most: one more than a ruleset's text may have.
pub(crate) const MOST_OF_TEXT: u64 = LONGEST_TEXT as u64 + 1;

/// How many bytes of other files are read: all.
pub(crate) const MOST: u64 = u64::MAX;

/// The bytes of a file, the first ones if it has more than a number of them.
pub(crate) fn file_text<'a, R: Files + AllocGlobal>(
    rt: &R,
    name: &'a str,
    most: u64,
) -> Result<Items<u8>, Refusal<'a>> {
    match beginning(rt, name, most) {
        Ok(text) => Ok(Items::of(text)),
        Err(error) => match error.kind() {
            ErrorKind::OutOfMemory => Err(Refusal::Memory),
            _ => Err(Refusal::CannotOpen(name, error)),
        },
    }
}

fn beginning<R: Files + AllocGlobal>(rt: &R, name: &str, most: u64) -> io::Result<Vec<u8>> {
    let file = File::open(rt, name)?;
    let mut text = Vec::new(rt.alloc());
    file.take(most).read_to_end(&mut text)?;
    Ok(text)
}
