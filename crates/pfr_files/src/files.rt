//! The files that the command line names.
use crate::failure::Failure;
use std::alloc::Global;
use std::fs::File;
use std::io::Read;
use std::rt::Files;

/// A file to be read.
pub fn opened<'a, R: Files>(rt: &R, name: &'a str) -> Result<R::File, Failure<'a>> {
    File::open(rt, name).map_err(|error| Failure::of_opening(name, &error))
}

/// A file to be written, which holds nothing.
pub fn created<'a, R: Files>(rt: &R, name: &'a str) -> Result<R::File, Failure<'a>> {
    File::create(rt, name).map_err(|error| Failure::of_opening(name, &error))
}

/// All bytes of what was opened by this name.
pub fn text_of<'a, F: Read + Drop>(
    alloc: Global,
    name: &'a str,
    mut file: F,
) -> Result<Vec<u8>, Failure<'a>> {
    let mut text = Vec::new(alloc);
    match file.read_to_end(&mut text) {
        Ok(_count) => Ok(text),
        Err(error) => Err(Failure::of_opening(name, &error)),
    }
}
