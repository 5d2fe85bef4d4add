//! Flags with the texts of their files.
use crate::files::{MOST, MOST_OF_TEXT, Refusal, file_text};
use crate::flag::Flag;
use pfr_items::Items;
use std::alloc::Global;
use std::rt::Files;

/// A flag with the text of the file that it names, or with no text if it names none.
#[derive(Drop)]
pub struct Source<'a> {
    pub flag: Flag<'a>,
    pub text: Items<u8>,
}

/// How many bytes of a flag's file are read.
fn most_of(flag: &Flag<'_>) -> u64 {
    match flag {
        Flag::Include { .. } => MOST_OF_TEXT,
        _ => MOST,
    }
}

/// The text of the file that a flag names.
fn text_of<'a, R: Files + AllocGlobal>(rt: &R, flag: &Flag<'a>) -> Result<Items<u8>, Refusal<'a>> {
    match flag.file() {
        Some(name) => file_text(rt, name, most_of(flag)),
        None => Ok(Items::new(rt.alloc())),
    }
}

/// Puts a flag behind others, with the text of its file.
fn add<'a, R: Files + AllocGlobal>(
    rt: &R,
    sources: &mut Items<Source<'a>>,
    flag: Flag<'a>,
) -> Result<(), Refusal<'a>> {
    let text = text_of(rt, &flag)?;
    match sources.push(Source { flag, text }) {
        Ok(()) => Ok(()),
        Err(_) => Err(Refusal::Memory),
    }
}

/// Flags with the texts of their files.
pub(crate) fn fill<'a, R: Files + AllocGlobal>(
    rt: &R,
    sources: &mut Items<Source<'a>>,
    flags: &[Flag<'a>],
) -> Result<(), Refusal<'a>> {
    for flag in flags {
        add(rt, sources, *flag)?;
    }
    Ok(())
}
