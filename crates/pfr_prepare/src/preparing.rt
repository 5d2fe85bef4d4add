//! What stands between a ruleset's file and the strict reader.
ghost use Rattle.std.specs.Prelude.{◌≡◌, IfOk};
ghost use Rattle.pfr_prepare.specs.Refused as spec;

use crate::files::{MOST_OF_TEXT, Refusal, file_text};
use crate::flag::Flag;
use crate::making::made_text;
use crate::prepared::Prepared;
use crate::saying::say_all_faults;
use crate::source::{Source, fill};
use pfr_faults::all_faults;
use pfr_items::Items;
use pfr_ruleset::Interface;
use std::alloc::{AllocError, Global};
use std::io::Write;
use std::rt::Files;

/// A ruleset's file, and how it is read.
#[derive(Drop)]
pub struct Request<'a> {
    pub name: &'a str,
    /// Whether its text is rewritten in the words of the strict reader.
    pub adapts: bool,
    /// The interfaces that it is for, by their places.
    pub interfaces: Items<Interface>,
    /// What its text can't say. It counts only if the text is rewritten.
    pub flags: Items<Flag<'a>>,
}

/// What a ruleset's file holds.
///
/// Of a file with more than 1048576 bytes the first 1048577 are read, so that the text is seen to be too long.
pub fn held_text<'a, R: Files + AllocGlobal>(
    rt: &R,
    request: &Request<'a>,
) -> Result<Items<u8>, Refusal<'a>> {
    file_text(rt, request.name, MOST_OF_TEXT)
}

/// The text of a ruleset as it is to be read, if its file holds this. If it is rewritten, all that is said of it but
/// its faults goes to `err`.
pub fn prepared_from<'a, R: Files + AllocGlobal, E: Write>(
    rt: &R,
    request: &Request<'a>,
    text: Items<u8>,
    err: &mut E,
) -> Result<Prepared, Refusal<'a>> {
    if request.adapts {
        return adapted_text(rt, request, text.as_slice(), err);
    }
    Ok(Prepared::of(rt.alloc(), text))
}

/// The text of a ruleset's file as it is to be read. If it is rewritten, all that is said of it but its faults goes to
/// `err`.
pub fn prepared_text<'a, R: Files + AllocGlobal, E: Write>(
    rt: &R,
    request: &Request<'a>,
    err: &mut E,
) -> Result<Prepared, Refusal<'a>> {
    match held_text(rt, request) {
        Ok(text) => prepared_from(rt, request, text, err),
        Err(refusal) => Err(refusal),
    }
}

/// A ruleset's text rewritten, with the files that flags name.
fn adapted_text<'a, R: Files + AllocGlobal, E: Write>(
    rt: &R,
    request: &Request<'a>,
    text: &[u8],
    err: &mut E,
) -> Result<Prepared, Refusal<'a>> {
    let mut sources = Items::new(rt.alloc());
    match fill(rt, &mut sources, request.flags.as_slice()) {
        Ok(()) => text_of(rt.alloc(), request, text, sources.as_slice(), err),
        Err(refusal) => Err(refusal),
    }
}

fn text_of<'a, E: Write>(
    alloc: Global,
    request: &Request<'a>,
    text: &[u8],
    sources: &[Source<'a>],
    err: &mut E,
) -> Result<Prepared, Refusal<'a>> {
    match made_text(alloc, request, text, sources, err) {
        Ok(prepared) => Ok(prepared),
        Err(_) => Err(Refusal::Memory),
    }
}

/// Says all that the strict reader refuses of a text that was prepared, in its order, by its files and their lines, and
/// answers whether there is something.
#[tactic(auto, unfolding(crate::specs::Refused::is_refused))]
pub fn say_faults<E: Write>(
    alloc: Global,
    request: &Request<'_>,
    prepared: &Prepared,
    err: &mut E,
) -> Result<bool, AllocError>
    ensures { IfOk result (λ refused. refused ≡ spec.is_refused request.now.interfaces prepared.now) }
{
    let faults = all_faults(
        alloc,
        prepared.text.as_slice(),
        request.interfaces.as_slice(),
    )?;
    say_all_faults(request, prepared, faults.as_slice(), err);
    Ok(faults.len() > 0)
}
