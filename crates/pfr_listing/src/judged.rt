//! The lines of verdicts that a run writes, as they are read.
ghost use Rattle.std.specs.Prelude.{IfOk, IfSome};
ghost use Rattle.pfr_listing.specs.Lines as spec;

use crate::line::{Bound, Parted, is_line, part};
use crate::words::{Judgement, judgement_in};
use pfr_commit::VerdictLine;
use pfr_net::InterfacePlace;
use pfr_packet::Outcome;
use pfr_track::Clock;
use std::alloc::{AllocError, Global};

/// A packet with what a line says of it.
#[derive(Drop)]
pub struct Judged<'a> {
    /// The packet's number in its run, from 1.
    pub number: u64,
    pub clock: Clock,
    /// What it came to. The parts that a line doesn't say have no meaning: which rules were visited, what is written
    /// into the packet, and what changes in the table of states.
    pub outcome: Outcome,
    /// The interface on which it was captured, if the run has several.
    pub bound: Bound<'a>,
}

/// The packet that a line of verdicts, without its newline, tells of, if a run writes such a line. `text` is room for
/// what a run writes.
pub fn judged_in<'a>(
    alloc: Global,
    line: &'a [u8],
    text: &mut Vec<u8>,
) -> Result<Option<Judged<'a>>, AllocError>
    ensures { IfOk result (λ judged. IfSome judged (λ judged. spec.IsVerdictLineOf judged line.now)) }
{
    let Parted { plain, bound } = part(line);
    let Some(
        Judgement {
            number,
            clock,
            outcome,
        },
    ) = judgement_in(alloc, plain)
    else {
        return Ok(None);
    };
    text.clear();
    let written = VerdictLine {
        interfaces: &[],
        number,
        clock,
        place: InterfacePlace(0),
        outcome: &outcome,
    };
    written.put(text)?;
    if is_line(text.as_slice(), plain) {
        Ok(Some(Judged {
            number,
            clock,
            outcome,
            bound,
        }))
    } else {
        Ok(None)
    }
}
