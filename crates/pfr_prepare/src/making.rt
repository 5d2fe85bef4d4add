//! The text that is made of a ruleset's text and those of other files.
ghost use Rattle.std.specs.Prelude.{◌≡◌, ◌++◌, IfOk, OnOk};
ghost use Rattle.pfr_prepare.specs.Making as spec;

use crate::around::around_of;
use crate::flag::Flag;
use crate::prepared::Prepared;
use crate::preparing::Request;
use crate::saying::{say_files, say_findings, say_remarks};
use crate::source::Source;
use pfr_include::{File, Included, with_files};
use pfr_items::Items;
use pfr_remarks::remarks;
use pfr_rewrite::{Adapted, Piece, Surroundings, adapt, rules_of_others};
use pfr_words::Bytes;
use std::alloc::{AllocError, Global};
use std::io::Write;

/// A text that was rewritten.
#[derive(Drop)]
struct Made {
    text: Items<u8>,
    /// For each line, the line of the other text that it comes from.
    lines: Items<usize>,
    /// Where its bytes stood in the other text, piece by piece.
    pieces: Items<Piece>,
}

/// Puts the file of a flag behind others, if it is for statements.
fn add_file<'s>(files: &mut Items<File<'s>>, source: &'s Source<'_>) -> Result<(), AllocError>
    ensures { OnOk result (files.new ≡ files.old ++ spec.file_in source.now) }
{
    match &source.flag {
        Flag::Include { name, .. } => files.push(File {
            name: Bytes::new(name.as_bytes()),
            text: Bytes::new(source.text.as_slice()),
        }),
        _ => Ok(()),
    }
}

/// The files that flags give for statements.
fn files_of<'s>(alloc: Global, sources: &'s [Source<'_>]) -> Result<Items<File<'s>>, AllocError>
    ensures { IfOk result (λ files. files ≡ spec.files_of sources.now) }
{
    let mut files = Items::new(alloc);
    for source in sources {
        add_file(&mut files, source)?;
    }
    Ok(files)
}

/// A text with the files that flags give in the place of its statements.
#[tactic(auto, unfolding(crate::specs::Making::text_with_files))]
fn text_with_files(
    alloc: Global,
    text: &[u8],
    sources: &[Source<'_>],
) -> Result<Included, AllocError>
    ensures { IfOk result (λ made. made ≡ spec.text_with_files text.now sources.now) }
{
    let files = files_of(alloc, sources)?;
    with_files(alloc, text, files.as_slice())
}

/// What was adapted, without what is said of it.
fn without_findings(adapted: Adapted<'_>) -> Made
    ensures { result ≡ spec.without_findings adapted.entry }
{
    let Adapted {
        text,
        lines,
        pieces,
        findings: _,
    } = adapted;
    Made {
        text,
        lines,
        pieces,
    }
}

/// Says what pfctl(8) refuses of a text.
fn say_all_remarks<E: Write>(
    alloc: Global,
    request: &Request<'_>,
    included: &Included,
    err: &mut E,
) -> Result<(), AllocError> {
    let found = remarks(alloc, included.text.as_slice())?;
    say_remarks(request, included.lines.as_slice(), found.as_slice(), err);
    Ok(())
}

/// Says which rules of a text hold for no packet, since they name other interfaces.
fn say_rules_of_others<E: Write>(
    alloc: Global,
    request: &Request<'_>,
    around: &Surroundings,
    included: &Included,
    was_adapted: bool,
    err: &mut E,
) -> Result<(), AllocError> {
    let found = rules_of_others(alloc, included.text.as_slice(), around, was_adapted)?;
    let origins = included.lines.as_slice();
    say_findings(request, origins, found.as_slice(), err);
    Ok(())
}

/// Says what pf would do otherwise with a text though nothing of it is rewritten.
fn say_warnings<E: Write>(
    alloc: Global,
    request: &Request<'_>,
    around: &Surroundings,
    included: &Included,
    was_adapted: bool,
    err: &mut E,
) -> Result<(), AllocError> {
    say_all_remarks(alloc, request, included, err)?;
    say_rules_of_others(alloc, request, around, included, was_adapted, err)
}

/// A text in the words of the strict reader. What was rewritten goes to `err`.
#[tactic(auto, unfolding(crate::specs::Making::rewritten))]
fn rewritten<E: Write>(
    alloc: Global,
    request: &Request<'_>,
    around: &Surroundings,
    included: &Included,
    err: &mut E,
) -> Result<Made, AllocError>
    ensures { IfOk result (λ made. made ≡ spec.rewritten included.now around.now) }
{
    let adapted = adapt(alloc, included.text.as_slice(), around)?;
    let origins = included.lines.as_slice();
    say_findings(request, origins, adapted.findings.as_slice(), err);
    Ok(without_findings(adapted))
}

/// A text in the words of the strict reader. All that is said of it but its faults goes to `err`.
fn made_of<E: Write>(
    alloc: Global,
    request: &Request<'_>,
    around: &Surroundings,
    included: &Included,
    err: &mut E,
) -> Result<Made, AllocError>
    ensures { IfOk result (λ made. made ≡ spec.rewritten included.now around.now) }
{
    say_files(request, included, err);
    let made = rewritten(alloc, request, around, included, err)?;
    let was_adapted = made.text.as_slice() != included.text.as_slice();
    say_warnings(alloc, request, around, included, was_adapted, err).and(Ok(made))
}

/// A text with its files in the words of the strict reader.
#[tactic(auto, unfolding(crate::specs::Making::prepared_of))]
fn prepared_of<E: Write>(
    alloc: Global,
    request: &Request<'_>,
    around: &Surroundings,
    included: Included,
    err: &mut E,
) -> Result<Prepared, AllocError>
    ensures { IfOk result (λ prepared. prepared ≡ spec.prepared_of included around.now) }
{
    let made = made_of(alloc, request, around, &included, err)?;
    Ok(Prepared {
        text: made.text,
        lines: made.lines,
        pieces: made.pieces,
        origins: included.lines,
    })
}

/// What is made of a ruleset's text and of the files that flags name: the text with its files, in the words of the
/// strict reader. All that is said of it but its faults goes to `err`.
#[tactic(auto, unfolding(crate::specs::Making::made_text))]
pub(crate) fn made_text<E: Write>(
    alloc: Global,
    request: &Request<'_>,
    text: &[u8],
    sources: &[Source<'_>],
    err: &mut E,
) -> Result<Prepared, AllocError>
    ensures { IfOk result (λ prepared. prepared ≡ spec.made_text request.now.interfaces text.now sources.now) }
{
    let around = around_of(alloc, request.interfaces.as_slice(), sources)?;
    let included = text_with_files(alloc, text, sources)?;
    prepared_of(alloc, request, &around, included, err)
}
