//! What is put into a text for its statements.
ghost use Rattle.std.specs.Prelude.{◌≡◌, ◌++◌, IfOk, OnOk};
ghost use Rattle.pfr_include.specs.Splices as spec;

use crate::file::Found;
use crate::statements::{Anchor, Naming, Statement};
use pfr_items::Items;
use pfr_marks::mark::Place;
use pfr_words::Bytes;
use std::alloc::{AllocError, Global};

/// What is put.
#[derive(Drop)]
pub(crate) enum Put<'f> {
    Nothing,
    /// The text of a file.
    File(Found<'f>),
    /// The same as the rules of an anchor, in braces.
    Rules(Found<'f>),
}

/// A part of a text that goes, and what is put there.
#[derive(Drop)]
pub(crate) struct Splice<'f> {
    /// Where its statement begins.
    pub statement: Place,
    /// Where the part that goes begins.
    pub start: Place,
    /// Where it ends.
    pub end: Place,
    pub put: Put<'f>,
}

/// The same file once more.
fn copied<'f>(found: &Found<'f>) -> Found<'f>
    ensures { result ≡ found.now }
{
    Found {
        number: found.number,
        text: Bytes::new(found.text.as_slice()),
    }
}

/// The splice that puts something in the place of a statement.
fn replaced<'f>(naming: &Naming<'f>, put: Put<'f>) -> Splice<'f>
    ensures { result ≡ spec.replaced naming.now put.entry }
{
    Splice {
        statement: naming.start,
        start: naming.start,
        end: naming.end,
        put,
    }
}

/// The splice that gives an anchor its rules, behind its line.
fn opened<'f>(anchor: &Anchor<'_>, found: Found<'f>) -> Splice<'f>
    ensures { result ≡ spec.opened anchor.now found.entry }
{
    Splice {
        statement: anchor.start,
        start: anchor.end,
        end: anchor.end,
        put: Put::Rules(found),
    }
}

/// Puts a splice behind those so far.
fn add<'f>(found: &mut Items<Splice<'f>>, splice: Option<Splice<'f>>) -> Result<(), AllocError>
    ensures { OnOk result (found.new ≡ found.old ++ spec.splice_in splice.entry) }
{
    match splice {
        Some(splice) => found.push(splice),
        None => Ok(()),
    }
}

/// The splice that puts a file in the place of a statement `include`.
fn include_splice<'f>(statement: &Statement<'_, 'f>) -> Option<Splice<'f>>
    ensures { result ≡ spec.include_splice statement.now }
{
    match statement {
        Statement::Include(naming) => { Some(replaced(naming, Put::File(copied(&naming.found)))) }
        _ => None,
    }
}

/// The splices for the statements `include`.
fn includes<'f>(
    alloc: Global,
    statements: &[Statement<'_, 'f>],
) -> Result<Items<Splice<'f>>, AllocError>
    ensures { IfOk result (λ found. found ≡ spec.includes statements.now) }
{
    let mut found = Items::new(alloc);
    for statement in statements {
        add(&mut found, include_splice(statement))?;
    }
    Ok(found)
}

/// A file that is loaded into the anchors of a name.
#[derive(Drop)]
struct Loading<'a, 'f> {
    anchor: Bytes<'a>,
    found: Found<'f>,
}

/// The file that a statement loads, with the name of the anchors into which it is loaded.
fn loading_in<'a, 'f>(statement: &Statement<'a, 'f>) -> Option<Loading<'a, 'f>>
    ensures { result ≡ spec.loading_in statement.now }
{
    match statement {
        Statement::Load(anchor, naming) => Some(Loading {
            anchor: Bytes::new(anchor.as_slice()),
            found: copied(&naming.found),
        }),
        _ => None,
    }
}

/// The files that statements load. Most texts load none, and each anchor is looked for among these.
fn loadings<'a, 'f>(
    alloc: Global,
    statements: &[Statement<'a, 'f>],
) -> Result<Items<Loading<'a, 'f>>, AllocError>
    ensures { IfOk result (λ loadings. loadings ≡ spec.loadings statements.now) }
{
    let mut loadings = Items::new(alloc);
    for statement in statements {
        if let Some(loading) = loading_in(statement) {
            loadings.push(loading)?;
        }
    }
    Ok(loadings)
}

/// The file that the first statement for anchors of this name loads into them.
fn loaded<'f>(name: &[u8], loadings: &[Loading<'_, 'f>]) -> Option<Found<'f>>
    ensures { result ≡ spec.loaded name.now loadings.now }
{
    for loading in loadings {
        if loading.anchor.as_slice() == name {
            return Some(copied(&loading.found));
        }
    }
    None
}

/// The splice that gives an anchor the rules of the file that is loaded into it.
#[tactic(auto, unfolding(crate::specs::Splices::rules_splice))]
fn rules_splice<'f>(anchor: &Anchor<'_>, loadings: &[Loading<'_, 'f>]) -> Option<Splice<'f>>
    ensures { result ≡ spec.rules_splice anchor.now loadings.now }
{
    let found = loaded(anchor.name.as_slice(), loadings)?;
    Some(opened(anchor, found))
}

/// The splice that takes a statement `load anchor` out, or gives an anchor the rules that are loaded into it.
fn load_splice<'f>(
    loadings: &[Loading<'_, 'f>],
    statement: &Statement<'_, 'f>,
) -> Option<Splice<'f>>
    ensures { result ≡ spec.load_splice loadings.now statement.now }
{
    match statement {
        Statement::Include(_) => None,
        Statement::Load(_, naming) => Some(replaced(naming, Put::Nothing)),
        Statement::Anchor(anchor) => rules_splice(anchor, loadings),
    }
}

/// The splices for the statements `load anchor` and the anchors that they name.
fn loads<'f>(
    alloc: Global,
    loadings: &[Loading<'_, 'f>],
    statements: &[Statement<'_, 'f>],
) -> Result<Items<Splice<'f>>, AllocError>
    ensures { IfOk result (λ found. found ≡ spec.loads loadings.now statements.now) }
{
    let mut found = Items::new(alloc);
    for statement in statements {
        add(&mut found, load_splice(loadings, statement))?;
    }
    Ok(found)
}

/// What is spliced for the statements of a text: the files that are included, or if there are none, the files that are
/// loaded. They come later, since a file that is included may have the anchor.
#[tactic(auto, unfolding(crate::specs::Splices::splices_for))]
pub(crate) fn splices_for<'f>(
    alloc: Global,
    statements: &[Statement<'_, 'f>],
) -> Result<Items<Splice<'f>>, AllocError>
    ensures { IfOk result (λ found. found ≡ spec.splices_for statements.now) }
{
    let found = includes(alloc, statements)?;
    if found.len() > 0 {
        return Ok(found);
    }
    let loadings = loadings(alloc, statements)?;
    loads(alloc, loadings.as_slice(), statements)
}
