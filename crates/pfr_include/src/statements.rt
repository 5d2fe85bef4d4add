//! The statements that name files.
ghost use Rattle.std.specs.Prelude.{◌≡◌, ◌++◌, IfOk, OnOk};
ghost use Rattle.pfr_include.specs.Positions.{first};
ghost use Rattle.pfr_include.specs.Statements as spec;

use crate::file::{File, Found, name_of, named_file};
use crate::position::{FIRST, Position, depth_behind, ends_line};
use pfr_items::Items;
use pfr_marks::mark::{Mark, Place, is};
use pfr_words::Bytes;
use std::alloc::{AllocError, Global};

/// A statement that names a file.
#[derive(Drop)]
pub(crate) struct Naming<'f> {
    pub start: Place,
    /// Where its last word ends.
    pub end: Place,
    pub found: Found<'f>,
}

/// An anchor on whose line nothing is open.
#[derive(Drop)]
pub(crate) struct Anchor<'a> {
    pub start: Place,
    /// Where the last word of its line ends.
    pub end: Place,
    /// Without quotes.
    pub name: Bytes<'a>,
}

/// A statement that may be spliced.
#[derive(Drop)]
pub(crate) enum Statement<'a, 'f> {
    /// `include NAME`
    Include(Naming<'f>),
    /// `load anchor NAME from NAME`, with the anchor's name.
    Load(Bytes<'a>, Naming<'f>),
    /// `anchor NAME ..` without rules of its own.
    Anchor(Anchor<'a>),
}

/// A statement that begins at `start` and ends with the name of a file, by what stands behind its other words: one
/// word, which names a file.
#[tactic(auto, unfolding(crate::specs::Statements::naming_at))]
fn naming_at<'f>(files: &[File<'f>], start: Place, marks: &[Mark<'_>]) -> Option<Naming<'f>>
    ensures { result ≡ spec.naming_at files.now start marks.now }
{
    let named = marks.first()?;
    if !ends_line(&marks[1..]) {
        return None;
    }
    let found = named_file(files, named.piece.as_slice())?;
    Some(Naming {
        start,
        end: named.end,
        found,
    })
}

/// A statement by what stands behind `include`: the name of a file.
#[tactic(auto, unfolding(crate::specs::Statements::include_of))]
fn include_of<'a, 'f>(
    files: &[File<'f>],
    start: Place,
    behind: &[Mark<'a>],
) -> Option<Statement<'a, 'f>>
    ensures { result ≡ spec.include_of files.now start behind.now }
{
    let naming = naming_at(files, start, behind)?;
    Some(Statement::Include(naming))
}

/// A statement by what stands behind `load anchor NAME`: `from` and the name of a file.
#[tactic(auto, unfolding(crate::specs::Statements::from_at))]
fn from_at<'f>(files: &[File<'f>], start: Place, marks: &[Mark<'_>]) -> Option<Naming<'f>>
    ensures { result ≡ spec.from_at files.now start marks.now }
{
    let word = marks.first()?;
    if is(word, b"from") {
        naming_at(files, start, &marks[1..])
    } else {
        None
    }
}

/// A statement by what stands behind `load anchor`: a name, `from` and the name of a file.
#[tactic(auto, unfolding(crate::specs::Statements::loading_at))]
fn loading_at<'a, 'f>(
    files: &[File<'f>],
    start: Place,
    marks: &[Mark<'a>],
) -> Option<Statement<'a, 'f>>
    ensures { result ≡ spec.loading_at files.now start marks.now }
{
    let named = marks.first()?;
    let name = name_of(named.piece.as_slice())?;
    let naming = from_at(files, start, &marks[1..])?;
    Some(Statement::Load(name, naming))
}

/// A statement by what stands behind `load`.
#[tactic(auto, unfolding(crate::specs::Statements::load_of))]
fn load_of<'a, 'f>(
    files: &[File<'f>],
    start: Place,
    behind: &[Mark<'a>],
) -> Option<Statement<'a, 'f>>
    ensures { result ≡ spec.load_of files.now start behind.now }
{
    let word = behind.first()?;
    if is(word, b"anchor") {
        loading_at(files, start, &behind[1..])
    } else {
        None
    }
}

/// A place, if no brace is open there.
fn place_outside(depth: usize, place: Place) -> Option<Place>
    ensures { result ≡ spec.place_outside depth place }
{
    if depth == 0 { Some(place) } else { None }
}

/// Where the last word of a line ends, if a word ends at `place` and `marks` follow it; none if a brace is open there.
#[tactic(auto, unfolding(crate::specs::Statements::end_of_line))]
fn end_of_line(place: Place, marks: &[Mark<'_>]) -> Option<Place>
    ensures { result ≡ spec.end_of_line place marks.now }
{
    let mut end = place;
    let mut depth = 0;
    for mark in marks {
        if is(mark, b"\n") {
            return place_outside(depth, end);
        }
        end = mark.end;
        depth = depth_behind(depth, mark);
    }
    place_outside(depth, end)
}

/// A statement by what stands behind `anchor`: a name, and whatever follows it on the line.
#[tactic(auto, unfolding(crate::specs::Statements::anchor_of))]
fn anchor_of<'a, 'f>(start: Place, behind: &[Mark<'a>]) -> Option<Statement<'a, 'f>>
    ensures { result ≡ spec.anchor_of start behind.now }
{
    let named = behind.first()?;
    let name = name_of(named.piece.as_slice())?;
    let end = end_of_line(named.end, &behind[1..])?;
    Some(Statement::Anchor(Anchor { start, end, name }))
}

/// The statement at the front of marks.
#[tactic(auto, unfolding(crate::specs::Statements::statement_at))]
fn statement_at<'a, 'f>(files: &[File<'f>], marks: &[Mark<'a>]) -> Option<Statement<'a, 'f>>
    ensures { result ≡ spec.statement_at files.now marks.now }
{
    let first = marks.first()?;
    let behind = &marks[1..];
    if is(first, b"include") {
        return include_of(files, first.start, behind);
    }
    if is(first, b"load") {
        return load_of(files, first.start, behind);
    }
    if is(first, b"anchor") {
        return anchor_of(first.start, behind);
    }
    None
}

/// Puts the statement at the front of marks behind those so far, if one begins there.
fn step<'a, 'f>(
    found: &mut Items<Statement<'a, 'f>>,
    files: &[File<'f>],
    position: Position,
    marks: &[Mark<'a>],
) -> Result<(), AllocError>
    ensures { OnOk result (found.new ≡ found.old ++ spec.statements_at files.now position marks.now) }
{
    if !position.begins_statement() {
        return Ok(());
    }
    match statement_at(files, marks) {
        Some(statement) => found.push(statement),
        None => Ok(()),
    }
}

/// The statements of a text that may be spliced.
pub(crate) fn statements<'a, 'f>(
    alloc: Global,
    files: &[File<'f>],
    marks: &[Mark<'a>],
) -> Result<Items<Statement<'a, 'f>>, AllocError>
    ensures { IfOk result (λ found. found ≡ spec.statements_from files.now first marks.now) }
{
    let mut found = Items::new(alloc);
    let mut position = FIRST;
    for at in 0..marks.len() {
        let here = &marks[at..];
        step(&mut found, files, position, here)?;
        position = position.behind(here);
    }
    Ok(found)
}
