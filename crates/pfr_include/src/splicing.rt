//! The text that splices make of another one.
ghost use Rattle.std.specs.Prelude.{◌≡◌, [], IfOk, OnOk};
ghost use Rattle.pfr_include.specs.Splicing as spec;

use crate::file::Found;
use crate::splices::{Put, Splice};
use pfr_items::Items;
use pfr_marks::mark::{BEGINNING, Place};
use std::alloc::{AllocError, Global};

/// Where a line comes from.
#[derive(Clone, Copy, Debug, PartialEq, Eq)]
pub struct Origin {
    /// 0 is the ruleset itself, other numbers are those of files, from 1.
    pub file: usize,
    /// From 1.
    pub line: usize,
}

/// A statement in whose place a file stands.
#[derive(Clone, Copy, Debug, PartialEq, Eq)]
pub struct Spliced {
    /// Where the statement stood.
    pub origin: Origin,
    /// The column of its first word, in bytes, from 1, in the text in which it was found.
    pub column: usize,
    /// The number of the file, from 1.
    pub file: usize,
}

/// A text with files in the place of statements.
#[derive(Drop)]
pub struct Included {
    pub text: Items<u8>,
    /// For each line of the text, where it comes from.
    pub lines: Items<Origin>,
    /// In the order in which they were found.
    pub spliced: Items<Spliced>,
}

/// A text that is being made.
#[derive(Drop)]
pub(crate) struct Made {
    text: Items<u8>,
    /// Where the ended lines come from.
    lines: Items<Origin>,
    /// Where the last one comes from.
    last: Origin,
    spliced: Items<Spliced>,
}

/// The line behind a line.
fn next_line(line: usize) -> usize
    ensures { result ≡ spec.next_line line }
{
    line.saturating_add(1)
}

/// Where a line of a text comes from, by the origins of the text's lines; a line without an origin is the file's own.
pub(crate) fn origin_of(lines: &[Origin], file: usize, line: usize) -> Origin
    ensures { result ≡ spec.origin_of lines.now file line }
{
    match lines.get(line.saturating_sub(1)).copied() {
        Some(origin) => origin,
        None => Origin { file, line },
    }
}

/// What stands between two places of a text; nothing if the second isn't behind the first.
fn between(text: &[u8], from: usize, to: usize) -> &[u8]
    ensures { result.now ≡ spec.between from to text.now }
{
    let (_, behind) = text.split_at(from.min(text.len()));
    let (found, _) = behind.split_at(to.saturating_sub(from).min(behind.len()));
    found
}

/// Whether the last byte of a text ends its line.
fn is_ended(text: &[u8]) -> bool
    ensures { result ≡ spec.is_ended text.now }
{
    match text {
        [.., b'\n'] => true,
        _ => false,
    }
}

impl Made {
    /// The empty text: one line, which comes from `last`.
    fn new(alloc: Global, last: Origin, spliced: Items<Spliced>) -> Made
        ensures { result ≡ spec.nothing last spliced }
    {
        Made {
            text: Items::new(alloc),
            lines: Items::new(alloc),
            last,
            spliced,
        }
    }

    /// Ends the last line; the line behind it comes from `origin`.
    fn end_line(&mut self, origin: Origin) -> Result<(), AllocError>
        ensures { OnOk result (self.new ≡ spec.with_line self.old origin) }
    {
        self.lines.push(self.last)?;
        self.last = origin;
        Ok(())
    }

    /// Puts bytes at the end. They stand in a text with these origins, from `line` on.
    fn keep(
        &mut self,
        lines: &[Origin],
        file: usize,
        line: usize,
        bytes: &[u8],
    ) -> Result<(), AllocError>
        ensures { OnOk result (self.new ≡ spec.with_kept self.old lines.now file line bytes.now) }
    {
        self.text.extend_from_slice(bytes)?;
        let mut last = line;
        for byte in bytes {
            if *byte == b'\n' {
                last = next_line(last);
                self.end_line(origin_of(lines, file, last))?;
            }
        }
        Ok(())
    }

    /// Puts the end of a line at the end; the line behind it comes from `origin`.
    fn put_line(&mut self, origin: Origin) -> Result<(), AllocError>
        ensures { OnOk result (self.new ≡ spec.with_newline self.old origin) }
    {
        self.text.push(b'\n')?;
        self.end_line(origin)
    }

    /// Puts the text of a file at the end, and the end of its last line if that has none.
    fn put_text(&mut self, file: usize, text: &[u8]) -> Result<(), AllocError>
        ensures { OnOk result (self.new ≡ spec.with_text self.old file text.now) }
    {
        self.last = Origin { file, line: 1 };
        self.keep(&[], file, 1, text)?;
        if !is_ended(text) {
            self.put_line(Origin { file, line: 1 })?;
        }
        Ok(())
    }

    /// Puts the text of a file at the end, if it has any; the line behind it comes from `origin`.
    fn put_file(&mut self, found: &Found<'_>, origin: Origin) -> Result<(), AllocError>
        ensures { OnOk result (self.new ≡ spec.with_file self.old found.now origin) }
    {
        let text = found.text.as_slice();
        if !text.is_empty() {
            self.put_text(found.number, text)?;
        }
        self.last = origin;
        Ok(())
    }

    /// Puts the text of a file at the end as rules in braces; the lines of the braces come from `origin`.
    fn put_rules(&mut self, found: &Found<'_>, origin: Origin) -> Result<(), AllocError>
        ensures { OnOk result (self.new ≡ spec.with_rules self.old found.now origin) }
    {
        self.text.extend_from_slice(b" {")?;
        self.put_line(origin)?;
        self.put_file(found, origin)?;
        self.text.extend_from_slice(b"}")
    }

    /// Notes that a file stands in the place of a statement.
    fn note(&mut self, origin: Origin, column: usize, file: usize) -> Result<(), AllocError>
        ensures { OnOk result (self.new ≡ spec.with_note self.old origin column file) }
    {
        self.spliced.push(Spliced {
            origin,
            column,
            file,
        })
    }

    /// Puts at the end what a splice puts. The splice was found in a text with these origins.
    fn put(&mut self, lines: &[Origin], splice: &Splice<'_>) -> Result<(), AllocError>
        ensures { OnOk result (self.new ≡ spec.with_put self.old lines.now splice.now) }
    {
        let statement = origin_of(lines, 0, splice.statement.line);
        let origin = origin_of(lines, 0, splice.start.line);
        let column = splice.statement.column;
        match &splice.put {
            Put::Nothing => Ok(()),
            Put::File(found) => {
                self.note(statement, column, found.number)?;
                self.put_file(found, origin)
            }
            Put::Rules(found) => {
                self.note(statement, column, found.number)?;
                self.put_rules(found, origin)
            }
        }
    }

    /// Puts a splice at the end, behind what stands in the other text between a place and the splice.
    fn put_splice(
        &mut self,
        text: &[u8],
        lines: &[Origin],
        place: Place,
        splice: &Splice<'_>,
    ) -> Result<(), AllocError>
        ensures { OnOk result (self.new ≡ spec.with_splice text.now lines.now self.old place splice.now) }
    {
        let bytes = between(text, place.offset, splice.start.offset);
        self.keep(lines, 0, place.line, bytes)?;
        self.put(lines, splice)
    }

    /// The text, with the last line's origin behind the others.
    fn finished(self) -> Result<Included, AllocError>
        ensures { IfOk result (λ made. made ≡ spec.finished self) }
    {
        let mut lines = self.lines;
        lines.push(self.last)?;
        Ok(Included {
            text: self.text,
            lines,
            spliced: self.spliced,
        })
    }
}

/// The ruleset itself: its lines come from itself.
#[tactic(auto, unfolding(crate::specs::Splicing::itself))]
pub(crate) fn itself(alloc: Global, text: &[u8]) -> Result<Included, AllocError>
    ensures { IfOk result (λ made. made ≡ spec.itself text.now) }
{
    let mut made = Made::new(alloc, Origin { file: 0, line: 1 }, Items::new(alloc));
    made.keep(&[], 0, 1, text)?;
    made.finished()
}

/// Puts splices of a text one behind the other, and what stands behind the last one.
fn put_all(
    made: &mut Made,
    text: &[u8],
    lines: &[Origin],
    splices: &[Splice<'_>],
) -> Result<(), AllocError>
    ensures { OnOk result (made.new ≡ spec.with_splices text.now lines.now made.old spec.beginning splices.now) }
{
    let mut place = BEGINNING;
    for splice in splices {
        made.put_splice(text, lines, place, splice)?;
        place = splice.end;
    }
    let (_, rest) = text.split_at(place.offset.min(text.len()));
    made.keep(lines, 0, place.line, rest)
}

/// The text that splices make of a text.
#[tactic(auto, unfolding(crate::specs::Splicing::after))]
pub(crate) fn after(
    alloc: Global,
    before: &Included,
    splices: &[Splice<'_>],
) -> Result<Included, AllocError>
    ensures { IfOk result (λ made. made ≡ spec.after before.now splices.now) }
{
    let lines = before.lines.as_slice();
    let spliced = Items::copied(alloc, before.spliced.as_slice())?;
    let mut made = Made::new(alloc, origin_of(lines, 0, 1), spliced);
    put_all(&mut made, before.text.as_slice(), lines, splices)?;
    made.finished()
}
