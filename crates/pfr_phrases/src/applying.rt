//! The text that changes make of another one.
ghost use Rattle.std.specs.Prelude.{◌≡◌, ◌≤◌, length, IfOk, OnOk};
ghost use Rattle.std.specs.Fmt.{decimal};
ghost use Rattle.pfr_phrases.specs.Applying as spec;

use crate::change::{Becomes, Change, Words};
use pfr_digits::Tail;
use pfr_items::Items;
use pfr_marks::mark::{BEGINNING, Place};
use std::alloc::{AllocError, Global};

/// A text made of another one by changes.
#[derive(Drop)]
pub struct NewText {
    pub text: Items<u8>,
    /// For each line, the line of the other text that it comes from.
    pub lines: Items<usize>,
}

/// The line behind a line.
fn next_line(line: usize) -> usize
    ensures { result ≡ spec.next_line line }
{
    line.saturating_add(1)
}

/// Words as they are written.
fn spelled(words: Words) -> &'static [u8]
    ensures { result.now ≡ spec.spelled words }
{
    match words {
        Words::KeepState => b"keep state",
        Words::Return => b"return",
        Words::Log => b"log",
        Words::Aggressive =>
            b"timeout { tcp.first 30, tcp.opening 5, tcp.established 18000, tcp.closing 60, tcp.finwait 30, tcp.closed 30 }",
        Words::Conservative =>
            b"timeout { tcp.first 3600, tcp.opening 900, tcp.established 432000, tcp.closing 3600, tcp.finwait 600, tcp.closed 180 }",
        Words::Satellite =>
            b"timeout { tcp.first 180, tcp.opening 35, tcp.established 86400, tcp.closing 905, tcp.finwait 50, tcp.closed 95 }",
    }
}

/// A zero behind a dot for each of `count` parts of an address, three at most.
fn zeros(count: usize) -> &'static [u8]
    ensures { result.now ≡ spec.zeros count }
{
    match count {
        0 => b"",
        1 => b".0",
        2 => b".0.0",
        _ => b".0.0.0",
    }
}

/// Where the first slash of a word stands, or its end.
pub fn slash_in(word: &[u8]) -> usize
    ensures value { result ≡ spec.slash_from 0 word.now }
    ensures within { result ≤ length word.now }
{
    for (before, byte) in word.iter().enumerate() {
        if *byte == b'/' {
            return before;
        }
    }
    word.len()
}

/// How many ends of lines stand for what goes.
fn lines_of(becomes: Becomes) -> usize
    ensures { result ≡ spec.lines_of becomes }
{
    match becomes {
        Becomes::Lines(count) => count,
        _ => 0,
    }
}

/// What stands between two places of a text; nothing if the second isn't behind the first.
pub fn between(text: &[u8], from: usize, to: usize) -> &[u8]
    ensures { result.now ≡ spec.between from to text.now }
{
    let (_, behind) = text.split_at(from.min(text.len()));
    let (found, _) = behind.split_at(to.saturating_sub(from).min(behind.len()));
    found
}

impl NewText {
    /// The empty text: one line, which comes from the first.
    pub(crate) fn new(alloc: Global) -> Result<NewText, AllocError>
        ensures { IfOk result (λ made. made ≡ spec.nothing) }
    {
        let mut lines = Items::new(alloc);
        lines.push(1)?;
        Ok(NewText {
            text: Items::new(alloc),
            lines,
        })
    }

    /// Puts bytes of the other text at the end as they are. They stand there from `line` on.
    pub(crate) fn keep(&mut self, line: usize, bytes: &[u8]) -> Result<(), AllocError>
        ensures { OnOk result (self.new ≡ spec.with_kept self.old line bytes.now) }
    {
        self.text.extend_from_slice(bytes)?;
        let mut last = line;
        for byte in bytes {
            if *byte == b'\n' {
                last = next_line(last);
                self.lines.push(last)?;
            }
        }
        Ok(())
    }

    /// Puts the end of a line at the end; the line behind it comes from `line` of the other text.
    fn put_line(&mut self, line: usize) -> Result<(), AllocError>
        ensures { OnOk result (self.new ≡ spec.with_line self.old line) }
    {
        self.text.push(b'\n')?;
        self.lines.push(line)?;
        Ok(())
    }

    /// Puts `count` ends of lines at the end, which stand for `line` of the other text and those behind it.
    fn put_lines(&mut self, line: usize, count: usize) -> Result<(), AllocError>
        ensures { OnOk result (self.new ≡ spec.with_lines self.old line count) }
    {
        let mut last = line;
        let mut left = count;
        while left > 0 {
            last = next_line(last);
            self.put_line(last)?;
            left -= 1;
        }
        Ok(())
    }

    /// Puts a word at the end, with `count` zeros more before its slash.
    fn put_with_zeros(&mut self, word: &[u8], count: usize) -> Result<(), AllocError>
        ensures { OnOk result (self.new ≡ spec.with_words self.old (spec.word_with_zeros count word.now)) }
    {
        let (front, back) = word.split_at(slash_in(word));
        self.text.extend_from_slice(front)?;
        self.text.extend_from_slice(zeros(count))?;
        self.text.extend_from_slice(back)
    }

    /// Puts a number at the end.
    fn put_number(&mut self, number: u16) -> Result<(), AllocError>
        ensures { OnOk result (self.new ≡ spec.with_words self.old (decimal number)) }
    {
        let mut digits = Tail::new();
        digits.put_number(u64::from(number));
        self.text.extend_from_slice(digits.as_slice())
    }

    /// Puts at the end what is written in the place of a word.
    fn put_words(&mut self, becomes: Becomes, word: &[u8]) -> Result<(), AllocError>
        ensures { OnOk result (self.new ≡ spec.with_words self.old (spec.written becomes word.now)) }
    {
        match becomes {
            Becomes::Nothing | Becomes::Lines(_) => Ok(()),
            Becomes::Words(words) => self.text.extend_from_slice(spelled(words)),
            Becomes::Number(number) => self.put_number(number),
            Becomes::WithZeros(count) => self.put_with_zeros(word, count),
        }
    }

    /// Puts a blank at the end, if one is needed.
    fn put_blank(&mut self, is_needed: bool) -> Result<(), AllocError>
        ensures { OnOk result (self.new ≡ spec.with_blank self.old is_needed) }
    {
        if is_needed {
            self.text.push(b' ')?;
        }
        Ok(())
    }

    /// Puts a text at the end, all lines of which come from `line` of the other text.
    fn put_text(&mut self, line: usize, bytes: &[u8]) -> Result<(), AllocError>
        ensures { OnOk result (self.new ≡ spec.with_text self.old line bytes.now) }
    {
        self.text.extend_from_slice(bytes)?;
        for byte in bytes {
            if *byte == b'\n' {
                self.lines.push(line)?;
            }
        }
        Ok(())
    }

    /// Puts the text of a change at the end, if it has one.
    fn put_given(&mut self, change: &Change<'_>) -> Result<(), AllocError>
        ensures { OnOk result (self.new ≡ spec.with_given self.old change.now) }
    {
        match &change.text {
            Some(text) => self.put_text(change.finding.place.line, text.bytes.as_slice()),
            None => Ok(()),
        }
    }

    /// Puts what a change writes at the end, behind what stands in the other text between a place and the change.
    pub(crate) fn put(
        &mut self,
        text: &[u8],
        place: Place,
        change: &Change<'_>,
    ) -> Result<(), AllocError>
        ensures { OnOk result (self.new ≡ spec.with_change text.now self.old place change.now) }
    {
        self.keep(place.line, between(text, place.offset, change.from))?;
        self.put_blank(change.parted)?;
        self.put_given(change)?;
        self.put_words(change.becomes, change.finding.word.as_slice())?;
        let lines = lines_of(change.becomes);
        self.put_lines(change.to.line.saturating_sub(lines), lines)?;
        self.put_blank(change.blank)
    }
}

/// The text that changes make of a text: what they name goes, what they write stands in its place, and all else is as
/// it was.
#[tactic(auto, unfolding(crate::specs::Applying::rewritten))]
pub fn rewritten(alloc: Global, text: &[u8], changes: &[Change<'_>]) -> Result<NewText, AllocError>
    ensures { IfOk result (λ made. made ≡ spec.rewritten text.now changes.now) }
{
    let mut made = NewText::new(alloc)?;
    let mut place = BEGINNING;
    for change in changes {
        made.put(text, place, change)?;
        place = change.to;
    }
    let (_, rest) = text.split_at(place.offset.min(text.len()));
    made.keep(place.line, rest)?;
    Ok(made)
}
