//! The words that are left without a statement that is at fault.
ghost use Rattle.std.specs.Prelude.{◌≡◌, ◌≤◌, ◌++◌, length, take, drop, IfOk, OnOk};
ghost use Rattle.std.specs.Option.{option_copied};
ghost use Rattle.pfr_faults.specs.Leaving as spec;

use pfr_items::Items;
use pfr_marks::mark::{Mark, begins_with, is};
use pfr_words::Bytes;
use std::alloc::{AllocError, Global};

/// Where a word stands in its statement.
#[derive(Clone, Copy)]
pub(crate) struct Within {
    /// How many braces of lists are open before it.
    depth: usize,
    /// Whether it is the statement's first.
    is_first: bool,
    /// Whether the statement is an anchor, so that a brace opens its body.
    is_anchor: bool,
}

/// At the beginning of a statement.
const BEGINNING: Within = Within {
    depth: 0,
    is_first: true,
    is_anchor: false,
};

impl Within {
    /// Whether the statement is an anchor, as known behind a word, which may be its first.
    fn is_anchor_behind(self, mark: &Mark<'_>) -> bool
        ensures { result ≡ spec.is_anchor_behind self mark.now }
    {
        if self.is_first {
            is(mark, b"anchor")
        } else {
            self.is_anchor
        }
    }

    /// How many braces of lists are open behind a word.
    fn depth_behind(self, mark: &Mark<'_>) -> usize
        ensures { result ≡ spec.depth_behind self mark.now }
    {
        if is(mark, b"{") {
            self.depth.saturating_add(1)
        } else if is(mark, b"}") {
            self.depth.saturating_sub(1)
        } else {
            self.depth
        }
    }

    /// Whether a word opens the body of the statement, which is an anchor.
    fn opens_body(self, mark: &Mark<'_>) -> bool
        ensures { result ≡ spec.opens_body self mark.now }
    {
        self.is_anchor && is(mark, b"{")
    }

    /// Whether the statement ends before a word, and another one begins behind it: at the end of a line, and where the
    /// body of an anchor begins or ends.
    fn ends_at(self, mark: &Mark<'_>) -> bool
        ensures { result ≡ spec.ends_at self mark.now }
    {
        self.depth == 0 && (is(mark, b"\n") || is(mark, b"}") || self.opens_body(mark))
    }

    /// Where the word behind another one stands.
    fn behind(self, mark: &Mark<'_>) -> Within
        ensures { result ≡ spec.behind self mark.now }
    {
        if self.ends_at(mark) {
            return BEGINNING;
        }
        Within {
            depth: self.depth_behind(mark),
            is_first: false,
            is_anchor: self.is_anchor_behind(mark),
        }
    }

    /// Where the word behind one at fault stands. A brace that nothing closes opens nothing.
    fn behind_fault(self, mark: &Mark<'_>, is_open: bool) -> Within
        ensures { result ≡ spec.behind_fault self mark.now is_open }
    {
        let depth = if is_open {
            self.depth
        } else {
            self.depth_behind(mark)
        };
        Within {
            depth,
            is_first: false,
            is_anchor: self.is_anchor_behind(mark),
        }
    }
}

/// Where a word stands, and how many words stand before its statement.
#[derive(Clone, Copy)]
struct At {
    begin: usize,
    within: Within,
}

impl At {
    /// Where the word behind the one at `here` stands.
    fn behind(self, here: usize, mark: &Mark<'_>) -> At
        ensures { result ≡ spec.at_behind self here mark.now }
    {
        let begin = if self.within.ends_at(mark) {
            here.saturating_add(1)
        } else {
            self.begin
        };
        At {
            begin,
            within: self.within.behind(mark),
        }
    }
}

/// Where the word behind others stands.
fn at_behind_all(marks: &[Mark<'_>]) -> At
    ensures { result ≡ spec.at_from spec.start 0 marks.now }
{
    let mut at = At {
        begin: 0,
        within: BEGINNING,
    };
    for (here, mark) in marks.iter().enumerate() {
        at = at.behind(here, mark);
    }
    at
}

/// How many of the words behind one belong to its statement.
fn rest_len(within: Within, marks: &[Mark<'_>]) -> usize
    ensures value { result ≡ spec.rest_from within 0 marks.now }
    ensures within { result ≤ length marks.now }
{
    let mut here = within;
    for (before, mark) in marks.iter().enumerate() {
        if here.ends_at(mark) {
            return before;
        }
        here = here.behind(mark);
    }
    marks.len()
}

/// How many words there are up to the first `>`, with it; none if there is no such sign.
fn angle_len(marks: &[Mark<'_>]) -> usize
    ensures { result ≡ spec.angle_from 0 marks.now }
{
    for (before, mark) in marks.iter().enumerate() {
        if is(mark, b">") {
            return before.saturating_add(1);
        }
    }
    0
}

/// How many words of a statement stay though it is at fault, so that what depends on it isn't a fault too: the name of
/// a table, and the first word of an anchor whose body stands behind it.
fn kept_of(statement: &[Mark<'_>], behind: &[Mark<'_>]) -> usize
    ensures { result ≡ spec.kept_of statement.now behind.now }
{
    if begins_with(statement, b"table") {
        angle_len(statement)
    } else if begins_with(statement, b"anchor") && begins_with(behind, b"{") {
        1
    } else {
        0
    }
}

/// How many words of a statement stay; none if these are all.
fn kept_len(statement: &[Mark<'_>], behind: &[Mark<'_>]) -> usize
    ensures { result ≡ spec.kept_len statement.now behind.now }
{
    let kept = kept_of(statement, behind);
    if kept < statement.len() { kept } else { 0 }
}

/// A word with its places.
fn copied<'a>(mark: &Mark<'a>) -> Mark<'a>
    ensures { result ≡ mark.now }
{
    Mark {
        start: mark.start,
        end: mark.end,
        piece: Bytes::new(mark.piece.as_slice()),
    }
}

/// Puts words behind others.
fn put_all<'a>(words: &mut Items<Mark<'a>>, marks: &[Mark<'a>]) -> Result<(), AllocError>
    ensures { OnOk result (words.new ≡ words.old ++ marks.now) }
{
    for mark in marks {
        words.push(copied(mark))?;
    }
    Ok(())
}

/// Words with their places.
pub(crate) fn copied_all<'a>(
    alloc: Global,
    marks: &[Mark<'a>],
) -> Result<Items<Mark<'a>>, AllocError>
    ensures { IfOk result (λ words. words ≡ marks.now) }
{
    let mut words = Items::new(alloc);
    put_all(&mut words, marks)?;
    Ok(words)
}

/// A part of some words: how many stand before it, and how many with it.
#[derive(Clone, Copy)]
struct Part {
    from: usize,
    to: usize,
}

/// How many of the words behind one at fault belong to its statement: none if it ends one itself.
fn rest_behind(within: Within, fault: &Mark<'_>, is_open: bool, marks: &[Mark<'_>]) -> usize
    ensures { result ≡ spec.rest_behind within fault.now is_open marks.now }
{
    if within.ends_at(fault) {
        return 0;
    }
    rest_len(within.behind_fault(fault, is_open), marks)
}

/// How many words stand before the end of a statement; `marks` are the words from the one at `fault` on.
fn end_behind(within: Within, fault: usize, is_open: bool, marks: &[Mark<'_>]) -> usize
    ensures { result ≡ spec.end_behind within fault is_open marks.now }
{
    match marks {
        [] => fault,
        [first, rest @ ..] => fault
            .saturating_add(1)
            .saturating_add(rest_behind(within, first, is_open, rest)),
    }
}

/// The statement of the word at `fault`.
#[tactic(auto, unfolding(crate::specs::Leaving::statement_of))]
fn statement_of(fault: usize, is_open: bool, marks: &[Mark<'_>]) -> Part
    ensures { result ≡ spec.statement_of fault is_open marks.now }
{
    let (before, behind) = marks.split_at(fault.min(marks.len()));
    let at = at_behind_all(before);
    Part {
        from: at.begin,
        to: end_behind(at.within, fault, is_open, behind),
    }
}

/// The first `count` words, or all if there are fewer.
fn first_of<'m, 'a>(count: usize, marks: &'m [Mark<'a>]) -> &'m [Mark<'a>]
    ensures { result.now ≡ take count marks.now }
{
    let (front, _) = marks.split_at(count.min(marks.len()));
    front
}

/// The words behind the first `count`, or none if there are fewer.
fn behind_of<'m, 'a>(count: usize, marks: &'m [Mark<'a>]) -> &'m [Mark<'a>]
    ensures { result.now ≡ drop count marks.now }
{
    let (_, behind) = marks.split_at(count.min(marks.len()));
    behind
}

/// Three parts of some words, one behind the other.
fn put_parts<'a>(
    alloc: Global,
    front: &[Mark<'a>],
    kept: &[Mark<'a>],
    behind: &[Mark<'a>],
) -> Result<Items<Mark<'a>>, AllocError>
    ensures { IfOk result (λ words. words ≡ (front.now ++ kept.now) ++ behind.now) }
{
    let mut words = Items::new(alloc);
    put_all(&mut words, front)?;
    put_all(&mut words, kept)?;
    put_all(&mut words, behind)?;
    Ok(words)
}

/// The name of the macro that a statement defines, if it defines one.
fn defined<'m, 'a>(statement: &'m [Mark<'a>]) -> Option<&'m Mark<'a>>
    ensures { option_copied result ≡ spec.defined statement.now }
{
    match statement {
        [name, second, ..] if is(second, b"=") => Some(name),
        _ => None,
    }
}

/// Words without a statement that is at fault.
#[derive(Drop)]
pub(crate) struct Left<'a> {
    pub marks: Items<Mark<'a>>,
    /// The names of macros that aren't defined any more.
    pub undefined: Items<Mark<'a>>,
    /// The first words of statements that are cut down to what stays of them.
    pub cut: Items<Mark<'a>>,
}

/// Puts the name of the macro that a statement defines behind others.
fn put_defined<'a>(names: &mut Items<Mark<'a>>, statement: &[Mark<'a>]) -> Result<(), AllocError>
    ensures { OnOk result (names.new ≡ names.old ++ spec.names_in statement.now) }
{
    match defined(statement) {
        Some(name) => names.push(copied(name)),
        None => Ok(()),
    }
}

/// Names of macros, and behind them the name of the macro that a statement defines.
fn with_defined<'a>(
    alloc: Global,
    names: &[Mark<'a>],
    statement: &[Mark<'a>],
) -> Result<Items<Mark<'a>>, AllocError>
    ensures { IfOk result (λ more. more ≡ names.now ++ spec.names_in statement.now) }
{
    let mut more = copied_all(alloc, names)?;
    put_defined(&mut more, statement)?;
    Ok(more)
}

/// Words, and behind them the first of others, if there is one.
fn with_first<'a>(
    alloc: Global,
    words: &[Mark<'a>],
    others: &[Mark<'a>],
) -> Result<Items<Mark<'a>>, AllocError>
    ensures { IfOk result (λ more. more ≡ words.now ++ spec.first_in others.now) }
{
    let mut more = copied_all(alloc, words)?;
    put_all(&mut more, first_of(1, others))?;
    Ok(more)
}

/// Whether a word stands where another one does.
fn is_at(word: &Mark<'_>, other: &Mark<'_>) -> bool
    ensures { result ≡ spec.is_at word.now other.now }
{
    word.start.offset == other.start.offset
}

/// Whether a word stands where one of others does.
fn is_among(word: &Mark<'_>, others: &[Mark<'_>]) -> bool
    ensures { result ≡ spec.is_among word.now others.now }
{
    for other in others {
        if is_at(word, other) {
            return true;
        }
    }
    false
}

impl<'a> Left<'a> {
    /// All words of a text.
    pub(crate) fn of(alloc: Global, marks: &[Mark<'a>]) -> Result<Left<'a>, AllocError>
        ensures { IfOk result (λ left. left ≡ spec.all_left marks.now) }
    {
        Ok(Left {
            marks: copied_all(alloc, marks)?,
            undefined: Items::new(alloc),
            cut: Items::new(alloc),
        })
    }

    /// The same without the statement of the word at `fault`, which may be a brace that nothing closes.
    #[tactic(auto, unfolding(crate::specs::Leaving::left_without))]
    pub(crate) fn without(
        &self,
        alloc: Global,
        fault: usize,
        is_open: bool,
    ) -> Result<Left<'a>, AllocError>
        ensures { IfOk result (λ left. left ≡ spec.left_without fault is_open self.now) }
    {
        let marks = self.marks.as_slice();
        let part = statement_of(fault, is_open, marks);
        let before = first_of(part.to, marks);
        let statement = behind_of(part.from, before);
        let behind = behind_of(part.to, marks);
        let kept = first_of(kept_len(statement, behind), statement);
        Ok(Left {
            marks: put_parts(alloc, first_of(part.from, before), kept, behind)?,
            undefined: with_defined(alloc, self.undefined.as_slice(), statement)?,
            cut: with_first(alloc, self.cut.as_slice(), kept)?,
        })
    }
}

impl Left<'_> {
    /// Whether the statement of the word at `fault` was cut down before.
    #[tactic(auto, unfolding(crate::specs::Leaving::is_cut))]
    pub(crate) fn is_cut(&self, fault: usize, is_open: bool) -> bool
        ensures { result ≡ spec.is_cut fault is_open self.now }
    {
        let marks = self.marks.as_slice();
        match marks.get(statement_of(fault, is_open, marks).from) {
            Some(first) => is_among(first, self.cut.as_slice()),
            None => false,
        }
    }
}

/// Whether the name of a macro that is used ends where these bytes begin.
fn ends_name(bytes: &[u8]) -> bool
    ensures { result ≡ spec.ends_name bytes.now }
{
    match bytes {
        [] => true,
        [first, ..] => *first == b':' || *first == b'/',
    }
}

/// Whether bytes begin with a name, and it ends there.
fn begins_with_name(bytes: &[u8], name: &[u8]) -> bool
    ensures { result ≡ spec.begins_with_name bytes.now name.now }
{
    let (_, behind) = bytes.split_at(name.len().min(bytes.len()));
    bytes.starts_with(name) && ends_name(behind)
}

/// Whether a word uses the macro of a name, which may be one that no macro may have.
fn uses(word: &[u8], name: &[u8]) -> bool
    ensures { result ≡ spec.uses word.now name.now }
{
    match word {
        [first, rest @ ..] => *first == b'$' && begins_with_name(rest, name),
        [] => false,
    }
}

/// Whether a word uses a macro of one of these names.
pub(crate) fn uses_any(word: &[u8], names: &[Mark<'_>]) -> bool
    ensures { result ≡ spec.uses_any word.now names.now }
{
    for name in names {
        if uses(word, name.piece.as_slice()) {
            return true;
        }
    }
    false
}
