//! Words that are written otherwise by what is known beside them: what is given, the macros and the tables of a text.
ghost use Rattle.std.specs.Prelude.{◌≡◌, ◌≤◌, length, true, IfOk, IfSome, OnOk};
ghost use Rattle.pfr_spelling.specs.Known as spec;

use crate::macros::{Macro, Spelled, define, is_plain, spelled_out, used_value};
use crate::tables::Table;
use pfr_digits::Tail;
use pfr_given::{Given, Subject, count_of, joined};
use pfr_items::Items;
use pfr_marks::mark::{Mark, is};
use pfr_phrases::change::{Becomes, Change, Found, Text, finding_at};
use pfr_phrases::changing::touches;
use pfr_phrases::context::{Context, Says, Within};
use pfr_phrases::reason::Reason;
use pfr_phrases::statements::end_of;
use pfr_phrases::values::{is_network, says_address};
use pfr_words::Bytes;
use pfr_words::names::{is_grammar_word, service_named};
use std::alloc::{AllocError, Global};

/// What is known of a text beside a statement.
#[derive(Drop)]
pub struct Known {
    /// The names of the interfaces that the text is for.
    pub own: Items<Items<u8>>,
    /// The tables that the text names.
    pub tables: Items<Table>,
    /// The macros so far.
    pub macros: Items<Macro>,
    /// How many bytes of the macros' values may still be read.
    pub left: usize,
}

/// Marks that are replaced by a text, for a word among them.
#[derive(Drop)]
pub struct Replaced {
    /// How many marks.
    pub count: usize,
    /// What stands in their place.
    pub text: Text,
    /// Why.
    pub reason: Reason,
}

/// A text in which no words were rewritten.
fn as_given(alloc: Global, bytes: Items<u8>) -> Text
    ensures { result ≡ spec.as_given bytes }
{
    Text {
        bytes,
        reasons: Items::new(alloc),
    }
}

/// Whether a word ends right where a mark begins that isn't plain. A text in the place of the mark may then run into
/// that word.
fn is_parted(context: Context, mark: &Mark<'_>) -> bool
    ensures { result ≡ spec.is_parted context mark.now }
{
    0 < mark.start.offset
        && context.behind.offset == mark.start.offset
        && !is_plain(mark.piece.as_slice())
}

/// How many of the ends of lines in what goes stay: all of a statement or of a list, and none of a line that is
/// continued.
fn kept_lines(context: Context, count: usize) -> usize
    ensures { result ≡ spec.kept_lines context count }
{
    match context.within {
        Within::Nothing => count,
        _ => if context.in_braces { count } else { 0 },
    }
}

/// The first marks as a change that puts a text in their place, for a word among them; nothing without a text or a
/// mark.
#[tactic(auto, unfolding(crate::specs::Known::text_change))]
pub fn text_change<'a>(
    context: Context,
    word: &Mark<'a>,
    marks: &[Mark<'a>],
    replaced: Option<Replaced>,
) -> Option<Found<'a>>
    requires { IfSome replaced (λ found. found.count ≤ length marks.now) }
    ensures { result ≡ spec.text_change context word.now marks.now replaced }
{
    let Replaced {
        count,
        text,
        reason,
    } = replaced?;
    let first = marks.first()?;
    let start = first.start;
    let (gone, behind) = marks.split_at(count);
    let end = end_of(start, gone);
    Some(Found {
        count,
        change: Change {
            from: start.offset,
            parted: is_parted(context, first),
            to: end,
            becomes: Becomes::Lines(kept_lines(context, end.line.saturating_sub(start.line))),
            blank: touches(end, behind),
            finding: finding_at(word, reason),
            text: Some(text),
        },
    })
}

/// What a word names, by what words say.
fn subject_of(says: Says) -> Option<Subject>
    ensures { result ≡ spec.subject_of says }
{
    match says {
        Says::Address | Says::Target => Some(Subject::Address),
        Says::Interface => Some(Subject::Interface),
        Says::Port => Some(Subject::Service),
        _ => None,
    }
}

/// Why a word is written as what is given for it.
fn reason_for(subject: Subject) -> Reason
    ensures { result ≡ spec.reason_for subject }
{
    match subject {
        Subject::Interface => Reason::Group,
        Subject::Service => Reason::Name,
        _ => Reason::Host,
    }
}

/// Whether one value must stand here, and no list.
fn takes_one(context: Context) -> bool
    ensures { result ≡ spec.takes_one context }
{
    context.behind_operator || (context.says == Says::Target && !context.in_braces)
}

/// Texts as a list, with its braces if it needs them.
fn enclosed(alloc: Global, encloses: bool, texts: &[u8]) -> Result<Items<u8>, AllocError>
    ensures { IfOk result (λ made. made ≡ spec.enclosed encloses texts.now) }
{
    if !encloses {
        return Items::copied(alloc, texts);
    }
    let mut made = Items::copied(alloc, b"{ ")?;
    made.extend_from_slice(texts)?;
    made.extend_from_slice(b" }")?;
    Ok(made)
}

/// Whether the strict reader knows a service with this port.
fn is_known_port(name: &[u8], port: &[u8]) -> bool
    ensures { result ≡ spec.is_known_port name.now port.now }
{
    let Some(known) = service_named(name) else {
        return false;
    };
    let mut digits = Tail::new();
    digits.put_number(u64::from(known));
    digits.as_slice() == port
}

/// Whether these texts aren't written for a word: they are its port, or several addresses of a target.
fn are_needless(context: Context, subject: Subject, word: &[u8], texts: &[u8]) -> bool
    ensures { result ≡ spec.are_needless context subject word.now texts.now }
{
    match subject {
        Subject::Service => is_known_port(word, texts),
        Subject::Address => context.says == Says::Target && is_network(texts),
        _ => false,
    }
}

/// Texts as they are written for a word, if they are written.
fn written_texts(
    alloc: Global,
    encloses: bool,
    is_needless: bool,
    texts: &[u8],
) -> Result<Option<Items<u8>>, AllocError>
    ensures { IfOk result (λ text. text ≡ spec.written_texts encloses is_needless texts.now) }
{
    if is_needless {
        return Ok(None);
    }
    Ok(Some(enclosed(alloc, encloses, texts)?))
}

/// What is given for a word as this subject, as it is written in its place.
#[tactic(auto, unfolding(crate::specs::Known::text_for))]
fn text_for(
    alloc: Global,
    given: &Given,
    context: Context,
    subject: Subject,
    spelled: &Spelled<'_>,
) -> Result<Option<Items<u8>>, AllocError>
    ensures { IfOk result (λ text. text ≡ spec.text_for given.now context subject spelled.now) }
{
    let (word, suffix) = (spelled.word.as_slice(), spelled.suffix.as_slice());
    let count = count_of(given, subject, word, suffix);
    if count == 0 || (1 < count && takes_one(context)) || is_grammar_word(word) {
        return Ok(None);
    }
    let texts = joined(alloc, given, subject, word, suffix)?;
    let texts = texts.as_slice();
    let is_needless = are_needless(context, subject, word, texts);
    written_texts(alloc, 1 < count && !context.in_braces, is_needless, texts)
}

/// What stands in the place of `count` marks for this reason, if it is there.
pub fn replaced_by(
    alloc: Global,
    bytes: Option<Items<u8>>,
    count: usize,
    reason: Reason,
) -> Option<Replaced>
    ensures value { result ≡ spec.replaced_by bytes count reason }
    ensures within { IfSome result (λ found. found.count ≡ count) }
{
    Some(Replaced {
        count,
        text: as_given(alloc, bytes?),
        reason,
    })
}

/// What stands for a word that is given, in the place of `count` marks.
fn given_for(
    alloc: Global,
    given: &Given,
    context: Context,
    spelled: &Spelled<'_>,
    count: usize,
) -> Result<Option<Replaced>, AllocError>
    ensures value { IfOk result (λ found. found ≡ spec.given_for given.now context spelled.now count) }
    ensures within { IfOk result (λ found. IfSome found (λ found. found.count ≡ count)) }
{
    let Some(subject) = subject_of(context.says) else {
        return Ok(None);
    };
    let bytes = text_for(alloc, given, context, subject, spelled)?;
    Ok(replaced_by(alloc, bytes, count, reason_for(subject)))
}

/// A word that is given, with the marks round it, as a change.
fn given_change<'a>(
    alloc: Global,
    given: &Given,
    known: &Known,
    context: Context,
    word: &Mark<'a>,
    marks: &[Mark<'a>],
    count: usize,
) -> Result<Option<Found<'a>>, AllocError>
    requires { count ≤ length marks.now }
    ensures { IfOk result (λ found. found ≡ spec.given_change given.now known.now context word.now marks.now count) }
{
    let Some(spelled) = spelled_out(known.macros.as_slice(), word.piece.as_slice()) else {
        return Ok(None);
    };
    let replaced = given_for(alloc, given, context, &spelled, count)?;
    Ok(text_change(context, word, marks, replaced))
}

/// Whether these marks are a word in round brackets.
fn are_bracketed(marks: &[Mark<'_>]) -> bool
    ensures value { result ≡ spec.are_bracketed marks.now }
    ensures within { result ≡ true → 3 ≤ length marks.now }
{
    marks.len() >= 3 && is(&marks[0], b"(") && is(&marks[2], b")")
}

/// `(self)` as a change.
fn own_change<'a>(
    alloc: Global,
    context: Context,
    word: &Mark<'a>,
    marks: &[Mark<'a>],
) -> Result<Option<Found<'a>>, AllocError>
    requires { 3 ≤ length marks.now }
    ensures { IfOk result (λ found. found ≡ spec.own_change context word.now marks.now) }
{
    let bytes = Some(Items::copied(alloc, b"self")?);
    let replaced = replaced_by(alloc, bytes, 3, Reason::Brackets);
    Ok(text_change(context, word, marks, replaced))
}

/// The word at the front of marks that is given, maybe in round brackets, as a change.
#[tactic(auto, unfolding(crate::specs::Known::given_here))]
pub(crate) fn given_here<'a>(
    alloc: Global,
    given: &Given,
    known: &Known,
    context: Context,
    marks: &[Mark<'a>],
) -> Result<Option<Found<'a>>, AllocError>
    ensures { IfOk result (λ found. found ≡ spec.given_here given.now known.now context marks.now) }
{
    if says_address(context.says) && are_bracketed(marks) {
        if is(&marks[1], b"self") {
            return own_change(alloc, context, &marks[1], marks);
        }
        return given_change(alloc, given, known, context, &marks[1], marks, 3);
    }
    match marks.first() {
        Some(word) => given_change(alloc, given, known, context, word, marks, 1),
        None => Ok(None),
    }
}

impl Known {
    /// The value of the macro that the first of these marks uses without a suffix, if it is known and has at most
    /// `left` bytes.
    pub fn value_within<'m>(&'m self, left: usize, marks: &'m [Mark<'_>]) -> Option<Bytes<'m>>
        ensures { result ≡ spec.value_within self.now left marks.now }
    {
        let first = marks.first()?;
        match used_value(self.macros.as_slice(), first.piece.as_slice()) {
            Some(value) if value.as_slice().len() <= left => Some(value),
            _ => None,
        }
    }

    /// The length in bytes of the value of the macro that the first of these marks uses without a suffix; 0 if it isn't
    /// known.
    pub fn value_len(&self, marks: &[Mark<'_>]) -> usize
        ensures { result ≡ spec.value_len self.now marks.now }
    {
        let Some(first) = marks.first() else {
            return 0;
        };
        match used_value(self.macros.as_slice(), first.piece.as_slice()) {
            Some(value) => value.as_slice().len(),
            None => 0,
        }
    }

    /// Goes behind the first of these marks: a macro that is defined there is known from now on, and a value that is
    /// used there was read.
    pub fn go_behind(
        &mut self,
        alloc: Global,
        context: Context,
        marks: &[Mark<'_>],
    ) -> Result<(), AllocError>
        ensures { OnOk result (self.new ≡ spec.known_behind self.old context marks.now) }
    {
        self.left = self.left.saturating_sub(self.value_len(marks));
        define(alloc, &mut self.macros, context, marks)
    }
}
