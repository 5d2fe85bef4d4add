//! All that the strict reader refuses of a text.
ghost use Rattle.std.specs.Prelude.{◌≡◌, ◌++◌, IfOk, OnOk};
ghost use Rattle.std.specs.Option.{option_copied};
ghost use Rattle.pfr_faults.specs.Faults as spec;

use crate::leaving::{Left, uses_any};
use crate::spread::{is_too_long, spread_out, word_on};
use pfr_expand::ruleset_of;
use pfr_items::Items;
use pfr_marks::mark::{BEGINNING, Mark, Place, marks};
use pfr_ruleset::Interface;
use pfr_terms::{ConfError, ConfErrorKind};
use pfr_words::Bytes;
use std::alloc::{AllocError, Global};

/// How many faults are found at most.
const MOST_FAULTS: usize = 100;

/// A fault of a text.
#[derive(Drop)]
pub struct Fault<'a> {
    /// Where the word begins.
    pub place: Place,
    /// The word at fault, or the one behind which a word is missing.
    pub word: Bytes<'a>,
    pub kind: ConfErrorKind,
}

/// A fault of some words, and how many of them stand before the one at fault.
#[derive(Drop)]
struct Hit {
    at: usize,
    kind: ConfErrorKind,
}

/// The first fault of a text, if it has one.
fn first_fault(
    alloc: Global,
    text: &[u8],
    interfaces: &[Interface],
) -> Result<Option<ConfError>, AllocError>
    ensures { IfOk result (λ fault. fault ≡ spec.first_fault text.now interfaces.now) }
{
    match ruleset_of(alloc, text, interfaces) {
        Ok(_) => Ok(None),
        Err(fault) => match fault.kind {
            ConfErrorKind::Memory => Err(AllocError),
            _ => Ok(Some(fault)),
        },
    }
}

fn hit_at(at: Option<usize>, kind: ConfErrorKind) -> Option<Hit>
    ensures { result ≡ spec.hit_at at kind }
{
    match at {
        Some(at) => Some(Hit { at, kind }),
        None => None,
    }
}

/// The first fault of some words.
#[tactic(auto, unfolding(crate::specs::Faults::first_hit))]
fn first_hit(
    alloc: Global,
    marks: &[Mark<'_>],
    interfaces: &[Interface],
) -> Result<Option<Hit>, AllocError>
    ensures { IfOk result (λ hit. hit ≡ spec.first_hit marks.now interfaces.now) }
{
    let spread = spread_out(alloc, marks)?;
    match first_fault(alloc, spread.text.as_slice(), interfaces)? {
        Some(fault) => Ok(hit_at(word_on(spread.separator, fault.line, marks), fault.kind)),
        None => Ok(None),
    }
}

/// A fault at a word; at the beginning of the text if there is none.
fn fault_at<'a>(mark: Option<&Mark<'a>>, kind: ConfErrorKind) -> Fault<'a>
    ensures { result ≡ spec.fault_at (option_copied mark.entry) kind }
{
    match mark {
        Some(mark) => Fault {
            place: mark.start,
            word: Bytes::new(mark.piece.as_slice()),
            kind,
        },
        None => Fault {
            place: BEGINNING,
            word: Bytes::new(&[]),
            kind,
        },
    }
}

/// Whether a fault is a brace or a quote that nothing closes.
fn is_open(kind: &ConfErrorKind) -> bool
    ensures { result ≡ spec.is_open kind.now }
{
    match kind {
        ConfErrorKind::Unterminated => true,
        _ => false,
    }
}

/// Whether a fault is said: not the use of a macro whose definition is at fault itself.
#[tactic(auto, unfolding(crate::specs::Faults::is_said))]
fn is_said(fault: &Fault<'_>, undefined: &[Mark<'_>]) -> bool
    ensures { result ≡ spec.is_said fault.now undefined.now }
{
    match &fault.kind {
        ConfErrorKind::UndefinedMacro | ConfErrorKind::UnknownWord => {
            !uses_any(fault.word.as_slice(), undefined)
        }
        _ => true,
    }
}

/// Puts a fault behind those so far, if it is said: not one of a statement that was cut down.
fn put<'a>(
    found: &mut Items<Fault<'a>>,
    fault: Fault<'a>,
    is_cut: bool,
    undefined: &[Mark<'_>],
) -> Result<(), AllocError>
    ensures { OnOk result (found.new ≡ found.old ++ spec.if_said fault.entry is_cut undefined.now) }
{
    if !is_cut && is_said(&fault, undefined) {
        found.push(fault)
    } else {
        Ok(())
    }
}

/// Puts the first fault of some words behind those so far, and leaves its statement out. Answers whether there was
/// one, so that there may be more.
fn find<'a>(
    alloc: Global,
    found: &mut Items<Fault<'a>>,
    left: &mut Left<'a>,
    interfaces: &[Interface],
) -> Result<bool, AllocError>
    ensures found { OnOk result (found.new ≡ found.old ++ spec.fault_list (spec.first_hit left.old.marks interfaces.now) left.old) }
    ensures left { OnOk result (left.new ≡ spec.left_behind (spec.first_hit left.old.marks interfaces.now) left.old) }
    ensures more { IfOk result (λ more. more ≡ spec.goes_on (spec.first_hit left.old.marks interfaces.now)) }
{
    let Some(hit) = first_hit(alloc, left.marks.as_slice(), interfaces)? else {
        return Ok(false);
    };
    let is_open = is_open(&hit.kind);
    let is_cut = left.is_cut(hit.at, is_open);
    let less = left.without(alloc, hit.at, is_open)?;
    let fault = fault_at(left.marks.as_slice().get(hit.at), hit.kind);
    put(found, fault, is_cut, left.undefined.as_slice())?;
    *left = less;
    Ok(true)
}

/// The faults of some words, at most `MOST_FAULTS`: the first one, then the first of the words without its statement,
/// and so on.
#[tactic(auto, unfolding(crate::specs::Faults::faults_of))]
fn faults_of<'a>(
    alloc: Global,
    marks: &[Mark<'a>],
    interfaces: &[Interface],
) -> Result<Items<Fault<'a>>, AllocError>
    ensures { IfOk result (λ faults. faults ≡ spec.faults_of marks.now interfaces.now) }
{
    let mut found = Items::new(alloc);
    let mut words = Left::of(alloc, marks)?;
    let mut left = MOST_FAULTS;
    while left > 0 {
        if !find(alloc, &mut found, &mut words, interfaces)? {
            return Ok(found);
        }
        left -= 1;
    }
    Ok(found)
}

fn is_behind(line: usize, mark: &Mark<'_>) -> bool
    ensures { result ≡ spec.is_behind line mark.now }
{
    line <= mark.start.line
}

/// The first of these words that begins on a line, or behind it.
fn first_on<'m, 'a>(line: usize, marks: &'m [Mark<'a>]) -> Option<&'m Mark<'a>>
    ensures { option_copied result ≡ spec.first_on line marks.now }
{
    for mark in marks {
        if is_behind(line, mark) {
            return Some(mark);
        }
    }
    None
}

fn is_nothing(faults: &[Fault<'_>]) -> bool
    ensures { result ≡ spec.is_nothing faults.now }
{
    faults.is_empty()
}

/// A fault as the only one of a text.
fn alone<'a>(
    alloc: Global,
    fault: ConfError,
    marks: &[Mark<'a>],
) -> Result<Items<Fault<'a>>, AllocError>
    ensures { IfOk result (λ faults. faults ≡ spec.alone fault marks.now) }
{
    let mut found = Items::new(alloc);
    found.push(fault_at(first_on(fault.line, marks), fault.kind))?;
    Ok(found)
}

/// The faults of a text that has this one first. If its words have none by themselves, it is the only one.
#[tactic(auto, unfolding(crate::specs::Faults::faults_behind))]
fn faults_behind<'a>(
    alloc: Global,
    fault: ConfError,
    marks: &[Mark<'a>],
    interfaces: &[Interface],
) -> Result<Items<Fault<'a>>, AllocError>
    ensures { IfOk result (λ faults. faults ≡ spec.faults_behind fault marks.now interfaces.now) }
{
    let found = faults_of(alloc, marks, interfaces)?;
    if is_nothing(found.as_slice()) {
        alone(alloc, fault, marks)
    } else {
        Ok(found)
    }
}

/// The faults of a text for the interfaces of a run, 100 at most: the first one, then the first of the text without the
/// statement at fault, and so on. Of a table at fault the name stays, and of an anchor the body. A text that is too
/// long has this fault alone.
#[tactic(auto, unfolding(crate::specs::Faults::all_faults))]
pub fn all_faults<'a>(
    alloc: Global,
    text: &'a [u8],
    interfaces: &[Interface],
) -> Result<Items<Fault<'a>>, AllocError>
    ensures { IfOk result (λ faults. faults ≡ spec.all_faults text.now interfaces.now) }
{
    let Some(fault) = first_fault(alloc, text, interfaces)? else {
        return Ok(Items::new(alloc));
    };
    let words = marks(alloc, text)?;
    if is_too_long(text) {
        alone(alloc, fault, words.as_slice())
    } else {
        faults_behind(alloc, fault, words.as_slice(), interfaces)
    }
}
