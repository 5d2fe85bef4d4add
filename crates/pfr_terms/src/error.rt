//! The faults of a ruleset text.
ghost use Rattle.std.specs.Prelude.{◌≡◌, IfOk};
ghost use Rattle.pfr_terms.specs.Faults as faults;
ghost use Rattle.pfr_terms.specs.Input as spec;
ghost use Rattle.pfr_terms.specs.Input.{Refuses};

use pfr_items::Items;
use pfr_words::WordFault;
use std::alloc::{AllocError, Global};
use std::fmt;
use std::fmt::Write;
use thiserror::Error;

/// What a ruleset asks for that this profile leaves out: the word, or a name for what was written.
#[derive(Debug, Drop)]
pub struct LeftOutName {
    pub name: Items<u8>,
}

impl fmt::Display for LeftOutName {
    fn fmt<W: Write>(&self, f: &mut fmt::Formatter<W>) -> fmt::Result {
        for byte in self.name.as_slice() {
            f.write_char(char::from(*byte))?;
        }
        Ok(())
    }
}

/// What is wrong with a ruleset text.
#[derive(Debug, Drop, Error)]
pub enum ConfErrorKind {
    /// A byte that is neither printable ASCII nor a blank, outside of comments.
    #[error("bad byte")]
    BadByte,
    /// A quote or a brace that is never closed.
    #[error("unterminated")]
    Unterminated,
    /// A word that is missing, or that doesn't belong where it stands.
    #[error("unknown word")]
    UnknownWord,
    /// What pf.conf(5) has and this profile leaves out.
    #[error("left out: {0}")]
    LeftOut(LeftOutName),
    /// A number out of its range.
    #[error("bad number")]
    BadNumber,
    /// An address that is none.
    #[error("bad address")]
    BadAddress,
    /// An option behind a rule, or a translation rule behind a filter rule.
    #[error("out of order")]
    OutOfOrder,
    /// An anchor inside of sixteen others.
    #[error("too deep")]
    TooDeep,
    /// Memory was refused while the text was read.
    #[error("no memory")]
    Memory,
    /// A macro that isn't defined before its use.
    #[error("undefined macro")]
    UndefinedMacro,
    /// A table that isn't defined before its use.
    #[error("undefined table")]
    UndefinedTable,
    /// More rules or table entries than a ruleset may have.
    #[error("too many")]
    TooMany,
    /// A table that is defined twice, or one entry both with and without `!`.
    #[error("clash")]
    Clash,
}

impl ConfErrorKind {
    /// The number of the kind: of several faults at one word the one with the lowest number is reported.
    #[tactic(auto, unfolding(crate::specs::Faults::kind_number))]
    pub fn number(&self) -> u8
        ensures { result ≡ faults.kind_number self.now }
    {
        match self {
            ConfErrorKind::BadByte => 1,
            ConfErrorKind::Unterminated => 2,
            ConfErrorKind::UnknownWord => 3,
            ConfErrorKind::LeftOut(_) => 4,
            ConfErrorKind::BadNumber => 5,
            ConfErrorKind::BadAddress => 6,
            ConfErrorKind::OutOfOrder => 7,
            ConfErrorKind::TooDeep => 8,
            ConfErrorKind::Memory => 9,
            ConfErrorKind::UndefinedMacro => 10,
            ConfErrorKind::UndefinedTable => 11,
            ConfErrorKind::TooMany => 12,
            ConfErrorKind::Clash => 13,
        }
    }
}

/// The first fault of a ruleset text, and its line: from 1, or 0 for want of memory.
#[derive(Debug, Drop, Error)]
#[error("rules line {line}: {kind}")]
pub struct ConfError {
    pub line: usize,
    pub kind: ConfErrorKind,
}

impl From<AllocError> for ConfError {
    ghost use Rattle.std.specs.Prelude.{◌≡◌};
    ghost use Rattle.pfr_terms.specs.declared.error.ConfErrorKind.TheVariants.{Memory};

    ghost from_gives = { λ _ e. e ≡ record { line = 0; kind = Memory } };

    fn from(_refused: AllocError) -> ConfError {
        ConfError {
            line: 0,
            kind: ConfErrorKind::Memory,
        }
    }
}

/// The fault of a part of a text that is no word.
#[tactic(auto, unfolding(crate::specs::Input::kind_of))]
pub(crate) fn kind_of(fault: WordFault) -> ConfErrorKind
    ensures { result ≡ spec.kind_of fault }
{
    match fault {
        WordFault::BadByte => ConfErrorKind::BadByte,
        WordFault::Unterminated => ConfErrorKind::Unterminated,
        WordFault::UnknownWord => ConfErrorKind::UnknownWord,
    }
}

/// The fault on `line` that something is left out, under this name.
pub fn left_out_at(alloc: Global, line: usize, name: &[u8]) -> ConfError
    ensures { Refuses (spec.left_out_at line name.now) result }
{
    match name_left_out(alloc, line, name) {
        Ok(fault) => fault,
        Err(refused) => ConfError::from(refused),
    }
}

/// The same fault; want of memory is an error of its own.
pub(crate) fn name_left_out(
    alloc: Global,
    line: usize,
    name: &[u8],
) -> Result<ConfError, AllocError>
    ensures { IfOk result (λ e. e ≡ spec.left_out_at line name.now) }
{
    let name = Items::copied(alloc, name)?;
    Ok(ConfError {
        line,
        kind: ConfErrorKind::LeftOut(LeftOutName { name }),
    })
}

/// Of two faults the one whose kind has the lower number. If the numbers are equal, it is the one on the lower line; if
/// the lines are equal too, it is the first.
#[tactic(auto, unfolding(crate::specs::Faults::lower))]
pub fn lower(first: Option<ConfError>, second: ConfError) -> ConfError
    ensures { result ≡ faults.lower first second }
{
    match first {
        Some(first) if goes_first(&first, &second) => first,
        _ => second,
    }
}

/// Whether the first of two faults is reported.
fn goes_first(first: &ConfError, second: &ConfError) -> bool
    ensures { result ≡ faults.goes_first first.now second.now }
{
    let number = first.kind.number();
    let other = second.kind.number();
    number < other || (number == other && first.line <= second.line)
}
