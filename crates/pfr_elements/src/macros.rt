//! The macros that are defined, and what their uses stand for.
ghost use Rattle.std.specs.Prelude.{◌≡◌, ◌<◌, ◌++◌, Ok, Some, OnOk, IfOk};
ghost use Rattle.std.specs.Option.{is_some, option_copied};
ghost use Rattle.pfr_words.specs.Words.{words};
ghost use Rattle.pfr_elements.specs.Meanings as meanings;
ghost use Rattle.pfr_elements.specs.Values as spec;
ghost use Rattle.pfr_elements.specs.Values.{Makes, only_plain};

use crate::definition::{Definition, Taken, Text, TextOf};
use crate::faults::unknown_word;
use crate::names::Names;
use crate::text::only_plain;
use crate::value::{Draft, Value};
use pfr_items::Items;
use pfr_terms::{ConfError, ConfErrorKind, MacroUse};
use pfr_words::Bytes;
use pfr_words::spelling::words;
use std::alloc::{AllocError, Global};

/// The longest word of a value that may have a suffix, in bytes.
pub const LONGEST_WORD: usize = 255;

/// The macros that are defined so far, in the order of the text, and how many bytes of others' values they hold.
#[derive(Drop)]
pub struct Macros<'a> {
    pub names: Names<'a>,
    /// What each definition says, at the place of its name.
    pub definitions: Items<Definition>,
    pub spliced: usize,
}

/// What the last definition of this name says.
fn latest<'m>(macros: &'m Macros<'_>, name: &[u8]) -> Option<&'m Definition>
    ensures { option_copied result ≡ spec.latest name.now macros.now }
{
    match macros.names.last_place(name) {
        Some(place) => macros.definitions.as_slice().get(place),
        None => None,
    }
}

/// A word with a suffix.
fn joined(alloc: Global, word: &[u8], suffix: &[u8]) -> Result<Items<u8>, AllocError>
    ensures { IfOk result (λ text. text ≡ word.now ++ suffix.now) }
{
    let mut text = Items::copied(alloc, word)?;
    text.extend_from_slice(suffix).and(Ok(text))
}

/// The word of a value with the suffix of a use.
fn with_suffix<'m>(
    alloc: Global,
    found: &MacroUse<'_>,
    word: &Option<Items<u8>>,
) -> Result<Result<Taken<'m>, ConfError>, ConfError>
    ensures { Makes (spec.with_suffix found.now word.now) result }
{
    match word {
        Some(word) if word.len() <= LONGEST_WORD => {
            let text = joined(alloc, word.as_slice(), found.suffix.as_slice())?;
            Ok(Ok(Taken::Word(text)))
        }
        _ => Ok(Err(unknown_word(found.line))),
    }
}

/// What a use of a macro with this text stands for.
fn text_taken<'m>(
    alloc: Global,
    found: &MacroUse<'_>,
    is_negated: bool,
    text: &'m Text,
) -> Result<Result<Taken<'m>, ConfError>, ConfError>
    ensures { Makes (spec.text_taken found.now is_negated text.now) result }
{
    if !found.suffix.as_slice().is_empty() {
        return with_suffix(alloc, found, &text.meanings.word);
    }
    if is_negated && !text.meanings.is_one_word {
        Ok(Err(unknown_word(found.line)))
    } else {
        Ok(Ok(Taken::Whole(TextOf::new(text))))
    }
}

/// Whether a text is one plain word.
fn is_plain(alloc: Global, text: &[u8]) -> Result<bool, AllocError>
    ensures { IfOk result (λ is. is ≡ is_some (only_plain (words text.now))) }
{
    let found = words(alloc, text)?;
    Ok(only_plain(found.as_slice()).is_some())
}

/// Whether what a use on this line stands for is one plain word, or else what is wrong with it.
fn plain_word(
    alloc: Global,
    line: usize,
    taken: &Taken<'_>,
) -> Result<Result<(), ConfError>, ConfError>
    ensures { Makes (spec.plain_word_by line (Ok taken.now)) result }
{
    let is_plain = match taken {
        Taken::TooLong(_) => false,
        Taken::Word(text) => is_plain(alloc, text.as_slice())?,
        Taken::Whole(text) => text.get().meanings.word.is_some(),
    };
    if is_plain {
        Ok(Ok(()))
    } else {
        Ok(Err(unknown_word(line)))
    }
}

impl<'a> Macros<'a> {
    pub fn new(alloc: Global) -> Macros<'a>
        ensures { result ≡ spec.no_macros }
    {
        Macros {
            names: Names::new(alloc),
            definitions: Items::new(alloc),
            spliced: 0,
        }
    }

    /// The value of a macro before its first piece.
    pub fn begin(&self, alloc: Global) -> Draft
        ensures { result ≡ spec.begun self.now }
    {
        Draft {
            value: Value::Text(Items::new(alloc)),
            spliced: self.spliced,
        }
    }

    /// Defines a macro, in the place of an earlier one of this name. All definitions then hold `spliced` bytes of
    /// others' values.
    pub(crate) fn define(
        &mut self,
        name: Bytes<'a>,
        definition: Definition,
        spliced: usize,
    ) -> Result<(), AllocError>
        ensures { OnOk result (self.new ≡ meanings.with_definition name.entry definition spliced self.old) }
    {
        self.definitions.push(definition)?;
        self.names.push(name)?;
        self.spliced = spliced;
        Ok(())
    }

    /// What a use stands for, maybe with `!` before it, or else what is wrong with it.
    #[tactic(auto, unfolding(crate::specs::Values::taken_at))]
    pub fn taken_at(
        &self,
        alloc: Global,
        found: &MacroUse<'_>,
        is_negated: bool,
    ) -> Result<Result<Taken<'_>, ConfError>, ConfError>
        ensures { Makes (spec.taken_at self.now is_negated found.now) result }
    {
        match latest(self, found.name.as_slice()) {
            None => Ok(Err(ConfError {
                line: found.line,
                kind: ConfErrorKind::UndefinedMacro,
            })),
            Some(Definition::Unsound) => Ok(Err(unknown_word(found.line))),
            Some(Definition::TooLong(is_list)) => {
                if is_negated || !found.suffix.as_slice().is_empty() {
                    Ok(Err(unknown_word(found.line)))
                } else {
                    Ok(Ok(Taken::TooLong(*is_list)))
                }
            }
            Some(Definition::Text(text)) => text_taken(alloc, found, is_negated, text),
        }
    }

    /// Whether a use stands for one plain word, or else what is wrong with it.
    #[tactic(auto, unfolding(crate::specs::Values::plain_word_at))]
    pub fn is_plain_word(
        &self,
        alloc: Global,
        found: &MacroUse<'_>,
    ) -> Result<Result<(), ConfError>, ConfError>
        ensures { Makes (spec.plain_word_at self.now found.now) result }
    {
        match self.taken_at(alloc, found, false)? {
            Ok(taken) => plain_word(alloc, found.line, &taken),
            Err(fault) => Ok(Err(fault)),
        }
    }
}
