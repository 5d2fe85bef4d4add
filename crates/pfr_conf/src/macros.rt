//! Definitions of macros: `NAME = pieces`.
ghost use Rattle.pfr_terms.specs.Input.{Reads};
ghost use Rattle.pfr_conf.specs.Macros as spec;
ghost use Rattle.pfr_conf.specs.Statements.{ReadsOnto};

use pfr_items::Items;
use pfr_terms::lists::Item;
use pfr_terms::{ConfError, ConfErrorKind, MacroUse, Name, Reader};
use pfr_words::Sign;
use pfr_words::names::is_name;
use std::alloc::Global;

/// A part of a macro's value.
#[derive(Drop)]
pub enum Piece<'a> {
    /// A quoted text, whose words are the value's.
    Quoted(Name<'a>),
    /// A plain word.
    Plain(Name<'a>),
    /// Another macro.
    Macro(MacroUse<'a>),
}

/// A macro: its name, and its value in the order in which it is written.
#[derive(Drop)]
pub struct MacroDefinition<'a> {
    pub name: Name<'a>,
    pub pieces: Items<Piece<'a>>,
}

impl<'a> Item<'a> for Piece<'a> {
    ghost use Rattle.pfr_conf.specs.Macros as spec;

    ghost parser = { spec.piece };

    #[tactic(auto, unfolding(crate::specs::Macros::piece))]
    fn read(alloc: Global, reader: &mut Reader<'_, 'a>) -> Result<Piece<'a>, ConfError> {
        if let Some(found) = reader.macro_ahead() {
            reader.take();
            return Ok(Piece::Macro(found));
        }
        if let Some(text) = reader.quoted_ahead() {
            return Ok(Piece::Quoted(reader.named(text)));
        }
        match reader.plain_ahead() {
            Some(word) => Ok(Piece::Plain(reader.named(word))),
            None => Err(reader.refuse(alloc)),
        }
    }
}

/// Adds the next piece to those found so far.
fn add_piece<'a>(
    alloc: Global,
    reader: &mut Reader<'_, 'a>,
    found: &mut Items<Piece<'a>>,
) -> Result<(), ConfError>
    ensures { ReadsOnto (spec.one_piece found.old reader.old) result found.new reader.new }
{
    Ok(found.push(Piece::<'a>::read(alloc, reader)?)?)
}

/// One or more pieces up to the line's end.
#[tactic(auto, using(pfr_terms::proofs::Turns::one_turn, pfr_terms::proofs::Turns::no_turn))]
fn pieces<'a>(alloc: Global, reader: &mut Reader<'_, 'a>) -> Result<Items<Piece<'a>>, ConfError>
    ensures { Reads (spec.pieces reader.old) result reader.new }
{
    let mut found = Items::new(alloc);
    for _turn in 0..reader.turns() {
        add_piece(alloc, reader, &mut found)?;
        if reader.at_line_end() {
            return Ok(found);
        }
    }
    Err(reader.refuse(alloc))
}

/// The name of a macro. A word behind which no `=` stands begins no statement.
#[tactic(auto, unfolding(crate::specs::Macros::macro_name))]
fn macro_name<'a>(alloc: Global, reader: &mut Reader<'_, 'a>) -> Result<Name<'a>, ConfError>
    ensures { Reads (spec.macro_name reader.old) result reader.new }
{
    let name = match reader.plain_ahead() {
        Some(word) if is_name(word.as_slice()) => reader.named(word),
        _ => return Err(reader.refuse(alloc)),
    };
    if reader.eat_sign(Sign::Equal) {
        Ok(name)
    } else {
        Err(ConfError {
            line: name.line,
            kind: ConfErrorKind::UnknownWord,
        })
    }
}

/// `NAME = pieces`.
#[tactic(auto, unfolding(crate::specs::Macros::macro_definition))]
pub(crate) fn definition<'a>(
    alloc: Global,
    reader: &mut Reader<'_, 'a>,
) -> Result<MacroDefinition<'a>, ConfError>
    ensures { Reads (spec.macro_definition reader.old) result reader.new }
{
    let name = macro_name(alloc, reader)?;
    let value = pieces(alloc, reader)?;
    Ok(MacroDefinition {
        name,
        pieces: value,
    })
}
