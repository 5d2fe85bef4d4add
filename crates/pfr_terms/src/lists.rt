//! Lists: one item, or several in braces with at most one comma between two.
ghost use Rattle.pfr_terms.specs.Lists as spec;
ghost use Rattle.pfr_terms.specs.Input.{Parser, Reads};

use crate::error::ConfError;
use crate::name::Written;
use crate::reader::Reader;
use pfr_items::Items;
use pfr_words::Sign;
use std::alloc::Global;

/// What may stand in a list.
pub trait Item<'a>: Drop {
    /// How it is read.
    ghost parser: { Parser Self };

    fn read(alloc: Global, reader: &mut Reader<'_, 'a>) -> Result<Self, ConfError>
        ensures { Reads (parser reader.old) result reader.new };
}

/// The use of a macro may stand wherever such an item may.
impl<'a, T: Item<'a>> Item<'a> for Written<'a, T> {
    ghost use Rattle.pfr_terms.specs.Lists as spec;

    ghost parser = { spec.written T.parser };

    #[tactic(auto, unfolding(crate::specs::Lists::written))]
    fn read(alloc: Global, reader: &mut Reader<'_, 'a>) -> Result<Written<'a, T>, ConfError> {
        match reader.macro_ahead() {
            Some(found) => {
                reader.take();
                Ok(Written::Macro(found))
            }
            None => Ok(Written::Item(T::read(alloc, reader)?)),
        }
    }
}

/// The items of a list, at least one, up to its closing brace.
#[tactic(auto, using(crate::proofs::Turns::one_turn, crate::proofs::Turns::no_turn))]
pub fn members<'a, T: Item<'a>>(
    alloc: Global,
    reader: &mut Reader<'_, 'a>,
) -> Result<Items<T>, ConfError>
    ensures { Reads (spec.members T.parser reader.old) result reader.new }
{
    let mut found = Items::new(alloc);
    for _turn in 0..reader.turns() {
        found.push(T::read(alloc, reader)?)?;
        if reader.close_list() {
            return Ok(found);
        }
        reader.eat_sign(Sign::Comma);
    }
    Err(reader.refuse(alloc))
}

/// One item, or items in braces.
#[tactic(auto, unfolding(crate::specs::Lists::list))]
pub fn list<'a, T: Item<'a>>(
    alloc: Global,
    reader: &mut Reader<'_, 'a>,
) -> Result<Items<T>, ConfError>
    ensures { Reads (spec.list T.parser reader.old) result reader.new }
{
    if reader.open_list() {
        return members(alloc, reader);
    }
    let mut found = Items::new(alloc);
    found.push(T::read(alloc, reader)?)?;
    Ok(found)
}
