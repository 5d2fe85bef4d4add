//! Names that a ruleset gives to labels and anchors.
ghost use Rattle.std.specs.Prelude.{◌≡◌, Ok};
ghost use Rattle.pfr_terms.specs.Input.{Reads};
ghost use Rattle.pfr_conf.specs.Names as spec;

use pfr_terms::reader::is_free;
use pfr_terms::{ConfError, Name, Reader};
use std::alloc::Global;

/// A quoted text or a plain word without a meaning, if it comes next.
#[tactic(auto, unfolding(crate::specs::Names::name_ahead))]
pub(crate) fn name_ahead<'a>(reader: &mut Reader<'_, 'a>) -> Option<Name<'a>>
    ensures { spec.name_ahead reader.old ≡ Ok (result, reader.new) }
{
    if let Some(text) = reader.quoted_ahead() {
        return Some(reader.named(text));
    }
    match reader.plain_ahead() {
        Some(word) if is_free(word.as_slice()) => Some(reader.named(word)),
        _ => None,
    }
}

/// A quoted text or a plain word without a meaning.
#[tactic(auto, unfolding(crate::specs::Names::some_name))]
pub(crate) fn some_name<'a>(
    alloc: Global,
    reader: &mut Reader<'_, 'a>,
) -> Result<Name<'a>, ConfError>
    ensures { Reads (spec.some_name reader.old) result reader.new }
{
    match name_ahead(reader) {
        Some(name) => Ok(name),
        None => Err(reader.refuse(alloc)),
    }
}
