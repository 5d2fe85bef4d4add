//! Single words that rules and options have alike.
ghost use Rattle.std.specs.Prelude.{◌≡◌, Ok};
ghost use Rattle.pfr_terms.specs.Input.{Reads};
ghost use Rattle.pfr_conf.specs.Policies as spec;

use pfr_net::{BlockPolicy, Direction, StatePolicy};
use pfr_terms::{ConfError, Reader};
use std::alloc::Global;

/// `in` or `out`, if one comes next.
#[tactic(auto, unfolding(crate::specs::Policies::direction))]
pub(crate) fn direction_ahead(reader: &mut Reader<'_, '_>) -> Option<Direction>
    ensures { spec.direction reader.old ≡ Ok (result, reader.new) }
{
    if reader.eat_word(b"in") {
        return Some(Direction::In);
    }
    if reader.eat_word(b"out") {
        Some(Direction::Out)
    } else {
        None
    }
}

/// `drop` or `return`, if one comes next.
#[tactic(auto, unfolding(crate::specs::Policies::block_policy))]
pub(crate) fn block_policy_ahead(reader: &mut Reader<'_, '_>) -> Option<BlockPolicy>
    ensures { spec.block_policy reader.old ≡ Ok (result, reader.new) }
{
    if reader.eat_word(b"drop") {
        return Some(BlockPolicy::Drop);
    }
    if reader.eat_word(b"return") {
        Some(BlockPolicy::Return)
    } else {
        None
    }
}

/// `if-bound` or `floating`, if one comes next.
#[tactic(auto, unfolding(crate::specs::Policies::state_policy))]
pub(crate) fn state_policy_ahead(reader: &mut Reader<'_, '_>) -> Option<StatePolicy>
    ensures { spec.state_policy reader.old ≡ Ok (result, reader.new) }
{
    if reader.eat_word(b"if-bound") {
        return Some(StatePolicy::IfBound);
    }
    if reader.eat_word(b"floating") {
        Some(StatePolicy::Floating)
    } else {
        None
    }
}

/// The end of a line or of the text.
#[tactic(auto, unfolding(crate::specs::Policies::end_of_line))]
pub(crate) fn end_of_line(alloc: Global, reader: &mut Reader<'_, '_>) -> Result<(), ConfError>
    ensures { Reads (spec.end_of_line reader.old) result reader.new }
{
    if reader.at_line_end() {
        reader.take();
        Ok(())
    } else {
        Err(reader.refuse(alloc))
    }
}
