//! Definitions of tables: `table <NAME> flags { entries }`.
ghost use Rattle.std.specs.Prelude.{◌≡◌, Ok};
ghost use Rattle.pfr_terms.specs.Input.{Reads};
ghost use Rattle.pfr_conf.specs.Tables as spec;

use pfr_items::Items;
use pfr_terms::address::table_name;
use pfr_terms::lists::members;
use pfr_terms::{ConfError, Name, Reader, TableEntry};
use pfr_words::Sign;
use std::alloc::Global;

/// A table of addresses: its name, its line and its entries in the order in which they are written. The flags
/// `persist`, `const` and `counters` say nothing about packets.
#[derive(Drop)]
pub struct TableDefinition<'a> {
    pub line: usize,
    pub name: Name<'a>,
    pub entries: Items<TableEntry<'a>>,
}

/// A flag of a table, if one comes next.
#[tactic(auto, unfolding(crate::specs::Tables::flag))]
fn flag(reader: &mut Reader<'_, '_>) -> bool
    ensures { spec.flag reader.old ≡ Ok (result, reader.new) }
{
    reader.eat_word(b"persist") || reader.eat_word(b"const") || reader.eat_word(b"counters")
}

/// Goes past the flags of a table.
#[tactic(auto, using(pfr_terms::proofs::Turns::one_turn, pfr_terms::proofs::Turns::no_turn))]
fn flags(alloc: Global, reader: &mut Reader<'_, '_>) -> Result<(), ConfError>
    ensures { Reads (spec.flags reader.old) result reader.new }
{
    for _turn in 0..reader.turns() {
        if !flag(reader) {
            return Ok(());
        }
    }
    Err(reader.refuse(alloc))
}

/// The entries of a table in braces, of which there may be none.
#[tactic(auto, unfolding(crate::specs::Tables::entries))]
fn entries<'a>(
    alloc: Global,
    reader: &mut Reader<'_, 'a>,
) -> Result<Items<TableEntry<'a>>, ConfError>
    ensures { Reads (spec.entries reader.old) result reader.new }
{
    if !reader.open_list() || reader.close_list() {
        return Ok(Items::new(alloc));
    }
    members::<TableEntry<'a>>(alloc, reader)
}

/// What comes behind `table`, which stands on this line.
#[tactic(auto, unfolding(crate::specs::Tables::table_definition))]
pub(crate) fn definition<'a>(
    alloc: Global,
    reader: &mut Reader<'_, 'a>,
    line: usize,
) -> Result<TableDefinition<'a>, ConfError>
    ensures { Reads (spec.table_definition line reader.old) result reader.new }
{
    reader.expect_sign(alloc, Sign::Less)?;
    let name = table_name(alloc, reader)?;
    flags(alloc, reader)?;
    let entries = entries(alloc, reader)?;
    Ok(TableDefinition {
        line,
        name,
        entries,
    })
}
