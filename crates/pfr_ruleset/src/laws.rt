//! Laws of the definitions, each the contract of a function that does nothing.
ghost use Rattle.std.specs.Prelude.{◌≡◌, ◌↔◌, List, ℕ, Some, None};
ghost use Rattle.pfr_ruleset.specs.declared.table.Entry.{Entry};
ghost use Rattle.pfr_ruleset.specs.Tables.{HasClash, IsMember, table_of};

/// A table holds just the addresses that its entries hold as they are written.
pub fn table_holds_what_is_written()
    ensures { (entries table : List Entry) (address : ℕ) → table_of entries ≡ Some table → IsMember table address ↔ IsMember entries address }
{}

/// Entries make no table just where two of them are one network, once with a `!` and once without.
pub fn entries_that_clash_make_no_table()
    ensures { (entries : List Entry) → (table_of entries ≡ None) ↔ HasClash entries }
{}
