//! The names of tables, and the names that are written for them.
ghost use Rattle.std.specs.Prelude.{◌≡◌, ◌≤◌, ◌++◌, [], length, take, true, IfOk, OnOk};
ghost use Rattle.pfr_spelling.specs.Tables as spec;

use crate::macros::is_plain;
use pfr_digits::Tail;
use pfr_items::Items;
use pfr_marks::mark::{Mark, is};
use pfr_words::names::is_name;
use std::alloc::{AllocError, Global};

/// How many tables are told apart; the names of others stay as they are. pf has 1000 tables if nothing else is set.
const MOST_TABLES: usize = 1000;

/// How many bytes the name of a table may have.
const MOST_BYTES: usize = 31;

/// How many bytes of a name stand before the number that tells it from others.
const FRONT_BYTES: usize = 24;

/// A table that a text names.
#[derive(Drop)]
pub struct Table {
    /// Its name.
    pub name: Items<u8>,
    /// The name that is written for it if no other table's is the same: letters, digits and `_`, at most 31 bytes.
    pub plain: Items<u8>,
}

/// Whether the marks at the front are a name in `< >`.
pub(crate) fn is_table(marks: &[Mark<'_>]) -> bool
    ensures value { result ≡ spec.is_table marks.now }
    ensures within { result ≡ true → 3 ≤ length marks.now }
{
    marks.len() >= 3
        && is(&marks[0], b"<")
        && is_plain(marks[1].piece.as_slice())
        && is(&marks[2], b">")
}

/// A byte of a name, or what is written for it.
fn name_byte(byte: u8) -> u8
    ensures { result ≡ spec.name_byte byte }
{
    if byte.is_ascii_alphanumeric() {
        byte
    } else {
        b'_'
    }
}

/// The first `most` bytes of a text, or all if it has fewer.
fn front(most: usize, text: &[u8]) -> &[u8]
    ensures { result.now ≡ take most text.now }
{
    let (front, _) = text.split_at(most.min(text.len()));
    front
}

/// A name with `_` for bytes other than letters and digits, cut to 31 bytes.
fn plain_name(alloc: Global, name: &[u8]) -> Result<Items<u8>, AllocError>
    ensures { IfOk result (λ made. made ≡ spec.plain_name name.now) }
{
    let mut made = Items::new(alloc);
    for byte in front(MOST_BYTES, name) {
        made.push(name_byte(*byte))?;
    }
    Ok(made)
}

/// The place of a name among tables, or how many there are.
fn place_of(tables: &[Table], name: &[u8]) -> usize
    ensures value { result ≡ spec.place_from 0 tables.now name.now }
    ensures within { result ≤ length tables.now }
{
    for (before, table) in tables.iter().enumerate() {
        if table.name.as_slice() == name {
            return before;
        }
    }
    tables.len()
}

/// How many tables have `plain` as their plain name.
fn alike(tables: &[Table], plain: &[u8]) -> usize
    ensures value { result ≡ spec.alike tables.now plain.now }
    ensures within { result ≤ length tables.now }
{
    let mut count: usize = 0;
    for table in tables {
        if table.plain.as_slice() == plain {
            count += 1;
        }
    }
    count
}

/// Puts the name at the front of marks behind the tables so far, if it is a new one.
fn add(alloc: Global, tables: &mut Items<Table>, marks: &[Mark<'_>]) -> Result<(), AllocError>
    ensures { OnOk result (tables.new ≡ tables.old ++ spec.table_in tables.old marks.now) }
{
    if !is_table(marks) || tables.len() >= MOST_TABLES {
        return Ok(());
    }
    let name = marks[1].piece.as_slice();
    if place_of(tables.as_slice(), name) < tables.len() {
        return Ok(());
    }
    let plain = plain_name(alloc, name)?;
    let name = Items::copied(alloc, name)?;
    tables.push(Table { name, plain })
}

/// The tables that a text names, in order, each once; at most 1000.
pub fn tables(alloc: Global, marks: &[Mark<'_>]) -> Result<Items<Table>, AllocError>
    ensures { IfOk result (λ found. found ≡ spec.tables_from [] marks.now) }
{
    let mut found = Items::new(alloc);
    for at in 0..marks.len() {
        add(alloc, &mut found, &marks[at..])?;
    }
    Ok(found)
}

/// The front of a name with the number of its table.
fn numbered(alloc: Global, plain: &[u8], number: usize) -> Result<Items<u8>, AllocError>
    ensures { IfOk result (λ made. made ≡ spec.numbered plain.now number) }
{
    let mut digits = Tail::new();
    digits.put_number(number as u64);
    let mut made = Items::copied(alloc, front(FRONT_BYTES, plain))?;
    made.push(b'_')?;
    made.extend_from_slice(digits.as_slice())?;
    Ok(made)
}

/// A name, if a table may have it and it is the plain name of at most `most` tables.
fn if_free(tables: &[Table], most: usize, name: Items<u8>) -> Option<Items<u8>>
    ensures { result ≡ spec.if_free tables.now most name }
{
    if is_name(name.as_slice()) && alike(tables, name.as_slice()) <= most {
        Some(name)
    } else {
        None
    }
}

/// The front of a table's name with its number, if a table may have it and no other table has it.
fn numbered_name(
    alloc: Global,
    tables: &[Table],
    name: &[u8],
    plain: &[u8],
) -> Result<Option<Items<u8>>, AllocError>
    ensures { IfOk result (λ made. made ≡ spec.numbered_name tables.now name.now plain.now) }
{
    let number = place_of(tables, name).saturating_add(1);
    Ok(if_free(tables, 0, numbered(alloc, plain, number)?))
}

/// The name that is written for a table that only a macro's value names, if no table of the text has that name and all
/// tables are known.
fn other_name(tables: &[Table], plain: Items<u8>) -> Option<Items<u8>>
    ensures { result ≡ spec.other_name tables.now plain }
{
    if tables.len() >= MOST_TABLES {
        return None;
    }
    if_free(tables, 0, plain)
}

/// Whether a name is that of a table of the text.
fn is_named(tables: &[Table], name: &[u8]) -> bool
    ensures { result ≡ spec.is_named tables.now name.now }
{
    place_of(tables, name) != tables.len()
}

/// The name that is written for the name of a table of the text.
fn text_name(
    alloc: Global,
    tables: &[Table],
    name: &[u8],
    plain: Items<u8>,
) -> Result<Option<Items<u8>>, AllocError>
    ensures { IfOk result (λ made. made ≡ spec.text_name tables.now name.now plain) }
{
    if is_name(plain.as_slice()) && alike(tables, plain.as_slice()) <= 1 {
        return Ok(Some(plain));
    }
    numbered_name(alloc, tables, name, plain.as_slice())
}

/// The name that is written for a name that a table may not have here.
#[tactic(auto, unfolding(crate::specs::Tables::new_name))]
pub(crate) fn new_name(
    alloc: Global,
    tables: &[Table],
    name: &[u8],
) -> Result<Option<Items<u8>>, AllocError>
    ensures { IfOk result (λ made. made ≡ spec.new_name tables.now name.now) }
{
    let plain = plain_name(alloc, name)?;
    if is_named(tables, name) {
        return text_name(alloc, tables, name, plain);
    }
    Ok(other_name(tables, plain))
}
