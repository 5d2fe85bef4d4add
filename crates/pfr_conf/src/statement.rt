//! Statements, and the order in which they may come.
ghost use Rattle.std.specs.Prelude.{◌≡◌};
ghost use Rattle.pfr_conf.specs.Statements as spec;
ghost use Rattle.pfr_conf.specs.Statements.{ReadsOnto};

use crate::anchor::{DEEPEST_ANCHOR, FilterStatement, statement};
use crate::macros::{MacroDefinition, definition as macro_definition};
use crate::options::{SetOption, option_behind_set};
use crate::table::{TableDefinition, definition as table_definition};
use crate::translation::{TranslationStatement, translation};
use pfr_items::Items;
use pfr_terms::{ConfError, ConfErrorKind, Reader};
use pfr_words::Bytes;
use pfr_words::names::is_among;
use std::alloc::Global;

/// A statement of a ruleset.
#[derive(Drop)]
pub enum Statement<'a> {
    Macro(MacroDefinition<'a>),
    Table(TableDefinition<'a>),
    Option(SetOption<'a>),
    Translation(TranslationStatement<'a>),
    Filter(FilterStatement<'a>),
}

/// The statements of a ruleset, in the order in which they are written.
#[derive(Drop)]
pub struct Statements<'a> {
    pub statements: Items<Statement<'a>>,
}

/// How far a ruleset has come: options stand before translation rules, and these before filter rules.
#[derive(Clone, Copy)]
pub enum Section {
    Options,
    Translation,
    Filter,
}

/// Whether an option may still come.
fn may_set(reached: Section) -> bool
    ensures { result ≡ spec.may_set reached }
{
    match reached {
        Section::Options => true,
        Section::Translation => false,
        Section::Filter => false,
    }
}

/// Whether a translation rule may still come.
fn may_translate(reached: Section) -> bool
    ensures { result ≡ spec.may_translate reached }
{
    match reached {
        Section::Options => true,
        Section::Translation => true,
        Section::Filter => false,
    }
}

/// The words that begin a filter rule or an anchor.
const FILTER_WORDS: [&[u8]; 3] = [b"pass", b"block", b"anchor"];

/// The words that begin a translation rule, or an anchor of such rules.
const TRANSLATION_WORDS: [&[u8]; 7] = [
    b"nat",
    b"rdr",
    b"binat",
    b"no",
    b"nat-anchor",
    b"rdr-anchor",
    b"binat-anchor",
];

/// Whether the next word begins a filter rule or an anchor.
#[tactic(auto, unfolding(crate::specs::Statements::begins_filter))]
fn begins_filter(word: Option<Bytes<'_>>) -> bool
    ensures { result ≡ spec.begins_filter word.entry }
{
    match word {
        Some(word) => is_among(&FILTER_WORDS, word.as_slice()),
        None => false,
    }
}

/// Whether the next word begins a translation rule, or an anchor of such rules.
#[tactic(auto, unfolding(crate::specs::Statements::begins_translation))]
fn begins_translation(word: Option<Bytes<'_>>) -> bool
    ensures { result ≡ spec.begins_translation word.entry }
{
    match word {
        Some(word) => is_among(&TRANSLATION_WORDS, word.as_slice()),
        None => false,
    }
}

/// Adds a translation rule, or an anchor of such rules.
#[tactic(auto, unfolding(crate::specs::Statements::rule_to_translate))]
fn rule_to_translate<'a>(
    alloc: Global,
    reader: &mut Reader<'_, 'a>,
    found: &mut Items<Statement<'a>>,
) -> Result<Section, ConfError>
    ensures { ReadsOnto (spec.rule_to_translate found.old reader.old) result found.new reader.new }
{
    let rule = translation(alloc, reader)?;
    found.push(Statement::Translation(rule))?;
    Ok(Section::Translation)
}

/// Adds a translation rule, or an anchor of such rules, if one may still come.
#[tactic(auto, unfolding(crate::specs::Statements::translation_line))]
fn translation_line<'a>(
    alloc: Global,
    reader: &mut Reader<'_, 'a>,
    found: &mut Items<Statement<'a>>,
    reached: Section,
) -> Result<Section, ConfError>
    ensures { ReadsOnto (spec.translation_line (reached, found.old) reader.old) result found.new reader.new }
{
    if !may_translate(reached) {
        return Err(reader.fault(ConfErrorKind::OutOfOrder));
    }
    rule_to_translate(alloc, reader, found)
}

/// Adds a filter rule, or an anchor.
#[tactic(auto, unfolding(crate::specs::Statements::filter_statement))]
fn filter_statement<'a>(
    alloc: Global,
    reader: &mut Reader<'_, 'a>,
    found: &mut Items<Statement<'a>>,
) -> Result<Section, ConfError>
    ensures { ReadsOnto (spec.filter_statement found.old reader.old) result found.new reader.new }
{
    let rule = statement(alloc, reader, DEEPEST_ANCHOR)?;
    found.push(Statement::Filter(rule))?;
    Ok(Section::Filter)
}

/// Adds the table whose definition comes behind `table` on this line.
#[tactic(auto, unfolding(crate::specs::Statements::table_statement))]
fn table_statement<'a>(
    alloc: Global,
    reader: &mut Reader<'_, 'a>,
    found: &mut Items<Statement<'a>>,
    reached: Section,
    line: usize,
) -> Result<Section, ConfError>
    ensures { ReadsOnto (spec.table_statement line (reached, found.old) reader.old) result found.new
        reader.new }
{
    let table = table_definition(alloc, reader, line)?;
    found.push(Statement::Table(table))?;
    Ok(reached)
}

/// Adds the definition of a macro.
#[tactic(auto, unfolding(crate::specs::Statements::macro_statement))]
fn macro_statement<'a>(
    alloc: Global,
    reader: &mut Reader<'_, 'a>,
    found: &mut Items<Statement<'a>>,
    reached: Section,
) -> Result<Section, ConfError>
    ensures { ReadsOnto (spec.macro_statement (reached, found.old) reader.old) result found.new reader.new }
{
    let definition = macro_definition(alloc, reader)?;
    found.push(Statement::Macro(definition))?;
    Ok(reached)
}

/// Adds a statement that begins with another word than `set`.
#[tactic(auto, unfolding(crate::specs::Statements::rule_or_definition))]
fn rule_or_definition<'a>(
    alloc: Global,
    reader: &mut Reader<'_, 'a>,
    found: &mut Items<Statement<'a>>,
    reached: Section,
) -> Result<Section, ConfError>
    ensures { ReadsOnto (spec.rule_or_definition (reached, found.old) reader.old) result found.new
        reader.new }
{
    if begins_filter(reader.plain_ahead()) {
        return filter_statement(alloc, reader, found);
    }
    let line = reader.line_ahead();
    if reader.eat_word(b"table") {
        return table_statement(alloc, reader, found, reached, line);
    }
    if begins_translation(reader.plain_ahead()) {
        return translation_line(alloc, reader, found, reached);
    }
    macro_statement(alloc, reader, found, reached)
}

/// Adds the option that `set` sets, which comes next.
#[tactic(auto, unfolding(crate::specs::Statements::set_statement))]
fn set_statement<'a>(
    alloc: Global,
    reader: &mut Reader<'_, 'a>,
    found: &mut Items<Statement<'a>>,
    reached: Section,
) -> Result<Section, ConfError>
    ensures { ReadsOnto (spec.set_statement (reached, found.old) reader.old) result found.new reader.new }
{
    reader.take();
    let option = option_behind_set(alloc, reader)?;
    found.push(Statement::Option(option))?;
    Ok(reached)
}

/// Adds a statement to those found so far, and answers how far the ruleset has come with it.
#[tactic(auto, unfolding(crate::specs::Statements::any_statement))]
pub fn any_statement<'a>(
    alloc: Global,
    reader: &mut Reader<'_, 'a>,
    found: &mut Items<Statement<'a>>,
    reached: Section,
) -> Result<Section, ConfError>
    ensures { ReadsOnto (spec.any_statement (reached, found.old) reader.old) result found.new reader.new }
{
    if !reader.sees_word(b"set") {
        return rule_or_definition(alloc, reader, found, reached);
    }
    if !may_set(reached) {
        return Err(reader.fault(ConfErrorKind::OutOfOrder));
    }
    set_statement(alloc, reader, found, reached)
}
