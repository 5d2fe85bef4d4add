//! The names of tables.
use pfr_conf::{ConfError, Statement, read};
use pfr_words::Bytes;
use std::alloc::{AllocError, Global};

/// Puts the name of a table behind others, if a statement defines one.
fn add_name<'a>(names: &mut Vec<Bytes<'a>>, statement: &Statement<'a>) -> Result<(), AllocError> {
    if let Statement::Table(definition) = statement {
        names.push(Bytes::new(definition.name.text.as_slice()))?;
    }
    Ok(())
}

/// The names of the tables that a text defines, in their order.
pub fn table_names<'a>(alloc: Global, text: &'a [u8]) -> Result<Vec<Bytes<'a>>, ConfError> {
    let found = read(alloc, text)?;
    let mut names = Vec::new(alloc);
    for statement in found.statements.as_slice() {
        add_name(&mut names, statement)?;
    }
    Ok(names)
}
