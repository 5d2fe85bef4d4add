//! A ruleset text as statements.
ghost use Rattle.pfr_terms.specs.Input.{Reads, Gives};
ghost use Rattle.pfr_conf.specs.Statements as spec;

use crate::policy::end_of_line;
use crate::statement::{Section, Statement, Statements, any_statement};
use pfr_items::Items;
use pfr_terms::{ConfError, Reader};
use pfr_words::Word;
use pfr_words::spelling::words;
use std::alloc::Global;

/// All statements that the words make, one to a line.
#[tactic(auto, using(pfr_terms::proofs::Turns::one_turn, pfr_terms::proofs::Turns::no_turn))]
fn lines<'a>(alloc: Global, reader: &mut Reader<'_, 'a>) -> Result<Items<Statement<'a>>, ConfError>
    ensures { Reads (spec.lines reader.old) result reader.new }
{
    let mut found = Items::new(alloc);
    let mut reached = Section::Options;
    for _turn in 0..reader.turns() {
        reader.skip_line_ends();
        if reader.is_done() {
            return Ok(found);
        }
        reached = any_statement(alloc, reader, &mut found, reached)?;
        end_of_line(alloc, reader)?;
    }
    Err(reader.refuse(alloc))
}

#[tactic(auto, unfolding(crate::specs::Statements::statements_in))]
fn statements_in<'a>(alloc: Global, words: &[Word<'a>]) -> Result<Statements<'a>, ConfError>
    ensures { Gives (spec.statements_in words.now) result }
{
    let mut reader = Reader::new(words);
    let statements = lines(alloc, &mut reader)?;
    Ok(Statements { statements })
}

/// The statements of a ruleset text as pf.conf(5) has it, or its first fault in the order of the text. Faults inside a
/// macro's value, tables that aren't defined and names that aren't the interface's are no faults here.
#[tactic(auto, unfolding(crate::specs::Statements::statements_of))]
pub fn read<'a>(alloc: Global, text: &'a [u8]) -> Result<Statements<'a>, ConfError>
    ensures { Gives (spec.statements_of text.now) result }
{
    let words = words(alloc, text)?;
    statements_in(alloc, words.as_slice())
}
