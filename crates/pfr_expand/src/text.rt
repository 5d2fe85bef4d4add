//! Rulesets from their texts.
ghost use Rattle.std.specs.Prelude.{◌≡◌, ◌≢◌, IfErr};
ghost use Rattle.pfr_terms.specs.declared.error.ConfErrorKind.TheVariants.{Memory};
ghost use Rattle.pfr_terms.specs.Input.{Gives};
ghost use Rattle.pfr_expand.specs.Texts as spec;

use crate::expansion::expand;
use pfr_conf::{ConfError, ConfErrorKind, read};
use pfr_ruleset::{Interface, Ruleset};
use std::alloc::Global;

/// The longest ruleset text, in bytes: one MiB.
pub const LONGEST_TEXT: usize = 1048576;

/// What a text means for the interfaces of a run, or its first fault, or want of memory.
#[tactic(auto, unfolding(crate::specs::Texts::ruleset_of))]
fn meaning_of(alloc: Global, text: &[u8], interfaces: &[Interface]) -> Result<Ruleset, ConfError>
    ensures { Gives (spec.ruleset_of text.now interfaces.now) result }
{
    if text.len() > LONGEST_TEXT {
        return Err(ConfError {
            line: 1,
            kind: ConfErrorKind::TooMany,
        });
    }
    let statements = read(alloc, text)?;
    expand(alloc, &statements, interfaces)
}

/// The same fault. Want of memory is no line's, so it has line 0.
fn by_line(fault: ConfError) -> ConfError
    ensures same { fault.kind ≢ Memory → result ≡ fault }
    ensures kind { result.kind ≡ fault.kind }
    ensures memory { fault.kind ≡ Memory → result.line ≡ 0 }
{
    match fault.kind {
        ConfErrorKind::Memory => ConfError {
            line: 0,
            kind: ConfErrorKind::Memory,
        },
        _ => fault,
    }
}

/// What a ruleset text means for the interfaces of a run, or the first fault of the text. A text that is longer than
/// [`LONGEST_TEXT`] isn't read: its fault is `TooMany` on line 1. Want of memory has line 0.
pub fn ruleset_of(
    alloc: Global,
    text: &[u8],
    interfaces: &[Interface],
) -> Result<Ruleset, ConfError>
    ensures meaning { Gives (spec.ruleset_of text.now interfaces.now) result }
    ensures memory { IfErr result (λ fault. fault.kind ≡ Memory → fault.line ≡ 0) }
{
    match meaning_of(alloc, text, interfaces) {
        Ok(ruleset) => Ok(ruleset),
        Err(fault) => Err(by_line(fault)),
    }
}
