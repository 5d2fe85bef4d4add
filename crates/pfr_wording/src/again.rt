//! What is read of a text that was written.
ghost use Rattle.std.specs.Prelude.{◌≡◌, IfOk, map};
ghost use Rattle.pfr_wording.specs.Wording as spec;

use pfr_conf::{ConfError, ConfErrorKind, read};
use pfr_expand::expand;
use pfr_ruleset::{FlatRule, FlatTranslation, Interface, Ruleset};
use std::alloc::{AllocError, Global};

/// What a text means for the interfaces of a run, however long it is.
fn ruleset_in(alloc: Global, text: &[u8], interfaces: &[Interface]) -> Result<Ruleset, ConfError>
    ensures { IfOk result (spec.IsMeantBy text.now interfaces.now) }
{
    let statements = read(alloc, text)?;
    expand(alloc, &statements, interfaces)
}

/// What a text means for the interfaces of a run, however long it is, or the kind of its fault.
pub(crate) fn meaning_of(
    alloc: Global,
    text: &[u8],
    interfaces: &[Interface],
) -> Result<Ruleset, ConfErrorKind>
    ensures { IfOk result (spec.IsMeantBy text.now interfaces.now) }
{
    match ruleset_in(alloc, text, interfaces) {
        Ok(ruleset) => Ok(ruleset),
        Err(fault) => Err(fault.kind),
    }
}

/// The lines on which rules stand.
pub(crate) fn lines_of(alloc: Global, rules: &[FlatRule]) -> Result<Vec<usize>, AllocError>
    ensures { IfOk result (λ lines. lines.items ≡ map (λ rule. rule.line) rules.now) }
{
    let mut lines = Vec::with_capacity(alloc, rules.len())?;
    for rule in rules {
        lines.push(rule.line)?;
    }
    Ok(lines)
}

/// Puts the lines on which the rules of a kind stand at the places of their numbers.
fn place<T>(lines: &mut Vec<usize>, rules: &[FlatTranslation<T>]) {
    for rule in rules {
        if let Some(line) = lines.get_mut(rule.number) {
            *line = rule.line;
        }
    }
}

/// The lines on which translation rules stand, by their numbers.
pub(crate) fn translation_lines(
    alloc: Global,
    ruleset: &Ruleset,
) -> Result<Vec<usize>, AllocError> {
    let (_, count) = ruleset.counts();
    let mut lines = Vec::new(alloc);
    lines.resize(count as usize, 0)?;
    place(&mut lines, ruleset.translations.nats.as_slice());
    place(&mut lines, ruleset.translations.rdrs.as_slice());
    place(&mut lines, ruleset.translations.binats.as_slice());
    Ok(lines)
}
