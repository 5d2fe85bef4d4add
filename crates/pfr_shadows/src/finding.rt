//! Finds the rules of a ruleset that never decide.
ghost use Rattle.std.specs.Prelude.{◌≡◌, IfOk, OnOk};
ghost use Rattle.std.specs.List.{All};
ghost use Rattle.pfr_shadows.specs.Shadows as spec;

use crate::rules::{covers, has_room, is_shadow};
use pfr_ruleset::{FlatAnchor, Ruleset};
use std::alloc::{AllocError, Global};

/// The most rules of a ruleset that is searched. The search takes a time that grows with the square of their number.
pub const MOST_RULES: usize = 2048;

/// A rule that never decides.
#[derive(Clone, Copy)]
pub struct Shadow {
    /// Its number.
    pub rule: usize,
    /// The number of the rule that holds wherever it does, and decides.
    pub by: usize,
}

/// Where a rule stands among the anchors.
#[derive(Clone, Copy)]
struct Standing {
    /// The innermost anchor round it, by its place from 1 on, or 0.
    anchor: usize,
    /// The last rule behind it that may decide: the last one of the innermost quick anchor round it.
    last: usize,
}

/// The standing of a rule without anchors.
const OPEN: Standing = Standing {
    anchor: 0,
    last: usize::MAX,
};

/// Where each of `rules` rules stands among the anchors.
fn standings(
    alloc: Global,
    rules: usize,
    anchors: &[FlatAnchor],
) -> Result<Vec<Standing>, AllocError> {
    let mut found = Vec::new(alloc);
    found.resize(rules, OPEN)?;
    for (place, anchor) in anchors.iter().enumerate() {
        for rule in anchor.first..anchor.last.saturating_add(1).min(rules) {
            if let Some(standing) = found.get_mut(rule) {
                standing.anchor = place.saturating_add(1);
                if anchor.is_quick {
                    standing.last = anchor.last;
                }
            }
        }
    }
    Ok(found)
}

/// Whether the rule at place `by` may decide for the one at place `rule`, if both hold, as far as their standings say.
fn may_decide(by: usize, wide: Standing, rule: usize, narrow: Standing) -> bool {
    let is_open = wide.anchor == 0 || wide.anchor == narrow.anchor;
    is_open && (by < rule || by <= narrow.last)
}

/// The place of a rule that may shadow the one at place `rule`: a quick one before it, or one behind it.
fn candidate(ruleset: &Ruleset, standings: &[Standing], rule: usize) -> Option<usize> {
    let rules = ruleset.filter.rules();
    let tables = ruleset.tables.as_slice();
    let narrow = rules.get(rule)?;
    let standing = standings.get(rule).copied()?;
    for (by, wide) in rules.iter().enumerate() {
        let comes = if by < rule {
            wide.is_quick
        } else {
            rule < by && !narrow.is_quick
        };
        let other = standings.get(by).copied().unwrap_or(OPEN);
        if comes
            && has_room(wide)
            && may_decide(by, other, rule, standing)
            && covers(tables, wide, narrow)
        {
            return Some(by);
        }
    }
    None
}

/// Adds the rule at place `rule`, if the one at place `by` is seen to shadow it.
fn add(
    found: &mut Vec<Shadow>,
    ruleset: &Ruleset,
    rule: usize,
    by: Option<usize>,
) -> Result<(), AllocError>
    requires { All (λ shadow. spec.IsShadow ruleset.now shadow.rule shadow.by) found.old.items }
    ensures { OnOk result (All (λ shadow. spec.IsShadow ruleset.now shadow.rule shadow.by) found.new.items) }
{
    match by {
        Some(by) if is_shadow(ruleset, rule, by) => {
            found.push(Shadow { rule, by })?;
            Ok(())
        }
        _ => Ok(()),
    }
}

/// The rules of a ruleset that are seen never to decide, by their numbers. There are none in a ruleset of more than
/// [`MOST_RULES`].
pub fn shadows(alloc: Global, ruleset: &Ruleset) -> Result<Vec<Shadow>, AllocError>
    ensures { IfOk result (λ found. All (λ shadow. spec.IsShadow ruleset.now shadow.rule shadow.by) found.items) }
{
    let mut found = Vec::new(alloc);
    let count = ruleset.filter.rules().len();
    if count > MOST_RULES {
        return Ok(found);
    }
    let standings = standings(alloc, count, ruleset.filter.anchors())?;
    for rule in 0..count {
        let by = candidate(ruleset, standings.as_slice(), rule);
        add(&mut found, ruleset, rule, by)?;
    }
    Ok(found)
}
