//! What counts for the lines of a ruleset's file.
ghost use Rattle.std.specs.Prelude.{◌≡◌};
ghost use Rattle.pfr_report.specs.Lines as spec;

use crate::count::{Count, NONE};
use pfr_asked::{NotAsked, Why};
use pfr_packet::Verdict;
use pfr_shadows::Shadow;
use pfr_wording::{RuleTold, RulesTold};
use std::alloc::{AllocError, Global};

/// What stands on a line, and what counts for it.
#[derive(Clone, Copy)]
pub(crate) struct Line {
    /// Whether a rule stands on it.
    pub(crate) has_rule: bool,
    /// How many of its rules there are for which packets may count: all but those that begin with `no`.
    pub(crate) rules: u64,
    /// How many of these are filter rules that are shadowed.
    shadowed: u64,
    /// The line of the rule by which the first of them is.
    by: usize,
    /// How many of them no packet could have asked.
    unasked: u64,
    /// Why none could have asked the first of these.
    why: Option<Why>,
    /// The verdict of its filter rules, if they have one.
    verdict: Option<Verdict>,
    /// Whether they have several.
    is_mixed: bool,
    pub(crate) count: Count,
}

/// A line on which no rule stands.
const EMPTY: Line = Line {
    has_rule: false,
    rules: 0,
    shadowed: 0,
    by: 0,
    unasked: 0,
    why: None,
    verdict: None,
    is_mixed: false,
    count: NONE,
};

/// The verdict of a rule with these words, if it is a filter rule.
fn verdict_of(words: &[u8]) -> Option<Verdict> {
    if words.starts_with(b"pass") {
        Some(Verdict::Pass)
    } else if words.starts_with(b"block return") {
        Some(Verdict::Return)
    } else if words.starts_with(b"block") {
        Some(Verdict::Block)
    } else {
        None
    }
}

impl Line {
    /// Whether nothing counts for its rules, and something might.
    pub(crate) fn is_unused(&self) -> bool {
        self.rules > 0 && self.count.packets == 0
    }

    /// The line of the rule by which its first rule is shadowed, if all of them are.
    pub(crate) fn shadowed_by(&self) -> Option<usize> {
        if self.rules > 0 && self.shadowed == self.rules {
            Some(self.by)
        } else {
            None
        }
    }

    /// Why no packet could have asked its first rule, if none could have asked any of them.
    pub(crate) fn not_asked(&self) -> Option<Why> {
        if self.rules > 0 && self.unasked == self.rules {
            self.why
        } else {
            None
        }
    }

    /// The verdict of its filter rules, if all have the same.
    pub(crate) fn verdict(&self) -> Option<Verdict> {
        if self.is_mixed { None } else { self.verdict }
    }

    /// Notes the verdict of a rule on the line.
    fn add_verdict(&mut self, verdict: Option<Verdict>) {
        match (self.verdict, verdict) {
            (Some(one), Some(other)) if one != other => self.is_mixed = true,
            (None, Some(_)) => self.verdict = verdict,
            _ => {}
        }
    }

    /// Says of a rule on the line why no packet could have asked it.
    fn leave_out(&mut self, why: Why) {
        if self.unasked == 0 {
            self.why = Some(why);
        }
        self.unasked = self.unasked.saturating_add(1);
    }

    /// Puts a rule on the line.
    fn put(&mut self, rule: &RuleTold<'_>) {
        self.has_rule = true;
        self.add_verdict(verdict_of(rule.words));
        if !rule.words.starts_with(b"no ") {
            self.rules = self.rules.saturating_add(1);
        }
    }

    /// Says of a rule on the line that one on another line shadows it.
    fn shadow(&mut self, by: usize) {
        if self.shadowed == 0 {
            self.by = by;
        }
        self.shadowed = self.shadowed.saturating_add(1);
    }
}

/// The lines of a ruleset's file, by their numbers.
#[derive(Drop)]
pub(crate) struct Lines(Vec<Line>);

/// Counts a packet for the line with a number, if it is there.
#[tactic(auto, using(crate::proofs::LineLemmas::counted_there, crate::proofs::LineLemmas::counted_nowhere))]
fn add_at(lines: &mut Vec<Line>, number: usize, bytes: u64)
    ensures { lines.new.items ≡ spec.counted_at number bytes lines.old.items }
{
    if let Some(line) = lines.get_mut(number) {
        line.count.add(bytes);
    }
}

/// Counts a packet for the line of a rule, if it has one.
fn add_for(lines: &mut Vec<Line>, number: Option<usize>, bytes: u64)
    ensures { lines.new.items ≡ spec.counted number bytes lines.old.items }
{
    if let Some(number) = number {
        add_at(lines, number, bytes);
    }
}

/// The line on which a rule stands.
fn line_of(rules: &[RuleTold<'_>], number: usize) -> Option<usize> {
    Some(rules.get(number)?.line)
}

impl Lines {
    /// The lines on which these rules stand, of which some are shadowed. Nothing counts for them yet.
    pub(crate) fn of(
        alloc: Global,
        rules: &RulesTold<'_>,
        shadows: &[Shadow],
    ) -> Result<Lines, AllocError> {
        let mut lines = Lines(Vec::new(alloc));
        lines.put_all(rules.filter.as_slice())?;
        lines.put_all(rules.translations.as_slice())?;
        lines.shadow_all(rules.filter.as_slice(), shadows);
        Ok(lines)
    }

    /// Puts rules on their lines.
    fn put_all(&mut self, rules: &[RuleTold<'_>]) -> Result<(), AllocError> {
        for rule in rules {
            if rule.line >= self.0.len() {
                self.0.resize(rule.line.saturating_add(1), EMPTY)?;
            }
            if let Some(line) = self.0.get_mut(rule.line) {
                line.put(rule);
            }
        }
        Ok(())
    }

    /// Says of filter rules that they are shadowed.
    fn shadow_all(&mut self, filter: &[RuleTold<'_>], shadows: &[Shadow]) {
        for shadow in shadows {
            let by = line_of(filter, shadow.by).unwrap_or(0);
            if let Some(number) = line_of(filter, shadow.rule) {
                if let Some(line) = self.0.get_mut(number) {
                    line.shadow(by);
                }
            }
        }
    }

    /// Says of rules that no packet could have asked them.
    pub(crate) fn leave_out(&mut self, rules: &[NotAsked]) {
        for (number, why) in rules {
            if let Some(line) = self.0.get_mut(*number) {
                line.leave_out(*why);
            }
        }
    }

    /// The line with a number, from 1.
    pub(crate) fn at(&self, number: usize) -> Line {
        match self.0.get(number) {
            Some(line) => *line,
            None => EMPTY,
        }
    }

    /// How many lines there are up to the last on which a rule stands, and one more for 0.
    pub(crate) fn len(&self) -> usize {
        self.0.len()
    }

    /// Counts a packet for the lines of its rules, once for each.
    pub(crate) fn add(&mut self, filter: Option<usize>, translation: Option<usize>, bytes: u64)
        ensures { self.new.0.items ≡ spec.counted_for filter translation bytes self.old.0.items }
    {
        add_for(&mut self.0, filter, bytes);
        if filter != translation {
            add_for(&mut self.0, translation, bytes);
        }
    }
}
