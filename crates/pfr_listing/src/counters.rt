//! The counters of a run.
use crate::counted::{RuleKind, counted_in, is_total};
use crate::listing::{Refused, first_line};
use pfr_wording::{Counted, RuleCounts};
use std::alloc::{AllocError, Global};

/// The lines of a text that are left, and the number of the next one.
#[derive(Drop)]
struct Lines<'a> {
    rest: &'a [u8],
    number: u64,
}

impl<'a> Lines<'a> {
    /// The next line with its newline.
    fn next(&mut self) -> Option<&'a [u8]> {
        let (line, behind) = first_line(self.rest)?;
        let whole = self.rest.get(..line.len().saturating_add(1))?;
        self.rest = behind;
        Some(whole)
    }

    /// What the next line counts for rule `rule` of a kind.
    fn counted(&mut self, kind: RuleKind, rule: usize) -> Result<Counted, Refused> {
        let refused = Refused::Line(self.number);
        let counted = match self.next() {
            Some(line) => counted_in(line, kind, rule as u64),
            None => None,
        };
        self.number = self.number.saturating_add(1);
        counted.ok_or(refused)
    }

    /// What the next lines count for `rules` rules of a kind.
    fn all(
        &mut self,
        alloc: Global,
        kind: RuleKind,
        rules: usize,
    ) -> Result<Vec<Counted>, Refused> {
        let mut counts = Vec::new(alloc);
        for rule in 0..rules {
            counts
                .push(self.counted(kind, rule)?)
                .map_err(AllocError::from)?;
        }
        Ok(counts)
    }

    /// Nothing, if the last line is that of all packets.
    fn end(&mut self) -> Result<(), Refused> {
        let refused = Refused::Line(self.number);
        match self.next() {
            Some(line) if is_total(line) => {}
            _ => return Err(refused),
        }
        if self.rest.is_empty() {
            Ok(())
        } else {
            Err(Refused::Line(self.number.saturating_add(1)))
        }
    }
}

/// What a run with `filter` filter rules and `translations` translation rules counted, by the text of its counters. The
/// first line that such a run doesn't write there is refused.
pub fn counters_in(
    alloc: Global,
    text: &[u8],
    filter: usize,
    translations: usize,
) -> Result<RuleCounts, Refused> {
    let mut lines = Lines {
        rest: text,
        number: 1,
    };
    let filter = lines.all(alloc, RuleKind::Filter, filter)?;
    let translations = lines.all(alloc, RuleKind::Translation, translations)?;
    lines.end()?;
    Ok(RuleCounts {
        filter,
        translations,
    })
}
