//! The lines of the counters.
ghost use Rattle.std.specs.Prelude.{◌≡◌, ◌++◌, get_or, Some, OnOk};
ghost use Rattle.std.specs.String.{string_bytes};
ghost use Rattle.pfr_commit.specs.Endings as spec;

use crate::counters::{Counters, RuleCounters, Totals};
use std::alloc::{AllocError, Global};
use std::fmt;
use std::fmt::Write;

/// The line of one rule: `KIND N EVALUATIONS PACKETS BYTES` and a newline.
#[derive(Clone, Copy)]
struct RuleLine<'a> {
    kind: &'a str,
    number: usize,
    evaluations: u64,
    packets: u64,
    bytes: u64,
}

/// The last line: `total RECORDS PASS BLOCK RETURN SKIP` and a newline.
#[derive(Clone, Copy)]
struct TotalLine {
    records: u64,
    totals: Totals,
}

impl fmt::Display for RuleLine<'_> {
    ghost output = { λ l. Some (spec.rule_text l) };

    #[tactic(auto, unfolding(crate::specs::Endings::rule_line))]
    fn fmt<W: fmt::Write>(&self, f: &mut fmt::Formatter<W>) -> fmt::Result {
        let kind = self.kind;
        let number = self.number;
        let evaluations = self.evaluations;
        let packets = self.packets;
        let bytes = self.bytes;
        writeln!(f, "{kind} {number} {evaluations} {packets} {bytes}")
    }
}

impl fmt::Display for TotalLine {
    ghost output = { λ l. Some (spec.total_line l.records l.totals) };

    #[tactic(auto, unfolding(crate::specs::Endings::total_line))]
    fn fmt<W: fmt::Write>(&self, f: &mut fmt::Formatter<W>) -> fmt::Result {
        let records = self.records;
        let passed = self.totals.passed;
        let blocked = self.totals.blocked;
        let returned = self.totals.returned;
        let skipped = self.totals.skipped;
        writeln!(f, "total {records} {passed} {blocked} {returned} {skipped}")
    }
}

impl RuleCounters {
    /// The line of a rule that was evaluated `evaluations` times.
    fn line_at<'a>(&self, kind: &'a str, number: usize, evaluations: u64) -> RuleLine<'a>
        requires { evaluations ≡ get_or self.now.evaluations number 0 }
        ensures { spec.rule_text result ≡ spec.line_at kind.now self.now number }
    {
        RuleLine {
            kind,
            number,
            evaluations,
            packets: self.packets.get(number),
            bytes: self.bytes.get(number),
        }
    }

    /// Appends a line for each rule to a text.
    #[tactic(auto, unfolding(crate::specs::Endings::rule_lines))]
    fn put_lines(&self, alloc: Global, kind: &str, text: &mut String) -> Result<(), AllocError>
        ensures { OnOk result (string_bytes text.new ≡ string_bytes text.old ++ spec.rule_lines kind.now self.now) }
    {
        let evaluations = self.evaluations.counts(alloc)?;
        for number in 0..evaluations.len() {
            let line = self.line_at(kind, number, evaluations[number]);
            write!(text, "{line}")?;
        }
        Ok(())
    }
}

impl Counters {
    /// Appends the text of the counters after `records` packets to `text`.
    #[tactic(auto, unfolding(crate::specs::Endings::counters_text))]
    pub(crate) fn put(
        &self,
        alloc: Global,
        records: u64,
        text: &mut String,
    ) -> Result<(), AllocError>
        ensures { OnOk result (string_bytes text.new ≡ string_bytes text.old ++ spec.counters_text records self.now) }
    {
        self.filter.put_lines(alloc, "filter", text)?;
        self.translation.put_lines(alloc, "translation", text)?;
        let line = TotalLine {
            records,
            totals: self.totals,
        };
        write!(text, "{line}")
    }
}
