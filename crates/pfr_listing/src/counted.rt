//! The lines of counters that a run writes, as they are read.
ghost use Rattle.std.specs.Prelude.{◌≡◌, ◌≤◌, codes, length, IfOk, IfSome};
ghost use Rattle.pfr_listing.specs.Counters as spec;

use crate::words::{counts_in, totals_in};
use pfr_digits::Tail;
use pfr_wording::Counted;

/// The rules that a line of counters may be about.
#[derive(Clone, Copy, Debug, PartialEq, Eq)]
pub enum RuleKind {
    Filter,
    Translation,
}

/// The word with which lines of rules begin.
fn word_of(kind: RuleKind) -> &'static [u8]
    ensures word { result.now ≡ spec.word_of kind }
    ensures long { length result.now ≤ 11 }
{
    match kind {
        RuleKind::Filter => b"filter",
        RuleKind::Translation => b"translation",
    }
}

/// What a run writes of a rule.
#[tactic(auto, unfolding(pfr_commit::specs::Endings::rule_line))]
fn written(kind: RuleKind, number: u64, counted: &Counted) -> Tail
    ensures { result ≡ spec.counter_line kind number counted.now }
{
    let mut line = Tail::new();
    line.put_word(b"\n");
    line.put_number(counted.bytes);
    line.put_word(b" ");
    line.put_number(counted.packets);
    line.put_word(b" ");
    line.put_number(counted.evaluations);
    line.put_word(b" ");
    line.put_number(number);
    line.put_word(b" ");
    line.put_word(word_of(kind));
    line
}

/// What a line, with its newline, counts for rule `number` of a kind, if it is what a run writes of that rule.
pub fn counted_in(line: &[u8], kind: RuleKind, number: u64) -> Option<Counted>
    ensures { IfSome result (λ counted. line.now ≡ spec.counter_line kind number counted) }
{
    let counted = counts_in(line)?;
    if written(kind, number, &counted).as_slice() == line {
        Some(counted)
    } else {
        None
    }
}

/// What the last line counts: all packets, and those with each verdict.
#[derive(Clone, Copy)]
pub(crate) struct Totals {
    pub(crate) records: u64,
    pub(crate) passed: u64,
    pub(crate) blocked: u64,
    pub(crate) returned: u64,
    pub(crate) skipped: u64,
}

/// What a run writes of all packets.
fn written_totals(totals: &Totals) -> Tail {
    let mut line = Tail::new();
    line.put_word(b"\n");
    line.put_number(totals.skipped);
    line.put_word(b" ");
    line.put_number(totals.returned);
    line.put_word(b" ");
    line.put_number(totals.blocked);
    line.put_word(b" ");
    line.put_number(totals.passed);
    line.put_word(b" ");
    line.put_number(totals.records);
    line.put_word(b"total ");
    line
}

/// Whether a line, with its newline, is what a run writes of all packets.
pub(crate) fn is_total(line: &[u8]) -> bool {
    match totals_in(line) {
        Some(totals) => written_totals(&totals).as_slice() == line,
        None => false,
    }
}
