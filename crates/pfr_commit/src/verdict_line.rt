//! The lines of the verdicts.
ghost use Rattle.std.specs.Prelude.{◌≡◌, ◌+◌, ◌≤◌, ◌++◌, length, OnOk, OnErr};
ghost use Rattle.pfr_packet.specs.Verdicts.{reason_text, verdict_text};
ghost use Rattle.pfr_commit.specs.Emissions.{line_text};
ghost use Rattle.pfr_commit.specs.Lines as spec;

use crate::mark::put_mark;
use pfr_digits::Tail;
use pfr_net::{Binding, InterfacePlace};
use pfr_packet::{Outcome, Reason, Verdict};
use pfr_ruleset::Interface;
use pfr_texts::{put_direction, put_rule, put_state};
use pfr_track::Clock;
use std::alloc::AllocError;

/// One line of the verdicts: `N CLOCK DIR VERDICT REASON r=R t=T s=S`, ` i=NAME` if the run has several interfaces, and a newline.
#[derive(Clone, Copy)]
pub struct VerdictLine<'a> {
    /// The interfaces of the run, by their places.
    pub interfaces: &'a [Interface],
    /// The packet's number in its run, from 1.
    pub number: u64,
    pub clock: Clock,
    /// The place of the packet's interface.
    pub place: InterfacePlace,
    pub outcome: &'a Outcome,
}

/// Puts the word for a verdict before the rest of a line.
fn put_verdict(line: &mut Tail, verdict: Verdict)
    requires room { length line.old + 6 ≤ 128 }
    ensures text { line.new ≡ verdict_text verdict ++ line.old }
    ensures long { length line.new ≤ length line.old + 6 }
{
    match verdict {
        Verdict::Pass => line.put_word(b"pass"),
        Verdict::Block => line.put_word(b"block"),
        Verdict::Return => line.put_word(b"return"),
        Verdict::Skip => line.put_word(b"skip"),
    }
}

/// Puts the word for a reason before the rest of a line.
fn put_reason(line: &mut Tail, reason: Reason)
    requires room { length line.old + 14 ≤ 128 }
    ensures text { line.new ≡ reason_text reason ++ line.old }
    ensures long { length line.new ≤ length line.old + 14 }
{
    match reason {
        Reason::Rule => line.put_word(b"rule"),
        Reason::Default => line.put_word(b"default"),
        Reason::NotIp => line.put_word(b"not-ip"),
        Reason::SkipOn => line.put_word(b"skip-on"),
        Reason::Short => line.put_word(b"short"),
        Reason::IpOption => line.put_word(b"ip-option"),
        Reason::State => line.put_word(b"state"),
        Reason::StateError => line.put_word(b"state-error"),
        Reason::StateMismatch => line.put_word(b"state-mismatch"),
        Reason::StateInsert => line.put_word(b"state-insert"),
        Reason::StateLimit => line.put_word(b"state-limit"),
        Reason::NatExhausted => line.put_word(b"nat-exhausted"),
        Reason::NatPass => line.put_word(b"nat-pass"),
    }
}

/// Puts what a line names before the rest of it: ` r=R t=T s=S`.
fn put_named(line: &mut Tail, outcome: &Outcome)
    requires room { length line.old + 69 ≤ 128 }
    ensures text { line.new ≡ spec.named_before outcome.now line.old }
    ensures long { length line.new ≤ length line.old + 69 }
{
    put_state(line, outcome.state);
    line.put_word(b" s=");
    put_rule(line, outcome.translation);
    line.put_word(b" t=");
    put_rule(line, outcome.rule);
    line.put_word(b" r=");
}

/// Puts the words of a line before the rest of it: ` DIR VERDICT REASON`.
fn put_words(line: &mut Tail, outcome: &Outcome)
    requires room { length line.old + 26 ≤ 128 }
    ensures text { line.new ≡ spec.words_before outcome.now line.old }
    ensures long { length line.new ≤ length line.old + 26 }
{
    put_reason(line, outcome.reason);
    line.put_word(b" ");
    put_verdict(line, outcome.verdict);
    line.put_word(b" ");
    put_direction(line, outcome.direction);
    line.put_word(b" ");
}

impl VerdictLine<'_> {
    /// Appends the line to a text. If memory is refused nothing changes.
    ///
    /// Nothing is formatted: the line is written from its end.
    #[tactic(auto, unfolding(crate::specs::Lines::verdict_line))]
    pub fn put(&self, text: &mut Vec<u8>) -> Result<(), AllocError>
        ensures done { OnOk result (text.new.items ≡ text.old.items ++ line_text self.now) }
        ensures kept { OnErr result (text.new.items ≡ text.old.items) }
    {
        let mut line = Tail::new();
        line.put_word(b"\n");
        put_mark(&mut line, self.interfaces, Binding::To(self.place));
        put_named(&mut line, self.outcome);
        put_words(&mut line, self.outcome);
        line.put_number(u64::from(self.clock.0));
        line.put_word(b" ");
        line.put_number(self.number);
        text.extend_from_slice(line.as_slice())
    }
}
