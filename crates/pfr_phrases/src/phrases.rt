//! The words of rules that are rewritten by themselves.
ghost use Rattle.std.specs.Prelude.{◌≡◌, ◌≤◌, ◌<◌, length, map, IfSome};
ghost use Rattle.pfr_phrases.specs.Phrases as spec;

use crate::change::{Becomes, Words};
use crate::lengths::{Takes, taken_len};
use crate::reason::Reason;
use pfr_marks::mark::Mark;
use pfr_words::names::entry_of;

/// What is written for a word: what goes with it, what it becomes, and why.
#[derive(Clone, Copy, Debug)]
pub struct Phrase(pub Takes, pub Becomes, pub Reason);

/// The words of rules outside of brackets.
const RULE_PHRASES: [(&[u8], Phrase); 18] = [
    (
        b"modulate",
        Phrase(
            Takes::State,
            Becomes::Words(Words::KeepState),
            Reason::Modulated,
        ),
    ),
    (
        b"synproxy",
        Phrase(
            Takes::State,
            Becomes::Words(Words::KeepState),
            Reason::Synproxy,
        ),
    ),
    (
        b"return-rst",
        Phrase(
            Takes::MayTakeBrackets,
            Becomes::Words(Words::Return),
            Reason::Answer,
        ),
    ),
    (
        b"return-icmp",
        Phrase(
            Takes::MayTakeBrackets,
            Becomes::Words(Words::Return),
            Reason::Answer,
        ),
    ),
    (
        b"return-icmp6",
        Phrase(
            Takes::MayTakeBrackets,
            Becomes::Words(Words::Return),
            Reason::Answer,
        ),
    ),
    (
        b"log",
        Phrase(
            Takes::Brackets,
            Becomes::Words(Words::Log),
            Reason::LogOptions,
        ),
    ),
    (
        b"route-to",
        Phrase(Takes::Value, Becomes::Nothing, Reason::Route),
    ),
    (
        b"reply-to",
        Phrase(Takes::Value, Becomes::Nothing, Reason::Route),
    ),
    (
        b"dup-to",
        Phrase(Takes::Value, Becomes::Nothing, Reason::Route),
    ),
    (
        b"fastroute",
        Phrase(Takes::Nothing, Becomes::Nothing, Reason::Route),
    ),
    (
        b"rtable",
        Phrase(Takes::Value, Becomes::Nothing, Reason::Route),
    ),
    (
        b"queue",
        Phrase(Takes::Value, Becomes::Nothing, Reason::Queue),
    ),
    (
        b"dnpipe",
        Phrase(Takes::Value, Becomes::Nothing, Reason::Queue),
    ),
    (
        b"dnqueue",
        Phrase(Takes::Value, Becomes::Nothing, Reason::Queue),
    ),
    (
        b"ridentifier",
        Phrase(Takes::Value, Becomes::Nothing, Reason::Identifier),
    ),
    (
        b"tracker",
        Phrase(Takes::Value, Becomes::Nothing, Reason::Identifier),
    ),
    (b"tag", Phrase(Takes::Value, Becomes::Nothing, Reason::Tag)),
    (
        b"set",
        Phrase(Takes::Setting, Becomes::Nothing, Reason::Priority),
    ),
];

/// The words in the brackets behind `keep state`.
pub(crate) const STATE_OPTIONS: [(&[u8], Phrase); 28] = [
    (
        b"max-src-nodes",
        Phrase(Takes::Value, Becomes::Nothing, Reason::Limit),
    ),
    (
        b"max-src-states",
        Phrase(Takes::Value, Becomes::Nothing, Reason::Limit),
    ),
    (
        b"max-src-conn",
        Phrase(Takes::Value, Becomes::Nothing, Reason::Limit),
    ),
    (
        b"max-src-conn-rate",
        Phrase(Takes::Rate, Becomes::Nothing, Reason::Limit),
    ),
    (
        b"source-track",
        Phrase(Takes::MayTakeScope, Becomes::Nothing, Reason::Limit),
    ),
    (
        b"overload",
        Phrase(Takes::Value, Becomes::Nothing, Reason::Overload),
    ),
    (
        b"flush",
        Phrase(Takes::MayTakeGlobal, Becomes::Nothing, Reason::Overload),
    ),
    (
        b"sloppy",
        Phrase(Takes::Nothing, Becomes::Nothing, Reason::Sloppy),
    ),
    (
        b"pflow",
        Phrase(Takes::Nothing, Becomes::Nothing, Reason::Flow),
    ),
    (
        b"tcp.first",
        Phrase(Takes::Value, Becomes::Nothing, Reason::RuleTimeout),
    ),
    (
        b"tcp.opening",
        Phrase(Takes::Value, Becomes::Nothing, Reason::RuleTimeout),
    ),
    (
        b"tcp.established",
        Phrase(Takes::Value, Becomes::Nothing, Reason::RuleTimeout),
    ),
    (
        b"tcp.closing",
        Phrase(Takes::Value, Becomes::Nothing, Reason::RuleTimeout),
    ),
    (
        b"tcp.finwait",
        Phrase(Takes::Value, Becomes::Nothing, Reason::RuleTimeout),
    ),
    (
        b"tcp.closed",
        Phrase(Takes::Value, Becomes::Nothing, Reason::RuleTimeout),
    ),
    (
        b"udp.first",
        Phrase(Takes::Value, Becomes::Nothing, Reason::RuleTimeout),
    ),
    (
        b"udp.single",
        Phrase(Takes::Value, Becomes::Nothing, Reason::RuleTimeout),
    ),
    (
        b"udp.multiple",
        Phrase(Takes::Value, Becomes::Nothing, Reason::RuleTimeout),
    ),
    (
        b"icmp.first",
        Phrase(Takes::Value, Becomes::Nothing, Reason::RuleTimeout),
    ),
    (
        b"icmp.error",
        Phrase(Takes::Value, Becomes::Nothing, Reason::RuleTimeout),
    ),
    (
        b"other.first",
        Phrase(Takes::Value, Becomes::Nothing, Reason::RuleTimeout),
    ),
    (
        b"other.single",
        Phrase(Takes::Value, Becomes::Nothing, Reason::RuleTimeout),
    ),
    (
        b"other.multiple",
        Phrase(Takes::Value, Becomes::Nothing, Reason::RuleTimeout),
    ),
    (
        b"adaptive.start",
        Phrase(Takes::Value, Becomes::Nothing, Reason::RuleTimeout),
    ),
    (
        b"adaptive.end",
        Phrase(Takes::Value, Becomes::Nothing, Reason::RuleTimeout),
    ),
    (
        b"interval",
        Phrase(Takes::Value, Becomes::Nothing, Reason::RuleTimeout),
    ),
    (
        b"frag",
        Phrase(Takes::Value, Becomes::Nothing, Reason::RuleTimeout),
    ),
    (
        b"src.track",
        Phrase(Takes::Value, Becomes::Nothing, Reason::RuleTimeout),
    ),
];

/// The limits of `set limit` on which no verdict depends, and which the strict reader doesn't know.
pub(crate) const LIMITS: [(&[u8], Phrase); 2] = [
    (
        b"anchors",
        Phrase(Takes::Value, Becomes::Nothing, Reason::Setting),
    ),
    (
        b"eth-anchors",
        Phrase(Takes::Value, Becomes::Nothing, Reason::Setting),
    ),
];

/// The words behind the target of a translation rule.
const POOL_PHRASES: [(&[u8], Phrase); 6] = [
    (b"-", Phrase(Takes::Value, Becomes::Nothing, Reason::Pool)),
    (
        b"round-robin",
        Phrase(Takes::Nothing, Becomes::Nothing, Reason::Pool),
    ),
    (
        b"random",
        Phrase(Takes::Nothing, Becomes::Nothing, Reason::Pool),
    ),
    (
        b"bitmask",
        Phrase(Takes::Nothing, Becomes::Nothing, Reason::Pool),
    ),
    (
        b"sticky-address",
        Phrase(Takes::Nothing, Becomes::Nothing, Reason::Pool),
    ),
    (
        b"source-hash",
        Phrase(Takes::MayTakeKey, Becomes::Nothing, Reason::Pool),
    ),
];

/// The file of a table.
const FILE_PHRASES: [(&[u8], Phrase); 1] = [(
    b"file",
    Phrase(Takes::Value, Becomes::Nothing, Reason::TableFile),
)];

/// A label, if the rule has one before it.
const LABEL_PHRASES: [(&[u8], Phrase); 1] = [(
    b"label",
    Phrase(Takes::Value, Becomes::Nothing, Reason::Label),
)];

/// The timeouts of `set timeout` that depend on the number of states.
pub(crate) const ADAPTIVE_TIMEOUTS: [(&[u8], Phrase); 2] = [
    (
        b"adaptive.start",
        Phrase(Takes::Value, Becomes::Nothing, Reason::Adaptive),
    ),
    (
        b"adaptive.end",
        Phrase(Takes::Value, Becomes::Nothing, Reason::Adaptive),
    ),
];

/// The phrase of a table that begins at the front of marks, and how many marks it has.
#[tactic(auto, unfolding(crate::specs::Phrases::phrase_at))]
pub(crate) fn phrase_at(table: &[(&[u8], Phrase)], marks: &[Mark<'_>]) -> Option<(usize, Phrase)>
    ensures value { result ≡ spec.phrase_at (map (λ e. (e.0.now, e.1)) table.now) marks.now }
    ensures within { IfSome result (λ found. (0 < found.0) × (found.0 ≤ length marks.now)) }
{
    let first = marks.first()?;
    let phrase = entry_of(table, first.piece.as_slice())?;
    let len = taken_len(phrase.0, &marks[1..]);
    if len == 0 { None } else { Some((len, phrase)) }
}

/// The word behind a target at the front of marks that is left out, and how many marks it has.
#[tactic(auto, unfolding(crate::specs::Phrases::pool_phrase_at))]
pub(crate) fn pool_phrase_at(marks: &[Mark<'_>]) -> Option<(usize, Phrase)>
    ensures value { result ≡ spec.pool_phrase_at marks.now }
    ensures within { IfSome result (λ found. (0 < found.0) × (found.0 ≤ length marks.now)) }
{
    phrase_at(&POOL_PHRASES, marks)
}

/// The file of a table at the front of marks: how many marks it has, and what is written for it.
#[tactic(auto, unfolding(crate::specs::Phrases::file_phrase_at))]
pub fn file_phrase_at(marks: &[Mark<'_>]) -> Option<(usize, Phrase)>
    ensures value { result ≡ spec.file_phrase_at marks.now }
    ensures within { IfSome result (λ found. (0 < found.0) × (found.0 ≤ length marks.now)) }
{
    phrase_at(&FILE_PHRASES, marks)
}

/// The label at the front of marks, and how many marks it has.
#[tactic(auto, unfolding(crate::specs::Phrases::label_phrase_at))]
pub(crate) fn label_phrase_at(marks: &[Mark<'_>]) -> Option<(usize, Phrase)>
    ensures value { result ≡ spec.label_phrase_at marks.now }
    ensures within { IfSome result (λ found. (0 < found.0) × (found.0 ≤ length marks.now)) }
{
    phrase_at(&LABEL_PHRASES, marks)
}

/// The word of a rule at the front of marks that is rewritten, and how many marks it has.
#[tactic(auto, unfolding(crate::specs::Phrases::rule_phrase_at))]
pub(crate) fn rule_phrase_at(marks: &[Mark<'_>]) -> Option<(usize, Phrase)>
    ensures value { result ≡ spec.rule_phrase_at marks.now }
    ensures within { IfSome result (λ found. (0 < found.0) × (found.0 ≤ length marks.now)) }
{
    phrase_at(&RULE_PHRASES, marks)
}
