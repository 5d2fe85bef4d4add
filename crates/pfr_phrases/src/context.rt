//! Where a word stands in its statement.
ghost use Rattle.std.specs.Prelude.{◌≡◌};
ghost use Rattle.pfr_phrases.specs.Contexts as spec;

use crate::options::{Group, are_all_left_out};
use pfr_marks::mark::{Mark, Place, begins_with, is};
use pfr_words::names::{entry_of, is_among, is_grammar_word};

/// The statement that a word stands in.
#[derive(Clone, Copy, Debug, PartialEq, Eq)]
pub enum Within {
    /// None yet: the word begins one.
    Nothing,
    /// A rule of the filter, or of translation.
    Rule,
    Anchor,
    Table,
    Setting,
    Other,
}

/// What a word says in its statement, by the words before it.
#[derive(Clone, Copy, Debug, PartialEq, Eq)]
pub enum Says {
    Nothing,
    Interface,
    Protocol,
    Address,
    /// The address that a translation rule writes.
    Target,
    Port,
    /// A type of ICMP, or its code.
    IcmpType,
    /// A timeout of `set timeout`.
    Timeout,
    /// A limit of `set limit`.
    Limit,
}

/// What stands round a word.
#[derive(Clone, Copy)]
pub struct Context {
    /// The end of the word before.
    pub behind: Place,
    pub within: Within,
    pub says: Says,
    /// Whether it stands in the braces of a list.
    pub in_braces: bool,
    /// Whether it stands in round brackets.
    pub in_brackets: bool,
    /// Whether all that these brackets hold is left out.
    pub emptied: bool,
    /// Whether it stands right behind a `!`, or a sign that compares.
    pub behind_operator: bool,
    /// Whether the rule has a label before it.
    pub has_label: bool,
    /// Whether the rule has a target before it.
    pub has_target: bool,
    /// Whether the table has a file before it.
    pub has_file: bool,
    /// Whether a value of what words say stands right before it.
    pub has_value: bool,
    /// Whether it is a name in `< >`.
    pub in_angles: bool,
}

/// The words that begin a rule.
const RULES: [&[u8]; 7] = [b"pass", b"block", b"match", b"nat", b"rdr", b"binat", b"no"];

/// The words behind which words say something.
const SAYINGS: [(&[u8], Says); 10] = [
    (b"on", Says::Interface),
    (b"proto", Says::Protocol),
    (b"from", Says::Address),
    (b"to", Says::Address),
    (b"->", Says::Target),
    (b"table", Says::Address),
    (b"port", Says::Port),
    (b"icmp-type", Says::IcmpType),
    (b"timeout", Says::Timeout),
    (b"limit", Says::Limit),
];

/// The words of the grammar that may stand among what is said.
const AMONG: [&[u8]; 14] = [
    b"any",
    b"self",
    b"code",
    b"const",
    b"persist",
    b"counters",
    b"states",
    b"frags",
    b"src-nodes",
    b"table-entries",
    b"tables",
    b"interval",
    b"frag",
    b"src.track",
];

/// The signs that ask for one value behind them.
const OPERATORS: [&[u8]; 11] = [
    b"!", b"=", b"!=", b"<", b"<=", b">", b">=", b"><", b"<>", b"-", b"/",
];

/// The signs behind which a value stands.
const OPENERS: [&[u8]; 15] = [
    b"!", b"=", b"!=", b"<", b"<=", b">=", b"><", b"<>", b"-", b"/", b",", b"(", b"{", b"->", b"\n",
];

/// The words behind which targets stand.
const TARGETS: [&[u8]; 4] = [b"->", b"route-to", b"reply-to", b"dup-to"];

/// The words that begin an anchor.
const ANCHORS: [&[u8]; 4] = [b"anchor", b"nat-anchor", b"rdr-anchor", b"binat-anchor"];

/// Whether a sign asks for one value behind it.
#[tactic(auto, unfolding(crate::specs::Contexts::is_operator))]
fn is_operator(word: &[u8]) -> bool
    ensures { result ≡ spec.is_operator word.now }
{
    is_among(&OPERATORS, word)
}

/// Whether targets stand behind a word.
#[tactic(auto, unfolding(crate::specs::Contexts::stands_before_targets))]
fn stands_before_targets(word: &[u8]) -> bool
    ensures { result ≡ spec.stands_before_targets word.now }
{
    is_among(&TARGETS, word)
}

impl Context {
    /// What stands round the first word of a statement, behind a place.
    pub fn beginning(behind: Place) -> Context
        ensures { result ≡ spec.beginning_at behind }
    {
        Context {
            behind,
            within: Within::Nothing,
            says: Says::Nothing,
            in_braces: false,
            in_brackets: false,
            emptied: false,
            behind_operator: false,
            has_label: false,
            has_target: false,
            has_file: false,
            has_value: false,
            in_angles: false,
        }
    }

    /// The same, behind another place.
    pub fn at(self, behind: Place) -> Context
        ensures { result ≡ record self { behind = behind } }
    {
        Context { behind, ..self }
    }

    /// What stands round the word behind the first of these marks, if `self` stands round the first.
    #[tactic(auto, unfolding(crate::specs::Contexts::context_behind))]
    pub fn behind(self, marks: &[Mark<'_>]) -> Context
        ensures { result ≡ spec.context_behind self marks.now }
    {
        let Some(mark) = marks.first() else {
            return self;
        };
        let more = &marks[1..];
        let here = Context {
            behind: mark.end,
            behind_operator: is_operator(mark.piece.as_slice()),
            has_value: self.is_value(mark.piece.as_slice()),
            in_angles: self.opens_angles(mark, more),
            ..self
        };
        if self.in_angles {
            here
        } else {
            here.with(mark, more)
        }
    }

    /// Whether a word is a value, or ends one, and is no sign that another value is to follow.
    #[tactic(auto, unfolding(crate::specs::Contexts::is_value))]
    fn is_value(self, word: &[u8]) -> bool
        ensures { result ≡ spec.is_value self word.now }
    {
        if word == b">".as_slice() {
            return self.says != Says::Port;
        }
        !is_among(&OPENERS, word) && (!is_grammar_word(word) || is_among(&AMONG, word))
    }

    /// Whether a name in `< >` stands behind a mark, before others.
    fn opens_angles(self, mark: &Mark<'_>, more: &[Mark<'_>]) -> bool
        ensures { result ≡ spec.opens_angles self mark.now more.now }
    {
        self.says != Says::Port && is(mark, b"<") && more.len() >= 2 && is(&more[1], b">")
    }

    /// With one mark more, before these.
    fn with(self, mark: &Mark<'_>, more: &[Mark<'_>]) -> Context
        ensures { result ≡ spec.with_mark self mark.now more.now }
    {
        if is(mark, b"\n") {
            return self.with_line_end();
        }
        if is(mark, b"{") {
            return self.with_brace(begins_with(more, b"\n"));
        }
        if is(mark, b"}") {
            return Context {
                in_braces: false,
                ..self
            };
        }
        if is(mark, b"(") {
            return Context {
                in_brackets: true,
                emptied: !begins_with(more, b",") && are_all_left_out(Group::Options, more),
                ..self
            };
        }
        if is(mark, b")") {
            return Context {
                in_brackets: false,
                emptied: false,
                ..self
            };
        }
        Context {
            within: self.within.with(mark.piece.as_slice()),
            says: self.says.behind(mark.piece.as_slice()),
            has_label: self.has_label || is(mark, b"label"),
            has_target: self.has_target || stands_before_targets(mark.piece.as_slice()),
            has_file: self.has_file || is(mark, b"file"),
            ..self
        }
    }

    fn with_line_end(self) -> Context
        ensures { result ≡ spec.with_line_end self }
    {
        if self.in_braces {
            self
        } else {
            Context::beginning(self.behind)
        }
    }

    /// With an open brace. That of an anchor's body ends its line, and its statement.
    fn with_brace(self, ends_line: bool) -> Context
        ensures { result ≡ spec.with_brace self ends_line }
    {
        if ends_line && self.within == Within::Anchor {
            return Context::beginning(self.behind);
        }
        Context {
            in_braces: true,
            ..self
        }
    }
}

impl Within {
    /// With a word more.
    fn with(self, word: &[u8]) -> Within
        ensures { result ≡ spec.within_with self word.now }
    {
        match self {
            Within::Nothing => Within::of(word),
            _ => self,
        }
    }

    /// The statement that a word begins.
    #[tactic(auto, unfolding(crate::specs::Contexts::within_of))]
    fn of(word: &[u8]) -> Within
        ensures { result ≡ spec.within_of word.now }
    {
        if is_among(&RULES, word) {
            Within::Rule
        } else if is_among(&ANCHORS, word) {
            Within::Anchor
        } else if word == b"table".as_slice() {
            Within::Table
        } else if word == b"set".as_slice() {
            Within::Setting
        } else {
            Within::Other
        }
    }
}

impl Says {
    /// Behind a word: what it asks for, nothing if it is another word of the grammar, and the same as before behind all
    /// others.
    #[tactic(auto, unfolding(crate::specs::Contexts::says_behind))]
    fn behind(self, word: &[u8]) -> Says
        ensures { result ≡ spec.says_behind self word.now }
    {
        if let Some(says) = entry_of(&SAYINGS, word) {
            return says;
        }
        if is_grammar_word(word) && !is_among(&AMONG, word) {
            Says::Nothing
        } else {
            self
        }
    }
}
