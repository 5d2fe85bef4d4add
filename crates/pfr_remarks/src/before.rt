//! What stands before a word in its statement.
ghost use Rattle.std.specs.Prelude.{◌≡◌};
ghost use Rattle.pfr_remarks.specs.Befores as spec;

use crate::protocols::Protocols;
use crate::told::Told;
use crate::why::Why;
use pfr_marks::mark::{Mark, begins_with, is};
use pfr_words::names::entry_of;

/// What a statement is, by its first word.
#[derive(Clone, Copy, Debug, PartialEq, Eq)]
pub(crate) enum Statement {
    /// No word of it stands before.
    Nothing,
    /// A rule that begins with `pass` or `match`.
    Pass,
    Block,
    /// `rdr`. Rules of `nat` and `binat` ask for no protocol.
    Redirection,
    Anchor,
    Other,
}

/// What the word behind is, whatever it says.
#[derive(Clone, Copy, Debug, PartialEq, Eq)]
pub(crate) enum Asks {
    Nothing,
    /// A protocol, or a list of them.
    Protocol,
    Label,
}

/// What a word of a rule means.
#[derive(Clone, Copy, Debug, PartialEq, Eq)]
pub(crate) enum Keyword {
    Protocol,
    Port,
    Type,
    /// States are kept, if `state` stands behind.
    Keep,
    Label,
    /// What a translation puts in stands behind.
    Target,
}

/// The first words of statements, by pf.conf(5)'s grammar.
const STATEMENTS: [(&[u8], Statement); 5] = [
    (b"pass", Statement::Pass),
    (b"match", Statement::Pass),
    (b"block", Statement::Block),
    (b"rdr", Statement::Redirection),
    (b"anchor", Statement::Anchor),
];

/// The words that mean something outside of braces and brackets.
const KEYWORDS: [(&[u8], Keyword); 8] = [
    (b"proto", Keyword::Protocol),
    (b"port", Keyword::Port),
    (b"icmp-type", Keyword::Type),
    (b"keep", Keyword::Keep),
    (b"modulate", Keyword::Keep),
    (b"synproxy", Keyword::Keep),
    (b"label", Keyword::Label),
    (b"->", Keyword::Target),
];

/// What stands before a mark in its statement.
#[derive(Clone, Copy)]
pub(crate) struct Before {
    pub statement: Statement,
    pub asks: Asks,
    /// How many braces of lists are open.
    pub braces: usize,
    /// How many round brackets are open.
    pub brackets: usize,
    pub protocols: Protocols,
    /// Whether `->` stands before.
    pub target: bool,
    pub told: Told,
}

/// What a word means outside of braces and brackets.
#[tactic(auto, unfolding(crate::specs::Befores::keyword_of))]
pub(crate) fn keyword_of(word: &[u8]) -> Option<Keyword>
    ensures { result ≡ spec.keyword_of word.now }
{
    entry_of(&KEYWORDS, word)
}

impl Statement {
    /// The statement that a word begins.
    #[tactic(auto, unfolding(crate::specs::Befores::statement_of))]
    fn of(word: &[u8]) -> Statement
        ensures { result ≡ spec.statement_of word.now }
    {
        match entry_of(&STATEMENTS, word) {
            Some(statement) => statement,
            None => Statement::Other,
        }
    }

    /// With a word more.
    fn with_word(self, word: &[u8]) -> Statement
        ensures { result ≡ spec.statement_with self word.now }
    {
        match self {
            Statement::Nothing => Statement::of(word),
            _ => self,
        }
    }

    fn is_anchor(self) -> bool
        ensures { result ≡ spec.is_anchor self }
    {
        match self {
            Statement::Anchor => true,
            _ => false,
        }
    }

    /// Whether it is a rule of the filter.
    pub(crate) fn is_filter(self) -> bool
        ensures { result ≡ spec.is_filter self }
    {
        match self {
            Statement::Pass | Statement::Block => true,
            _ => false,
        }
    }

    /// Whether it is a rule of the filter that blocks.
    pub(crate) fn is_block(self) -> bool
        ensures { result ≡ spec.is_block self }
    {
        match self {
            Statement::Block => true,
            _ => false,
        }
    }

    /// Whether it is a rule of the filter or of translation.
    pub(crate) fn is_rule(self) -> bool
        ensures { result ≡ spec.is_rule self }
    {
        match self {
            Statement::Pass | Statement::Block | Statement::Redirection => true,
            _ => false,
        }
    }
}

impl Before {
    /// Before the first word of a statement.
    pub(crate) fn beginning() -> Before
        ensures { result ≡ spec.beginning }
    {
        Before {
            statement: Statement::Nothing,
            asks: Asks::Nothing,
            braces: 0,
            brackets: 0,
            protocols: Protocols::none(),
            target: false,
            told: Told::nothing(),
        }
    }

    /// Whether a brace or a bracket is open.
    pub(crate) fn is_enclosed(self) -> bool
        ensures { result ≡ spec.is_enclosed self }
    {
        0 < self.braces || 0 < self.brackets
    }

    /// What stands before the marks `more`, behind `mark`. `why` is what was said at `mark`.
    #[tactic(auto, unfolding(crate::specs::Befores::behind))]
    pub(crate) fn behind(self, mark: &Mark<'_>, more: &[Mark<'_>], why: Option<Why>) -> Before
        ensures { result ≡ spec.behind self mark.now more.now why }
    {
        if is(mark, b"\n") {
            return self.with_line_end();
        }
        self.with_first(mark.piece.as_slice())
            .with_told(why)
            .with_mark(mark, more)
    }

    fn with_line_end(self) -> Before
        ensures { result ≡ spec.with_line_end self }
    {
        if self.braces == 0 {
            Before::beginning()
        } else {
            self
        }
    }

    /// With a word, which may be the first of its statement.
    fn with_first(self, word: &[u8]) -> Before
        ensures { result ≡ spec.with_first self word.now }
    {
        Before {
            statement: self.statement.with_word(word),
            ..self
        }
    }

    fn with_told(self, why: Option<Why>) -> Before
        ensures { result ≡ spec.with_told self why }
    {
        match why {
            Some(why) => Before {
                told: self.told.with_why(why),
                ..self
            },
            None => self,
        }
    }

    fn with_mark(self, mark: &Mark<'_>, more: &[Mark<'_>]) -> Before
        ensures { result ≡ spec.with_mark self mark.now more.now }
    {
        if is(mark, b"{") {
            return self.with_brace(begins_with(more, b"\n"));
        }
        if is(mark, b"}") {
            return Before {
                braces: self.braces.saturating_sub(1),
                asks: Asks::Nothing,
                ..self
            };
        }
        if is(mark, b"(") {
            return Before {
                brackets: self.brackets.saturating_add(1),
                asks: Asks::Nothing,
                ..self
            };
        }
        if is(mark, b")") {
            return Before {
                brackets: self.brackets.saturating_sub(1),
                asks: Asks::Nothing,
                ..self
            };
        }
        self.with_word(mark.piece.as_slice())
    }

    /// With an open brace. That of an anchor's body ends its line, and its statement.
    fn with_brace(self, ends_line: bool) -> Before
        ensures { result ≡ spec.with_brace self ends_line }
    {
        if ends_line && self.statement.is_anchor() {
            return Before::beginning();
        }
        Before {
            braces: self.braces.saturating_add(1),
            ..self
        }
    }

    #[tactic(auto, unfolding(crate::specs::Befores::with_word))]
    fn with_word(self, word: &[u8]) -> Before
        ensures { result ≡ spec.with_word self word.now }
    {
        if 0 < self.brackets {
            return self;
        }
        match self.asks {
            Asks::Nothing => self.with_free(word),
            Asks::Protocol => self.with_protocol(word),
            Asks::Label => Before {
                asks: Asks::Nothing,
                ..self
            },
        }
    }

    /// With a word that nothing asks for.
    fn with_free(self, word: &[u8]) -> Before
        ensures { result ≡ spec.with_free self word.now }
    {
        if 0 < self.braces {
            return self;
        }
        match keyword_of(word) {
            Some(keyword) => self.with_keyword(keyword),
            None => self,
        }
    }

    fn with_keyword(self, keyword: Keyword) -> Before
        ensures { result ≡ spec.with_keyword self keyword }
    {
        match keyword {
            Keyword::Protocol => Before {
                asks: Asks::Protocol,
                protocols: self.protocols.announced(),
                ..self
            },
            Keyword::Label => Before {
                asks: Asks::Label,
                ..self
            },
            Keyword::Target => Before {
                target: true,
                ..self
            },
            Keyword::Port | Keyword::Type | Keyword::Keep => self,
        }
    }

    /// With a protocol, or with the comma between two.
    fn with_protocol(self, word: &[u8]) -> Before
        ensures { result ≡ spec.with_protocol self word.now }
    {
        if word == b",".as_slice() {
            return self;
        }
        Before {
            asks: if self.braces == 0 {
                Asks::Nothing
            } else {
                Asks::Protocol
            },
            protocols: self.protocols.with_word(word),
            ..self
        }
    }
}
