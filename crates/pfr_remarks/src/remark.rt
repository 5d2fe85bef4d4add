//! What pfctl(8) refuses at a word.
ghost use Rattle.std.specs.Prelude.{◌≡◌};
ghost use Rattle.pfr_remarks.specs.Remarks as spec;

use crate::before::{Asks, Before, Keyword, keyword_of};
use crate::why::Why;
use pfr_marks::mark::{Mark, Place, begins_with};
use pfr_words::Bytes;

/// How many bytes a label has at most: PF_RULE_LABEL_SIZE of FreeBSD's net/pfvar.h, less the zero at its end.
const LABEL_BYTES: usize = 63;

/// What pfctl(8) refuses of a rule, at the word for which it refuses the rule.
#[derive(Drop)]
pub struct Remark<'a> {
    pub place: Place,
    pub word: Bytes<'a>,
    pub why: Why,
}

/// How many bytes a label has: those within its quotes, or all of a word.
fn label_len(word: &[u8]) -> usize
    ensures { result ≡ spec.label_len word.now }
{
    match word.first() {
        Some(b'"') => word.len().saturating_sub(2),
        _ => word.len(),
    }
}

impl Before {
    /// Why a word with this meaning is refused, before the marks `more`.
    fn keyword_refused(self, keyword: Keyword, more: &[Mark<'_>]) -> Option<Why>
        ensures { result ≡ spec.keyword_refused self keyword more.now }
    {
        match keyword {
            Keyword::Port => self.port_refused(),
            Keyword::Type => self.type_refused(),
            Keyword::Keep => self.keep_refused(more),
            Keyword::Protocol | Keyword::Label | Keyword::Target => None,
        }
    }

    fn port_refused(self) -> Option<Why>
        ensures { result ≡ spec.port_refused self }
    {
        if self.statement.is_rule() && !self.target {
            self.protocols.port_refused()
        } else {
            None
        }
    }

    fn type_refused(self) -> Option<Why>
        ensures { result ≡ spec.type_refused self }
    {
        if self.statement.is_rule() {
            self.protocols.type_refused()
        } else {
            None
        }
    }

    fn keep_refused(self, more: &[Mark<'_>]) -> Option<Why>
        ensures { result ≡ spec.keep_refused self more.now }
    {
        if self.statement.is_block() && begins_with(more, b"state") {
            Some(Why::BlockKeepsState)
        } else {
            None
        }
    }

    fn label_refused(self, word: &[u8]) -> Option<Why>
        ensures { result ≡ spec.label_refused self word.now }
    {
        if self.statement.is_filter() && LABEL_BYTES < label_len(word) {
            Some(Why::LongLabel)
        } else {
            None
        }
    }

    /// Why a word is refused that nothing asks for.
    fn free_refused(self, word: &[u8], more: &[Mark<'_>]) -> Option<Why>
        ensures { result ≡ spec.free_refused self word.now more.now }
    {
        match keyword_of(word) {
            Some(keyword) => self.keyword_refused(keyword, more),
            None => None,
        }
    }

    /// Why a word is refused outside of braces and brackets.
    fn word_refused(self, word: &[u8], more: &[Mark<'_>]) -> Option<Why>
        ensures { result ≡ spec.word_refused self word.now more.now }
    {
        match self.asks {
            Asks::Nothing => self.free_refused(word, more),
            Asks::Protocol => None,
            Asks::Label => self.label_refused(word),
        }
    }

    /// Why a word is refused, before other marks.
    #[tactic(auto, unfolding(crate::specs::Remarks::refused))]
    fn refused(self, word: &[u8], more: &[Mark<'_>]) -> Option<Why>
        ensures { result ≡ spec.refused self word.now more.now }
    {
        if self.is_enclosed() {
            None
        } else {
            self.word_refused(word, more)
        }
    }

    /// What is said at a mark: why its word is refused, unless that was said of the rule.
    #[tactic(auto, unfolding(crate::specs::Remarks::said_at))]
    pub(crate) fn said_at(self, mark: &Mark<'_>, more: &[Mark<'_>]) -> Option<Why>
        ensures { result ≡ spec.said_at self mark.now more.now }
    {
        let why = self.refused(mark.piece.as_slice(), more)?;
        if self.told.has_why(why) {
            None
        } else {
            Some(why)
        }
    }
}

/// What is said at a mark.
pub(crate) fn remark_at<'a>(mark: &Mark<'a>, why: Why) -> Remark<'a>
    ensures { result ≡ spec.remark_at mark.now why }
{
    Remark {
        place: mark.start,
        word: Bytes::new(mark.piece.as_slice()),
        why,
    }
}
