//! The words that are left to read.
ghost use Rattle.std.specs.Prelude.{◌≡◌, ◌≤◌, ◌+◌, IfOk, Ok};
ghost use Rattle.pfr_terms.specs.Input as spec;
ghost use Rattle.pfr_terms.specs.Input.{Reads, Refuses};

use crate::error::{ConfError, ConfErrorKind, left_out_at, lower, name_left_out};
use crate::name::{MacroUse, Name};
use crate::token::{is_line_end, macro_in, plain_in, quoted_in, refusal_of, sign_in};
use pfr_net::notation::number;
use pfr_words::braces::is_sign;
use pfr_words::names::{is_grammar_word, is_left_out};
use pfr_words::{Bytes, Sign, Word};
use std::alloc::{AllocError, Global};
use std::marker::Model;
use std::mem::replace;

/// The words that are left, and the line of the last word that was read. Within the braces of a list a newline is a
/// blank.
///
/// A text is read up to its first fault. In a macro's value reading goes on behind a plain word that is at fault, as
/// the fault of the lowest kind is reported: such faults are gathered, and something stands for the item that is
/// missing.
#[derive(Drop)]
pub struct Reader<'w, 'a> {
    words: &'w [Word<'a>],
    line: usize,
    in_list: bool,
    gathers: bool,
    gathered: Option<ConfError>,
}

impl<'w, 'a> Model for Reader<'w, 'a> {
    ghost use Rattle.pfr_terms.specs.Input.{Input};

    ghost Value = { Input };

    ghost view = { λ r. record {
      words = r.words.now;
      line = r.line;
      in_list = r.in_list;
      gathers = r.gathers;
      gathered = r.gathered;
    } };
}

impl<'w, 'a> Reader<'w, 'a> {
    /// A reader of a text.
    pub fn new(words: &'w [Word<'a>]) -> Reader<'w, 'a>
        ensures { result ≡ spec.start words.now }
    {
        Reader {
            words,
            line: 1,
            in_list: false,
            gathers: false,
            gathered: None,
        }
    }

    /// A reader of a macro's value.
    pub fn of_value(words: &'w [Word<'a>]) -> Reader<'w, 'a>
        ensures { result ≡ spec.of_value words.now }
    {
        Reader {
            words,
            line: 1,
            in_list: false,
            gathers: true,
            gathered: None,
        }
    }

    /// The lowest of the faults that reading went on behind.
    pub fn into_gathered(self) -> Option<ConfError>
        ensures { result ≡ self.entry.gathered }
    {
        let Reader { gathered, .. } = self;
        gathered
    }

    /// More turns than a loop can take that reads a word in each turn.
    pub fn turns(&self) -> usize
        ensures { result ≡ spec.turns self.now }
    {
        self.words.len() + 1
    }

    /// Whether no word is left.
    pub fn is_done(&self) -> bool
        ensures { result ≡ spec.is_done self.now }
    {
        self.words.is_empty()
    }

    /// Whether the line ends here, or the text.
    #[tactic(auto, unfolding(crate::specs::Input::at_line_end))]
    pub fn at_line_end(&self) -> bool
        ensures { result ≡ spec.at_line_end self.now }
    {
        match self.words {
            [] => true,
            [first, ..] => is_line_end(&first.token),
        }
    }

    /// Goes to the next word that is no end of a line.
    pub fn skip_line_ends(&mut self)
        ensures { self.new ≡ spec.skip_line_ends self.old }
    {
        while let [first, rest @ ..] = self.words {
            if !is_line_end(&first.token) {
                break;
            }
            self.words = rest;
        }
    }

    fn step(&mut self)
        ensures { self.new ≡ spec.step self.old }
    {
        if let [first, rest @ ..] = self.words {
            self.line = first.line;
            self.words = rest;
        }
    }

    /// Goes past the next word.
    #[tactic(auto, unfolding(crate::specs::Input::next))]
    pub fn take(&mut self)
        ensures { self.new ≡ spec.next self.old }
    {
        self.step();
        if self.in_list {
            self.skip_line_ends();
        }
    }

    /// Goes past the opening brace of a list, within which newlines are blanks.
    #[tactic(auto, unfolding(crate::specs::Input::enter_list))]
    fn enter_list(&mut self)
        ensures { self.new ≡ spec.enter_list self.old }
    {
        self.in_list = true;
        self.take();
    }

    /// Goes past the closing brace of a list.
    #[tactic(auto, unfolding(crate::specs::Input::leave_list))]
    fn leave_list(&mut self)
        ensures { self.new ≡ spec.leave_list self.old }
    {
        self.in_list = false;
        self.take();
    }

    /// The line of the next word, or of the last one if the line ends here.
    #[tactic(auto, unfolding(crate::specs::Input::line_ahead))]
    pub fn line_ahead(&self) -> usize
        ensures { result ≡ spec.line_ahead self.now }
    {
        match self.words {
            [first, ..] if !is_line_end(&first.token) => first.line,
            _ => self.line,
        }
    }

    /// Whether the next word is this sign.
    #[tactic(auto, unfolding(crate::specs::Input::sees_sign))]
    pub fn sees_sign(&self, sign: Sign) -> bool
        ensures { result ≡ spec.sees_sign sign self.now }
    {
        match self.words {
            [first, ..] => is_sign(sign, &first.token),
            [] => false,
        }
    }

    /// The next word, if it is a sign.
    #[tactic(auto, unfolding(crate::specs::Input::sign_ahead))]
    pub fn sign_ahead(&self) -> Option<Sign>
        ensures { result ≡ spec.sign_ahead self.now }
    {
        match self.words {
            [first, ..] => sign_in(&first.token),
            [] => None,
        }
    }

    /// The next word, if it is a plain one.
    #[tactic(auto, unfolding(crate::specs::Input::plain_ahead))]
    pub fn plain_ahead(&self) -> Option<Bytes<'a>>
        ensures { result ≡ spec.plain_ahead self.now }
    {
        match self.words {
            [first, ..] => plain_in(&first.token),
            [] => None,
        }
    }

    /// The next word's text, if it is a quoted text.
    #[tactic(auto, unfolding(crate::specs::Input::quoted_ahead))]
    pub fn quoted_ahead(&self) -> Option<Bytes<'a>>
        ensures { result ≡ spec.quoted_ahead self.now }
    {
        match self.words {
            [first, ..] => quoted_in(&first.token),
            [] => None,
        }
    }

    /// The next word, if it is the use of a macro.
    #[tactic(auto, unfolding(crate::specs::Input::macro_ahead))]
    pub fn macro_ahead(&self) -> Option<MacroUse<'a>>
        ensures { result ≡ spec.macro_ahead self.now }
    {
        match self.words {
            [first, ..] => macro_in(first.line, &first.token),
            [] => None,
        }
    }

    /// Whether the next word is this plain one.
    #[tactic(auto, unfolding(crate::specs::Input::sees_word))]
    pub fn sees_word(&self, word: &[u8]) -> bool
        ensures { result ≡ spec.sees_word word.now self.now }
    {
        match self.plain_ahead() {
            Some(found) => found.as_slice() == word,
            None => false,
        }
    }

    /// Goes past the next word if it is this sign; answers whether it was.
    #[tactic(auto, unfolding(crate::specs::Input::eat_sign))]
    pub fn eat_sign(&mut self, sign: Sign) -> bool
        ensures { spec.eat_sign sign self.old ≡ Ok (result, self.new) }
    {
        let found = self.sees_sign(sign);
        if found {
            self.take();
        }
        found
    }

    /// Goes past the next word if it is this plain one; answers whether it was.
    #[tactic(auto, unfolding(crate::specs::Input::eat_word))]
    pub fn eat_word(&mut self, word: &[u8]) -> bool
        ensures { spec.eat_word word.now self.old ≡ Ok (result, self.new) }
    {
        let found = self.sees_word(word);
        if found {
            self.take();
        }
        found
    }

    /// Goes past the opening brace of a list, if one comes next.
    #[tactic(auto, unfolding(crate::specs::Input::open_list))]
    pub fn open_list(&mut self) -> bool
        ensures { spec.open_list self.old ≡ Ok (result, self.new) }
    {
        let found = self.sees_sign(Sign::OpenBrace);
        if found {
            self.enter_list();
        }
        found
    }

    /// Goes past the closing brace of a list, if it comes next.
    #[tactic(auto, unfolding(crate::specs::Input::close_list))]
    pub fn close_list(&mut self) -> bool
        ensures { spec.close_list self.old ≡ Ok (result, self.new) }
    {
        let found = self.sees_sign(Sign::CloseBrace);
        if found {
            self.leave_list();
        }
        found
    }

    /// The fault that the next word is, or that a word is missing.
    #[tactic(auto, unfolding(crate::specs::Input::refusal))]
    pub fn refuse(&self, alloc: Global) -> ConfError
        ensures { Refuses (spec.refusal self.now) result }
    {
        match self.words {
            [first, ..] => refusal_of(alloc, self.line, first),
            [] => ConfError {
                line: self.line,
                kind: ConfErrorKind::UnknownWord,
            },
        }
    }

    /// A fault of this kind at the next word.
    #[tactic(auto, unfolding(crate::specs::Input::fault))]
    pub fn fault(&self, kind: ConfErrorKind) -> ConfError
        ensures { result ≡ spec.fault kind self.now }
    {
        ConfError {
            line: self.line_ahead(),
            kind,
        }
    }

    /// The fault that the next word asks for what is left out, under this name.
    #[tactic(auto, unfolding(crate::specs::Input::left_out))]
    pub fn left_out(&self, alloc: Global, name: &[u8]) -> ConfError
        ensures { Refuses (spec.left_out name.now self.now) result }
    {
        left_out_at(alloc, self.line_ahead(), name)
    }

    /// The same fault; want of memory is an error of its own.
    #[tactic(auto, unfolding(crate::specs::Input::left_out))]
    pub(crate) fn name_left_out(&self, alloc: Global, name: &[u8]) -> Result<ConfError, AllocError>
        ensures { IfOk result (λ e. e ≡ spec.left_out name.now self.now) }
    {
        name_left_out(alloc, self.line_ahead(), name)
    }

    /// Goes past the next word, which is at fault, and gathers the fault; answers the fault if none are gathered.
    #[tactic(auto, unfolding(crate::specs::Input::blame))]
    pub fn blame(&mut self, fault: ConfError) -> Result<(), ConfError>
        ensures { Reads (spec.blame fault self.old) result self.new }
    {
        if !self.gathers {
            return Err(fault);
        }
        let gathered = replace(&mut self.gathered, None);
        self.gathered = Some(lower(gathered, fault));
        self.take();
        Ok(())
    }

    /// Gathers a fault of what was read that isn't the fault of a single word.
    #[tactic(auto, unfolding(crate::specs::Input::note))]
    pub fn note(&mut self, fault: ConfError)
        ensures { spec.note fault self.old ≡ Ok (tt, self.new) }
    {
        let before = replace(&mut self.gathered, None);
        self.gathered = Some(lower(before, fault));
    }

    /// Goes past the next word, which doesn't belong where it stands, if it is left out and faults are gathered.
    #[tactic(auto, unfolding(crate::specs::Input::pass_over))]
    pub fn pass_over(&mut self, alloc: Global) -> Result<(), ConfError>
        ensures { Reads (spec.pass_over self.old) result self.new }
    {
        match self.plain_ahead() {
            Some(word) if self.gathers && is_left_out(word.as_slice()) => {
                let fault = self.name_left_out(alloc, word.as_slice())?;
                self.blame(fault)
            }
            _ => Err(self.refuse(alloc)),
        }
    }

    /// Goes to the end of a macro's value. No word may be left there.
    #[tactic(auto, unfolding(crate::specs::Input::finish), using(crate::proofs::Turns::one_turn, crate::proofs::Turns::no_turn))]
    pub fn finish(&mut self, alloc: Global) -> Result<(), ConfError>
        ensures { Reads (spec.finish self.old) result self.new }
    {
        for _turn in 0..self.turns() {
            if self.is_done() {
                return Ok(());
            }
            self.pass_over(alloc)?;
        }
        Err(self.refuse(alloc))
    }

    /// Goes past this sign, which has to come next; words before it are passed over if faults are gathered.
    #[tactic(auto, unfolding(crate::specs::Input::expect_sign), using(crate::proofs::Turns::one_turn, crate::proofs::Turns::no_turn))]
    pub fn expect_sign(&mut self, alloc: Global, sign: Sign) -> Result<(), ConfError>
        ensures { Reads (spec.expect_sign sign self.old) result self.new }
    {
        for _turn in 0..self.turns() {
            if self.eat_sign(sign) {
                return Ok(());
            }
            self.pass_over(alloc)?;
        }
        Err(self.refuse(alloc))
    }

    /// Goes past this word, which has to come next.
    #[tactic(auto, unfolding(crate::specs::Input::expect_word))]
    pub fn expect_word(&mut self, alloc: Global, word: &[u8]) -> Result<(), ConfError>
        ensures { Reads (spec.expect_word word.now self.old) result self.new }
    {
        if self.eat_word(word) {
            Ok(())
        } else {
            Err(self.refuse(alloc))
        }
    }

    /// Takes the next word as a name, with its line.
    #[tactic(auto, unfolding(crate::specs::Input::named))]
    pub fn named(&mut self, text: Bytes<'a>) -> Name<'a>
        ensures { spec.named text.entry self.old ≡ Ok (result, self.new) }
    {
        let line = self.line_ahead();
        self.take();
        Name { line, text }
    }

    /// Passes over the next word, which doesn't belong where it stands; its name stands for the item that is missing.
    #[tactic(auto, unfolding(crate::specs::Input::passed))]
    pub(crate) fn passed(&mut self, alloc: Global, text: Bytes<'a>) -> Result<Name<'a>, ConfError>
        ensures { Reads (spec.passed text.entry self.old) result self.new }
    {
        let line = self.line_ahead();
        self.pass_over(alloc)?;
        Ok(Name { line, text })
    }

    /// A plain word that has no meaning in pf.conf(5).
    #[tactic(auto, unfolding(crate::specs::Input::free_word))]
    pub fn free_word(&mut self, alloc: Global) -> Result<Name<'a>, ConfError>
        ensures { Reads (spec.free_word self.old) result self.new }
    {
        match self.plain_ahead() {
            Some(word) if is_free(word.as_slice()) => Ok(self.named(word)),
            Some(word) => self.passed(alloc, word),
            None => Err(self.refuse(alloc)),
        }
    }

    /// A decimal number from `low` to `high`; `high` stands for one that is gathered as a fault.
    #[tactic(auto, unfolding(crate::specs::Input::number_in))]
    pub fn number(&mut self, alloc: Global, low: u64, high: u64) -> Result<u64, ConfError>
        ensures value { Reads (spec.number_in low high self.old) result self.new }
        ensures within { IfOk result (λ n. n ≤ high) }
    {
        match self.number_ahead() {
            None => {
                self.pass_over(alloc)?;
                Ok(high)
            }
            Some(value) if low <= value && value <= high => {
                self.take();
                Ok(value)
            }
            Some(_) => {
                let fault = self.fault(ConfErrorKind::BadNumber);
                self.blame(fault)?;
                Ok(high)
            }
        }
    }

    /// The number that the next word writes.
    #[tactic(auto, unfolding(crate::specs::Input::number_ahead))]
    fn number_ahead(&self) -> Option<u64>
        ensures { result ≡ spec.number_ahead self.now }
    {
        match self.plain_ahead() {
            Some(word) => number(word.as_slice()),
            None => None,
        }
    }
}

/// Whether a word has no meaning in pf.conf(5)'s grammar and isn't left out of it.
#[tactic(auto, unfolding(crate::specs::Input::is_free))]
pub fn is_free(word: &[u8]) -> bool
    ensures { result ≡ spec.is_free word.now }
{
    !is_grammar_word(word) && !is_left_out(word)
}
