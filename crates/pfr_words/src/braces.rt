//! Which braces are closed.
ghost use Rattle.std.specs.Prelude.{◌≡◌, ◌<◌, ◌+◌};
ghost use Rattle.pfr_words.specs.Words as spec;

use crate::sign::{Sign, same_sign};
use crate::word::{Token, Word, WordFault};

/// Whether the token is this sign.
pub fn is_sign(sign: Sign, token: &Token<'_>) -> bool
    ensures { result ≡ spec.is_sign sign token.now }
{
    match token {
        Token::Sign(found) => same_sign(*found, sign),
        _ => false,
    }
}

/// Makes an opening brace a fault if nothing behind it closes it; answers how many braces the words from this one on
/// close that they don't open. `behind` is that number for the words behind this one.
fn close_brace(word: &mut Word<'_>, behind: usize) -> usize
    requires { behind < 4611686018427387904 }
    ensures word { word.new ≡ spec.closed_by behind word.old }
    ensures closers { result ≡ spec.closers_before word.old.token behind }
{
    if !is_sign(Sign::OpenBrace, &word.token) {
        return if is_sign(Sign::CloseBrace, &word.token) {
            behind + 1
        } else {
            behind
        };
    }
    if behind == 0 {
        word.token = Token::Bad(WordFault::Unterminated);
        return 0;
    }
    behind - 1
}

/// Makes each opening brace that nothing behind it closes a fault.
pub(crate) fn close_braces(words: &mut [Word<'_>])
    ensures { words.new ≡ spec.with_braces words.old }
{
    let mut closers: usize = 0;
    let mut at = words.len();
    while at > 0 {
        at -= 1;
        closers = close_brace(&mut words[at], closers);
    }
}
