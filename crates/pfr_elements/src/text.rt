//! The words of a macro's value.
ghost use Rattle.std.specs.Prelude.{◌≡◌, ◌<◌, ◌+◌};
ghost use Rattle.std.specs.Option.{option_map};
ghost use Rattle.pfr_words.specs.Words.{words};
ghost use Rattle.pfr_elements.specs.Values as spec;

use pfr_words::braces::is_sign;
use pfr_words::{Sign, Token, Word};

fn has_comment(text: &[u8]) -> bool
    ensures { result ≡ spec.has_comment text.now }
{
    for byte in text {
        if *byte == b'#' {
            return true;
        }
    }
    false
}

/// How many braces are open behind a sign; `None` if it closes one that isn't open.
fn depth_behind_sign(depth: usize, token: &Token<'_>) -> Option<usize>
    requires { depth < 4611686018427387904 }
    ensures value { result ≡ spec.depth_behind_sign depth token.now }
{
    if is_sign(Sign::OpenBrace, token) {
        return Some(depth + 1);
    }
    if is_sign(Sign::CloseBrace, token) {
        if depth == 0 { None } else { Some(depth - 1) }
    } else {
        Some(depth)
    }
}

/// How many braces are open behind a word, if it may stand in a value.
fn depth_behind(depth: usize, token: &Token<'_>) -> Option<usize>
    requires { depth < 4611686018427387904 }
    ensures { result ≡ spec.depth_behind depth token.now }
{
    match token {
        Token::Plain(_) => Some(depth),
        Token::Sign(_) => depth_behind_sign(depth, token),
        _ => None,
    }
}

fn are_sound(words: &[Word<'_>]) -> bool
    ensures { result ≡ spec.are_sound 0 words.now }
{
    let mut depth: usize = 0;
    for word in words {
        match depth_behind(depth, &word.token) {
            Some(behind) => depth = behind,
            None => return false,
        }
    }
    true
}

/// The word of a value of one plain word.
pub(crate) fn only_plain<'w>(words: &'w [Word<'_>]) -> Option<&'w [u8]>
    ensures { option_map (λ w. w.now) result ≡ spec.only_plain words.now }
{
    match words {
        [only] => match &only.token {
            Token::Plain(word) => Some(word.as_slice()),
            _ => None,
        },
        _ => None,
    }
}

/// Whether a value has plain words and signs alone, in which each brace has its partner. `found` are its words.
#[tactic(auto, unfolding(crate::specs::Values::is_sound))]
pub(crate) fn is_sound(text: &[u8], found: &[Word<'_>]) -> bool
    requires { found.now ≡ words text.now }
    ensures { result ≡ spec.is_sound text.now }
{
    !has_comment(text) && are_sound(found)
}
