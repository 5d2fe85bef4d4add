//! Which rules of a text say `log`.
use pfr_words::spelling::words;
use pfr_words::{Token, Word};
use std::alloc::{AllocError, Global};

/// Whether a word ends a line.
fn is_end(word: &Word<'_>) -> bool {
    match &word.token {
        Token::LineEnd => true,
        _ => false,
    }
}

/// Whether a word is `log`. The name of a label isn't: it stands between quotes.
fn is_log(word: &Word<'_>) -> bool {
    match &word.token {
        Token::Plain(bytes) => bytes.as_slice() == b"log".as_slice(),
        _ => false,
    }
}

/// Notes a line, from 1.
fn note(lines: &mut Vec<bool>, line: usize) -> Result<(), AllocError> {
    if lines.len() <= line {
        lines.resize(line.saturating_add(1), false)?;
    }
    if let Some(is_noted) = lines.get_mut(line) {
        *is_noted = true;
    }
    Ok(())
}

/// For each line of a text, whether the statement that begins there says `log`. There is no line 0, and the last lines
/// may be missing.
pub(crate) fn logged_lines(alloc: Global, text: &[u8]) -> Result<Vec<bool>, AllocError> {
    let found = words(alloc, text)?;
    let mut lines = Vec::new(alloc);
    let mut start = 0;
    for word in found.as_slice() {
        if is_end(word) {
            start = 0;
        } else if start == 0 {
            start = word.line;
        } else if is_log(word) {
            note(&mut lines, start)?;
        }
    }
    Ok(lines)
}
