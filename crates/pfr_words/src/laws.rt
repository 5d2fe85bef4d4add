//! Laws of the definitions, each the contract of a function that does nothing.
ghost use Rattle.std.specs.Prelude.{◌≡◌, ◌≤◌, ◌+◌, List, ℕ, length};
ghost use Rattle.std.specs.List.{All, concat};
ghost use Rattle.pfr_words.specs.Words.{IsWhole, joined, newlines, pieces, words, words_in_turn};

/// No byte of a text is lost or read twice: its pieces put together are the text, and each has a byte.
pub fn pieces_are_the_text()
    ensures whole { (text : List ℕ) → concat (pieces text) ≡ text }
    ensures some { (text : List ℕ) → All (λ piece. 1 ≤ length piece) (pieces text) }
{}

/// The words of a text are those of its lines, one after another. If a newline stands between two texts, each is read
/// as it is alone, and the words of the second stand further down by the lines of the first. A comment or a quote that
/// is open at the end of the first goes no further. The first may not end in a backslash, which would make the newline
/// no end of the line, and each brace that it opens has to be closed in it.
pub fn words_of_joined_texts()
    ensures { (first second : List ℕ) → IsWhole first → words (joined first second) ≡ words_in_turn first second }
{}

/// Each word begins on a line of its text.
pub fn lines_are_of_the_text()
    ensures { (text : List ℕ) → All (λ w. (1 ≤ w.line) × (w.line ≤ 1 + newlines text)) (words text) }
{}
