//! Laws of the definitions, each the contract of a function that does nothing.
ghost use Rattle.std.specs.Prelude.{◌≤◌, ◌+◌, [], List, ℕ};
ghost use Rattle.pfr_words.specs.Words.{IsWhole, joined, newlines};
ghost use Rattle.pfr_terms.specs.declared.error.ConfError.{ConfError};
ghost use Rattle.pfr_conf.specs.declared.statement.Statements.{Statements};
ghost use Rattle.pfr_conf.specs.Joined.{AreAround, AreReadInTurn, HasFault, IsBeginning, Says, SaysBoth, SaysNothing};

/// A fault's line is a line of the text.
pub fn fault_is_on_a_line()
    ensures { (text : List ℕ) (e : ConfError) → HasFault text e → (1 ≤ e.line) × (e.line ≤ 1 + newlines text) }
{}

/// A text's first fault stays the first when text is put behind it, if the first text doesn't end in a backslash
/// and closes each brace that it opens.
pub fn a_fault_stays_the_first()
    ensures { (first second : List ℕ) (e : ConfError) → IsWhole first → HasFault first e → HasFault (joined first second) e }
{}

/// A text whose words are only ends of lines has no statements.
pub fn blank_lines_and_comments_say_nothing()
    ensures { (text : List ℕ) → SaysNothing text → Says text (record { statements = [] }) }
{}

/// Of two texts one behind the other the statements of the first come first, if the whole is read without fault. The
/// first text doesn't end in a backslash and closes each brace that it opens.
pub fn statements_stay_the_first()
    ensures { (first second : List ℕ) (a b : Statements) → IsWhole first → Says first a → Says (joined first second) b → IsBeginning a b }
{}

/// A text that is read stays read, with the same statements, when blank lines and comments are put behind it. It
/// doesn't end in a backslash and closes each brace that it opens.
pub fn blank_lines_and_comments_behind_say_nothing()
    ensures { (first second : List ℕ) (a : Statements) → IsWhole first → SaysNothing second → Says first a → Says (joined first second) a }
{}

/// The statements of two texts, one behind the other, are those of the first and then those of the second. This holds
/// if both are read, no option of the second stands behind a rule of the first, and no translation rule behind a filter
/// rule. The second text is read on the lines where it then stands. The first text doesn't end in a backslash and
/// closes each brace that it opens.
pub fn two_texts_say_what_both_say()
    ensures { (first second : List ℕ) (a b : Statements) → AreReadInTurn first second a b → SaysBoth (joined first second) a b }
{}

/// The same with blank lines and comments between the two texts, which say nothing. They don't end in a backslash
/// either.
pub fn blank_lines_and_comments_between_say_nothing()
    ensures { (first blank second : List ℕ) (a b : Statements) → AreAround blank first second a b → SaysBoth (joined first (joined blank second)) a b }
{}
