//! Laws of the definitions, each the contract of a function that does nothing.
ghost use Rattle.pfr_remarks.specs.Laws.{EachRemarkIsAtAWord, NothingIsSaidOfOtherWords};

/// Each remark is about a word of the text, at its place. Remarks are in the order of the text, and no two are about one word.
pub fn each_remark_is_at_a_word()
    ensures { EachRemarkIsAtAWord }
{}

/// A text without the words `port`, `icmp-type`, `keep`, `modulate`, `synproxy` and `label` has no remarks.
pub fn nothing_is_said_of_other_words()
    ensures { NothingIsSaidOfOtherWords }
{}
