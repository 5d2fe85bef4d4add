//! Laws of the definitions, each the contract of a function that does nothing.
ghost use Rattle.pfr_rewrite.specs.AdaptingLaws.{AnAcceptedTextStays, AnAdaptedTextStays, UnchangedIsTheText};
ghost use Rattle.pfr_rewrite.specs.Laws.{ChangesLieOneBehindTheOther, EachFindingIsAtAWord, EachLineHasItsLine, WhatStandsBetweenStays};

/// A text that the strict reader accepts is answered as it is, byte for byte, and nothing is said of it.
pub fn an_accepted_text_stays()
    ensures accepted { AnAcceptedTextStays }
    ensures same { UnchangedIsTheText }
{}

/// What was adapted is answered as it is: nothing is said of it, or what was said of it before.
pub fn an_adapted_text_stays()
    ensures { AnAdaptedTextStays }
{}

/// Each change is said of a word of the text, at its place.
pub fn each_finding_is_at_a_word()
    ensures { EachFindingIsAtAWord }
{}

/// The changes of a text lie within it, in their order, and no two have a byte in common.
pub fn changes_lie_one_behind_the_other()
    ensures { ChangesLieOneBehindTheOther }
{}

/// The bytes between changes stand in the new text as they stood, in their order, with what each change writes between them.
pub fn what_stands_between_stays()
    ensures { WhatStandsBetweenStays }
{}

/// The list of lines beside a new text has one entry for each line of it: the line of the other text from which it comes.
pub fn each_line_has_its_line()
    ensures { EachLineHasItsLine }
{}
