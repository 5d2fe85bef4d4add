//! Laws of the definitions, each the contract of a function that does nothing.
ghost use Rattle.pfr_include.specs.Laws.{EachLineHasAnOrigin, NothingToSpliceChangesNothing};

/// A text in which nothing is spliced stays the same byte for byte, and each of its lines comes from itself.
pub fn nothing_to_splice_changes_nothing()
    ensures { NothingToSpliceChangesNothing }
{}

/// There is an origin for each line of what comes out: one more than it has newlines.
pub fn each_line_has_an_origin()
    ensures { EachLineHasAnOrigin }
{}
