//! Laws of the definitions, each the contract of a function that does nothing.
ghost use Rattle.pfr_faults.specs.Laws.{AnAcceptedTextHasNone, ARefusedTextHasOne};

/// A text that the strict reader accepts has no faults, and one that it refuses has at least one.
pub fn a_refused_text_has_faults()
    ensures accepted { AnAcceptedTextHasNone }
    ensures refused { ARefusedTextHasOne }
{}
