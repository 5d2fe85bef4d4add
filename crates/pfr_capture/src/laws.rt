//! Laws of the definition of a capture, each the contract of a function that does nothing.
ghost use Rattle.pfr_capture.specs.Laws.{EveryTextReads, OneReading};

/// A text is a capture in one way at most: its header, its records and its end are fixed.
pub fn one_reading()
    ensures { OneReading }
{}

/// A text that begins with a header that is accepted is a capture.
pub fn every_text_reads()
    ensures { EveryTextReads }
{}
