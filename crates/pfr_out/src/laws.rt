//! Laws of the definitions of a run, each the contract of a function that does nothing.
ghost use Rattle.pfr_out.specs.Laws.{AFailedReadLeavesABeginning, ARefusedHeaderLeavesNothing, EveryStopLeavesABeginning};

/// Whatever stops a run after its ruleset was accepted, each output that tells its bytes has grown by a beginning of what the replay
/// of the sources' captures writes.
pub fn every_stop_leaves_a_beginning()
    ensures { EveryStopLeavesABeginning }
{}

/// If a read failed, that holds for all captures that begin with the bytes read.
pub fn a_failed_read_leaves_a_beginning_of_each()
    ensures { AFailedReadLeavesABeginning }
{}

/// If the header of a source is refused, nothing is written and no packet is committed, whatever stops the run.
pub fn a_refused_header_leaves_nothing()
    ensures { ARefusedHeaderLeavesNothing }
{}
