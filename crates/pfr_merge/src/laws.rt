//! Laws of the definition of a merge, each the contract of a function that does nothing.
ghost use Rattle.pfr_merge.specs.Laws.{EachKeepsItsOrder, MergedIsMerge, OneCaptureIsItsMerge, OneMerge};
ghost use Rattle.pfr_merge.specs.MergedCaptures.{CallsFollow, GivenIsAll, GivenIsAllBeforeFailure, GivenIsAllBeforeTooLong, GivenIsTheBeginning, MergeBegins, ReadsCaptures};

/// Several lists have one merge at most.
pub fn one_merge()
    ensures { OneMerge }
{}

/// Several lists have a merge, which `merged` computes.
pub fn merged_is_merge()
    ensures { MergedIsMerge }
{}

/// In a merge the events of each capture keep their order.
pub fn each_keeps_its_order()
    ensures { EachKeepsItsOrder }
{}

/// One capture's merge is that capture.
pub fn one_capture_is_its_merge()
    ensures { OneCaptureIsItsMerge }
{}

/// A merge reads captures, whatever its sources have still to give.
pub fn reads_captures()
    ensures { ReadsCaptures }
{}

/// What a merge has given so far is the beginning of the merge of its captures.
pub fn given_is_the_beginning()
    ensures { GivenIsTheBeginning }
{}

/// Once all captures are over, what a merge has given is all of their merge.
pub fn given_is_all()
    ensures { GivenIsAll }
{}

/// If a record was too long, what a merge has given is all that comes before that refusal.
pub fn given_is_all_before_too_long()
    ensures { GivenIsAllBeforeTooLong }
{}

/// If a read failed, what a merge has given is all that comes before the failure.
pub fn given_is_all_before_failure()
    ensures { GivenIsAllBeforeFailure }
{}

/// A merge of captures whose readers have given no record has given none.
pub fn merge_begins()
    ensures { MergeBegins }
{}

/// Calls of a merge, one after the other, read on as one call.
pub fn calls_follow()
    ensures { CallsFollow }
{}
