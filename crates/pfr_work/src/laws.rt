//! Laws of the ends of runs, each the contract of a function that does nothing.
ghost use Rattle.pfr_work.specs.Ends.{Reached};
ghost use Rattle.pfr_work.specs.Ties.{RefusedEndsTie, WellEndsTie};

use pfr_feed::Feed;

/// Which states of the speculative machine are the end of a run. The batches follow one another up to the packets
/// opened. In each batch the numbers below its word are drawn, once and in their order. World, tables and outputs are
/// those of the packets committed. Each worker sees at most what is published, and each speculation on the way is
/// sound. To every such state a list of events leads from the start.
pub fn reached()
    ensures { Reached }
{}

/// How each run of workers ends: in a state of the speculative machine. Its batches are those that the feed gave, in
/// order. The entries of the trace show its claim words and who drew which numbers. If passes of a batch didn't come
/// back, they show how many packets it has. As many packets are committed as the book has counted, and the published
/// list is the changes of the packets published. By [`reached`] a list of events leads to that state.
pub fn runs_end_in_the_machine<F: Feed>()
    ensures well { WellEndsTie F.transitions }
    ensures refused { RefusedEndsTie F.transitions }
{}
