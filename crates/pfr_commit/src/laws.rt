//! Laws of the definition of a run, each the contract of a function that does nothing.
ghost use Rattle.std.specs.Prelude.{◌≡◌, ◌≤◌, List, length, map};
ghost use Rattle.std.specs.List.{All, range_with_len};
ghost use Rattle.pfr_states.specs.States.{IsTable};
ghost use Rattle.pfr_packet.specs.Job.{RunJob};
ghost use Rattle.pfr_commit.specs.Holding.{AStandbyHoldsEachState};
ghost use Rattle.pfr_commit.specs.Laws.{AStandbyHoldsTheStates, BytesOfARule, ChangesMakeTheTable, ClockIsOfARecord, EachHasItsLine, EachHasItsRecord, EvaluationsArePackets, EvaluationsOfARule, OneCaptureHasNoMarks, OneCaptureHasOneScope, PacketsOfARule, RulesKeepToTheirMax, StatesAreOfPackets, TapChangesNoRun, TotalsAreTheCount, TheLastMessageIsTheRest, TotalsCountVerdicts, TwoPartsAreTheWhole, WhatIsWrittenStays};
ghost use Rattle.pfr_commit.specs.Machine.{EveryRun};
ghost use Rattle.pfr_commit.specs.Runs.{taken_in};
ghost use Rattle.pfr_commit.specs.World.{Frame, world_of};

use pfr_packet::laws::{
    a_packet_visits_a_rule_once, every_change_is_of_the_named_state, no_change_is_refused,
    states_are_made_by_the_rules_named, states_are_made_where_their_rule_has_room,
    the_tap_changes_nothing_without_translation,
};
use pfr_states::laws::a_purge_goes_state_by_state;

/// Packets that are taken in two parts leave what they leave together.
pub fn two_parts_are_the_whole()
    ensures { TwoPartsAreTheWhole }
{}

/// What is written up to a packet is a beginning of what is written up to a later one: lines, packets and messages. At
/// the end of a run the messages that were written lack only the last one.
pub fn what_is_written_stays()
    ensures stays { WhatIsWrittenStays }
    ensures last { TheLastMessageIsTheRest }
{}

/// Each packet has one line, in the order of the capture, and the lines are numbered from 1. The output of an interface
/// has the records of its packets that aren't blocked, in that order too.
pub fn every_packet_has_its_line()
    ensures frames { (job : RunJob) (frames : List Frame) → map (λ p. p.frame) (taken_in job frames) ≡ frames }
    ensures numbers { (job : RunJob) (frames : List Frame) → map (λ p. p.number) (taken_in job frames) ≡ range_with_len 1 (length frames) }
    ensures verdicts { EachHasItsLine }
    ensures packets { EachHasItsRecord }
{}

/// With one capture nothing tells that there could be several: no line names an interface, and all records go to one
/// output.
pub fn one_capture_has_no_marks()
    ensures { OneCaptureHasNoMarks }
{}

/// With one capture no state is bound to another interface: every scope meets every binding.
pub fn one_capture_has_one_scope()
    ensures { OneCaptureHasOneScope }
{
    every_change_is_of_the_named_state();
    states_are_made_by_the_rules_named();
}

/// Without translation rules a run comes to the same wherever its packets were captured.
pub fn the_tap_changes_no_run_without_translation()
    ensures { TapChangesNoRun }
{
    // a state that is touched keeps its keys
    every_change_is_of_the_named_state();
    the_tap_changes_nothing_without_translation();
}

/// The clock is the greatest second of the records.
pub fn the_clock_is_the_greatest_second()
    ensures none_later { (job : RunJob) (frames : List Frame) → All (λ frame. frame.seconds ≤ (world_of job frames).clock.0) frames }
    ensures one_of_them { ClockIsOfARecord }
{}

/// Each total is the number of packets that came to its verdict, and all four together are the count.
pub fn totals_are_the_count()
    ensures each { TotalsCountVerdicts }
    ensures together { TotalsAreTheCount }
{}

/// The packets and bytes of a rule, of the filter or of translation, are those of the packets whose line names the rule
/// for a reason that counts. Its evaluations are the visits to it by the walks of all packets. They are the packets
/// whose walk visited it, if translation rules have numbers of their own, as in each ruleset that a text means.
pub fn rules_are_counted_by_their_lines()
    ensures packets { PacketsOfARule }
    ensures bytes { BytesOfARule }
    ensures visits { EvaluationsOfARule }
    ensures evaluations { EvaluationsArePackets }
{
    // no walk visits a rule twice
    a_packet_visits_a_rule_once();
}

/// Each state was made by a packet of the run that passed: it has that packet's number, was made at its clock on its
/// interface, and keeps the rules on its line.
pub fn every_state_is_of_a_packet_that_passed()
    ensures { StatesAreOfPackets }
{
    // a state is made or touched by the packet that names it
    every_change_is_of_the_named_state();
    states_are_made_by_the_rules_named();
}

/// What a run leaves is a table: its numbers rise, no two states share a key on an interface, and there are no
/// more than the limit.
pub fn every_run_leaves_a_table()
    ensures { (job : RunJob) (frames : List Frame) → IsTable (world_of job frames).table }
{
    // each change that a packet comes to leaves a table
    no_change_is_refused();
}

/// A rule with `max` never has more states than that: after any packets at most `max` states name it as their filter
/// rule.
pub fn rules_keep_to_their_max()
    ensures { RulesKeepToTheirMax }
{
    // a state is made only if its rule has room
    states_are_made_where_their_rule_has_room();
    // a touched one keeps its rule
    every_change_is_of_the_named_state();
    // and there is one of each number
    no_change_is_refused();
}

/// The changes that the packets of a run made to the table, one after the other, make it from the empty one.
pub fn changes_make_the_table()
    ensures { ChangesMakeTheTable }
{
    // if nothing is due a purge leaves the states
    a_purge_goes_state_by_state();
}

/// A standby that applies the messages of a run to a set of numbers, empty at first, holds at the end just the numbers
/// of the states that are left, except those of rules with `no-sync`.
pub fn a_standby_holds_the_states()
    ensures { AStandbyHoldsTheStates }
{
    // each packet leaves a table
    no_change_is_refused();
    // and touches a state that keeps its rules
    every_change_is_of_the_named_state();
}

/// A standby that takes the messages of a run, from the first on to the last, refuses none of them. It holds at the end
/// just the states that are left, except those of rules with `no-sync`, each with its keys, protocol, direction, rule,
/// ends and timeout.
pub fn standby_holds()
    ensures { AStandbyHoldsEachState }
{
    // each packet leaves a table
    no_change_is_refused();
    // and touches a state that keeps its keys, its direction and its rules
    every_change_is_of_the_named_state();
}

/// Every run of the speculative machine comes to the world of the committed packets, taken one by one, and what was
/// emitted is what is written of that world. It makes no difference which packets are opened together, or who claims
/// and evaluates which of them on which older states. Nor does it matter which speculations come, are lost or come
/// twice, in whatever order.
pub fn every_run()
    ensures { EveryRun }
{}
