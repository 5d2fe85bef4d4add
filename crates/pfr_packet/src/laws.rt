//! Laws of the definitions, each the contract of a function that does nothing.
ghost use Rattle.pfr_packet.specs.Connections.{AnswersAreBroughtBack, AnswersGoBack, StateKnowsBothSides};
ghost use Rattle.pfr_packet.specs.Laws.{BlockedIsNotWritten, BlockedOnlyRemoves, ChangesAreOfTheNamed, EachPortOnce, FirstFreeIsPicked, LimitBlocksWhereReached, MadeByTheRulesNamed, MadeWhereItsRuleHasRoom, NoChangeIsRefused, NoRuleBehindAState, NoneWhereAllAreTaken, OpensNoConnection, OptionsPassByLeave, PassedOverChangesNothing, SameAnswersGiveTheSame, VisitsRulesOnce, WrittenIsOfThePacket};
ghost use Rattle.pfr_packet.specs.Settings.{AnswersOnTheWireAreFollowed, GoesBySourceByDefault, GoesOutByItsSender, MadeUntranslated, SameOnTheWire, TapChangesNothing};
ghost use Rattle.pfr_packet.specs.Steps.{asked_of, step_of};

use pfr_states::laws::one_state_answers_a_key;
use pfr_track::laws::what_a_packet_leaves;

/// What a packet comes to depends on the answers to its questions alone: over every table that answers these questions
/// the same, it comes to the same, and the same is asked.
#[tactic(auto, unfolding(crate::specs::Steps::step_of, crate::specs::Steps::asked_of))]
pub fn same_answers_give_the_same_outcome()
    ensures { SameAnswersGiveTheSame }
{}

/// The table that a packet was evaluated over refuses none of its changes, once the states whose deadline has come are
/// gone. If the packet makes a state, both keys are free and there is room. If it touches a state, no other state has
/// one of its keys.
pub fn no_change_is_refused()
    ensures { NoChangeIsRefused }
{
    // the state that is touched is the one with its key
    one_state_answers_a_key();
    // and it keeps its keys
    what_a_packet_leaves();
}

/// A packet changes only the one state that its outcome names. A packet that passes makes one with its own number at
/// its own clock on its own interface, or touches one of the table, which stays the same connection by the same rules.
/// A blocked packet takes the state out.
pub fn every_change_is_of_the_named_state()
    ensures { ChangesAreOfTheNamed }
{
    // a touched state keeps its number, its keys and its rules
    what_a_packet_leaves();
}

/// The rules of a state that a packet makes are those on the packet's line, also behind a translation. A standby is
/// told of the state unless its filter rule says `no-sync`, and the state lets IP options pass if and only if that rule
/// says `allow-opts`. It is bound to the packet's interface, or to all, by that rule's policy, or by the ruleset's if
/// no rule keeps it.
pub fn states_are_made_by_the_rules_named()
    ensures { MadeByTheRulesNamed }
{}

/// A packet makes a state only if the state's filter rule has room for it: a rule with `max` has fewer states than it
/// says, once the states whose deadline has come are gone.
pub fn states_are_made_where_their_rule_has_room()
    ensures { MadeWhereItsRuleHasRoom }
{}

/// The state that a packet makes knows its connection on both sides of the firewall: the captured packet goes between
/// the ends of the state's key on its own side, and the packet as it is sent on between the ends of the other key.
pub fn a_state_knows_both_sides()
    ensures { StateKnowsBothSides }
{}

/// An answer finds the state that the packet made, on each interface to which the state is bound: a packet of the same
/// protocol that goes back from where the packet was sent to. With what the state writes into it, it goes from where
/// the packet was going to where the packet came from.
pub fn answers_go_back()
    ensures { AnswersGoBack }
{}

/// Such an answer is evaluated by that state, as long as the state lives, on an interface to which the state is bound
/// and which is filtered as the packet's own is. It names the state, and if it passes it is sent on from where the
/// packet was going to where the packet came from. It must not be shown behind its translation.
pub fn answers_are_brought_back()
    ensures { AnswersAreBroughtBack }
{}

/// On an interface whose link-level address is known, a packet goes out if and only if its frame was sent from that
/// address: its direction depends on the sender of its frame alone.
pub fn a_packet_goes_out_by_its_sender()
    ensures { GoesOutByItsSender }
{}

/// If a job names no excepted networks, no link-level addresses and no tap, a packet's direction depends on its source
/// and the inside networks alone, and no packet is shown behind its translation.
pub fn a_packet_goes_by_its_source_by_default()
    ensures { GoesBySourceByDefault }
{}

/// Without translation rules a packet comes to the same wherever it was captured, and so does each one after it: the
/// states that are made then have the same key on both sides.
pub fn the_tap_changes_nothing_without_translation()
    ensures same { TapChangesNothing }
    ensures made { MadeUntranslated }
{}

/// In captures on the wire, an answer to a packet that came in finds the state that the packet made, also behind a
/// translation, and nothing is written into it.
pub fn answers_on_the_wire_are_followed()
    ensures { AnswersOnTheWireAreFollowed }
{}

/// What is written into a packet's bytes is made for that packet.
pub fn what_is_written_is_of_the_packet()
    ensures { WrittenIsOfThePacket }
{}

/// A packet that doesn't pass changes nothing, except that it may take a state out.
pub fn what_is_blocked_only_removes()
    ensures { BlockedOnlyRemoves }
{
    // a packet that touches a state passes by it
    what_a_packet_leaves();
}

/// A frame that is no IPv4 packet, and each packet whose interface isn't filtered, is passed over: it goes on as it is,
/// the table is asked nothing, and nothing changes.
pub fn what_is_passed_over_changes_nothing()
    ensures { PassedOverChangesNothing }
{}

/// A part of a packet, an ICMP error and any other ICMP message than an echo make no state and touch none.
pub fn what_opens_no_connection_leaves_the_table()
    ensures { OpensNoConnection }
{}

/// If a state is found for a packet, or for the packet that an ICMP error embeds, no rule is visited.
pub fn no_rule_is_visited_behind_a_state()
    ensures { NoRuleBehindAState }
{}

/// A packet visits each filter rule and each translation rule at most once, if the translation rules have numbers of
/// their own.
pub fn a_packet_visits_a_rule_once()
    ensures { VisitsRulesOnce }
{}

/// A packet is blocked for the limit of states only if the table is full, once the states whose deadline has come are
/// gone.
pub fn the_limit_blocks_only_where_it_is_reached()
    ensures { LimitBlocksWhereReached }
{}

/// Nothing is written into a packet that doesn't pass.
pub fn what_is_blocked_is_not_written()
    ensures { BlockedIsNotWritten }
{}

/// A packet with IP options passes the filter only if the rule or the state that it names allows them.
pub fn options_pass_only_by_leave()
    ensures { OptionsPassByLeave }
{}

/// The ports of a range are tried in an order in which each of them comes once, and no other port.
pub fn each_port_is_tried_once()
    ensures { EachPortOnce }
{}

/// Of the ports that are tried, the first one whose key on the wire no state has is picked; none is picked if and only
/// if all are taken. The table is asked for the keys up to that port.
pub fn the_first_free_port_is_picked()
    ensures first { FirstFreeIsPicked }
    ensures none { NoneWhereAllAreTaken }
{}

/// A packet that goes out by a state comes to the same if it was captured on the wire, as the state has sent it on,
/// over the same table: its line is the same, and the state goes on alike. Nothing is written into it there.
pub fn a_packet_of_a_state_is_the_same_on_the_wire()
    ensures { SameOnTheWire }
{}
