//! Laws of the definitions, each the contract of a function that does nothing.
ghost use Rattle.pfr_rules.specs.Laws.{AnchorAsksForItsOwn, AnchorLetsNothingIn, BehindAQuickHit, BinatGivesTheSourceBack, DecidesWithRoom, MovedPortsKeepTheirDistance, NoRoomLetsBy, OnePortBecomesTheFirst, QuickWithoutAHit, VisitsARuleOnce, VisitsATranslationRuleOnce, WhatIsNotAsked, WhatIsNotVisited};

/// What stands behind a quick rule that hits doesn't matter to the packet: rules and anchors may be put there or taken
/// out, also at the end of an anchor that the quick rule stands in.
pub fn rules_behind_a_quick_hit_say_nothing()
    ensures { BehindAQuickHit }
{}

/// A rule that a packet doesn't visit doesn't matter to it: it may be any other rule.
pub fn a_rule_that_is_not_visited_says_nothing()
    ensures { WhatIsNotVisited }
{}

/// It doesn't matter whether an anchor is quick, if no rule in it hits.
pub fn a_quick_anchor_without_a_hit_says_nothing()
    ensures { QuickWithoutAHit }
{}

/// What an anchor asks for matters to the rules in it alone. If none of them hits, by what the anchor asks for now and
/// by anything else, the same rule decides.
pub fn an_anchor_asks_for_its_own_rules_alone()
    ensures { AnchorAsksForItsOwn }
{}

/// An anchor that doesn't hold lets a packet pass by all its rules, the first and the last as well.
pub fn an_anchor_that_does_not_hold_lets_nothing_in()
    ensures { AnchorLetsNothingIn }
{}

/// Rooms of rules that aren't asked for don't matter to a packet: if other rooms give the same answers to what is
/// asked, the same rule decides, and the same rules are visited.
pub fn what_is_not_asked_says_nothing()
    ensures { WhatIsNotAsked }
{}

/// A rule with a limit of states has room for one more if it decides on a packet that may make a state.
pub fn a_rule_that_decides_has_room()
    ensures { DecidesWithRoom }
{}

/// A rule without room for a packet that may make a state lets it by: the packet goes the same way if the rule is
/// replaced by another one that doesn't hold for it. The rule is visited as that one is.
pub fn a_rule_without_room_lets_the_packet_by()
    ensures { NoRoomLetsBy }
{}

/// A packet visits each rule of the filter at most once.
pub fn a_walk_visits_a_rule_once()
    ensures { VisitsARuleOnce }
{}

/// A packet that goes out by a `binat` rule gets the rule's target as its source, with the port that it had. A packet
/// that comes in by the rule gets that source back as its destination.
pub fn binat_gives_the_source_back()
    ensures { BinatGivesTheSourceBack }
{}

/// A `rdr` rule with `port low:high -> port first:*` moves each port by the same distance, if all stay ports, as they
/// do in each ruleset that a text means. A single port becomes `first`.
pub fn moved_ports_keep_their_distance()
    ensures range { MovedPortsKeepTheirDistance }
    ensures one { OnePortBecomesTheFirst }
{}

/// A packet visits each translation rule at most once, if all rules have numbers of their own, as they have in each
/// ruleset that a text means.
pub fn a_walk_visits_a_translation_rule_once()
    ensures { VisitsATranslationRuleOnce }
{}
