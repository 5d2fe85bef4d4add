//! Laws of the definitions, each the contract of a function that does nothing.
ghost use Rattle.pfr_asked.specs.Laws.{DecidersAreAsked, SeenIsAsked, UnaskedChangesNothing};

/// A rule that no packet of a run could have asked may be any other that none could have asked either: the run comes to
/// the same.
pub fn an_unasked_rule_changes_nothing()
    ensures { UnaskedChangesNothing }
{}

/// A packet could have asked the rule by which the filter decided.
pub fn deciders_are_asked()
    ensures { DecidersAreAsked }
{}

/// Where packets came to the filter says exactly whether one of them could have asked a rule.
pub fn what_was_seen_was_asked()
    ensures { SeenIsAsked }
{}
