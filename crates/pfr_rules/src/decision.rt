//! What the filter decides.
use pfr_net::RuleNumber;
use pfr_ruleset::FilterAction;

/// What becomes of a packet, and by which rule. If no rule is named, none hit.
#[derive(Clone, Copy)]
pub struct Decision {
    pub rule: Option<RuleNumber>,
    pub action: FilterAction,
}
