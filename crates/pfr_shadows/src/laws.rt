//! Laws of the definitions, each the contract of a function that does nothing.
ghost use Rattle.pfr_shadows.specs.Shadows.{ShadowedDecideNone};

/// A shadowed rule decides on no packet.
pub fn shadowed_rules_decide_none()
    ensures { ShadowedDecideNone }
{}
