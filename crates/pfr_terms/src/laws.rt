//! Laws of the definitions, each the contract of a function that does nothing.
ghost use Rattle.std.specs.Prelude.{◌≡◌, ◌⊎◌, None, Some};
ghost use Rattle.pfr_terms.specs.declared.error.ConfError.{ConfError};
ghost use Rattle.pfr_terms.specs.Faults.{IsOfLowerKind, IsOnLowerLine, kind_number, lower};

/// Of two faults the one whose kind has the lower number is reported; if the numbers are equal, one on the lower line.
/// If no fault was found before, the second is reported.
pub fn the_lower_kind_is_reported()
    ensures alone { (second : ConfError) → lower None second ≡ second }
    ensures one { (first second : ConfError) → (lower (Some first) second ≡ first) ⊎ (lower (Some first) second ≡ second) }
    ensures kind { (first second : ConfError) → IsOfLowerKind (lower (Some first) second) first second }
    ensures line { (first second : ConfError) → kind_number first.kind ≡ kind_number second.kind → IsOnLowerLine (lower (Some first) second) first second }
{}
