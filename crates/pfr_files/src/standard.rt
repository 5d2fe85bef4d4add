//! The standard streams, which a word may name in the place of a file.
ghost use Rattle.std.specs.Prelude.{◌≡◌, nat_lt};
ghost use Rattle.std.specs.List.{list_any};
ghost use Rattle.pfr_files.specs.Standard.{is_standard, standard_inputs};

use pfr_values::CaptureWords;

/// The word that stands for a standard stream in the place of a file's name: for the input where a file would be read, and for the output
/// where one would be written.
pub const STANDARD: &str = "-";

/// Whether a word in the place of a file's name stands for a standard stream.
pub fn is_standard(name: &str) -> bool
    ensures { result ≡ is_standard name.now }
{
    name == STANDARD
}

/// Whether one of these names stands for a standard stream.
pub fn has_standard(names: &[&str]) -> bool
    ensures { result ≡ list_any (λ name. is_standard name.now) names.now }
{
    for name in names {
        if is_standard(name) {
            return true;
        }
    }
    false
}

/// Whether one of these captures comes from standard input.
pub fn has_standard_capture(captures: &[CaptureWords<'_>]) -> bool {
    captures.iter().any(|words| is_standard(words.capture))
}

/// Whether more than one of these captures comes from standard input.
pub fn repeats_input(captures: &[CaptureWords<'_>]) -> bool
    ensures { result ≡ nat_lt 1 (standard_inputs captures.now) }
{
    let mut is_taken = false;
    for words in captures {
        if is_standard(words.capture) {
            if is_taken {
                return true;
            }
            is_taken = true;
        }
    }
    false
}
