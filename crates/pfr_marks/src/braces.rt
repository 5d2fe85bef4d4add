//! Whether the braces of a text are closed.
ghost use Rattle.std.specs.Prelude.{◌≡◌};
ghost use Rattle.pfr_marks.specs.Braces as spec;

use crate::mark::{Mark, is};

/// How many braces are open behind a mark; `None` if it closes one that isn't open.
fn open_behind(before: usize, mark: &Mark<'_>) -> Option<usize>
    ensures { result ≡ spec.open_behind before mark.now }
{
    if is(mark, b"{") {
        return Some(before.saturating_add(1));
    }
    if !is(mark, b"}") {
        return Some(before);
    }
    if before == 0 { None } else { Some(before - 1) }
}

/// Whether each brace is closed, and each closes one.
#[tactic(auto, unfolding(crate::specs::Braces::are_closed))]
pub fn are_closed(marks: &[Mark<'_>]) -> bool
    ensures { result ≡ spec.are_closed marks.now }
{
    let mut so_far: usize = 0;
    for mark in marks {
        match open_behind(so_far, mark) {
            Some(behind) => so_far = behind,
            None => return false,
        }
    }
    so_far == 0
}
