//! Where statements begin.
ghost use Rattle.std.specs.Prelude.{◌≡◌};
ghost use Rattle.pfr_include.specs.Positions as spec;

use pfr_marks::mark::{Mark, is};

/// What is known between two marks.
#[derive(Clone, Copy)]
pub(crate) struct Position {
    /// Whether no mark stands before on its line.
    pub begins: bool,
    /// How many braces are open.
    pub depth: usize,
}

/// The beginning of a text.
pub(crate) const FIRST: Position = Position {
    begins: true,
    depth: 0,
};

/// Whether no mark of a line is left at the front of marks.
pub(crate) fn ends_line(marks: &[Mark<'_>]) -> bool
    ensures { result ≡ spec.ends_line marks.now }
{
    match marks.first() {
        Some(mark) => is(mark, b"\n"),
        None => true,
    }
}

/// How many braces are open behind a mark. A brace that closes none changes nothing.
pub(crate) fn depth_behind(depth: usize, mark: &Mark<'_>) -> usize
    ensures { result ≡ spec.depth_behind depth mark.now }
{
    if is(mark, b"{") {
        return depth.saturating_add(1);
    }
    if is(mark, b"}") {
        depth.saturating_sub(1)
    } else {
        depth
    }
}

impl Position {
    /// Whether a statement begins here: at the beginning of a line, outside of braces.
    pub(crate) fn begins_statement(self) -> bool
        ensures { result ≡ spec.begins_statement self }
    {
        self.begins && self.depth == 0
    }

    /// What is known behind the first of some marks.
    pub(crate) fn behind(self, marks: &[Mark<'_>]) -> Position
        ensures { result ≡ spec.position_behind self marks.now }
    {
        match marks.first() {
            Some(mark) => Position {
                begins: is(mark, b"\n"),
                depth: depth_behind(self.depth, mark),
            },
            None => self,
        }
    }
}
