//! Settings that are written otherwise.
ghost use Rattle.std.specs.Prelude.{◌≡◌, ◌≤◌, ◌<◌, length, IfSome};
ghost use Rattle.pfr_phrases.specs.Settings as spec;

use crate::change::{Becomes, Words};
use crate::lengths::Takes;
use crate::phrases::Phrase;
use crate::reason::Reason;
use pfr_marks::mark::{Mark, is};
use pfr_words::names::entry_of;

/// What `set optimization` stands for, by its word (pf.conf(5), pfctl(8)).
const OPTIMIZATIONS: [(&[u8], Phrase); 4] = [
    (
        b"aggressive",
        Phrase(
            Takes::Nothing,
            Becomes::Words(Words::Aggressive),
            Reason::Optimization,
        ),
    ),
    (
        b"conservative",
        Phrase(
            Takes::Nothing,
            Becomes::Words(Words::Conservative),
            Reason::Optimization,
        ),
    ),
    (
        b"satellite",
        Phrase(
            Takes::Nothing,
            Becomes::Words(Words::Satellite),
            Reason::Optimization,
        ),
    ),
    (
        b"high-latency",
        Phrase(
            Takes::Nothing,
            Becomes::Words(Words::Satellite),
            Reason::Optimization,
        ),
    ),
];

/// What the word at the front of marks stands for as an optimization.
#[tactic(auto, unfolding(crate::specs::Settings::optimization_at))]
fn optimization_at(marks: &[Mark<'_>]) -> Option<Phrase>
    ensures value { result ≡ spec.optimization_at marks.now }
    ensures some { IfSome result (λ phrase. 0 < length marks.now) }
{
    entry_of(&OPTIMIZATIONS, marks.first()?.piece.as_slice())
}

/// The setting at the front of marks that is written otherwise, and how many marks it has.
#[tactic(auto, unfolding(crate::specs::Settings::setting_at))]
pub(crate) fn setting_at(marks: &[Mark<'_>]) -> Option<(usize, Phrase)>
    ensures value { result ≡ spec.setting_at marks.now }
    ensures within { IfSome result (λ found. (0 < found.0) × (found.0 ≤ length marks.now)) }
{
    let first = marks.first()?;
    if !is(first, b"optimization") {
        return None;
    }
    let phrase = optimization_at(&marks[1..])?;
    Some((2, phrase))
}
