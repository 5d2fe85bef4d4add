//! How many rules the lists of a statement make.
ghost use Rattle.std.specs.Prelude.{◌≡◌, ◌≤◌, ◌+◌, IfOk};
ghost use Rattle.pfr_flat.specs.Counts as spec;

use crate::lists::Lists;
use pfr_conf::{ConfError, ConfErrorKind};

/// The most filter rules and translation rules of a ruleset, together.
pub const MOST_RULES: usize = 65536;

/// More rules than a ruleset may have, or entries of its tables, by the statement on this line.
pub fn too_many(line: usize) -> ConfError
    ensures { result ≡ spec.too_many line }
{
    ConfError {
        line,
        kind: ConfErrorKind::TooMany,
    }
}

/// Whether `count` more rules than `used` are more than a ruleset may have, or a list has more elements than it may
/// have.
fn exceeds(used: usize, lists: &Lists, count: usize) -> bool
    requires { count ≤ 4611686018427387904 }
    ensures { result ≡ spec.exceeds used lists.now count }
{
    lists.has_long_list() || used > MOST_RULES || count > MOST_RULES - used
}

/// How many rules the statement on `line` has: `before`, and `copies` for each combination of the lists. It is
/// `TooMany` if a ruleset that has `used` rules may not have them too, or if a list is too long.
#[tactic(auto, unfolding(crate::specs::Counts::counted), using(crate::proofs::Products::exceeds_capped, crate::proofs::Products::count_capped))]
pub fn counted(
    used: usize,
    line: usize,
    lists: &Lists,
    before: usize,
    copies: usize,
) -> Result<usize, ConfError>
    requires { (before ≤ 65536) × (copies ≤ 65536) }
    ensures value { result ≡ spec.counted used line lists.now before copies }
    ensures within { IfOk result (λ count. used + count ≤ 65536) }
{
    let count = before + lists.product() * copies;
    if exceeds(used, lists, count) {
        Err(too_many(line))
    } else {
        Ok(count)
    }
}
