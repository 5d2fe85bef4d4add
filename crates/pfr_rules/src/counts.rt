//! Counts of rules.
ghost use Rattle.std.specs.Prelude.{◌≡◌};
ghost use Rattle.pfr_rules.specs.Counts.{added};

/// Adds to the count of a place. A count stays at the last value that 64 bits hold, and a place without a count has none.
#[tactic(auto, unfolding(crate::specs::Counts::added))]
pub fn add(counts: &mut [u64], place: usize, amount: u64)
    ensures { counts.new ≡ added counts.old place amount }
{
    if place < counts.len() {
        counts[place] = counts[place].saturating_add(amount);
    }
}
