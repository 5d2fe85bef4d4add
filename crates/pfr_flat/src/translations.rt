//! Flat translation rules.
ghost use Rattle.std.specs.Prelude.{◌≡◌, ◌≤◌, ◌+◌, ◌++◌, length, OnOk};
ghost use Rattle.pfr_flat.specs.Translations as spec;

use pfr_net::{Comparison, PortMatch, RangeOperator};
use pfr_ruleset::{FlatTranslation, PacketMatch, TranslationRules};
use std::alloc::AllocError;

/// Puts a translation rule for each match behind the others, numbered on from `number`. All have the line of the rule.
pub fn put_translations<T: Copy>(
    out: &mut TranslationRules<T>,
    number: usize,
    line: usize,
    passes: bool,
    target: Option<T>,
    matches: &[PacketMatch],
) -> Result<(), AllocError>
    requires { number + length matches.now ≤ 18446744073709551615 }
    ensures { OnOk result (out.new ≡ out.old ++ spec.numbered number line passes target matches.now) }
{
    let mut next = number;
    for packet in matches {
        out.push(FlatTranslation {
            number: next,
            line,
            passes,
            packet: *packet,
            target,
        })?;
        next += 1;
    }
    Ok(())
}

/// Whether `ports` can be moved so that the first of them goes to `first`.
fn fits(first: u16, ports: Option<PortMatch>) -> bool
    ensures { result ≡ spec.fits first ports }
{
    match ports {
        Some(PortMatch::Compare(Comparison::Equal, _)) => true,
        Some(PortMatch::Range(RangeOperator::Inclusive, low, high)) => {
            u32::from(first) + u32::from(high.saturating_sub(low)) <= 65535
        }
        _ => false,
    }
}

/// Whether all ports that may be chosen can be moved so that the first goes to `first`: each is a number, or a range
/// that stays within the ports.
pub fn all_fit(first: u16, ports: &[Option<PortMatch>]) -> bool
    ensures { result ≡ spec.all_fit first ports.now }
{
    for choice in ports {
        if !fits(first, *choice) {
            return false;
        }
    }
    true
}
