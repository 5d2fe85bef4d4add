//! Packets as a capture shows them.
ghost use Rattle.std.specs.Prelude.{◌≡◌};
ghost use Rattle.pfr_packet.specs.Taps as spec;

use crate::keys::side_of;
use crate::outcome::Outcome;
use pfr_headers::Tap;
use pfr_net::Direction;
use pfr_states::Side;

/// Whether packets of a direction are shown behind their translation.
#[inline]
pub(crate) fn is_translated(tap: Tap, direction: Direction) -> bool
    ensures { result ≡ spec.is_translated tap direction }
{
    match (tap, direction) {
        (Tap::Wire, Direction::Out) => true,
        _ => false,
    }
}

/// The side on which packets of a direction are looked up.
#[inline]
pub(crate) fn looked_up_on(tap: Tap, direction: Direction) -> Side
    ensures { result ≡ spec.looked_up_on tap direction }
{
    if is_translated(tap, direction) {
        Side::Wire
    } else {
        side_of(direction)
    }
}

/// Turns the outcome of a packet whose state is found into the outcome of the packet as it is shown.
#[inline]
pub(crate) fn show(tap: Tap, direction: Direction, outcome: &mut Outcome)
    ensures { outcome.new ≡ spec.as_shown tap direction outcome.old }
{
    if is_translated(tap, direction) {
        outcome.bytes = None;
    }
}
