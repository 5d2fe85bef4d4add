//! Packets whose state is found.
ghost use Rattle.std.specs.Prelude.{◌≡◌};
ghost use Rattle.pfr_track.specs.Tracking.{touched};
ghost use Rattle.pfr_packet.specs.declared.verdict.Reason.TheVariants.{StateMismatch};
ghost use Rattle.pfr_packet.specs.declared.verdict.Verdict.TheVariants.{Block};
ghost use Rattle.pfr_packet.specs.Found as spec;
ghost use Rattle.pfr_packet.specs.Outcomes.{by_state, fresh};

use crate::keys::written_by;
use crate::outcome::Outcome;
use crate::verdict::{Reason, Verdict};
use pfr_headers::Packet;
use pfr_net::{Direction, Timeouts};
use pfr_states::TableChange;
use pfr_track::{Advance, Clock, State, advance};

/// Writes over a fresh outcome what an ICMP error comes to that embeds a packet of a state's connection: it passes, and
/// the state stays as it is.
pub(crate) fn embed(outcome: &mut Outcome, direction: Direction, packet: &Packet, state: &State)
    requires { outcome.old ≡ fresh }
    ensures { outcome.new ≡ spec.embedded direction packet.now state.now }
{
    outcome.find_state(direction, state);
    outcome.verdict = Verdict::Pass;
    outcome.reason = Reason::StateError;
    outcome.bytes = written_by(direction, packet, &state.wire, &state.stack);
    outcome.ask_leave(packet, state.rules.allows_options);
}

/// What a packet with a state's key comes to. The outcome given is that of a packet that doesn't fit. Outcome and state
/// are large, so both are changed in their places.
#[inline(always)]
pub(crate) fn track(
    outcome: &mut Outcome,
    direction: Direction,
    packet: &Packet,
    state: &mut State,
    clock: Clock,
    timeouts: &Timeouts,
)
    requires { outcome.old ≡ by_state direction state.old Block StateMismatch }
    ensures { outcome.new ≡ spec.tracked direction packet.now state.old (touched state.old packet.now direction clock timeouts.now) }
{
    match advance(state, packet, direction, clock, timeouts) {
        Advance::Mismatch => {}
        Advance::Removed => outcome.change = Some(TableChange::Removed(state.number)),
        Advance::Accepted => {
            if packet.has_options() && !state.rules.allows_options {
                outcome.reason = Reason::IpOption;
            } else {
                outcome.verdict = Verdict::Pass;
                outcome.reason = Reason::State;
                outcome.bytes = written_by(direction, packet, &state.wire, &state.stack);
                outcome.change = Some(TableChange::Touched(*state));
            }
        }
    }
}
