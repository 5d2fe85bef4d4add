//! Packets that make a state.
ghost use Rattle.std.specs.Prelude.{◌≡◌, OnOk};
ghost use Rattle.pfr_states.specs.declared.question.Question.{Question};
ghost use Rattle.pfr_packet.specs.Making as spec;
ghost use Rattle.pfr_packet.specs.Plan.{Goes};

use crate::answers::Answers;
use crate::keys::written_by;
use crate::outcome::Outcome;
use crate::verdict::Reason;
use pfr_headers::Packet;
use pfr_states::{Side, TableChange};
use pfr_track::State;
use std::alloc::AllocError;

/// The packet passes, and makes a state.
fn put_made(outcome: &mut Outcome, packet: &Packet, state: &State)
    ensures { outcome.new ≡ spec.with_made packet.now state.now outcome.old }
{
    outcome.state = Some(state.number);
    outcome.bytes = written_by(state.direction, packet, &state.wire, &state.stack);
    outcome.change = Some(TableChange::Made(*state));
}

/// What a packet comes to that passes and would make a state. It is blocked if another state has one of the state's
/// keys on an interface to which both are bound, and then if there is no room. `outcome` is what it comes to without
/// the state, and becomes what it comes to with it.
pub(crate) fn make_state<A: Answers>(
    packet: &Packet,
    state: &State,
    answers: &mut A,
    outcome: &mut Outcome,
) -> Result<(), AllocError>
    ensures seen { A.seen answers.new ≡ A.seen answers.old }
    ensures goes { OnOk result (Goes (A.seen answers.old) (spec.making packet.now state.now outcome.old) outcome.new (A.asked answers.new)) }
    ensures kept { (question : Question) → A.asked answers.old question → A.asked answers.new question }
{
    let scope = state.rules.binding;
    let wire = answers.at(Side::Wire, &state.wire, scope)?;
    let stack = answers.at(Side::Stack, &state.stack, scope)?;
    match (&wire, &stack) {
        (None, None) => {}
        _ => {
            outcome.block(Reason::StateInsert);
            return Ok(());
        }
    }
    if answers.room()? {
        put_made(outcome, packet, state);
    } else {
        outcome.block(Reason::StateLimit);
    }
    Ok(())
}
