//! What is written at the end of a run.
ghost use Rattle.std.specs.Prelude.{◌≡◌, IfOk};
ghost use Rattle.pfr_commit.specs.Endings as spec;

use crate::counters::Counters;
use crate::packet_texts::room_for;
use crate::state_line::StateLine;
use pfr_ruleset::Interface;
use pfr_states::Table;
use pfr_sync::Message;
use std::alloc::{AllocError, Global};

/// The room for the line of a state, in bytes: about the length of a TCP connection's line whose sequence numbers have
/// ten digits. The system gives no memory for room that isn't written.
const USUAL_LINE: usize = 192;

/// What is written at the end of a run.
#[derive(Drop)]
pub struct Ending {
    /// The message that was open, if something is told in it.
    pub message: Option<Message>,
    /// A line for each rule, and the totals.
    pub counters: Vec<u8>,
    /// A line for each state that is left.
    pub states: Vec<u8>,
}

/// The text of the counters after `records` packets.
fn counters_text(alloc: Global, records: u64, counters: &Counters) -> Result<Vec<u8>, AllocError>
    ensures { IfOk result (λ text. text.items ≡ spec.counters_text records counters.now) }
{
    let mut text = String::new(alloc);
    counters.put(alloc, records, &mut text)?;
    Ok(text.into_bytes())
}

/// The text of a table's states.
#[tactic(auto, unfolding(crate::specs::Endings::states_text), using(crate::proofs::EndingLemmas::none_written, crate::proofs::EndingLemmas::next_written, crate::proofs::EndingLemmas::one_is_next, crate::proofs::EndingLemmas::all_written))]
fn states_text(
    alloc: Global,
    interfaces: &[Interface],
    table: &Table,
) -> Result<Vec<u8>, AllocError>
    ensures { IfOk result (λ text. text.items ≡ spec.states_text interfaces.now table.now.states) }
{
    let mut text = room_for(alloc, table.len().saturating_mul(USUAL_LINE));
    let mut next = table.first();
    for _turn in 0..table.len() {
        if let Some(state) = next {
            let line = StateLine {
                interfaces,
                state: &state,
            };
            line.put(&mut text)?;
            next = table.after(state.number);
        }
    }
    Ok(text)
}

impl Ending {
    /// The last message, and the texts after `records` packets of a run on these interfaces, which left these counters
    /// and states.
    pub(crate) fn new(
        alloc: Global,
        interfaces: &[Interface],
        message: Option<Message>,
        records: u64,
        counters: &Counters,
        table: &Table,
    ) -> Result<Ending, AllocError>
        ensures message { IfOk result (λ ending. ending.message ≡ message) }
        ensures counters { IfOk result (λ ending. ending.counters.items ≡ spec.counters_text records counters.now) }
        ensures states { IfOk result (λ ending. ending.states.items ≡ spec.states_text interfaces.now table.now.states) }
    {
        Ok(Ending {
            message,
            counters: counters_text(alloc, records, counters)?,
            states: states_text(alloc, interfaces, table)?,
        })
    }
}
