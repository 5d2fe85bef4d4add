//! The states of a run's file, in order.
ghost use Rattle.std.specs.Prelude.{◌≡◌, ◌<◌, ◌++◌, ◌∷◌, [], List, length, IfOk, IfSome, OnOk, IsPermutation};
ghost use Rattle.pfr_listing.specs.Lines as spec;
ghost use Rattle.pfr_listing.specs.declared.line.Listed.{Listed};

use crate::line::{Listed, listed_in};
use pfr_net::Endpoint;
use std::alloc::{AllocError, Global};

/// Why a file of states isn't listed.
#[derive(Clone, Copy, Debug, PartialEq, Eq)]
pub enum Refused {
    /// The line of this number, from 1, isn't that of a state.
    Line(u64),
    /// Memory was refused.
    Memory,
}

impl From<AllocError> for Refused {
    fn from(_refused: AllocError) -> Self {
        Refused::Memory
    }
}

/// The first line of a text, without its newline, and what stands behind it.
pub fn first_line(text: &[u8]) -> Option<(&[u8], &[u8])>
    ensures parts { IfSome result (λ parts. text.now ≡ parts.0.now ++ 10 ∷ parts.1.now) }
    ensures shorter { IfSome result (λ parts. length parts.1.now < length text.now) }
{
    for (place, byte) in text.iter().enumerate() {
        if *byte == b'\n' {
            return Some((&text[..place], &text[place + 1..]));
        }
    }
    None
}

/// The state that a line lists.
fn listed_at<'a>(line: &'a [u8], number: u64, text: &mut Vec<u8>) -> Result<Listed<'a>, Refused>
    ensures { IfOk result (λ listed. spec.IsLineOf listed line.now) }
{
    match listed_in(line, text)? {
        Some(listed) => Ok(listed),
        None => Err(Refused::Line(number)),
    }
}

/// Puts a state behind others.
fn add<'a>(states: &mut Vec<Listed<'a>>, listed: Listed<'a>) -> Result<(), AllocError>
    ensures { OnOk result (states.new.items ≡ states.old.items ++ listed.entry ∷ []) }
{
    states.push(listed)?;
    Ok(())
}

/// The states that the lines of a text list, in their order.
fn in_their_order<'a>(alloc: Global, text: &'a [u8]) -> Result<Vec<Listed<'a>>, Refused>
    ensures { IfOk result (λ states. spec.AreLinesOf states.items text.now) }
{
    let mut states = Vec::new(alloc);
    let mut room = Vec::new(alloc);
    let mut rest = text;
    let mut number: u64 = 0;
    while let Some((line, behind)) = first_line(rest) {
        number = number.saturating_add(1);
        add(&mut states, listed_at(line, number, &mut room)?)?;
        rest = behind;
    }
    if rest.is_empty() {
        Ok(states)
    } else {
        Err(Refused::Line(number.saturating_add(1)))
    }
}

/// An end of a connection as a number, which orders ends by addresses, and then by ports.
fn place_of(end: Endpoint) -> u64 {
    u64::from(end.address.0) * 65536 + u64::from(end.port.0)
}

/// The order of states: by protocol, the end inside behind the firewall, the end outside on the wire, and number.
fn order_of(listed: &Listed<'_>) -> (u8, u64, u64, u64) {
    let state = &listed.state;
    (
        state.wire.protocol.0,
        place_of(state.stack.inside),
        place_of(state.wire.outside),
        state.number.0,
    )
}

/// The states whose lines a text has, as a run writes them. They are ordered by protocol, by the end inside behind the
/// firewall, by the end outside on the wire, and by number.
pub fn listed<'a>(alloc: Global, text: &'a [u8]) -> Result<Vec<Listed<'a>>, Refused>
    ensures { IfOk result (λ sorted. (states : List Listed) × (spec.AreLinesOf states text.now × IsPermutation states sorted.items)) }
{
    let mut states = in_their_order(alloc, text)?;
    states.sort_by_key(|listed| order_of(listed))?;
    Ok(states)
}
