//! The names of the files that a run reads and writes.
ghost use Rattle.std.specs.Prelude.{◌≡◌, ◌++◌, IfOk, OnOk};
ghost use Rattle.pfr_command.specs.Outputs.{file_names, messages_names, packets_names};

use crate::run::{Messages, RunWords};
use pfr_items::Items;
use pfr_prepare::Request;
use pfr_values::CaptureWords;
use std::alloc::{AllocError, Global};

/// The names of the files of a run's outputs, in the order in which they are made.
pub fn outputs_of<'a>(alloc: Global, asked: &RunWords<'a>) -> Result<Items<&'a str>, AllocError>
    ensures { IfOk result (λ names. names ≡ file_names asked.now.captures asked.now.outputs) }
{
    let outputs = &asked.outputs;
    let mut names = Items::new(alloc);
    names.push(outputs.verdicts)?;
    add_packets(&mut names, asked.captures.as_slice())?;
    names.push(outputs.counters)?;
    names.push(outputs.states)?;
    add_messages(&mut names, &outputs.messages).and(Ok(names))
}

/// Adds the names of the files of packets, by the places of their captures.
fn add_packets<'a>(
    names: &mut Items<&'a str>,
    captures: &[CaptureWords<'a>],
) -> Result<(), AllocError>
    ensures { OnOk result (names.new ≡ names.old ++ packets_names captures.now) }
{
    for words in captures {
        names.push(words.packets)?;
    }
    Ok(())
}

/// Adds the name of the file of messages, if they go into one.
fn add_messages<'a>(names: &mut Items<&'a str>, messages: &Messages<'a>) -> Result<(), AllocError>
    ensures { OnOk result (names.new ≡ names.old ++ messages_names messages.now) }
{
    match messages {
        Messages::File(name) => names.push(*name),
        Messages::Peer(_) | Messages::Nowhere => Ok(()),
    }
}

/// The names of the files that a run reads besides its captures: its ruleset's, and those that flags name for it.
pub fn inputs_of<'a>(alloc: Global, rules: &Request<'a>) -> Result<Items<&'a str>, AllocError> {
    let mut names = Items::new(alloc);
    names.push(rules.name)?;
    for flag in rules.flags.as_slice() {
        if let Some(name) = flag.file() {
            names.push(name)?;
        }
    }
    Ok(names)
}
