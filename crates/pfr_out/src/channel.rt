//! Messages to a standby as they are written.
ghost use Rattle.std.specs.Prelude.{◌≡◌, ◌++◌, OnOk};
ghost use Rattle.pfr_out.specs.Spelling as spec;

use crate::settings::Form;
use pfr_net::Ipv4Address;
use pfr_packet::Job;
use pfr_sync::{Message, encode_onto, ip_header};
use std::alloc::{AllocError, Global};

/// The length of the IP header before a message in a file.
const IP_HEADER: usize = 20;

/// Spells messages in a form, into a text that is kept.
#[derive(Drop)]
pub struct Channel {
    pub(crate) form: Form,
    text: Vec<u8>,
}

/// Appends an IP header and a message to a text.
fn put_packet(source: Ipv4Address, message: &Message, text: &mut Vec<u8>) -> Result<(), AllocError>
    ensures { OnOk result (text.new.items ≡ text.old.items ++ spec.packet_of source message.now) }
{
    // it has at most 1480 bytes
    message.has_spelling();
    let start = text.len();
    // the header says how long the message is, which is known once it is spelled
    text.extend_from_slice(&[0; IP_HEADER])?;
    encode_onto(message, text)?;
    let len = text.len() - start - IP_HEADER;
    let header = ip_header(source, len as u16);
    text[start..start + IP_HEADER].copy_from_slice(&header);
    Ok(())
}

/// The address from which a standby is told: the address of the job's first interface, or 0.0.0.0 if it has none.
pub(crate) fn source_of(job: &Job) -> Ipv4Address
    ensures { result ≡ spec.source_of job.now }
{
    match job.interfaces().get(0) {
        Some(interface) => interface.address,
        None => Ipv4Address(0),
    }
}

impl Channel {
    /// A channel for messages in a form.
    pub(crate) fn new(alloc: Global, form: Form) -> Channel
        ensures { result.form ≡ form }
    {
        Channel {
            form,
            text: Vec::new(alloc),
        }
    }

    /// Appends a message to the text, from the address of an interface.
    fn put(&mut self, source: Ipv4Address, message: &Message) -> Result<(), AllocError>
        ensures text { OnOk result (self.new.text.items ≡ self.old.text.items ++ spec.in_form self.old.form source message.now) }
        ensures form { self.new.form ≡ self.old.form }
    {
        match self.form {
            Form::File => put_packet(source, message, &mut self.text),
            Form::Peer => encode_onto(message, &mut self.text),
            Form::None => Ok(()),
        }
    }

    /// Spells messages from the address of an interface, in place of what was spelled before.
    pub(crate) fn spell(
        &mut self,
        source: Ipv4Address,
        messages: &[Message],
    ) -> Result<(), AllocError>
        ensures text { OnOk result (self.new.text.items ≡ spec.spelled self.old.form source messages.now) }
        ensures form { self.new.form ≡ self.old.form }
    {
        self.text.clear();
        for message in messages {
            self.put(source, message)?;
        }
        Ok(())
    }

    /// The messages as they were spelled.
    pub(crate) fn text(&self) -> &[u8]
        ensures { result.now ≡ self.now.text.items }
    {
        self.text.as_slice()
    }
}
