//! How captures are replayed.
use pfr_net::Net;
use pfr_ruleset::Interface;

/// The form of the messages to a standby.
#[derive(Clone, Copy, Debug, PartialEq, Eq)]
pub enum Form {
    /// Each after an IP header, as in a capture of the packets that would carry them.
    File,
    /// One after the other, as a stream.
    Peer,
    /// None is written.
    None,
}

/// How the packets of captures are taken and written, whatever the ruleset.
#[derive(Clone, Copy)]
pub struct RunSettings {
    /// How many packets are taken and written at a time, 1 to 4096.
    pub batch: usize,
    /// How many workers evaluate packets ahead, 0 to 64.
    pub workers: u64,
    /// The form of the messages to a standby.
    pub form: Form,
}

/// How captures are replayed through the text of a ruleset.
#[derive(Clone, Copy)]
pub struct Settings<'a> {
    /// The interfaces that the packets pass, by their places.
    pub interfaces: &'a [Interface],
    /// The networks whose packets go out.
    pub inside: &'a [Net],
    /// How many packets are taken and written at a time, 1 to 4096.
    pub batch: usize,
    /// How many workers evaluate packets ahead, 0 to 64.
    pub workers: u64,
    /// The form of the messages to a standby.
    pub form: Form,
}
