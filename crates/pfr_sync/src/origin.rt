//! Who tells a standby.
use pfr_net::IfName;

/// The most interfaces that a run has.
pub const MOST_INTERFACES: usize = 8;

/// What all messages of a run have in common.
#[derive(Clone, Copy)]
pub struct Origin {
    /// The names of the run's interfaces by their places, and names without letters behind them.
    pub interfaces: [IfName; MOST_INTERFACES],
    /// The checksum of the ruleset's text.
    pub checksum: [u8; 16],
    /// The firewall's number (pf.conf(5), "hostid").
    pub creator: u32,
}
