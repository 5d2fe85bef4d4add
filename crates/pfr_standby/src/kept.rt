//! What is kept of a state.
ghost use Rattle.std.specs.Prelude.{◌≡◌};
ghost use Rattle.pfr_standby.specs.Standby as spec;

use pfr_messages::{Insertion, Parties, Peer, Update};
use pfr_net::{Direction, Protocol, RuleNumber, Timeout};

/// What a standby keeps of a state.
#[derive(Clone, Copy)]
pub struct Kept {
    /// The number of the rule that made it, below 2^32 - 1.
    pub rule: Option<RuleNumber>,
    /// The parties of its packets on the wire.
    pub wire: Parties,
    /// The parties behind the firewall's translation.
    pub stack: Parties,
    /// The end of the state's maker.
    pub maker: Peer,
    pub other: Peer,
    pub protocol: Protocol,
    /// The direction of the packet that made it.
    pub direction: Direction,
    pub timeout: Timeout,
}

impl Kept {
    /// What is kept of a state that came to be.
    pub(crate) fn of(insertion: &Insertion) -> Kept
        ensures { result ≡ spec.kept_of insertion.now }
    {
        Kept {
            wire: insertion.wire,
            stack: insertion.stack,
            protocol: insertion.protocol,
            direction: insertion.direction,
            rule: insertion.rule,
            maker: insertion.maker,
            other: insertion.other,
            timeout: insertion.timeout,
        }
    }

    /// The state after an update: both ends and the timeout are the update's.
    pub(crate) fn moved_by(self, update: &Update) -> Kept
        ensures { result ≡ spec.moved_by update.now self }
    {
        Kept {
            maker: update.maker,
            other: update.other,
            timeout: update.timeout,
            ..self
        }
    }
}
