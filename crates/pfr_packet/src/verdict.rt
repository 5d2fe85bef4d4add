//! What becomes of a packet, and why.
ghost use Rattle.std.specs.Prelude.{◌≡◌, Some};
ghost use Rattle.pfr_packet.specs.Verdicts as spec;

use std::fmt;

/// What becomes of a packet.
#[derive(Clone, Copy)]
pub enum Verdict {
    Pass,
    Block,
    /// The packet is blocked, and an answer would be sent.
    Return,
    /// The frame is no IPv4 packet, and passes unseen.
    Skip,
}

impl Verdict {
    /// Whether the packet goes on.
    #[inline]
    pub fn lets_pass(self) -> bool
        ensures { result ≡ spec.lets_pass self }
    {
        match self {
            Verdict::Pass => true,
            Verdict::Block | Verdict::Return | Verdict::Skip => false,
        }
    }

    /// Whether the packet is written to the output of packets.
    pub fn is_written(self) -> bool
        ensures { result ≡ spec.is_written self }
    {
        match self {
            Verdict::Pass | Verdict::Skip => true,
            Verdict::Block | Verdict::Return => false,
        }
    }
}

/// Why.
#[derive(Clone, Copy)]
pub enum Reason {
    /// A rule decided.
    Rule,
    /// No rule matched.
    Default,
    /// It is no IPv4 packet.
    NotIp,
    /// Packets of its interface aren't filtered.
    SkipOn,
    /// The packet's headers were not captured whole or contradict themselves.
    Short,
    /// The packet would pass, but has IP options (RFC 791, section 3.1), and no rule lets these through.
    IpOption,
    /// It belongs to the connection of a state.
    State,
    /// It is an ICMP error that embeds a packet of a state's connection.
    StateError,
    /// It has the key of a state, but doesn't belong to its connection now.
    StateMismatch,
    /// It would make a state, and another state has one of its keys.
    StateInsert,
    /// It would make a state, and there are as many as the limit allows.
    StateLimit,
    /// No port of the translation rule is free for it.
    NatExhausted,
    /// A translation rule with `pass` translates it, and it isn't filtered.
    NatPass,
}

impl fmt::Display for Verdict {
    ghost output = { λ v. Some (spec.verdict_text v) };

    fn fmt<W: fmt::Write>(&self, f: &mut fmt::Formatter<W>) -> fmt::Result {
        match self {
            Verdict::Pass => write!(f, "pass"),
            Verdict::Block => write!(f, "block"),
            Verdict::Return => write!(f, "return"),
            Verdict::Skip => write!(f, "skip"),
        }
    }
}

impl fmt::Display for Reason {
    ghost output = { λ r. Some (spec.reason_text r) };

    fn fmt<W: fmt::Write>(&self, f: &mut fmt::Formatter<W>) -> fmt::Result {
        match self {
            Reason::Rule => write!(f, "rule"),
            Reason::Default => write!(f, "default"),
            Reason::NotIp => write!(f, "not-ip"),
            Reason::SkipOn => write!(f, "skip-on"),
            Reason::Short => write!(f, "short"),
            Reason::IpOption => write!(f, "ip-option"),
            Reason::State => write!(f, "state"),
            Reason::StateError => write!(f, "state-error"),
            Reason::StateMismatch => write!(f, "state-mismatch"),
            Reason::StateInsert => write!(f, "state-insert"),
            Reason::StateLimit => write!(f, "state-limit"),
            Reason::NatExhausted => write!(f, "nat-exhausted"),
            Reason::NatPass => write!(f, "nat-pass"),
        }
    }
}
