//! The ends of TCP connections (RFC 9293, section 3.3).
ghost use Rattle.std.specs.Prelude.{◌≡◌, ◌≤◌, IfSome, IfNone};
ghost use Rattle.pfr_track.specs.Tcp as spec;

use crate::sequence::Sequence;
use pfr_net::Timeout;

/// How far one end of a TCP connection has come, by what was seen of it. The states are in order: an end never goes
/// back. They are pf's states, which have RFC 9293's names; pf uses only some of them.
#[derive(Clone, Copy, Debug, PartialEq, Eq, Hash)]
pub enum TcpPeerState {
    /// Nothing was seen of this end.
    Closed,
    Listen,
    /// It has sent a SYN, or what was seen first.
    SynSent,
    SynReceived,
    /// Its SYN was acknowledged.
    Established,
    CloseWait,
    FinWait1,
    /// It has sent a FIN.
    Closing,
    LastAck,
    /// Its FIN was acknowledged.
    FinWait2,
    /// There was an RST.
    TimeWait,
}

impl TcpPeerState {
    /// The code of the state in messages: 0 to 10, in their order.
    #[tactic(auto, unfolding(crate::specs::Tcp::code_of))]
    pub fn code(self) -> u8
        ensures code { result ≡ spec.code_of self }
        ensures within { result ≤ 10 }
    {
        match self {
            TcpPeerState::Closed => 0,
            TcpPeerState::Listen => 1,
            TcpPeerState::SynSent => 2,
            TcpPeerState::SynReceived => 3,
            TcpPeerState::Established => 4,
            TcpPeerState::CloseWait => 5,
            TcpPeerState::FinWait1 => 6,
            TcpPeerState::Closing => 7,
            TcpPeerState::LastAck => 8,
            TcpPeerState::FinWait2 => 9,
            TcpPeerState::TimeWait => 10,
        }
    }

    /// The state that has a code, if one has it.
    #[tactic(auto, unfolding(crate::specs::Tcp::code_of))]
    pub fn of_code(code: u8) -> Option<TcpPeerState>
        ensures some { IfSome result (λ state. spec.code_of state ≡ code) }
        ensures none { IfNone result (11 ≤ code) }
    {
        match code {
            0 => Some(TcpPeerState::Closed),
            1 => Some(TcpPeerState::Listen),
            2 => Some(TcpPeerState::SynSent),
            3 => Some(TcpPeerState::SynReceived),
            4 => Some(TcpPeerState::Established),
            5 => Some(TcpPeerState::CloseWait),
            6 => Some(TcpPeerState::FinWait1),
            7 => Some(TcpPeerState::Closing),
            8 => Some(TcpPeerState::LastAck),
            9 => Some(TcpPeerState::FinWait2),
            10 => Some(TcpPeerState::TimeWait),
            _ => None,
        }
    }

    /// Whether the end has come as far as another state.
    pub fn is_at_least(self, other: TcpPeerState) -> bool
        ensures { result ≡ spec.has_reached other self }
    {
        self.code() >= other.code()
    }

    /// The further one of two states.
    pub(crate) fn raised_to(self, other: TcpPeerState) -> TcpPeerState
        ensures { result ≡ spec.raised_to other self }
    {
        if self.is_at_least(other) { self } else { other }
    }

    /// The state behind an acknowledgement by the other end.
    pub(crate) fn acknowledged(self) -> TcpPeerState
        ensures { result ≡ spec.acknowledged_state self }
    {
        match self {
            TcpPeerState::SynSent => TcpPeerState::Established,
            TcpPeerState::Closing => TcpPeerState::FinWait2,
            other => other,
        }
    }
}

/// One end of a TCP connection.
#[derive(Clone, Copy, PartialEq, Eq)]
pub struct TcpPeer {
    pub state: TcpPeerState,
    /// The number behind the last byte that it has sent.
    pub low: Sequence,
    /// The number behind the last byte that it may send: what the other end has acknowledged, and its window.
    pub high: Sequence,
    /// The greatest window that it has offered, unscaled.
    pub greatest_window: u16,
    /// The shift of its windows that its SYN offers (RFC 7323, section 2.2); one above 14 counts as 14.
    pub scale: Option<u8>,
}

/// How long a connection waits, by the states of its ends.
pub(crate) fn timeout_by(first: TcpPeerState, second: TcpPeerState) -> Timeout
    ensures { result ≡ spec.timeout_by first second }
{
    let both = |state| first.is_at_least(state) && second.is_at_least(state);
    let one = |state| first.is_at_least(state) || second.is_at_least(state);
    if both(TcpPeerState::FinWait2) {
        Timeout::TcpClosed
    } else if both(TcpPeerState::Closing) {
        Timeout::TcpFinWait
    } else if !both(TcpPeerState::Established) {
        Timeout::TcpOpening
    } else if one(TcpPeerState::Closing) {
        Timeout::TcpClosing
    } else {
        Timeout::TcpEstablished
    }
}
