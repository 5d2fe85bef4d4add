//! Connections of protocols without connections: who has spoken.
ghost use Rattle.std.specs.Prelude.{◌≡◌, ◌≤◌, IfSome, IfNone};
ghost use Rattle.pfr_track.specs.Datagrams as spec;

use pfr_net::Timeout;

/// What was seen of one end of a connection of UDP or another protocol.
#[derive(Clone, Copy, Debug, PartialEq, Eq, Hash)]
pub enum DatagramPeer {
    /// It hasn't spoken.
    Silent,
    /// It has spoken.
    Single,
    /// It has spoken, and was answered.
    Multiple,
}

impl DatagramPeer {
    /// The code of the end in messages: 0, 1 or 2.
    pub fn code(self) -> u8
        ensures { result ≡ spec.code_of self }
    {
        match self {
            DatagramPeer::Silent => 0,
            DatagramPeer::Single => 1,
            DatagramPeer::Multiple => 2,
        }
    }

    /// The end that has a code, if one has it.
    pub fn of_code(code: u8) -> Option<DatagramPeer>
        ensures some { IfSome result (λ end. spec.code_of end ≡ code) }
        ensures none { IfNone result (3 ≤ code) }
    {
        match code {
            0 => Some(DatagramPeer::Silent),
            1 => Some(DatagramPeer::Single),
            2 => Some(DatagramPeer::Multiple),
            _ => None,
        }
    }

    /// The end after a packet of its own.
    pub(crate) fn spoken(self) -> DatagramPeer
        ensures { result ≡ spec.spoken self }
    {
        match self {
            DatagramPeer::Silent => DatagramPeer::Single,
            other => other,
        }
    }

    /// The end after a packet of the other one.
    pub(crate) fn answered(self) -> DatagramPeer
        ensures { result ≡ spec.answered self }
    {
        match self {
            DatagramPeer::Single => DatagramPeer::Multiple,
            other => other,
        }
    }
}

/// `multiple` if both ends have spoken and were answered, else `single`.
pub(crate) fn timeout_by(
    first: DatagramPeer,
    second: DatagramPeer,
    single: Timeout,
    multiple: Timeout,
) -> Timeout
    ensures { result ≡ spec.timeout_by first second single multiple }
{
    match (first, second) {
        (DatagramPeer::Multiple, DatagramPeer::Multiple) => multiple,
        _ => single,
    }
}
