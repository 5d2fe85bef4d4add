//! Timeouts.
ghost use Rattle.std.specs.Prelude.{◌≡◌, ◌<◌, IfSome};
ghost use Rattle.pfr_net.specs.Timeouts as spec;

/// How long a state waits for the next packet, by what has been seen of its connection (pf.conf(5), "timeout").
#[derive(Clone, Copy, Debug, PartialEq, Eq, Hash)]
pub enum Timeout {
    /// `tcp.first`: after the first packet.
    TcpFirst,
    /// `tcp.opening`: before both ends are established.
    TcpOpening,
    /// `tcp.established`
    TcpEstablished,
    /// `tcp.closing`: after the first FIN.
    TcpClosing,
    /// `tcp.finwait`: after both FINs.
    TcpFinWait,
    /// `tcp.closed`: after an RST, or once both FINs are acknowledged.
    TcpClosed,
    /// `udp.first`
    UdpFirst,
    /// `udp.single`: one end has spoken.
    UdpSingle,
    /// `udp.multiple`: both ends have.
    UdpMultiple,
    /// `icmp.first`
    IcmpFirst,
    /// `icmp.error`: after the first packet that was looked up.
    IcmpError,
    /// `other.first`: of protocols without a timeout of their own.
    OtherFirst,
    /// `other.single`
    OtherSingle,
    /// `other.multiple`
    OtherMultiple,
}

impl Timeout {
    /// The code of the timeout in messages, 0 to 13 in the order of the list above.
    #[tactic(auto, unfolding(crate::specs::Timeouts::code_of))]
    pub fn code(self) -> u8
        ensures code { result ≡ spec.code_of self }
        ensures within { result < 14 }
    {
        match self {
            Timeout::TcpFirst => 0,
            Timeout::TcpOpening => 1,
            Timeout::TcpEstablished => 2,
            Timeout::TcpClosing => 3,
            Timeout::TcpFinWait => 4,
            Timeout::TcpClosed => 5,
            Timeout::UdpFirst => 6,
            Timeout::UdpSingle => 7,
            Timeout::UdpMultiple => 8,
            Timeout::IcmpFirst => 9,
            Timeout::IcmpError => 10,
            Timeout::OtherFirst => 11,
            Timeout::OtherSingle => 12,
            Timeout::OtherMultiple => 13,
        }
    }

    /// The timeout of a code; `None` for a code above 13.
    pub fn of_code(code: u8) -> Option<Timeout>
        ensures timeout { result ≡ spec.timeout_of code }
        ensures code { IfSome result (λ timeout. spec.code_of timeout ≡ code) }
    {
        TIMEOUTS.get(usize::from(code)).copied()
    }
}

/// All timeouts, each at its code.
const TIMEOUTS: [Timeout; 14] = [
    Timeout::TcpFirst,
    Timeout::TcpOpening,
    Timeout::TcpEstablished,
    Timeout::TcpClosing,
    Timeout::TcpFinWait,
    Timeout::TcpClosed,
    Timeout::UdpFirst,
    Timeout::UdpSingle,
    Timeout::UdpMultiple,
    Timeout::IcmpFirst,
    Timeout::IcmpError,
    Timeout::OtherFirst,
    Timeout::OtherSingle,
    Timeout::OtherMultiple,
];

/// The seconds of each timeout if nothing is set, by its code: those of TCP, UDP, ICMP and other protocols in the
/// order of pf.conf(5).
pub const DEFAULT_SECONDS: [u32; 14] = [
    120, 30, 86400, 900, 45, 90, 60, 30, 60, 20, 10, 60, 30, 60,
];

/// The seconds of each timeout, by its code.
#[derive(Clone, Copy)]
pub struct Timeouts {
    pub seconds: [u32; 14],
}

impl Timeouts {
    /// The seconds if nothing is set.
    pub fn new() -> Timeouts
        ensures { result ≡ spec.default_timeouts }
    {
        Timeouts {
            seconds: DEFAULT_SECONDS,
        }
    }

    /// Sets the seconds of a timeout.
    pub fn set(&mut self, timeout: Timeout, seconds: u32)
        ensures { self.new ≡ spec.with_timeout timeout seconds self.old }
    {
        self.seconds[usize::from(timeout.code())] = seconds;
    }

    /// The seconds of a timeout.
    #[inline]
    pub fn of(&self, timeout: Timeout) -> u32
        ensures { result ≡ spec.seconds_of self.now timeout }
    {
        self.seconds[usize::from(timeout.code())]
    }
}
