//! The protocols of a rule.
ghost use Rattle.std.specs.Prelude.{◌≡◌};
ghost use Rattle.pfr_remarks.specs.Protocols as spec;

use crate::why::Why;
use pfr_words::names::entry_of;

/// What packets of a protocol have.
#[derive(Clone, Copy, Debug, PartialEq, Eq)]
pub(crate) enum Has {
    Ports,
    /// Types of ICMP.
    Types,
    Neither,
    /// A macro's value says which protocol it is.
    Unknown,
}

/// The protocols whose packets have ports or types of ICMP, by pf.conf(5)'s names and IANA's numbers.
const PROTOCOLS: [(&[u8], Has); 6] = [
    (b"tcp", Has::Ports),
    (b"6", Has::Ports),
    (b"udp", Has::Ports),
    (b"17", Has::Ports),
    (b"icmp", Has::Types),
    (b"1", Has::Types),
];

/// What is known of the protocols of a rule.
#[derive(Clone, Copy)]
pub(crate) struct Protocols {
    /// Whether the rule has the word `proto`.
    pub named: bool,
    /// Whether one of them is a macro's value.
    pub unknown: bool,
    /// Whether packets of one have no ports.
    pub without_ports: bool,
    /// Whether packets of one have no types of ICMP.
    pub without_types: bool,
}

/// What packets of the protocol that `word` names have.
#[tactic(auto, unfolding(crate::specs::Protocols::had_by))]
fn had_by(word: &[u8]) -> Has
    ensures { result ≡ spec.had_by word.now }
{
    if let Some(has) = entry_of(&PROTOCOLS, word) {
        return has;
    }
    match word.first() {
        Some(b'$') => Has::Unknown,
        _ => Has::Neither,
    }
}

impl Protocols {
    /// Before the word `proto`.
    pub(crate) fn none() -> Protocols
        ensures { result ≡ spec.none }
    {
        Protocols {
            named: false,
            unknown: false,
            without_ports: false,
            without_types: false,
        }
    }

    /// Behind the word `proto`.
    pub(crate) fn announced(self) -> Protocols
        ensures { result ≡ spec.announced self }
    {
        Protocols {
            named: true,
            ..self
        }
    }

    /// With the protocol that a word stands for.
    #[tactic(auto, unfolding(crate::specs::Protocols::with_word))]
    pub(crate) fn with_word(self, word: &[u8]) -> Protocols
        ensures { result ≡ spec.with_word self word.now }
    {
        self.with_had(had_by(word))
    }

    fn with_had(self, has: Has) -> Protocols
        ensures { result ≡ spec.with_had self has }
    {
        match has {
            Has::Ports => Protocols {
                without_types: true,
                ..self
            },
            Has::Types => Protocols {
                without_ports: true,
                ..self
            },
            Has::Neither => Protocols {
                without_ports: true,
                without_types: true,
                ..self
            },
            Has::Unknown => Protocols {
                unknown: true,
                ..self
            },
        }
    }

    /// Why `port` is refused behind them.
    #[tactic(auto, unfolding(crate::specs::Protocols::port_refused))]
    pub(crate) fn port_refused(self) -> Option<Why>
        ensures { result ≡ spec.port_refused self }
    {
        if !self.named {
            return Some(Why::PortWithoutProtocol);
        }
        if self.without_ports && !self.unknown {
            Some(Why::PortOfOtherProtocol)
        } else {
            None
        }
    }

    /// Why `icmp-type` is refused behind them.
    #[tactic(auto, unfolding(crate::specs::Protocols::type_refused))]
    pub(crate) fn type_refused(self) -> Option<Why>
        ensures { result ≡ spec.type_refused self }
    {
        if !self.named {
            return Some(Why::TypeWithoutProtocol);
        }
        if self.without_types && !self.unknown {
            Some(Why::TypeOfOtherProtocol)
        } else {
            None
        }
    }
}
