//! What was said of a rule.
ghost use Rattle.std.specs.Prelude.{◌≡◌};
ghost use Rattle.pfr_remarks.specs.Told as spec;

use crate::why::Why;

/// What was said of a rule, which is said once.
#[derive(Clone, Copy)]
pub(crate) struct Told {
    pub port_without_protocol: bool,
    pub port_of_other_protocol: bool,
    pub type_without_protocol: bool,
    pub type_of_other_protocol: bool,
    pub block_keeps_state: bool,
    pub long_label: bool,
}

impl Told {
    pub(crate) fn nothing() -> Told
        ensures { result ≡ spec.nothing }
    {
        Told {
            port_without_protocol: false,
            port_of_other_protocol: false,
            type_without_protocol: false,
            type_of_other_protocol: false,
            block_keeps_state: false,
            long_label: false,
        }
    }

    /// Whether this was said.
    pub(crate) fn has_why(self, why: Why) -> bool
        ensures { result ≡ spec.has_why self why }
    {
        match why {
            Why::PortWithoutProtocol => self.port_without_protocol,
            Why::PortOfOtherProtocol => self.port_of_other_protocol,
            Why::TypeWithoutProtocol => self.type_without_protocol,
            Why::TypeOfOtherProtocol => self.type_of_other_protocol,
            Why::BlockKeepsState => self.block_keeps_state,
            Why::LongLabel => self.long_label,
        }
    }

    /// With this said too.
    pub(crate) fn with_why(self, why: Why) -> Told
        ensures { result ≡ spec.with_why self why }
    {
        match why {
            Why::PortWithoutProtocol => Told {
                port_without_protocol: true,
                ..self
            },
            Why::PortOfOtherProtocol => Told {
                port_of_other_protocol: true,
                ..self
            },
            Why::TypeWithoutProtocol => Told {
                type_without_protocol: true,
                ..self
            },
            Why::TypeOfOtherProtocol => Told {
                type_of_other_protocol: true,
                ..self
            },
            Why::BlockKeepsState => Told {
                block_keeps_state: true,
                ..self
            },
            Why::LongLabel => Told {
                long_label: true,
                ..self
            },
        }
    }
}
