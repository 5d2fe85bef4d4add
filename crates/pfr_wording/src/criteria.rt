//! The criteria of a rule, in words.
use pfr_net::{Comparison, Net, PortMatch, Protocol, RangeOperator};
use pfr_ruleset::{HostCriterion, HostSet, InterfaceCriterion, PacketMatch};
use pfr_sync::letters;
use pfr_texts::{append_address, append_number};
use pfr_words::Bytes;
use std::alloc::AllocError;

/// How rules are written.
#[derive(Clone, Copy)]
pub(crate) struct Wording<'a> {
    /// The names of the tables of the text, in the order in which they are defined.
    pub(crate) tables: &'a [Bytes<'a>],
}

/// The name of a protocol in a ruleset.
fn protocol_name(protocol: Protocol) -> Option<&'static [u8]> {
    match protocol.0 {
        1 => Some(b"icmp"),
        2 => Some(b"igmp"),
        6 => Some(b"tcp"),
        17 => Some(b"udp"),
        47 => Some(b"gre"),
        50 => Some(b"esp"),
        51 => Some(b"ah"),
        _ => None,
    }
}

/// Appends ` proto P`.
fn append_protocol(text: &mut Vec<u8>, protocol: Protocol) -> Result<(), AllocError> {
    text.extend_from_slice(b" proto ")?;
    match protocol_name(protocol) {
        Some(name) => text.extend_from_slice(name),
        None => append_number(text, u64::from(protocol.0)),
    }
}

/// Appends ` on NAME`.
fn append_interface(text: &mut Vec<u8>, interface: &InterfaceCriterion) -> Result<(), AllocError> {
    text.extend_from_slice(b" on ")?;
    if interface.is_negated {
        text.extend_from_slice(b"! ")?;
    }
    text.extend_from_slice(letters(&interface.name))
}

/// Appends a network, or a single address without the length of its prefix.
fn append_network(text: &mut Vec<u8>, network: Net) -> Result<(), AllocError> {
    append_address(text, network.address)?;
    if network.bits < 32 {
        text.extend_from_slice(b"/")?;
        append_number(text, u64::from(network.bits))?;
    }
    Ok(())
}

/// The sign of a comparison.
fn sign_of(comparison: Comparison) -> &'static [u8] {
    match comparison {
        Comparison::Equal => b"=",
        Comparison::NotEqual => b"!=",
        Comparison::Less => b"<",
        Comparison::LessOrEqual => b"<=",
        Comparison::Greater => b">",
        Comparison::GreaterOrEqual => b">=",
    }
}

/// What stands between two ports.
fn between(operator: RangeOperator) -> &'static [u8] {
    match operator {
        RangeOperator::Inclusive => b":",
        RangeOperator::Between => b" >< ",
        RangeOperator::Outside => b" <> ",
    }
}

/// Appends ` port PORTS`.
fn append_ports(text: &mut Vec<u8>, ports: PortMatch) -> Result<(), AllocError> {
    text.extend_from_slice(b" port ")?;
    match ports {
        PortMatch::Compare(comparison, port) => {
            text.extend_from_slice(sign_of(comparison))?;
            text.extend_from_slice(b" ")?;
            append_number(text, u64::from(port))
        }
        PortMatch::Range(operator, low, high) => {
            append_number(text, u64::from(low))?;
            text.extend_from_slice(between(operator))?;
            append_number(text, u64::from(high))
        }
    }
}

/// Whether an address is written, so that the rule is one of IPv4 alone.
fn is_address(host: &HostCriterion) -> bool {
    match host.hosts {
        HostSet::Network(_) | HostSet::Range(_, _) => true,
        HostSet::Any | HostSet::Table(_) => false,
    }
}

/// Whether an end may be any host with any port.
fn is_anyone(host: &HostCriterion, ports: Option<PortMatch>) -> bool {
    let is_any = match host.hosts {
        HostSet::Any => true,
        _ => false,
    };
    is_any && !host.is_negated && ports.is_none()
}

impl Wording<'_> {
    /// Appends the table at a place. The first place has the interfaces' own addresses.
    fn append_table(&self, text: &mut Vec<u8>, place: usize) -> Result<(), AllocError> {
        if place == 0 {
            return text.extend_from_slice(b"self");
        }
        let Some(name) = self.tables.get(place - 1) else {
            return text.extend_from_slice(b"<>");
        };
        text.extend_from_slice(b"<")?;
        text.extend_from_slice(name.as_slice())?;
        text.extend_from_slice(b">")
    }

    /// Appends addresses.
    fn append_host(&self, text: &mut Vec<u8>, host: &HostCriterion) -> Result<(), AllocError> {
        if host.is_negated {
            text.extend_from_slice(b"! ")?;
        }
        match host.hosts {
            HostSet::Any => text.extend_from_slice(b"any"),
            HostSet::Network(network) => append_network(text, network),
            HostSet::Range(first, last) => {
                append_address(text, first)?;
                text.extend_from_slice(b" - ")?;
                append_address(text, last)
            }
            HostSet::Table(place) => self.append_table(text, place),
        }
    }

    /// Appends an end of a connection: its addresses behind a word, and its ports.
    fn append_end(
        &self,
        text: &mut Vec<u8>,
        word: &[u8],
        host: &HostCriterion,
        ports: Option<PortMatch>,
    ) -> Result<(), AllocError> {
        text.extend_from_slice(word)?;
        self.append_host(text, host)?;
        match ports {
            Some(ports) => append_ports(text, ports),
            None => Ok(()),
        }
    }

    /// Appends both ends, or ` all` if both may be any.
    fn append_ends(&self, text: &mut Vec<u8>, packet: &PacketMatch) -> Result<(), AllocError> {
        if is_anyone(&packet.source, packet.source_port)
            && is_anyone(&packet.destination, packet.destination_port)
        {
            return text.extend_from_slice(b" all");
        }
        self.append_end(text, b" from ", &packet.source, packet.source_port)?;
        self.append_end(text, b" to ", &packet.destination, packet.destination_port)
    }

    /// Appends what stands before the hosts: interface, `inet` and protocol. `has_address` says that an address stands
    /// behind the hosts.
    fn append_link(
        &self,
        text: &mut Vec<u8>,
        packet: &PacketMatch,
        has_address: bool,
    ) -> Result<(), AllocError> {
        if let Some(interface) = &packet.interface {
            append_interface(text, interface)?;
        }
        if has_address || is_address(&packet.source) || is_address(&packet.destination) {
            text.extend_from_slice(b" inet")?;
        }
        match packet.protocol {
            Some(protocol) => append_protocol(text, protocol),
            None => Ok(()),
        }
    }

    /// Appends the criteria of a packet but for its ICMP type. `has_address` says that an address stands behind them.
    pub(crate) fn append_criteria(
        &self,
        text: &mut Vec<u8>,
        packet: &PacketMatch,
        has_address: bool,
    ) -> Result<(), AllocError> {
        self.append_link(text, packet, has_address)?;
        self.append_ends(text, packet)
    }
}
