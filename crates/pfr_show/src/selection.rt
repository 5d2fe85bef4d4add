//! Which packets are shown.
use crate::joining::{Met, is_short};
use crate::shown::Shown;
use pfr_headers::View;
use pfr_listing::Flow;
use pfr_net::{Net, Port, Protocol};
use pfr_packet::{Reason, Verdict};

/// Verdicts.
#[derive(Clone, Copy)]
pub struct Verdicts {
    pub pass: bool,
    pub block: bool,
    pub returned: bool,
    pub skip: bool,
}

/// Which packets are shown: those that meet all criteria that are given.
#[derive(Clone, Copy)]
pub struct Selection {
    /// Those with one of these verdicts.
    pub verdicts: Option<Verdicts>,
    /// Those that the filter rule with this number decides.
    pub rule: Option<u64>,
    /// Those that a rule on this line of the ruleset's file decides or translates.
    pub line: Option<u64>,
    /// Those from or to an address of this network.
    pub host: Option<Net>,
    /// Those from or to this port.
    pub port: Option<Port>,
    /// Those of this protocol.
    pub protocol: Option<Protocol>,
    /// Those that pf would log.
    pub logged: bool,
}

impl Verdicts {
    fn has(self, verdict: Verdict) -> bool {
        match verdict {
            Verdict::Pass => self.pass,
            Verdict::Block => self.block,
            Verdict::Return => self.returned,
            Verdict::Skip => self.skip,
        }
    }
}

/// Whether a packet comes from or goes to an address of a network.
fn has_host(met: &Met<'_>, network: &Net) -> bool {
    match met.view {
        View::Ipv4(packet) => network.holds(packet.source) || network.holds(packet.destination),
        View::Skip | View::Short => false,
    }
}

/// Whether a packet comes from or goes to a port.
fn has_port(met: &Met<'_>, port: Port) -> bool {
    match Flow::of(met.view) {
        Flow::Between(_, source, destination) => {
            source.port == Some(port) || destination.port == Some(port)
        }
        Flow::NotIp | Flow::Short => false,
    }
}

/// Whether a packet is one of a protocol.
fn has_protocol(met: &Met<'_>, protocol: Protocol) -> bool {
    match Flow::of(met.view) {
        Flow::Between(carried, _, _) => carried == protocol,
        Flow::NotIp | Flow::Short => false,
    }
}

/// Whether pf logs packets for this reason if their rule says `log`.
fn is_told(reason: Reason) -> bool {
    match reason {
        Reason::Rule | Reason::IpOption | Reason::StateInsert | Reason::StateLimit => true,
        _ => false,
    }
}

/// Whether pf would log a packet.
fn is_logged(shown: &Shown<'_>) -> bool {
    let reason = shown.outcome.reason;
    match shown.rule {
        Some(rule) => is_short(reason) || (rule.told.is_logged && is_told(reason)),
        None => is_short(reason),
    }
}

/// Whether one of a packet's rules stands on a line.
fn has_line(shown: &Shown<'_>, line: u64) -> bool {
    match (shown.rule, shown.translation) {
        (Some(rule), _) if rule.told.line as u64 == line => true,
        (_, Some(rule)) => rule.told.line as u64 == line,
        _ => false,
    }
}

/// Whether a packet's filter rule has a number.
fn has_rule(shown: &Shown<'_>, number: u64) -> bool {
    match shown.rule {
        Some(rule) => rule.number == number,
        None => false,
    }
}

impl Selection {
    /// Whether a packet has the ends and the protocol that are asked for.
    fn takes(&self, met: &Met<'_>) -> bool {
        if let Some(network) = &self.host {
            if !has_host(met, network) {
                return false;
            }
        }
        if let Some(port) = self.port {
            if !has_port(met, port) {
                return false;
            }
        }
        match self.protocol {
            Some(protocol) => has_protocol(met, protocol),
            None => true,
        }
    }

    /// Whether a packet is shown.
    pub(crate) fn holds(&self, shown: &Shown<'_>) -> bool {
        if let Some(verdicts) = self.verdicts {
            if !verdicts.has(shown.outcome.verdict) {
                return false;
            }
        }
        if let Some(number) = self.rule {
            if !has_rule(shown, number) {
                return false;
            }
        }
        if let Some(line) = self.line {
            if !has_line(shown, line) {
                return false;
            }
        }
        if !self.takes(&shown.met) {
            return false;
        }
        !self.logged || is_logged(shown)
    }
}
