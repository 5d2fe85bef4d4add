//! Ports, TCP flags and ICMP types, and which packets open connections.
ghost use Rattle.std.specs.Prelude.{◌≡◌, ◌<◌};
ghost use Rattle.pfr_criteria.specs.Transports as spec;

use pfr_headers::{IcmpMessage, Transport};
use pfr_net::{Comparison, IcmpMatch, PortMatch, RangeOperator};
use pfr_ruleset::FlagsCriterion;

/// How a port compares with one that is written.
fn compares(comparison: Comparison, port: u16, written: u16) -> bool
    ensures { result ≡ spec.compares comparison port written }
{
    match comparison {
        Comparison::Equal => port == written,
        Comparison::NotEqual => port != written,
        Comparison::Less => port < written,
        Comparison::LessOrEqual => port <= written,
        Comparison::Greater => port > written,
        Comparison::GreaterOrEqual => port >= written,
    }
}

/// Whether a port is in a range, or outside of it.
fn ranges(operator: RangeOperator, low: u16, high: u16, port: u16) -> bool
    ensures { result ≡ spec.ranges operator low high port }
{
    match operator {
        RangeOperator::Inclusive => low <= port && port <= high,
        RangeOperator::Between => low < port && port < high,
        RangeOperator::Outside => port < low || high < port,
    }
}

/// Whether a criterion holds a port.
#[inline]
#[tactic(auto, unfolding(crate::specs::Transports::port_holds))]
pub fn port_holds(criterion: PortMatch, port: u16) -> bool
    ensures { result ≡ spec.port_holds criterion port }
{
    match criterion {
        PortMatch::Compare(comparison, written) => compares(comparison, port, written),
        PortMatch::Range(operator, low, high) => ranges(operator, low, high, port),
    }
}

pub(crate) fn source_port(transport: &Transport) -> Option<u16>
    ensures { result ≡ spec.source_port transport.now }
{
    match transport {
        Transport::Tcp(header) => Some(header.source.0),
        Transport::Udp(header) => Some(header.source.0),
        _ => None,
    }
}

pub(crate) fn destination_port(transport: &Transport) -> Option<u16>
    ensures { result ≡ spec.destination_port transport.now }
{
    match transport {
        Transport::Tcp(header) => Some(header.destination.0),
        Transport::Udp(header) => Some(header.destination.0),
        _ => None,
    }
}

fn port_asked(criterion: Option<PortMatch>, port: Option<u16>) -> bool
    ensures { result ≡ spec.port_asked criterion port }
{
    match (criterion, port) {
        (None, _) => true,
        (Some(_), None) => false,
        (Some(criterion), Some(port)) => port_holds(criterion, port),
    }
}

/// Whether the source port meets a criterion. A packet without ports meets none.
#[inline]
pub fn source_port_holds(criterion: Option<PortMatch>, transport: &Transport) -> bool
    ensures { result ≡ spec.port_asked criterion (spec.source_port transport.now) }
{
    criterion.is_none() || port_asked(criterion, source_port(transport))
}

/// Whether the destination port meets a criterion. A packet without ports meets none.
#[inline]
pub fn destination_port_holds(criterion: Option<PortMatch>, transport: &Transport) -> bool
    ensures { result ≡ spec.port_asked criterion (spec.destination_port transport.now) }
{
    criterion.is_none() || port_asked(criterion, destination_port(transport))
}

/// Whether the flags meet a criterion. Written flags are tested on TCP packets alone, and no fragment meets them; the
/// default flags aren't tested on a fragment.
#[inline]
#[tactic(auto, unfolding(crate::specs::Transports::flags_hold))]
pub fn flags_hold(criterion: FlagsCriterion, transport: &Transport) -> bool
    ensures { result ≡ spec.flags_hold criterion transport.now }
{
    match (criterion, transport) {
        (FlagsCriterion::Any, _) => true,
        (FlagsCriterion::Written { set, mask }, Transport::Tcp(header)) => {
            header.flags.are(set.0, mask.0)
        }
        (FlagsCriterion::Written { .. }, Transport::Fragment) => false,
        (FlagsCriterion::Written { .. }, _) => true,
        (FlagsCriterion::Default, Transport::Tcp(header)) => header.flags.are(2, 18),
        (FlagsCriterion::Default, _) => true,
    }
}

fn icmp_is(criterion: IcmpMatch, transport: &Transport) -> bool
    ensures { result ≡ spec.icmp_is criterion transport.now }
{
    match transport {
        Transport::Icmp(header) => {
            criterion.kind == header.kind.0
                && match criterion.code {
                    None => true,
                    Some(code) => code == header.code,
                }
        }
        _ => false,
    }
}

/// Whether the ICMP type and its code meet a criterion.
#[inline]
#[tactic(auto, unfolding(crate::specs::Transports::icmp_holds))]
pub fn icmp_holds(criterion: Option<IcmpMatch>, transport: &Transport) -> bool
    ensures { result ≡ spec.icmp_holds criterion transport.now }
{
    match criterion {
        None => true,
        Some(criterion) => icmp_is(criterion, transport),
    }
}

/// Whether an ICMP message can be the first of a connection, as an echo can.
#[inline]
fn message_opens(message: &IcmpMessage) -> bool
    ensures { result ≡ spec.message_opens message.now }
{
    match message {
        IcmpMessage::Echo(_) => true,
        IcmpMessage::Error(_) | IcmpMessage::Other => false,
    }
}

/// Whether a packet can be the first of a connection. A part of a packet can't, and of ICMP messages echoes alone can.
#[inline]
pub fn opens_connection(transport: &Transport) -> bool
    ensures { result ≡ spec.opens_connection transport.now }
{
    match transport {
        Transport::Fragment => false,
        Transport::Icmp(header) => message_opens(&header.message),
        Transport::Tcp(_) | Transport::Udp(_) | Transport::Other => true,
    }
}
