//! What translation rules translate to.
ghost use Rattle.std.specs.Prelude.{◌≡◌};
ghost use Rattle.pfr_terms.specs.Input.{Reads, Refuses};
ghost use Rattle.pfr_conf.specs.Targets as spec;

use crate::translation::TranslationKind;
use pfr_net::PortMatch;
use pfr_net::notation::cut;
use pfr_terms::error::left_out_at;
use pfr_terms::lists::Item;
use pfr_terms::port::{PortWord, port_or_range, port_word};
use pfr_terms::reader::is_free;
use pfr_terms::{ConfError, ConfErrorKind, Host, Reader, Written};
use pfr_words::Sign;
use std::alloc::Global;

/// The ports of a `rdr` target.
#[derive(Clone, Copy)]
pub enum RedirectedPort {
    /// `port z`: all go to this one.
    Fixed(u16),
    /// `port z:*`, with the line of that word: the rule's first destination port goes to z, the next to z + 1.
    From(usize, u16),
}

/// The target of a `nat` rule.
#[derive(Drop)]
pub struct NatTarget<'a> {
    pub address: Written<'a, Host<'a>>,
    /// A port, or the ports from one to another.
    pub ports: Option<PortMatch>,
    /// The source port is kept.
    pub static_port: bool,
}

/// The target of a `rdr` rule.
#[derive(Drop)]
pub struct RdrTarget<'a> {
    pub address: Written<'a, Host<'a>>,
    pub port: Option<RedirectedPort>,
}

/// What a translation rule translates to: an address or the use of a macro for one, and maybe ports.
#[derive(Drop)]
pub enum Target<'a> {
    Nat(NatTarget<'a>),
    Rdr(RdrTarget<'a>),
    Binat(Written<'a, Host<'a>>),
}

/// What is wrong with a word that stands in place of the port of a `rdr` target.
#[derive(Clone, Copy)]
enum PortFault {
    /// No port and no service.
    Service,
    /// A number above 65535.
    Number,
    /// More than one port.
    Pool,
}

/// One address; a network of 32 bits is one too.
#[tactic(auto, unfolding(crate::specs::Targets::one_address))]
fn one_address<'a>(
    alloc: Global,
    reader: &Reader<'_, 'a>,
    line: usize,
    host: Written<'a, Host<'a>>,
) -> Result<Written<'a, Host<'a>>, ConfError>
    ensures { Reads (spec.one_address line host.entry reader.now) result reader.now }
{
    match &host {
        Written::Item(Host::Network(network)) if network.bits < 32 => {
            Err(left_out_at(alloc, line, b"pool".as_slice()))
        }
        Written::Item(Host::Address(_)) if reader.sees_sign(Sign::Minus) => Err(ConfError {
            line,
            kind: ConfErrorKind::BadAddress,
        }),
        _ => Ok(host),
    }
}

/// One address, or the use of a macro for one. More than one is left out; whether a table is more than one or no
/// address at all is the caller's to say.
#[tactic(auto, unfolding(crate::specs::Targets::single_host))]
pub(crate) fn single_host<'a>(
    alloc: Global,
    reader: &mut Reader<'_, 'a>,
    has_tables: bool,
) -> Result<Written<'a, Host<'a>>, ConfError>
    ensures { Reads (spec.single_host has_tables reader.old) result reader.new }
{
    if reader.sees_sign(Sign::OpenBrace) || (has_tables && reader.sees_sign(Sign::Less)) {
        return Err(reader.left_out(alloc, b"pool".as_slice()));
    }
    if reader.sees_sign(Sign::Less) || reader.sees_sign(Sign::Not) || reader.sees_word(b"any") {
        return Err(reader.fault(ConfErrorKind::BadAddress));
    }
    let line = reader.line_ahead();
    let host = Written::<'a, Host<'a>>::read(alloc, reader)?;
    one_address(alloc, reader, line, host)
}

/// What is wrong with a word that is neither `z` nor `z:*`.
fn fault_of(first: PortWord, second: PortWord) -> PortFault
    ensures { result ≡ spec.fault_of first second }
{
    match (first, second) {
        (PortWord::Unknown, _) => PortFault::Service,
        (_, PortWord::Unknown) => PortFault::Service,
        (PortWord::Port(_), PortWord::Port(_)) => PortFault::Pool,
        _ => PortFault::Number,
    }
}

fn fixed_port(word: PortWord) -> Result<RedirectedPort, PortFault>
    ensures { result ≡ spec.fixed_port word }
{
    match word {
        PortWord::Port(port) => Ok(RedirectedPort::Fixed(port)),
        PortWord::OutOfRange => Err(PortFault::Number),
        PortWord::Unknown => Err(PortFault::Service),
    }
}

fn first_port(line: usize, word: PortWord) -> Result<RedirectedPort, PortFault>
    ensures { result ≡ spec.first_port line word }
{
    match word {
        PortWord::Port(port) => Ok(RedirectedPort::From(line, port)),
        PortWord::OutOfRange => Err(PortFault::Number),
        PortWord::Unknown => Err(PortFault::Service),
    }
}

/// What a word says where the port of a `rdr` target has to stand.
#[tactic(auto, unfolding(crate::specs::Targets::redirected_word))]
fn redirected_word(line: usize, word: &[u8]) -> Result<RedirectedPort, PortFault>
    ensures { result ≡ spec.redirected_word line word.now }
{
    match cut(b':', word) {
        None => fixed_port(port_word(word)),
        Some((first, second)) => {
            if second == b"*".as_slice() {
                first_port(line, port_word(first))
            } else {
                Err(fault_of(port_word(first), port_word(second)))
            }
        }
    }
}

fn redirected_fault(alloc: Global, reader: &Reader<'_, '_>, fault: PortFault) -> ConfError
    ensures { Refuses (spec.redirected_fault fault reader.now) result }
{
    match fault {
        PortFault::Service => reader.left_out(alloc, b"service".as_slice()),
        PortFault::Number => reader.fault(ConfErrorKind::BadNumber),
        PortFault::Pool => reader.left_out(alloc, b"pool".as_slice()),
    }
}

/// `z` or `z:*`
#[tactic(auto, unfolding(crate::specs::Targets::redirected_port))]
fn redirected_port(alloc: Global, reader: &mut Reader<'_, '_>) -> Result<RedirectedPort, ConfError>
    ensures { Reads (spec.redirected_port reader.old) result reader.new }
{
    if reader.sees_sign(Sign::OpenBrace) {
        return Err(reader.left_out(alloc, b"pool".as_slice()));
    }
    match reader.plain_ahead() {
        Some(word) if is_free(word.as_slice()) => {
            match redirected_word(reader.line_ahead(), word.as_slice()) {
                Ok(port) => {
                    reader.take();
                    Ok(port)
                }
                Err(fault) => Err(redirected_fault(alloc, reader, fault)),
            }
        }
        _ => Err(reader.refuse(alloc)),
    }
}

/// `port z` or `port x:y`, if it comes next.
#[tactic(auto, unfolding(crate::specs::Targets::nat_ports))]
fn nat_ports(alloc: Global, reader: &mut Reader<'_, '_>) -> Result<Option<PortMatch>, ConfError>
    ensures { Reads (spec.nat_ports reader.old) result reader.new }
{
    if !reader.eat_word(b"port") {
        return Ok(None);
    }
    if reader.sees_sign(Sign::OpenBrace) {
        return Err(reader.left_out(alloc, b"pool".as_slice()));
    }
    Ok(Some(port_or_range(alloc, reader)?))
}

#[tactic(auto, unfolding(crate::specs::Targets::nat_target))]
fn nat_target<'a>(alloc: Global, reader: &mut Reader<'_, 'a>) -> Result<Target<'a>, ConfError>
    ensures { Reads (spec.nat_target reader.old) result reader.new }
{
    let address = single_host(alloc, reader, true)?;
    let ports = nat_ports(alloc, reader)?;
    let static_port = reader.eat_word(b"static-port");
    Ok(Target::Nat(NatTarget {
        address,
        ports,
        static_port,
    }))
}

#[tactic(auto, unfolding(crate::specs::Targets::rdr_target))]
fn rdr_target<'a>(alloc: Global, reader: &mut Reader<'_, 'a>) -> Result<Target<'a>, ConfError>
    ensures { Reads (spec.rdr_target reader.old) result reader.new }
{
    let address = single_host(alloc, reader, true)?;
    let port = if reader.eat_word(b"port") {
        Some(redirected_port(alloc, reader)?)
    } else {
        None
    };
    Ok(Target::Rdr(RdrTarget { address, port }))
}

/// What comes behind the `->` of a rule of this kind.
#[tactic(auto, unfolding(crate::specs::Targets::target))]
pub(crate) fn target_of<'a>(
    alloc: Global,
    reader: &mut Reader<'_, 'a>,
    kind: TranslationKind,
) -> Result<Target<'a>, ConfError>
    ensures { Reads (spec.target kind reader.old) result reader.new }
{
    match kind {
        TranslationKind::Nat => nat_target(alloc, reader),
        TranslationKind::Rdr => rdr_target(alloc, reader),
        TranslationKind::Binat => Ok(Target::Binat(single_host(alloc, reader, true)?)),
    }
}
