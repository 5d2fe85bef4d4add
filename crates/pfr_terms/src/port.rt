//! Ports, as they are written behind `port`.
ghost use Rattle.std.specs.Prelude.{◌≡◌, Ok, IfOk};
ghost use Rattle.pfr_terms.specs.Ports as spec;
ghost use Rattle.pfr_terms.specs.Input.{Reads};

use crate::error::{ConfError, ConfErrorKind};
use crate::lists::Item;
use crate::reader::{Reader, is_free};
use pfr_net::notation::{cut, number};
use pfr_net::{Comparison, PortMatch, RangeOperator};
use pfr_words::Sign;
use pfr_words::names::service_named;
use std::alloc::{AllocError, Global};

/// What a word says where a port has to stand.
#[derive(Clone, Copy)]
pub enum PortWord {
    Port(u16),
    /// A number above 65535, or a range whose first port is above its second.
    OutOfRange,
    /// Neither a number nor a service.
    Unknown,
}

/// What a word says that is a number or the name of a service.
#[tactic(auto, unfolding(crate::specs::Ports::port_word))]
pub fn port_word(word: &[u8]) -> PortWord
    ensures { result ≡ spec.port_word word.now }
{
    match number(word) {
        Some(value) if value <= 65535 => PortWord::Port(value as u16),
        Some(_) => PortWord::OutOfRange,
        None => match service_named(word) {
            Some(port) => PortWord::Port(port),
            None => PortWord::Unknown,
        },
    }
}

/// What `x:y` says by its two words.
fn range_of(first: PortWord, second: PortWord) -> Result<PortMatch, PortWord>
    ensures { result ≡ spec.range_of first second }
{
    match (first, second) {
        (PortWord::Unknown, _) => Err(PortWord::Unknown),
        (_, PortWord::Unknown) => Err(PortWord::Unknown),
        (PortWord::Port(low), PortWord::Port(high)) if low <= high => {
            Ok(PortMatch::Range(RangeOperator::Inclusive, low, high))
        }
        _ => Err(PortWord::OutOfRange),
    }
}

/// What `p` says, or else which fault it is.
fn single_of(word: PortWord) -> Result<PortMatch, PortWord>
    ensures { result ≡ spec.single_of word }
{
    match word {
        PortWord::Port(port) => Ok(PortMatch::Compare(Comparison::Equal, port)),
        fault => Err(fault),
    }
}

/// What a word says that is `p` or `x:y`.
#[tactic(auto, unfolding(crate::specs::Ports::ports_in))]
fn ports_in(word: &[u8]) -> Result<PortMatch, PortWord>
    ensures { result ≡ spec.ports_in word.now }
{
    match cut(b':', word) {
        None => single_of(port_word(word)),
        Some((first, second)) => range_of(port_word(first), port_word(second)),
    }
}

/// The fault of a word that is no port.
fn port_fault(
    alloc: Global,
    reader: &Reader<'_, '_>,
    word: PortWord,
) -> Result<ConfError, AllocError>
    ensures { IfOk result (λ e. e ≡ spec.port_fault word reader.now) }
{
    match word {
        PortWord::Unknown => reader.name_left_out(alloc, b"service"),
        _ => Ok(reader.fault(ConfErrorKind::BadNumber)),
    }
}

/// A number or a service; port 0 stands for one that is gathered as a fault.
#[tactic(auto, unfolding(crate::specs::Ports::port))]
pub fn port(alloc: Global, reader: &mut Reader<'_, '_>) -> Result<u16, ConfError>
    ensures { Reads (spec.port reader.old) result reader.new }
{
    match reader.plain_ahead() {
        Some(word) if is_free(word.as_slice()) => match port_word(word.as_slice()) {
            PortWord::Port(port) => {
                reader.take();
                Ok(port)
            }
            word => {
                let fault = port_fault(alloc, reader, word)?;
                reader.blame(fault)?;
                Ok(0)
            }
        },
        _ => {
            reader.pass_over(alloc)?;
            Ok(0)
        }
    }
}

/// What stands for a port or a range that is gathered as a fault.
const PORT_ZERO: PortMatch = PortMatch::Compare(Comparison::Equal, 0);

/// What stands for a word that is no port and whose fault is gathered: for `x:y` a range, behind which no operator
/// comes.
fn stand_in(word: &[u8]) -> PortMatch
    ensures { result ≡ spec.stand_in word.now }
{
    match cut(b':', word) {
        None => PORT_ZERO,
        Some(_) => PortMatch::Range(RangeOperator::Inclusive, 0, 0),
    }
}

/// `p` or `x:y`.
#[tactic(auto, unfolding(crate::specs::Ports::port_or_range))]
pub fn port_or_range(alloc: Global, reader: &mut Reader<'_, '_>) -> Result<PortMatch, ConfError>
    ensures { Reads (spec.port_or_range reader.old) result reader.new }
{
    match reader.plain_ahead() {
        Some(word) if is_free(word.as_slice()) => match ports_in(word.as_slice()) {
            Ok(ports) => {
                reader.take();
                Ok(ports)
            }
            Err(bad) => {
                let fault = port_fault(alloc, reader, bad)?;
                reader.blame(fault)?;
                Ok(stand_in(word.as_slice()))
            }
        },
        _ => {
            reader.pass_over(alloc)?;
            Ok(PORT_ZERO)
        }
    }
}

fn comparison_of(sign: Sign) -> Option<Comparison>
    ensures { result ≡ spec.comparison_of sign }
{
    match sign {
        Sign::Equal => Some(Comparison::Equal),
        Sign::NotEqual => Some(Comparison::NotEqual),
        Sign::Less => Some(Comparison::Less),
        Sign::LessOrEqual => Some(Comparison::LessOrEqual),
        Sign::Greater => Some(Comparison::Greater),
        Sign::GreaterOrEqual => Some(Comparison::GreaterOrEqual),
        _ => None,
    }
}

fn operator_of(sign: Sign) -> Option<RangeOperator>
    ensures { result ≡ spec.operator_of sign }
{
    match sign {
        Sign::Between => Some(RangeOperator::Between),
        Sign::Outside => Some(RangeOperator::Outside),
        _ => None,
    }
}

/// The comparison that comes next, if one does.
#[tactic(auto, unfolding(crate::specs::Ports::eat_comparison))]
fn eat_comparison(reader: &mut Reader<'_, '_>) -> Option<Comparison>
    ensures { spec.eat_comparison reader.old ≡ Ok (result, reader.new) }
{
    let comparison = comparison_of(reader.sign_ahead()?)?;
    reader.take();
    Some(comparison)
}

/// The operator between two ports, if one comes next.
#[tactic(auto, unfolding(crate::specs::Ports::eat_operator))]
fn eat_operator(reader: &mut Reader<'_, '_>) -> Option<RangeOperator>
    ensures { spec.eat_operator reader.old ≡ Ok (result, reader.new) }
{
    let operator = operator_of(reader.sign_ahead()?)?;
    reader.take();
    Some(operator)
}

/// What comes behind the first port or range.
#[tactic(auto, unfolding(crate::specs::Ports::ports_from))]
fn ports_from(
    alloc: Global,
    reader: &mut Reader<'_, '_>,
    first: PortMatch,
) -> Result<PortMatch, ConfError>
    ensures { Reads (spec.ports_from first reader.old) result reader.new }
{
    let PortMatch::Compare(_, low) = first else {
        return Ok(first);
    };
    match eat_operator(reader) {
        Some(operator) => Ok(PortMatch::Range(operator, low, port(alloc, reader)?)),
        None => Ok(first),
    }
}

impl<'a> Item<'a> for PortMatch {
    ghost use Rattle.pfr_terms.specs.Ports as spec;

    ghost parser = { spec.port_match };

    #[tactic(auto, unfolding(crate::specs::Ports::port_match))]
    fn read(alloc: Global, reader: &mut Reader<'_, 'a>) -> Result<PortMatch, ConfError> {
        match eat_comparison(reader) {
            Some(comparison) => Ok(PortMatch::Compare(comparison, port(alloc, reader)?)),
            None => {
                let first = port_or_range(alloc, reader)?;
                ports_from(alloc, reader, first)
            }
        }
    }
}
