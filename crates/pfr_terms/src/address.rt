//! Addresses, as they are written behind `from` and `to`, and in tables.
ghost use Rattle.std.specs.Prelude.{◌≡◌, IfOk};
ghost use Rattle.pfr_terms.specs.Addresses as spec;
ghost use Rattle.pfr_terms.specs.Input.{Reads};

use crate::error::{ConfError, ConfErrorKind};
use crate::lists::Item;
use crate::name::{MacroUse, Name, Written};
use crate::reader::{Reader, is_free};
use pfr_net::notation::{cut, dotted, number};
use pfr_net::{Ipv4Address, Net};
use pfr_words::names::is_name;
use pfr_words::{Bytes, Sign};
use std::alloc::{AllocError, Global};

/// What is written for one address or the network of an interface.
#[derive(Drop)]
pub enum Host<'a> {
    /// `a.b.c.d`
    Address(Ipv4Address),
    /// `a.b.c.d/bits`
    Network(Net),
    /// `self`
    Own,
    /// The name of an interface, with `:0` or `:network` or neither, in round brackets or not; or any other word,
    /// which pf would take for the name of a host.
    Interface(Name<'a>),
    /// A macro in round brackets, which stands for the name of an interface.
    InterfaceMacro(MacroUse<'a>),
}

/// What an address of a packet is compared with.
#[derive(Drop)]
pub enum Address<'a> {
    Any,
    Host(Host<'a>),
    /// `a - b`: from the first address to the second.
    Range(Ipv4Address, Ipv4Address),
    /// `<NAME>`
    Table(Name<'a>),
    Macro(MacroUse<'a>),
}

/// An address that a packet has to have, or with `!` must not have.
#[derive(Drop)]
pub struct AddressMatch<'a> {
    pub is_negated: bool,
    pub address: Address<'a>,
}

/// An entry of a table, with the line that it begins on; with `!` the table doesn't hold it.
#[derive(Drop)]
pub struct TableEntry<'a> {
    pub line: usize,
    pub is_negated: bool,
    pub host: Written<'a, Host<'a>>,
}

/// What a plain word says where an address has to stand.
#[derive(Clone, Copy)]
enum AddressWord {
    Address(Ipv4Address),
    Network(Net),
    /// Digits and dots, but no address.
    Malformed,
    /// A network of more than 32 bits.
    TooManyBits,
    /// Digits with fewer than three dots, which pf takes for an address with zeros.
    Short,
    /// A name.
    Name,
}

/// Whether every byte is a digit, a dot or a slash.
fn is_numeric(word: &[u8]) -> bool
    ensures { result ≡ spec.is_numeric word.now }
{
    for byte in word {
        if !(byte.is_ascii_digit() || *byte == b'.' || *byte == b'/') {
            return false;
        }
    }
    true
}

fn dots(word: &[u8]) -> usize
    ensures { result ≡ spec.dots word.now }
{
    let mut count: usize = 0;
    for byte in word {
        if *byte == b'.' {
            count += 1;
        }
    }
    count
}

/// What `a.b.c.d/bits` says by its two parts.
fn network_of(address: Option<Ipv4Address>, bits: Option<u64>) -> AddressWord
    ensures { result ≡ spec.network_of address bits }
{
    match (address, bits) {
        (Some(address), Some(bits)) if bits <= 32 => AddressWord::Network(Net {
            address,
            bits: bits as u8,
        }),
        (Some(_), Some(_)) => AddressWord::TooManyBits,
        _ => AddressWord::Malformed,
    }
}

/// What a word says where an address has to stand.
#[tactic(auto, unfolding(crate::specs::Addresses::address_word))]
fn address_word(word: &[u8]) -> AddressWord
    ensures { result ≡ spec.address_word word.now }
{
    if !is_numeric(word) {
        return AddressWord::Name;
    }
    if dots(word) < 3 {
        return AddressWord::Short;
    }
    match cut(b'/', word) {
        Some((address, bits)) => network_of(dotted(address), number(bits)),
        None => match dotted(word) {
            Some(address) => AddressWord::Address(address),
            None => AddressWord::Malformed,
        },
    }
}

/// The fault of a plain word that is no address.
fn address_fault(
    alloc: Global,
    reader: &Reader<'_, '_>,
    word: AddressWord,
) -> Result<ConfError, AllocError>
    ensures { IfOk result (λ e. e ≡ spec.address_fault word reader.now) }
{
    match word {
        AddressWord::TooManyBits => Ok(reader.fault(ConfErrorKind::BadNumber)),
        AddressWord::Short => reader.name_left_out(alloc, b"short address"),
        AddressWord::Name => reader.name_left_out(alloc, b"host name"),
        _ => Ok(reader.fault(ConfErrorKind::BadAddress)),
    }
}

/// What stands for a word that is no address and whose fault is gathered. A word with a slash counts as a network,
/// behind which no range goes on.
fn stand_in<'a>(word: &[u8]) -> Host<'a>
    ensures { result ≡ spec.stand_in word.now }
{
    let address = Ipv4Address(0);
    match cut(b'/', word) {
        Some(_) => Host::Network(Net { address, bits: 32 }),
        None => Host::Address(address),
    }
}

/// The host that a plain word is.
#[tactic(auto, unfolding(crate::specs::Addresses::host_word))]
fn host_word<'a>(
    alloc: Global,
    reader: &mut Reader<'_, 'a>,
    word: Bytes<'a>,
) -> Result<Host<'a>, ConfError>
    ensures { Reads (spec.host_word word.entry reader.old) result reader.new }
{
    match address_word(word.as_slice()) {
        AddressWord::Address(address) => {
            reader.take();
            Ok(Host::Address(address))
        }
        AddressWord::Network(network) => {
            reader.take();
            Ok(Host::Network(network))
        }
        AddressWord::Name => Ok(Host::Interface(reader.named(word))),
        bad => {
            let fault = address_fault(alloc, reader, bad)?;
            reader.blame(fault)?;
            Ok(stand_in(word.as_slice()))
        }
    }
}

/// What stands in round brackets, and the closing one.
#[tactic(auto, unfolding(crate::specs::Addresses::bracketed))]
fn bracketed<'a>(alloc: Global, reader: &mut Reader<'_, 'a>) -> Result<Host<'a>, ConfError>
    ensures { Reads (spec.bracketed reader.old) result reader.new }
{
    let host = match reader.macro_ahead() {
        Some(found) => {
            reader.take();
            Host::InterfaceMacro(found)
        }
        None => Host::Interface(reader.free_word(alloc)?),
    };
    reader.expect_sign(alloc, Sign::CloseParenthesis)?;
    Ok(host)
}

/// The host that a word outside of brackets is.
#[tactic(auto, unfolding(crate::specs::Addresses::bare_host))]
fn bare_host<'a>(alloc: Global, reader: &mut Reader<'_, 'a>) -> Result<Host<'a>, ConfError>
    ensures { Reads (spec.bare_host reader.old) result reader.new }
{
    match reader.plain_ahead() {
        Some(word) if is_free(word.as_slice()) => host_word(alloc, reader, word),
        Some(word) => Ok(Host::Interface(reader.passed(alloc, word)?)),
        None => Err(reader.refuse(alloc)),
    }
}

impl<'a> Item<'a> for Host<'a> {
    ghost use Rattle.pfr_terms.specs.Addresses as spec;

    ghost parser = { spec.host };

    #[tactic(auto, unfolding(crate::specs::Addresses::host))]
    fn read(alloc: Global, reader: &mut Reader<'_, 'a>) -> Result<Host<'a>, ConfError> {
        if reader.eat_word(b"self") {
            return Ok(Host::Own);
        }
        if reader.eat_sign(Sign::OpenParenthesis) {
            return bracketed(alloc, reader);
        }
        bare_host(alloc, reader)
    }
}

/// The second address of a range, which isn't below the first.
fn range_word(first: Ipv4Address, word: AddressWord) -> Result<Ipv4Address, AddressWord>
    ensures { result ≡ spec.range_word first word }
{
    match word {
        AddressWord::Address(last) if first.0 <= last.0 => Ok(last),
        AddressWord::Address(_) => Err(AddressWord::Malformed),
        AddressWord::Network(_) => Err(AddressWord::Malformed),
        fault => Err(fault),
    }
}

/// The second address of a range; the first stands for one that is gathered as a fault.
#[tactic(auto, unfolding(crate::specs::Addresses::range_end))]
fn range_end(
    alloc: Global,
    reader: &mut Reader<'_, '_>,
    first: Ipv4Address,
) -> Result<Ipv4Address, ConfError>
    ensures { Reads (spec.range_end first reader.old) result reader.new }
{
    match reader.plain_ahead() {
        Some(word) if is_free(word.as_slice()) => {
            match range_word(first, address_word(word.as_slice())) {
                Ok(last) => {
                    reader.take();
                    Ok(last)
                }
                Err(bad) => {
                    let fault = address_fault(alloc, reader, bad)?;
                    reader.blame(fault)?;
                    Ok(first)
                }
            }
        }
        _ => {
            reader.pass_over(alloc)?;
            Ok(first)
        }
    }
}

/// A host, or a range that begins with it.
#[tactic(auto, unfolding(crate::specs::Addresses::range_from))]
fn range_from<'a>(
    alloc: Global,
    reader: &mut Reader<'_, 'a>,
    host: Host<'a>,
) -> Result<Address<'a>, ConfError>
    ensures { Reads (spec.range_from host.entry reader.old) result reader.new }
{
    match host {
        Host::Address(first) if reader.eat_sign(Sign::Minus) => {
            Ok(Address::Range(first, range_end(alloc, reader, first)?))
        }
        host => Ok(Address::Host(host)),
    }
}

/// The name of a table, and the sign behind it.
#[tactic(auto, unfolding(crate::specs::Addresses::table_name))]
pub fn table_name<'a>(alloc: Global, reader: &mut Reader<'_, 'a>) -> Result<Name<'a>, ConfError>
    ensures { Reads (spec.table_name reader.old) result reader.new }
{
    let name = match reader.plain_ahead() {
        Some(word) if is_name(word.as_slice()) => reader.named(word),
        Some(word) => reader.passed(alloc, word)?,
        None => return Err(reader.refuse(alloc)),
    };
    reader.expect_sign(alloc, Sign::Greater)?;
    Ok(name)
}

/// An address, a range, a table or a macro.
#[tactic(auto, unfolding(crate::specs::Addresses::rule_address))]
fn rule_address<'a>(alloc: Global, reader: &mut Reader<'_, 'a>) -> Result<Address<'a>, ConfError>
    ensures { Reads (spec.rule_address reader.old) result reader.new }
{
    if reader.eat_word(b"any") {
        return Ok(Address::Any);
    }
    if reader.eat_sign(Sign::Less) {
        return Ok(Address::Table(table_name(alloc, reader)?));
    }
    match Written::<'a, Host<'a>>::read(alloc, reader)? {
        Written::Macro(found) => Ok(Address::Macro(found)),
        Written::Item(host) => range_from(alloc, reader, host),
    }
}

impl<'a> Item<'a> for AddressMatch<'a> {
    ghost use Rattle.pfr_terms.specs.Addresses as spec;

    ghost parser = { spec.address_match };

    #[tactic(auto, unfolding(crate::specs::Addresses::address_match))]
    fn read(alloc: Global, reader: &mut Reader<'_, 'a>) -> Result<AddressMatch<'a>, ConfError> {
        let is_negated = reader.eat_sign(Sign::Not);
        let address = rule_address(alloc, reader)?;
        Ok(AddressMatch {
            is_negated,
            address,
        })
    }
}

impl<'a> Item<'a> for TableEntry<'a> {
    ghost use Rattle.pfr_terms.specs.Addresses as spec;

    ghost parser = { spec.table_entry };

    #[tactic(auto, unfolding(crate::specs::Addresses::table_entry))]
    fn read(alloc: Global, reader: &mut Reader<'_, 'a>) -> Result<TableEntry<'a>, ConfError> {
        let line = reader.line_ahead();
        let is_negated = reader.eat_sign(Sign::Not);
        let host = Written::<'a, Host<'a>>::read(alloc, reader)?;
        Ok(TableEntry {
            line,
            is_negated,
            host,
        })
    }
}
