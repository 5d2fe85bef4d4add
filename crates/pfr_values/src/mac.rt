//! The link-level addresses of a run's interfaces.
ghost use Rattle.std.specs.Prelude.{◌≡◌, [], ◌∷◌, length, map, true, IfOk, OnOk, option_map};
ghost use Rattle.std.specs.List.{list_any};
ghost use Rattle.std.specs.Result.{result_ok};
ghost use Rattle.std.specs.Str.{bytes_eq};
ghost use Rattle.pfr_net.specs.Notation.{cut_at};
ghost use Rattle.pfr_values.specs.Macs as spec;

use crate::also::{CaptureWords, is_named};
use crate::refused::Refused;
use crate::values::{digit, interface_name};
use clap::ArgMatches;
use pfr_headers::EthernetAddress;
use pfr_items::Items;
use pfr_net::notation;
use std::alloc::{AllocError, Global};

/// The flag that gives an interface's link-level address.
const FLAG: &str = "--mac";

/// The form of the value behind it.
pub const MAC: &str = "NAME=AA:BB:CC:DD:EE:FF";

/// An interface of a run by its name, and its link-level address.
#[derive(Clone, Copy)]
pub(crate) struct MacWords<'a> {
    interface: &'a str,
    address: EthernetAddress,
}

/// The number that two hexadecimal digits of either case write.
#[tactic(auto, unfolding(crate::specs::Macs::pair_of))]
fn pair(text: &[u8]) -> Option<u8>
    ensures { result ≡ spec.pair_of text.now }
{
    if text.len() != 2 {
        return None;
    }
    let high = digit(text[0])?;
    let low = digit(text[1])?;
    Some(16 * high + low)
}

/// The address that six pairs of hexadecimal digits write, between which colons stand.
#[tactic(auto, unfolding(crate::specs::Macs::address_of))]
fn address_of(text: &[u8]) -> Option<EthernetAddress>
    ensures { result ≡ spec.address_of text.now }
{
    let (first, rest) = notation::cut(b':', text)?;
    let (second, rest) = notation::cut(b':', rest)?;
    let (third, rest) = notation::cut(b':', rest)?;
    let (fourth, rest) = notation::cut(b':', rest)?;
    let (fifth, sixth) = notation::cut(b':', rest)?;
    let address = [
        pair(first)?,
        pair(second)?,
        pair(third)?,
        pair(fourth)?,
        pair(fifth)?,
        pair(sixth)?,
    ];
    Some(EthernetAddress(address))
}

/// What stands before the first `=` of a word and behind it.
fn cut(word: &str) -> Option<(&str, &str)>
    ensures { option_map (λ p. (p.0.now, p.1.now)) result ≡ cut_at 61 word.now }
{
    word.split_once('=')
}

/// The refusal of a word, or of the part of it that is wrong.
fn refused<'a>(word: &'a str) -> Refused<'a> {
    Refused::BadValue {
        flag: FLAG,
        form: MAC,
        word,
    }
}

/// What the word behind the flag says.
fn mac<'a>(word: &'a str) -> Result<MacWords<'a>, Refused<'a>>
    ensures { option_map spec.shape (result_ok result) ≡ spec.mac_of word.entry.now }
{
    let (interface, text) = cut(word).ok_or(refused(word))?;
    let _name = interface_name(FLAG, MAC, interface)?;
    let address = address_of(text.as_bytes()).ok_or(refused(text))?;
    Ok(MacWords { interface, address })
}

/// Whether one of these words names this interface.
fn is_given(macs: &[MacWords<'_>], name: &str) -> bool
    ensures { result ≡ list_any (λ other. bytes_eq other name.now) (spec.names_of macs.now) }
{
    for mac in macs {
        if mac.interface == name {
            return true;
        }
    }
    false
}

/// Adds what the word behind the flag says.
fn add<'a>(
    macs: &mut Items<MacWords<'a>>,
    captures: &[CaptureWords<'_>],
    word: &'a str,
) -> Result<(), Refused<'a>>
    requires { spec.AreMacs captures.now macs.old }
    ensures macs { OnOk result (spec.AreMacs captures.now macs.new) }
    ensures added { OnOk result (spec.Adds (word.entry.now ∷ []) macs.old macs.new) }
{
    let mac = mac(word)?;
    if !is_named(captures, mac.interface) {
        return Err(Refused::NoSuchInterface(mac.interface));
    }
    if is_given(macs.as_slice(), mac.interface) {
        return Err(Refused::InterfaceTwice(mac.interface));
    }
    macs.push(mac)?;
    Ok(())
}

/// Adds what words behind the flag say.
fn add_all<'a>(
    macs: &mut Items<MacWords<'a>>,
    captures: &[CaptureWords<'_>],
    words: &[&'a str],
) -> Result<(), Refused<'a>>
    requires { spec.AreMacs captures.now macs.old }
    ensures macs { OnOk result (spec.AreMacs captures.now macs.new) }
    ensures added { OnOk result (spec.Adds (map (λ w. w.now) words.now) macs.old macs.new) }
{
    for word in words {
        add(macs, captures, word)?;
    }
    Ok(())
}

/// What a command line gives by the flag.
fn given_macs<'a>(
    alloc: Global,
    captures: &[CaptureWords<'_>],
    matches: &ArgMatches<'a>,
) -> Result<Items<MacWords<'a>>, Refused<'a>>
    ensures macs { IfOk result (spec.AreMacs captures.now) }
    ensures given { IfOk result (spec.Adds (spec.words_behind matches.now) []) }
{
    let mut macs = Items::new(alloc);
    if let Some(words) = matches.get_strs("mac") {
        add_all(&mut macs, captures, words)?;
    }
    Ok(macs)
}

/// The address of the interface of this name, if one is given.
fn address_in(macs: &[MacWords<'_>], name: &str) -> Option<EthernetAddress>
    ensures { result ≡ spec.address_in macs.now name.now }
{
    for mac in macs {
        if mac.interface == name {
            return Some(mac.address);
        }
    }
    None
}

/// The addresses of the interfaces of a run, by their places.
fn addresses_of(
    alloc: Global,
    captures: &[CaptureWords<'_>],
    macs: &[MacWords<'_>],
) -> Result<Items<Option<EthernetAddress>>, AllocError>
    ensures { IfOk result (λ addresses. addresses ≡ spec.addresses_of macs.now captures.now) }
{
    let mut addresses = Items::new(alloc);
    for words in captures {
        addresses.push(address_in(macs, words.interface))?;
    }
    Ok(addresses)
}

/// The link-level addresses that a command line gives of the interfaces of a run, by their places. It names only interfaces of the run,
/// and each once at most.
pub(crate) fn link_addresses<'a>(
    alloc: Global,
    captures: &[CaptureWords<'_>],
    matches: &ArgMatches<'a>,
) -> Result<Items<Option<EthernetAddress>>, Refused<'a>>
    ensures given { IfOk result (spec.AreLinkAddresses (spec.words_behind matches.now) captures.now) }
    ensures one_each { IfOk result (λ addresses. length addresses ≡ length captures.now) }
{
    let macs = given_macs(alloc, captures, matches)?;
    let addresses = addresses_of(alloc, captures, macs.as_slice())?;
    Ok(addresses)
}
