//! Which way packets go, and where they were captured, as words say.
ghost use Rattle.std.specs.Prelude.{◌≡◌, IfOk, codes, length};
ghost use Rattle.clap.specs.Matches.{first_value, found_of};
ghost use Rattle.pfr_values.specs.Insides.{AreGiven};
ghost use Rattle.pfr_values.specs.Macs.{AreLinkAddresses, all_known, words_behind};
ghost use Rattle.pfr_values.specs.Taps.{IsTap};

use crate::also::CaptureWords;
use crate::inside::{Inside, networks};
use crate::mac::link_addresses;
use crate::refused::Refused;
use crate::values::tap;
use clap::ArgMatches;
use pfr_headers::{EthernetAddress, Tap};
use pfr_items::Items;
use std::alloc::Global;

/// What the words say of which way packets go, and of where they were captured.
#[derive(Drop)]
pub struct Ways {
    /// The networks whose packets go out: none if the flag for them isn't given.
    pub inside: Inside,
    /// The link-level addresses of the interfaces, if they are given, by the places of the captures.
    pub link_addresses: Items<Option<EthernetAddress>>,
    /// On which side of their translation packets that go out were captured.
    pub tap: Tap,
}

/// What the words say of which way packets go on the interfaces of these captures.
pub fn given_ways<'a>(
    alloc: Global,
    matches: &ArgMatches<'a>,
    captures: &[CaptureWords<'a>],
) -> Result<Ways, Refused<'a>>
    ensures one_each { IfOk result (λ ways. length ways.link_addresses ≡ length captures.now) }
    ensures link_addresses { IfOk result (λ ways. AreLinkAddresses (words_behind matches.now) captures.now ways.link_addresses) }
    ensures inside { IfOk result (λ ways. AreGiven ways.link_addresses (first_value (found_of matches.now) (codes "inside")) ways.inside) }
    ensures tap { IfOk result (λ ways. IsTap (first_value (found_of matches.now) (codes "tap")) ways.tap) }
{
    let tap = given_tap(matches)?;
    let link_addresses = link_addresses(alloc, captures, matches)?;
    let inside = given_inside(alloc, matches, link_addresses.as_slice())?;
    Ok(Ways {
        inside,
        link_addresses,
        tap,
    })
}

/// The inside networks that the words say. They may say none if every interface has a link-level address.
fn given_inside<'a>(
    alloc: Global,
    matches: &ArgMatches<'a>,
    link_addresses: &[Option<EthernetAddress>],
) -> Result<Inside, Refused<'a>>
    ensures { IfOk result (AreGiven link_addresses.now (first_value (found_of matches.now) (codes "inside"))) }
{
    match matches.get_str("inside") {
        Some(word) => networks(alloc, word),
        None if are_all(link_addresses) => Ok(Inside::none(alloc)),
        None => Err(Refused::NoInside),
    }
}

/// Whether every interface has a link-level address.
fn are_all(link_addresses: &[Option<EthernetAddress>]) -> bool
    ensures { result ≡ all_known link_addresses.now }
{
    for address in link_addresses {
        if address.is_none() {
            return false;
        }
    }
    true
}

/// The side that the words say, or that of the network stack.
fn given_tap<'a>(matches: &ArgMatches<'a>) -> Result<Tap, Refused<'a>>
    ensures { IfOk result (IsTap (first_value (found_of matches.now) (codes "tap"))) }
{
    match matches.get_str("tap") {
        Some(word) => tap(word),
        None => Ok(Tap::Stack),
    }
}
