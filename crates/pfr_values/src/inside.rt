//! The networks whose packets go out, and those whose packets come in.
ghost use Rattle.std.specs.Prelude.{◌≡◌, ◌==◌, [], ◌∷◌, ◌++◌, false, true, is_some, map, IfOk, OnOk};
ghost use Rattle.std.specs.List.{list_any, slice_split};
ghost use Rattle.pfr_values.specs.Insides as spec;

use crate::refused::Refused;
use crate::values::INSIDE;
use pfr_items::Items;
use pfr_net::Net;
use pfr_net::network::prefix;
use std::alloc::{AllocError, Global};

/// The flag that lists networks.
const FLAG: &str = "--inside";

/// The networks whose packets go out, and those that are excepted: packets of these come in.
#[derive(Drop)]
pub struct Inside {
    pub networks: Items<Net>,
    pub excepted: Items<Net>,
}

/// A network of the list.
#[derive(Clone, Copy)]
struct Listed {
    network: Net,
    is_excepted: bool,
}

/// Whether `!` stands before a network.
fn is_excepted(text: &[u8]) -> bool
    ensures { result ≡ spec.is_excepted text.now }
{
    !text.is_empty() && text[0] == b'!'
}

/// The network that a part of the list says.
fn listing_of(text: &[u8]) -> Option<Listed>
    ensures { result ≡ spec.listing_of text.now }
{
    let is_excepted = is_excepted(text);
    let text = if is_excepted { &text[1..] } else { text };
    let network = Net::parse(text)?;
    Some(Listed {
        network,
        is_excepted,
    })
}

/// Whether two networks hold the same addresses.
fn is_same(network: &Net, other: &Net) -> bool
    ensures { result ≡ spec.is_same network.now other.now }
{
    network.bits == other.bits
        && prefix(network.bits, network.address.0) == prefix(other.bits, other.address.0)
}

/// Whether one of these networks is the same as this one.
fn is_among(networks: &[Net], network: &Net) -> bool
    ensures { result ≡ list_any (spec.is_same network.now) networks.now }
{
    for other in networks {
        if is_same(network, other) {
            return true;
        }
    }
    false
}

/// The parts of a word, between which commas stand.
pub fn parts_of<'a>(alloc: Global, word: &'a str) -> Result<Vec<&'a str>, AllocError>
    ensures { IfOk result (λ parts. map (λ p. p.now) parts.items ≡ slice_split (λ b. b == 44) word.entry.now) }
{
    word.split(',').collect(alloc)
}

impl Inside {
    /// No networks.
    pub(crate) fn none(alloc: Global) -> Inside
        ensures { result ≡ spec.none }
    {
        Inside {
            networks: Items::new(alloc),
            excepted: Items::new(alloc),
        }
    }

    /// Adds a network whose packets go out, in these words.
    fn include<'a>(&mut self, part: &'a str, network: Net) -> Result<(), Refused<'a>>
        requires { spec.NoneTwice self.old }
        ensures once { OnOk result (spec.NoneTwice self.new) }
        ensures networks { OnOk result (self.new.networks ≡ self.old.networks ++ network ∷ []) }
        ensures excepted { OnOk result (self.new.excepted ≡ self.old.excepted) }
    {
        if is_among(self.excepted.as_slice(), &network) {
            return Err(Refused::NetworkTwice(part));
        }
        self.networks.push(network)?;
        Ok(())
    }

    /// Adds a network whose packets come in, in these words.
    fn except<'a>(&mut self, part: &'a str, network: Net) -> Result<(), Refused<'a>>
        requires { spec.NoneTwice self.old }
        ensures once { OnOk result (spec.NoneTwice self.new) }
        ensures networks { OnOk result (self.new.networks ≡ self.old.networks) }
        ensures excepted { OnOk result (self.new.excepted ≡ self.old.excepted ++ network ∷ []) }
    {
        if is_among(self.networks.as_slice(), &network) {
            return Err(Refused::NetworkTwice(part));
        }
        self.excepted.push(network)?;
        Ok(())
    }

    /// Adds the network that a part of the list says.
    fn add<'a>(&mut self, part: &'a str) -> Result<(), Refused<'a>>
        requires { spec.NoneTwice self.old }
        ensures once { OnOk result (spec.NoneTwice self.new) }
        ensures listed { OnOk result (is_some (spec.listing_of part.entry.now) ≡ true) }
        ensures networks { OnOk result (self.new.networks ≡ self.old.networks ++ spec.of_kind false (spec.listing_of part.entry.now)) }
        ensures excepted { OnOk result (self.new.excepted ≡ self.old.excepted ++ spec.of_kind true (spec.listing_of part.entry.now)) }
    {
        let listed = listing_of(part.as_bytes()).ok_or(refused(part))?;
        if listed.is_excepted {
            self.except(part, listed.network)
        } else {
            self.include(part, listed.network)
        }
    }

    /// Adds the networks that the parts of the list say.
    fn add_all<'a>(&mut self, parts: &[&'a str]) -> Result<(), Refused<'a>>
        requires { spec.NoneTwice self.old }
        ensures once { OnOk result (spec.NoneTwice self.new) }
        ensures added { OnOk result (spec.Adds (map (λ p. p.now) parts.now) self.old self.new) }
    {
        for part in parts {
            self.add(part)?;
        }
        Ok(())
    }
}

/// The refusal of a word, or of the part of it that is wrong.
fn refused<'a>(word: &'a str) -> Refused<'a> {
    Refused::BadValue {
        flag: FLAG,
        form: INSIDE,
        word,
    }
}

/// The networks that a word lists, separated by commas: those whose packets go out, one or more, and those with `!` before them. One
/// without a prefix is a single address.
pub(crate) fn networks<'a>(alloc: Global, word: &'a str) -> Result<Inside, Refused<'a>>
    ensures { IfOk result (spec.Lists word.entry.now) }
{
    let parts = parts_of(alloc, word)?;
    let mut inside = Inside::none(alloc);
    inside.add_all(parts.as_slice())?;
    if inside.networks.len() == 0 {
        return Err(refused(word));
    }
    Ok(inside)
}
