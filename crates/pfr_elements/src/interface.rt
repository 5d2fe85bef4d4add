//! What the forms of interfaces mean.
ghost use Rattle.std.specs.Prelude.{◌≡◌, ◌<◌};
ghost use Rattle.pfr_elements.specs.Interfaces as spec;

use pfr_net::interface::LONGEST_NAME;
use pfr_net::network::prefix;
use pfr_net::{IfName, Ipv4Address, Net};
use pfr_ruleset::{HostSet, Interface, OWN_ADDRESSES};

/// A network of one address.
pub fn whole(address: Ipv4Address) -> Net
    ensures { result ≡ spec.whole address }
{
    Net { address, bits: 32 }
}

/// A network without the bits below its prefix.
pub fn masked(network: Net) -> Net
    ensures { result ≡ spec.masked network }
{
    Net {
        address: Ipv4Address(prefix(network.bits, network.address.0)),
        bits: network.bits,
    }
}

fn is_named(interface: &Interface, word: &[u8]) -> bool
    ensures { result ≡ spec.is_named interface.now word.now }
{
    word.len() <= LONGEST_NAME
        && IfName::new(word).bytes.as_slice() == interface.name.bytes.as_slice()
}

/// Whether a word is the interface's name with `end` behind it.
#[tactic(auto, unfolding(crate::specs::Interfaces::is_named_with))]
fn is_named_with(interface: &Interface, end: &[u8], word: &[u8]) -> bool
    ensures { result ≡ spec.is_named_with interface.now end.now word.now }
{
    if word.len() < end.len() {
        return false;
    }
    let (name, behind) = word.split_at(word.len() - end.len());
    behind == end && is_named(interface, name)
}

/// What a word means as a form of an interface: `NAME`, `NAME:0` or `NAME:network`.
#[tactic(auto, unfolding(crate::specs::Interfaces::form_of))]
fn form_of(interface: &Interface, word: &[u8]) -> Option<Net>
    ensures { result ≡ spec.form_of interface.now word.now }
{
    if is_named(interface, word) || is_named_with(interface, b":0", word) {
        Some(whole(interface.address))
    } else if is_named_with(interface, b":network", word) {
        Some(masked(Net {
            address: interface.address,
            bits: interface.bits,
        }))
    } else {
        None
    }
}

/// What a word means as a form of an interface; of several interfaces the first counts.
pub fn first_form(interfaces: &[Interface], word: &[u8]) -> Option<Net>
    ensures { result ≡ spec.first_form interfaces.now word.now }
{
    for interface in interfaces {
        if let Some(network) = form_of(interface, word) {
            return Some(network);
        }
    }
    None
}

/// What `self` means: the address of the one interface, or the addresses of several.
pub fn own_hosts(interfaces: &[Interface]) -> HostSet
    ensures { result ≡ spec.own_hosts interfaces.now }
{
    if interfaces.len() == 1 {
        HostSet::Network(whole(interfaces[0].address))
    } else {
        OWN_ADDRESSES
    }
}
