//! Addresses and networks as they are written.
ghost use Rattle.std.specs.Prelude.{◌≡◌, ◌+◌, ◌<◌, ◌≤◌, ◌++◌, length};
ghost use Rattle.pfr_given.specs.Written as spec;

use pfr_digits::Tail;
use pfr_net::Net;
use pfr_net::network::prefix;

/// The first address of a network.
pub(crate) fn first_address(network: &Net) -> u64
    ensures value { result ≡ spec.first_address network.now }
    ensures within { result < 4294967296 }
{
    u64::from(prefix(network.bits, network.address.0))
}

/// The last address of a network.
pub(crate) fn last_address(network: &Net) -> u64
    ensures { result ≡ spec.last_address network.now }
{
    let ignored = 32u8.saturating_sub(network.bits);
    first_address(network) + ((1u64 << ignored) - 1)
}

/// Puts an address before a text: `a.b.c.d`.
#[tactic(auto, unfolding(crate::specs::Written::address_text))]
pub(crate) fn put_address(text: &mut Tail, address: u64)
    requires room { length text.old + 83 ≤ 128 }
    ensures text { text.new ≡ spec.address_text address ++ text.old }
{
    text.put_number(address % 256);
    text.put_word(b".");
    text.put_number(address / 256 % 256);
    text.put_word(b".");
    text.put_number(address / 65536 % 256);
    text.put_word(b".");
    text.put_number(address / 16777216);
}

/// Puts a network before a text: `a.b.c.d/bits`.
#[tactic(auto, unfolding(crate::specs::Written::network_text))]
pub(crate) fn put_network(text: &mut Tail, network: &Net)
    requires room { length text.old + 104 ≤ 128 }
    ensures text { text.new ≡ spec.network_text network.now ++ text.old }
{
    text.put_number(u64::from(network.bits.min(32)));
    text.put_word(b"/");
    put_address(text, first_address(network));
}
