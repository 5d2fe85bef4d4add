//! Networks without the bits below their prefixes.
ghost use Rattle.std.specs.Prelude.{◌≡◌};
ghost use Rattle.pfr_ruleset.specs.Keys.{key_of};

use pfr_net::Net;
use pfr_net::network::prefix;

/// The bits of a network, 32 at most, and its address without those below its prefix.
pub(crate) fn key(network: Net) -> (u8, u32)
    ensures { result ≡ key_of network }
{
    let bits = if network.bits < 32 { network.bits } else { 32 };
    (bits, prefix(network.bits, network.address.0))
}
