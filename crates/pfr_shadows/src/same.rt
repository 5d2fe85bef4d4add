//! Whether two rules ask for the same.
ghost use Rattle.std.specs.Prelude.{◌≡◌, true};

use pfr_net::{IcmpMatch, PortMatch, Protocol};
use pfr_ruleset::{FlagsCriterion, HostCriterion, InterfaceCriterion};

pub(crate) fn is_same_interface(one: &InterfaceCriterion, other: &InterfaceCriterion) -> bool
    ensures { result ≡ true → one.now ≡ other.now }
{
    one == other
}

pub(crate) fn is_same_protocol(one: Protocol, other: Protocol) -> bool
    ensures { result ≡ true → one ≡ other }
{
    one == other
}

pub(crate) fn is_same_icmp(one: IcmpMatch, other: IcmpMatch) -> bool
    ensures { result ≡ true → one ≡ other }
{
    one == other
}

pub(crate) fn is_same_port(one: PortMatch, other: PortMatch) -> bool
    ensures { result ≡ true → one ≡ other }
{
    one == other
}

pub(crate) fn is_same_host(one: HostCriterion, other: HostCriterion) -> bool
    ensures { result ≡ true → one ≡ other }
{
    one == other
}

pub(crate) fn are_same_flags(one: FlagsCriterion, other: FlagsCriterion) -> bool
    ensures { result ≡ true → one ≡ other }
{
    one == other
}
