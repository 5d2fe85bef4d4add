//! Whether one criterion of addresses holds wherever another does.
ghost use Rattle.std.specs.Prelude.{◌≡◌, true, IfSome};
ghost use Rattle.pfr_shadows.specs.Shadows as spec;

use crate::same::is_same_host;
use pfr_criteria::host_holds;
use pfr_net::Net;
use pfr_ruleset::{AddressTable, HostCriterion, HostSet};

/// Whether a criterion holds for any address.
fn is_any(criterion: HostCriterion) -> bool
    ensures { result ≡ true → spec.IsAny criterion }
{
    match criterion {
        HostCriterion {
            is_negated: false,
            hosts: HostSet::Any,
        } => true,
        _ => false,
    }
}

/// Whether a network holds all addresses of another one.
fn net_covers(wide: Net, narrow: Net) -> bool
    ensures { result ≡ true → spec.NetCovers wide narrow }
{
    wide.bits <= narrow.bits && wide.holds(narrow.address)
}

/// The network that a criterion asks for, if it asks for one.
fn network_in(criterion: HostCriterion) -> Option<Net>
    ensures { IfSome result (λ net. criterion ≡ spec.network net) }
{
    match criterion {
        HostCriterion {
            is_negated: false,
            hosts: HostSet::Network(network),
        } => Some(network),
        _ => None,
    }
}

/// Whether `wide` is seen to hold for all addresses of the network `narrow`.
fn holds_all_of(tables: &[AddressTable], wide: HostCriterion, narrow: Net) -> bool
    ensures { result ≡ true → spec.HoldsAllOf tables.now wide narrow }
{
    match network_in(wide) {
        Some(network) => net_covers(network, narrow),
        None => narrow.bits >= 32 && host_holds(tables, wide, narrow.address),
    }
}

/// Whether `wide` is seen to hold for all addresses for which `narrow` does.
pub(crate) fn host_covers(
    tables: &[AddressTable],
    wide: HostCriterion,
    narrow: HostCriterion,
) -> bool
    ensures { result ≡ true → spec.HostCovers tables.now wide narrow }
{
    if is_any(wide) {
        return true;
    }
    if is_same_host(wide, narrow) {
        return true;
    }
    match network_in(narrow) {
        Some(network) => holds_all_of(tables, wide, network),
        None => false,
    }
}
