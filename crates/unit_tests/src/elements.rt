//! Names of interfaces.
use pfr_net::IfName;

#[test]
fn names_have_at_most_fifteen_bytes(rt: HostRuntime) {
    assert!(rt; IfName::new(b"interface-fiftee").bytes == *b"interface-fifte\0");
}
