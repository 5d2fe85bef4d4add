//! What records hold that are skipped.
ghost use Rattle.std.specs.Prelude.{◌≡◌, ◌≤◌, length};
ghost use Rattle.pfr_notices.specs.Skipped as spec;

use byteorder::{BigEndian, ByteOrder, LittleEndian};

/// What a record holds in the place of an IPv4 packet.
#[derive(Clone, Copy, Debug, PartialEq, Eq)]
pub enum SkippedAs {
    Arp,
    Ipv6,
    /// PPPoE, of its session or its discovery.
    Pppoe,
    /// A frame with two VLAN tags, whatever it carries.
    TwoTags,
    /// Something else, or too little to tell.
    Other,
}

/// What a record holds that is skipped, by its link type and its bytes.
#[tactic(auto, unfolding(crate::specs::Skipped::skipped_as))]
pub fn skipped_as(link: u16, bytes: &[u8]) -> SkippedAs
    ensures { result ≡ spec.skipped_as link bytes.now }
{
    match link {
        1 => in_ethernet(bytes),
        101 => in_raw(bytes),
        0 => in_loopback(bytes),
        _ => SkippedAs::Other,
    }
}

/// What stands in an Ethernet frame.
fn in_ethernet(bytes: &[u8]) -> SkippedAs
    ensures { result ≡ spec.in_ethernet bytes.now }
{
    if bytes.len() < 14 {
        return SkippedAs::Other;
    }
    let kind = BigEndian::read_u16(&bytes[12..]);
    if is_tag(kind) {
        behind_tag(bytes)
    } else {
        of_type(kind)
    }
}

/// What stands behind the first tag of an Ethernet frame.
fn behind_tag(bytes: &[u8]) -> SkippedAs
    requires { 14 ≤ length bytes.now }
    ensures { result ≡ spec.behind_tag bytes.now }
{
    if bytes.len() < 18 {
        return SkippedAs::Other;
    }
    let kind = BigEndian::read_u16(&bytes[16..]);
    if is_tag(kind) {
        SkippedAs::TwoTags
    } else {
        of_type(kind)
    }
}

/// Whether the type of an Ethernet frame says that a tag follows.
fn is_tag(kind: u16) -> bool
    ensures { result ≡ spec.is_tag kind }
{
    kind == 0x8100 || kind == 0x88a8 || kind == 0x9100
}

/// What an Ethernet frame of a type holds.
fn of_type(kind: u16) -> SkippedAs
    ensures { result ≡ spec.of_type kind }
{
    if kind == 0x0806 {
        return SkippedAs::Arp;
    }
    if kind == 0x86dd {
        return SkippedAs::Ipv6;
    }
    if kind == 0x8863 || kind == 0x8864 {
        return SkippedAs::Pppoe;
    }
    SkippedAs::Other
}

/// What stands in a frame of raw IP.
fn in_raw(bytes: &[u8]) -> SkippedAs
    ensures { result ≡ spec.in_raw bytes.now }
{
    if !bytes.is_empty() && bytes[0] / 16 == 6 {
        SkippedAs::Ipv6
    } else {
        SkippedAs::Other
    }
}

/// What stands in a frame of BSD loopback.
fn in_loopback(bytes: &[u8]) -> SkippedAs
    ensures { result ≡ spec.in_loopback bytes.now }
{
    if bytes.len() < 4 {
        return SkippedAs::Other;
    }
    if is_ipv6_family(BigEndian::read_u32(bytes)) || is_ipv6_family(LittleEndian::read_u32(bytes)) {
        SkippedAs::Ipv6
    } else {
        SkippedAs::Other
    }
}

/// Whether an address family is IPv6's on one of the systems that capture BSD loopback.
fn is_ipv6_family(family: u32) -> bool
    ensures { result ≡ spec.is_ipv6_family family }
{
    family == 24 || family == 28 || family == 30
}
