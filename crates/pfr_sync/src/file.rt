//! Messages in a file: each one follows an IP header.
ghost use Rattle.std.specs.Prelude.{◌≡◌, ◌≤◌};
ghost use Rattle.pfr_sync.specs.Files as spec;

use pfr_net::Ipv4Address;

/// The IP header (RFC 791) before a message of `len` bytes, from an interface's address to 224.0.0.240.
pub fn ip_header(source: Ipv4Address, len: u16) -> [u8; 20]
    requires one_message { len ≤ 1480 }
    ensures { result ≡ spec.ip_header source len }
{
    let [total_high, total_low] = (len + 20).to_be_bytes();
    let [high, low] = checksum(source, len).to_be_bytes();
    let [a, b, c, d] = source.0.to_be_bytes();
    [
        0x45, 0x10, total_high, total_low, 0, 0, 0x40, 0, 0xff, 0xf0, high, low, a, b, c, d, 224,
        0, 0, 240,
    ]
}

/// The header's checksum (RFC 1071). The other words are added, the carries are added in, and the complement is taken.
fn checksum(source: Ipv4Address, len: u16) -> u16
    requires one_message { len ≤ 1480 }
    ensures { result ≡ spec.checksum_of source len }
{
    let words = 0x4510
        + u32::from(len + 20)
        + 0x4000
        + 0xfff0
        + source.0 / 65536
        + source.0 % 65536
        + 0xe000
        + 0x00f0;
    let sum = (words - 1) % 65535 + 1;
    65535 - sum as u16
}
