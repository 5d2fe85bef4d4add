//! The checksum of the IP header of a message in a file.
use pfr_net::Ipv4Address;
use pfr_sync::ip_header;

#[test]
fn the_header_of_a_message_in_a_file_has_the_right_checksum(rt: HostRuntime) {
    let expected: [u8; 20] = [
        0x45, 0x10, 0x01, 0x22, 0, 0, 0x40, 0, 0xff, 0xf0, 0xd6, 0xe9, 0xc0, 0, 2, 1, 0xe0, 0, 0,
        0xf0,
    ];
    assert!(rt; ip_header(Ipv4Address(0xc000_0201), 270) == expected);
}
