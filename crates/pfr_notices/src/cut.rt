//! Packets of which not all was captured.
use byteorder::{BigEndian, ByteOrder, LittleEndian};
use pfr_capture::Record;

/// Whether not all of a packet was captured. A record's header has both lengths, in the byte order of its capture.
pub fn is_cut(packet: &Record) -> bool {
    let captured = packet.bytes.len() as u64;
    let header = &packet.header;
    let original = if u64::from(LittleEndian::read_u32(&header[8..12])) == captured {
        LittleEndian::read_u32(&header[12..16])
    } else {
        BigEndian::read_u32(&header[12..16])
    };
    captured < u64::from(original)
}
