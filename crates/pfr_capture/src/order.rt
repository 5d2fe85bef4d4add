//! The byte order of a capture's headers.
ghost use Rattle.std.specs.Prelude.{◌≡◌, ◌≤◌, length};
ghost use Rattle.pfr_capture.specs.Header.{number, short_number};

/// The order in which the bytes of a number stand, in all headers of one capture.
#[derive(Clone, Copy)]
pub enum ByteOrder {
    Big,
    Little,
}

impl ByteOrder {
    /// The number in the first four bytes.
    #[inline]
    pub fn read_u32(self, bytes: &[u8]) -> u32
        requires { 4 ≤ length bytes.now }
        ensures { result ≡ number self bytes.now }
    {
        let first = [bytes[0], bytes[1], bytes[2], bytes[3]];
        match self {
            ByteOrder::Big => u32::from_be_bytes(first),
            ByteOrder::Little => u32::from_le_bytes(first),
        }
    }

    /// The number in the first two bytes.
    #[inline]
    pub fn read_u16(self, bytes: &[u8]) -> u16
        requires { 2 ≤ length bytes.now }
        ensures { result ≡ short_number self bytes.now }
    {
        let first = [bytes[0], bytes[1]];
        match self {
            ByteOrder::Big => u16::from_be_bytes(first),
            ByteOrder::Little => u16::from_le_bytes(first),
        }
    }
}
