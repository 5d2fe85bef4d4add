//! TCP headers.
ghost use Rattle.std.specs.Prelude.{⊤, ◌≡◌, ◌==◌, [], ◌∷◌, codes};
ghost use Rattle.std.specs.Int.RustNames.{bit_and};

use bitflags::{Flag, Flags, bitflag_items};
use pfr_net::Port;

/// The flags of a TCP header (RFC 9293, section 3.1; ECE and CWR are RFC 3168's, section 6.1).
#[derive(Clone, Copy, PartialEq, Eq)]
pub struct TcpFlags(u8);

bitflag_items! {
    impl TcpFlags: u8 {
        const FIN = 1;
        const SYN = 2;
        const RST = 4;
        const PSH = 8;
        const ACK = 16;
        const URG = 32;
        const ECE = 64;
        const CWR = 128;
    }
}

impl Flags for TcpFlags {
    type Bits = u8;

    ghost exact = { ⊤ };

    ghost table = { (codes "FIN", 1) ∷ (codes "SYN", 2) ∷ (codes "RST", 4) ∷ (codes "PSH", 8) ∷ (codes "ACK", 16) ∷ (codes "URG", 32) ∷ (codes "ECE", 64) ∷ (codes "CWR", 128) ∷ [] };

    ghost set_of = { λ flags. flags.0 };

    fn flags<'a>() -> &'a [Flag<TcpFlags>] {
        TcpFlags::FLAGS
    }

    fn bits(&self) -> u8 {
        self.0
    }

    fn from_bits_retain(bits: u8) -> TcpFlags {
        TcpFlags(bits)
    }
}

impl TcpFlags {
    /// Whether of the flags in `mask` just those in `set` are set. Both are bits of a TCP header's flags.
    #[inline]
    pub fn are(self, set: u8, mask: u8) -> bool
        ensures { result ≡ (bit_and self.0 mask == set) }
    {
        self.0 & mask == set
    }
}

/// A TCP header (RFC 9293, section 3.1).
#[derive(Clone, Copy, PartialEq, Eq)]
pub struct TcpHeader {
    pub source: Port,
    pub destination: Port,
    pub sequence: u32,
    pub acknowledgement: u32,
    /// The header's length in bytes, options included: 20 to 60.
    pub header_length: u8,
    pub flags: TcpFlags,
    /// The window as it stands in the header, unscaled.
    pub window: u16,
    /// The shift of the window that a SYN offers (RFC 7323, section 2.2): 0 to 14. None in a packet without SYN.
    pub window_scale: Option<u8>,
    /// The length of what follows the header in bytes, by the packet's total length.
    pub payload_length: u16,
}
