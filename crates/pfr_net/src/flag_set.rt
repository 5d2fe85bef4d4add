//! TCP flags.

/// TCP flags by the bits of RFC 9293's header: FIN is 1, and so on up to CWR, which is 128.
#[derive(Clone, Copy, PartialEq, Eq)]
pub struct FlagSet(pub u8);
