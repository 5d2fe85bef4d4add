//! Where captures were taken.

/// On which side of its translation a capture shows a packet that goes out. One that comes in is always shown as it comes from the
/// wire.
#[derive(Clone, Copy, Debug, PartialEq, Eq)]
pub enum Tap {
    /// As the firewall's own network stack hands it to the filter, before it is translated.
    Stack,
    /// As it leaves on the wire, behind its translation: what tcpdump(1) on the firewall's interface sees.
    Wire,
}
