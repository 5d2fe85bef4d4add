//! Which way packets go.

/// Which way a packet goes, seen from the firewall.
#[derive(Clone, Copy, PartialEq, Eq)]
pub enum Direction {
    In,
    Out,
}
