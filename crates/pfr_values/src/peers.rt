//! Who messages go to or come from.
use pfr_net::Port;

/// Where a peer listens, or this program.
#[derive(Clone, Copy)]
pub struct Peer<'a> {
    /// The word that names it, `HOST:PORT`.
    pub word: &'a str,
    /// A dotted address, or a name that the system resolves.
    pub host: &'a str,
    /// The port there.
    pub port: Port,
}
