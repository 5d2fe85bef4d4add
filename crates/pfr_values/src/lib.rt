//! What the words of the command line mean: the values behind flags.
//!
//! A helper of `pfr_command`, `pfr_files`, `pfr_views`, `pfr_runs` and `pfr_cli`. A word that isn't of its flag's form is [`Refused`],
//! as are words that don't fit together, in one line. No file is opened here, and no peer is looked for.
//!
//! Proved is what values mean: the host and the port of a peer, the bytes of a seed, the networks of a list, the interfaces of a
//! run and their link-level addresses, which way packets go, and the bounds of the numbers of packets and of workers.
#![tactic(auto)]

mod also;
mod inside;
mod mac;
mod peers;
mod refused;
mod values;
mod ways;

pub use also::{
    AlsoForm, COMPARED, CaptureWords, MOST_INTERFACES, NAMED, Places, REPLAYED, places_of,
};
pub use inside::{Inside, parts_of};
pub use mac::MAC;
pub use peers::Peer;
pub use refused::Refused;
pub use values::{
    ADDRESS, BATCH, INSIDE, INTERFACE, PEER, SEED, TAP, WORKERS, batch, interface, peer, seed,
    workers,
};
pub use ways::{Ways, given_ways};
