//! What a command says on standard error beside its answer: warnings, and how far it has come. A helper of `pfr_views`,
//! `pfr_runs` and `pfr_cli`.
//!
//! A [`Watch`] and a [`Meter`] are gates that watch a run: they are told of each packet that is taken, and no output of a
//! run depends on them. [`Two`] hands each packet on to two gates.
//!
//! - A [`Watch`] counts what may mean that the run doesn't fit its captures: packets that go one way alone, that belong
//!   to connections begun before the capture, that are skipped, cut or parts of others, or that are shown behind their
//!   translation, and states that a limit refused. It also finds the interfaces that rules name and no capture is of. At
//!   the end of a run it warns of these.
//! - A [`Meter`] says now and then how many packets were taken, how many a second, which part of the captures was read,
//!   and how many states were made.
//!
//! Proved is what a skipped record holds, which packets are midway in a connection, which interfaces rules name, and the
//! numbers of a [`Reading`]: packets a second, and the share that was read. That each packet is counted, once and by its
//! way, and that each thing is said, is tested (`tests/runs`), and so is when a [`Meter`] writes a line
//! (`tests/reporting`).
#![tactic(auto)]

mod counts;
mod cut;
mod meter;
mod midway;
mod named;
mod reading;
mod skipped;
mod tally;
mod two;
mod warning;
mod watch;

pub use cut::is_cut;
pub use meter::{Meter, Shown};
pub use midway::is_midway;
pub use named::named_interfaces;
pub use reading::{Reading, per_second, share_of};
pub use skipped::{SkippedAs, skipped_as};
pub use tally::{Hearer, Wanted};
pub use two::Two;
pub use warning::{Skipped, Warning, warn};
pub use watch::Watch;
