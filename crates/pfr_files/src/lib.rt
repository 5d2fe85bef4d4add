//! The files of a run, its peers and its standard streams, and what is said when something is wrong with them.
//!
//! A helper of `pfr_views`, `pfr_runs` and `pfr_cli`, which knows no command. Here stand the captures that words name ([`sources`]),
//! what other files and standard streams hold ([`origin_of`], [`text_of`]), where outputs go ([`Destination`], [`Connection`]), the job
//! that a ruleset makes ([`job_by`]), and what is said of a failure, in one line ([`Failure`]). All of it is over any files, words and
//! streams.
#![tactic(auto)]

mod captures;
mod connection;
mod destination;
mod failure;
mod files;
mod head;
mod jobs;
mod origin;
mod printing;
mod progress;
mod same_file;
mod standard;

pub use captures::{CaptureSource, names_of, sources};
pub use connection::{Connection, accepted, connected};
pub use destination::Destination;
pub use failure::{
    CHANGED, CUT, Counted, DEVICE, DONE, Failure, NO_MEMORY, Place, REFUSED, TROUBLE, UNJUDGED,
    report, text_refused,
};
pub use files::{created, opened, text_of};
pub use head::Head;
pub use jobs::job_by;
pub use origin::{Origin, origin_of};
pub use printing::{print, print_piece};
pub use progress::begin_progress;
pub use same_file::repeated_output;
pub use standard::{STANDARD, has_standard, has_standard_capture, is_standard, repeats_input};
