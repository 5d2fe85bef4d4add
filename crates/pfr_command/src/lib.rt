//! The words of the command line, and what they ask for.
//!
//! [`of_process`] has the words that the process was started with, and [`parse`] reads them: a run, a check, a ruleset to be rewritten,
//! a standby, a list of states or of rules, two rulesets to be compared, packets to be shown or reported on, or a text to be printed.
//! Commands and their flags are tables. What doesn't fit is [`Refused`](pfr_values::Refused), or what the `clap` library says of it, in one line.
//! No file is opened here, and no peer is looked for.
//!
//! Proved is what words of `show` mean, and which files a run writes. What other words mean is proved in `pfr_values`. Which words
//! belong to which command has no contract.
#![tactic(auto)]

mod around;
mod commands;
mod diff;
mod given;
mod help;
mod joined;
mod output_names;
mod report;
mod run;
mod show;
mod table;
mod words;

pub use commands::command_of;
pub use diff::DiffWords;
pub use joined::JoinedWords;
pub use output_names::{inputs_of, outputs_of};
pub use report::ReportWords;
pub use run::{Messages, OutputNames, RunWords};
pub use show::ShowWords;
pub use table::CommandName;
pub use words::{Asked, RulesWords, StatesWords, Stream, of_process, parse};
