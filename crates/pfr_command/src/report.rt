//! What the words behind `report` say.
use crate::joined::{JoinedWords, joined_words};
use crate::words::Asked;
use clap::ArgMatches;
use pfr_values::Refused;
use std::alloc::Global;

/// What the words behind `report` say.
#[derive(Drop)]
pub struct ReportWords<'a> {
    pub joined: JoinedWords<'a>,
    /// The file with the states that the run left, if they are to be told too.
    pub states: Option<&'a str>,
    /// Whether it is said what may mean that ruleset, captures and flags don't fit.
    pub warns: bool,
    /// Whether it is said how far the command has come.
    pub progresses: bool,
}

/// What the words behind `report` ask for.
pub(crate) fn report_words<'a>(
    alloc: Global,
    matches: &ArgMatches<'a>,
) -> Result<Asked<'a>, Refused<'a>> {
    Ok(Asked::Report(ReportWords {
        joined: joined_words(alloc, matches)?,
        states: matches.get_str("states"),
        warns: !matches.get_flag("quiet"),
        progresses: matches.get_flag("progress"),
    }))
}
