//! The captures and the lines of verdicts that words join.
ghost use Rattle.std.proofs.Props.{props};
ghost use Rattle.pfr_values.specs.Places.{ArePlaces};

use crate::given::{given, given_captures, given_rules};
use clap::ArgMatches;
use pfr_items::Items;
use pfr_prepare::Request;
use pfr_values::{CaptureWords, Refused};
use std::alloc::Global;

/// Captures, and what a run wrote of their packets.
#[derive(Drop)]
pub struct JoinedWords<'a> {
    /// The interfaces and the captures of each, by their places. There are no files for packets.
    pub captures: Items<CaptureWords<'a>>,
    /// The file with the lines of verdicts that the run wrote.
    pub verdicts: &'a str,
    /// The ruleset of the run, and the interfaces that it is for.
    pub rules: Request<'a>,
    pub ghost are_places: { ArePlaces rules.interfaces captures } by { Prim.hlevel props },
}

/// The captures and the run that the words say.
pub(crate) fn joined_words<'a>(
    alloc: Global,
    matches: &ArgMatches<'a>,
) -> Result<JoinedWords<'a>, Refused<'a>> {
    let verdicts = given(matches, "VERDICTS")?;
    let adapts = matches.get_flag("adapt");
    let places = given_captures(alloc, matches)?;
    let rules = given_rules(alloc, matches, "RULES", adapts, places.interfaces)?;
    Ok(JoinedWords {
        captures: places.captures,
        verdicts,
        rules,
    })
}
