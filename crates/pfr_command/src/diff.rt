//! What the words behind `diff` say.
ghost use Rattle.std.specs.Prelude.{◌≡◌, IfOk, length};
ghost use Rattle.std.proofs.Props.{props};
ghost use Rattle.pfr_values.specs.Places.{ArePlaces};

use crate::given::{given_as_json, given_captures, given_rules, given_seed};
use crate::words::Asked;
use clap::ArgMatches;
use pfr_items::Items;
use pfr_prepare::Request;
use pfr_ruleset::Interface;
use pfr_values::{CaptureWords, Places, Refused, Ways, given_ways};
use std::alloc::Global;

/// What the words behind `diff` say: which captures are replayed through which two rulesets, and how.
#[derive(Drop)]
pub struct DiffWords<'a> {
    /// The interfaces and the captures of each, by their places. There are no files for packets.
    pub captures: Items<CaptureWords<'a>>,
    /// The old ruleset, and the interfaces that it is for.
    pub old: Request<'a>,
    /// The new one.
    pub new: Request<'a>,
    /// Which way packets go.
    pub ways: Ways,
    /// What random choices begin with.
    pub seed: [u8; 32],
    /// Whether another verdict alone is a change.
    pub verdicts_alone: bool,
    /// Whether the answer is JSON.
    pub as_json: bool,
    /// Whether it is said what may mean that rulesets, captures and flags don't fit.
    pub warns: bool,
    /// Whether it is said how far the command has come.
    pub progresses: bool,
    pub ghost one_each: { length ways.link_addresses ≡ length captures },
    pub ghost are_places: { ArePlaces old.interfaces captures } by { Prim.hlevel props },
    pub ghost same_interfaces: { new.interfaces ≡ old.interfaces } by { Prim.hlevel props },
}

/// What the words behind `diff` ask for.
pub(crate) fn diff_words<'a>(
    alloc: Global,
    matches: &ArgMatches<'a>,
) -> Result<Asked<'a>, Refused<'a>> {
    let seed = given_seed(matches)?;
    let as_json = given_as_json(matches)?;
    let places = given_captures(alloc, matches)?;
    match given_ways(alloc, matches, places.captures.as_slice()) {
        Ok(ways) => with_ways(alloc, matches, seed, as_json, places, ways),
        Err(refused) => {
            drop(places);
            Err(refused)
        }
    }
}

/// What they ask for with these places and these ways.
fn with_ways<'a>(
    alloc: Global,
    matches: &ArgMatches<'a>,
    seed: [u8; 32],
    as_json: bool,
    places: Places<'a>,
    ways: Ways,
) -> Result<Asked<'a>, Refused<'a>>
    requires places { ArePlaces places.interfaces places.captures }
    requires ways { length ways.link_addresses ≡ length places.captures }
{
    match both_rules(alloc, matches, places.interfaces) {
        Ok(both) => Ok(Asked::Diff(DiffWords {
            captures: places.captures,
            old: both.old,
            new: both.new,
            ways,
            seed,
            verdicts_alone: matches.get_flag("verdicts"),
            as_json,
            warns: !matches.get_flag("quiet"),
            progresses: matches.get_flag("progress"),
        })),
        Err(refused) => {
            drop(ways);
            Err(refused)
        }
    }
}

/// The rulesets that are compared.
#[derive(Drop)]
struct Both<'a> {
    old: Request<'a>,
    new: Request<'a>,
}

/// The rulesets that the words name, for these interfaces.
fn both_rules<'a>(
    alloc: Global,
    matches: &ArgMatches<'a>,
    interfaces: Items<Interface>,
) -> Result<Both<'a>, Refused<'a>>
    ensures old { IfOk result (λ both. both.old.interfaces ≡ interfaces) }
    ensures new { IfOk result (λ both. both.new.interfaces ≡ interfaces) }
{
    let adapts = matches.get_flag("adapt");
    let others = Items::copied(alloc, interfaces.as_slice())?;
    let new = given_rules(alloc, matches, "NEW", adapts, others)?;
    match given_rules(alloc, matches, "OLD", adapts, interfaces) {
        Ok(old) => Ok(Both { old, new }),
        Err(refused) => {
            drop(new);
            Err(refused)
        }
    }
}
