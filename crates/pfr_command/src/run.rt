//! What the words behind `run` say.
ghost use Rattle.std.specs.Prelude.{◌≡◌, ◌≤◌, IfOk, length};
ghost use Rattle.std.proofs.Props.{props};
ghost use Rattle.pfr_values.specs.Places.{ArePlaces};

use crate::given::{given, given_rules, given_seed};
use crate::words::Asked;
use clap::ArgMatches;
use pfr_items::Items;
use pfr_prepare::Request;
use pfr_values::{
    AlsoForm, CaptureWords, Peer, Places, Refused, Ways, batch, given_ways, interface, peer,
    places_of, workers,
};
use std::alloc::Global;

/// What the words behind `run` say: which captures are replayed through which ruleset, and how.
#[derive(Drop)]
pub struct RunWords<'a> {
    /// The interfaces of the run and the files of each, by their places.
    pub captures: Items<CaptureWords<'a>>,
    /// The ruleset, and the interfaces that it is for.
    pub rules: Request<'a>,
    /// Which way packets go.
    pub ways: Ways,
    /// What random choices begin with.
    pub seed: [u8; 32],
    /// How many packets are taken and written at a time, 1 to 4096.
    pub batch: usize,
    /// How many workers evaluate them ahead, 0 to 64.
    pub workers: u64,
    /// The files that are written, and where the messages go.
    pub outputs: OutputNames<'a>,
    /// Whether the words ask for warnings.
    pub warns: bool,
    /// Whether it is said how far the run has come.
    pub progresses: bool,
    pub ghost one_each: { length ways.link_addresses ≡ length captures },
    pub ghost are_places: { ArePlaces rules.interfaces captures } by { Prim.hlevel props },
    pub ghost batch_within: { (1 ≤ batch) × (batch ≤ 4096) },
    pub ghost workers_within: { workers ≤ 64 },
}

/// How many packets are taken and written at a time if the words don't say.
const BATCH: usize = 256;

/// How many workers evaluate packets ahead if the words don't say. If they don't pay, they rest.
const WORKERS: u64 = 4;

/// The files that a run writes beside the packets of its interfaces, and where its messages go.
#[derive(Clone, Copy)]
pub struct OutputNames<'a> {
    /// The file for a line on each packet.
    pub verdicts: &'a str,
    /// The file for the counters of the rules.
    pub counters: &'a str,
    /// The file for the states at the end.
    pub states: &'a str,
    /// Where the messages to a standby go.
    pub messages: Messages<'a>,
}

/// Where the messages to a standby go.
#[derive(Clone, Copy)]
pub enum Messages<'a> {
    /// Into the file of this name.
    File(&'a str),
    /// To this peer.
    Peer(Peer<'a>),
    /// None are written.
    Nowhere,
}

/// What the words behind `run` ask for.
pub(crate) fn run_words<'a>(
    alloc: Global,
    matches: &ArgMatches<'a>,
) -> Result<Asked<'a>, Refused<'a>> {
    let outputs = given_outputs(matches)?;
    let seed = given_seed(matches)?;
    let batch = given_batch(matches)?;
    let workers = given_workers(matches)?;
    let places = given_places(alloc, matches)?;
    let ways = given_ways(alloc, matches, places.captures.as_slice())?;
    let rules = given_rules(
        alloc,
        matches,
        "RULES",
        matches.get_flag("adapt"),
        places.interfaces,
    )?;
    Ok(Asked::Run(RunWords {
        captures: places.captures,
        rules,
        ways,
        seed,
        batch,
        workers,
        outputs,
        warns: matches.get_flag("warn"),
        progresses: matches.get_flag("progress"),
    }))
}

/// The interfaces that the words say, and the files of each.
fn given_places<'a>(alloc: Global, matches: &ArgMatches<'a>) -> Result<Places<'a>, Refused<'a>>
    ensures { IfOk result (λ places. ArePlaces places.interfaces places.captures) }
{
    let name = given(matches, "interface")?;
    let words = CaptureWords {
        interface: name,
        capture: given(matches, "CAPTURE")?,
        packets: given(matches, "packets")?,
    };
    let first = interface(name, given(matches, "address")?)?;
    places_of(alloc, first, words, AlsoForm::Replayed, matches)
}

/// The files that the words name for the outputs, and where they send the messages.
fn given_outputs<'a>(matches: &ArgMatches<'a>) -> Result<OutputNames<'a>, Refused<'a>> {
    Ok(OutputNames {
        verdicts: given(matches, "verdicts")?,
        counters: given(matches, "counters")?,
        states: given(matches, "states")?,
        messages: given_messages(matches)?,
    })
}

/// Where the words send the messages. At most one of the two flags is there.
fn given_messages<'a>(matches: &ArgMatches<'a>) -> Result<Messages<'a>, Refused<'a>> {
    if let Some(name) = matches.get_str("messages") {
        return Ok(Messages::File(name));
    }
    match matches.get_str("peer") {
        Some(word) => Ok(Messages::Peer(peer("--peer", word)?)),
        None => Ok(Messages::Nowhere),
    }
}

/// How many packets the words say are taken and written at a time, or the default.
fn given_batch<'a>(matches: &ArgMatches<'a>) -> Result<usize, Refused<'a>>
    ensures { IfOk result (λ batch. (1 ≤ batch) × (batch ≤ 4096)) }
{
    match matches.get_str("batch") {
        Some(word) => batch(word),
        None => Ok(BATCH),
    }
}

/// How many workers the words say, or the default.
fn given_workers<'a>(matches: &ArgMatches<'a>) -> Result<u64, Refused<'a>>
    ensures { IfOk result (λ workers. workers ≤ 64) }
{
    match matches.get_str("workers") {
        Some(word) => workers(word),
        None => Ok(WORKERS),
    }
}
