//! The words of the command line.
use crate::commands::command_line;
use crate::diff::{DiffWords, diff_words};
use crate::given::{given, given_as_json, given_interfaces, given_rules};
use crate::report::{ReportWords, report_words};
use crate::run::{RunWords, run_words};
use crate::show::{ShowWords, show_words};
use crate::table::CommandName;
use clap::ArgMatches;
use clap::error::ErrorKind;
use pfr_prepare::Request;
use pfr_values::{Peer, Refused, peer};
use std::alloc::{AllocError, Global};
use std::rt::Env;
use std::{env, io};

/// What the command line asks for.
#[derive(Drop)]
pub enum Asked<'a> {
    /// To replay a capture.
    Run(RunWords<'a>),
    /// To say how many rules a ruleset makes.
    Check(Request<'a>),
    /// To print a ruleset in the words of the strict reader.
    Adapt(Request<'a>),
    /// To print what a standby holds after the messages that stand here.
    Standby(Stream<'a>),
    /// To print the states that a run left.
    States(StatesWords<'a>),
    /// To print each rule of a ruleset.
    Rules(RulesWords<'a>),
    /// To say what another ruleset changes for the packets of a capture.
    Diff(DiffWords<'a>),
    /// To show packets with what a run wrote of them.
    Show(ShowWords<'a>),
    /// To print a page about packets with what a run wrote of them.
    Report(ReportWords<'a>),
    /// To print this text and no more.
    Text(String),
    /// Nothing: the words don't fit, as this line says.
    Usage(String),
}

/// Where the messages stand that a standby takes.
#[derive(Clone, Copy)]
pub enum Stream<'a> {
    /// In the file of this name.
    File(&'a str),
    /// In what the first one sends who connects to this address.
    Listen(Peer<'a>),
}

/// What the words behind `states` say.
#[derive(Clone, Copy)]
pub struct StatesWords<'a> {
    /// The file with the states of a run.
    pub name: &'a str,
    /// Whether they are printed as JSON.
    pub as_json: bool,
}

/// What the words behind `rules` say.
#[derive(Drop)]
pub struct RulesWords<'a> {
    /// The ruleset, and the interfaces that it is for.
    pub rules: Request<'a>,
    /// The file with the counters of a run, if they are to be printed too.
    pub counters: Option<&'a str>,
    /// Whether the rules are printed as JSON.
    pub as_json: bool,
}

/// The words that the process was started with, the program's name first.
pub fn of_process<'a, R: Env + AllocGlobal>(rt: &R) -> Result<Vec<String>, Refused<'a>> {
    match env::args(rt) {
        Ok(words) => Ok(words.collect(rt.alloc())?),
        Err(error) => match error.kind() {
            io::ErrorKind::OutOfMemory => Err(Refused::from(AllocError)),
            _ => Err(Refused::NoWords),
        },
    }
}

/// Reads the words of a command line, the program's name first.
pub fn parse<'a>(alloc: Global, words: &'a [String]) -> Result<Asked<'a>, Refused<'a>> {
    match command_line(alloc)?.try_get_matches_from(words) {
        Ok(matches) => asked_by(alloc, &matches),
        Err(error) => refused(alloc, &error),
    }
}

/// What the words of a command ask for.
fn asked_by<'a>(alloc: Global, matches: &ArgMatches<'a>) -> Result<Asked<'a>, Refused<'a>> {
    let Some((name, matches)) = matches.subcommand() else {
        return Err(Refused::MissingWord("COMMAND"));
    };
    let Some(command) = CommandName::of(name) else {
        return Err(Refused::MissingWord("COMMAND"));
    };
    match command {
        CommandName::Run => run_words(alloc, matches),
        CommandName::Check => check_words(alloc, matches),
        CommandName::Adapt => adapt_words(alloc, matches),
        CommandName::Standby => standby_words(matches),
        CommandName::States => states_words(matches),
        CommandName::Rules => rules_words(alloc, matches),
        CommandName::Diff => diff_words(alloc, matches),
        CommandName::Show => show_words(alloc, matches),
        CommandName::Report => report_words(alloc, matches),
    }
}

/// What words come to that are no command: a text if they ask for one, and else what is wrong with them.
fn refused<'a>(alloc: Global, error: &clap::Error) -> Result<Asked<'a>, Refused<'a>> {
    match error.kind() {
        ErrorKind::OutOfMemory => Err(Refused::from(AllocError)),
        ErrorKind::DisplayHelp | ErrorKind::DisplayVersion => {
            Ok(Asked::Text(error.to_string(alloc)?))
        }
        _ => Ok(Asked::Usage(one_line(alloc, error)?)),
    }
}

/// What the words behind `check` ask for.
fn check_words<'a>(alloc: Global, matches: &ArgMatches<'a>) -> Result<Asked<'a>, Refused<'a>> {
    let adapts = matches.get_flag("adapt");
    let interfaces = given_interfaces(alloc, matches)?;
    Ok(Asked::Check(given_rules(alloc, matches, "RULES", adapts, interfaces)?))
}

/// What the words behind `adapt` ask for.
fn adapt_words<'a>(alloc: Global, matches: &ArgMatches<'a>) -> Result<Asked<'a>, Refused<'a>> {
    let interfaces = given_interfaces(alloc, matches)?;
    Ok(Asked::Adapt(given_rules(alloc, matches, "RULES", true, interfaces)?))
}

/// What the words behind `standby` ask for. One of the two flags has to be there, and at most one is.
fn standby_words<'a>(matches: &ArgMatches<'a>) -> Result<Asked<'a>, Refused<'a>> {
    if let Some(name) = matches.get_str("messages") {
        return Ok(Asked::Standby(Stream::File(name)));
    }
    match matches.get_str("listen") {
        Some(word) => Ok(Asked::Standby(Stream::Listen(peer("--listen", word)?))),
        None => Err(Refused::MissingWord("--messages or --listen")),
    }
}

/// What the words behind `states` ask for.
fn states_words<'a>(matches: &ArgMatches<'a>) -> Result<Asked<'a>, Refused<'a>> {
    Ok(Asked::States(StatesWords {
        name: given(matches, "STATES")?,
        as_json: matches.get_flag("json"),
    }))
}

/// What the words behind `rules` ask for.
fn rules_words<'a>(alloc: Global, matches: &ArgMatches<'a>) -> Result<Asked<'a>, Refused<'a>> {
    let adapts = matches.get_flag("adapt");
    let as_json = given_as_json(matches)?;
    let interfaces = given_interfaces(alloc, matches)?;
    Ok(Asked::Rules(RulesWords {
        rules: given_rules(alloc, matches, "RULES", adapts, interfaces)?,
        counters: matches.get_str("counters"),
        as_json,
    }))
}

/// What is wrong with the words, in one line: the text up to its first empty line.
fn one_line(alloc: Global, error: &clap::Error) -> Result<String, AllocError> {
    let text = error.to_string(alloc)?;
    let text = text.as_str();
    let text = text.strip_prefix("error: ").unwrap_or(text);
    let mut message = String::new(alloc);
    for line in text.lines() {
        let line = line.trim();
        if line.is_empty() {
            break;
        }
        if !message.is_empty() {
            message.push(' ')?;
        }
        message.push_str(line)?;
    }
    Ok(message)
}
