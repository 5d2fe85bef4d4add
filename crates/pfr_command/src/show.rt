//! What the words behind `show` say.
ghost use Rattle.std.specs.Prelude.{◌≡◌, ◌==◌, IfOk, map};
ghost use Rattle.std.specs.List.{list_all, slice_split};
ghost use Rattle.std.specs.Result.{result_ok};
ghost use Rattle.pfr_net.specs.Networks.{net_of};
ghost use Rattle.pfr_net.specs.Notation.{number};
ghost use Rattle.pfr_terms.specs.Ports.{port_word};
ghost use Rattle.pfr_words.specs.Names.{protocol_named};
ghost use Rattle.pfr_command.specs.Shows as spec;

use crate::joined::{JoinedWords, joined_words};
use crate::words::Asked;
use clap::ArgMatches;
use pfr_net::{Net, Port, Protocol, notation};
use pfr_show::{Form, Selection, Verdicts};
use pfr_terms::port::{PortWord, port_word};
use pfr_values::{Refused, parts_of};
use pfr_words::names::protocol_named;
use std::alloc::Global;

/// The form of the value behind `--only`.
pub(crate) const VERDICTS: &str = "VERDICTS";
/// The form of the value behind `--rule` and `--line`.
pub(crate) const NUMBER: &str = "N";
/// The form of the value behind `--host`.
pub(crate) const HOST: &str = "A.B.C.D[/BITS]";
/// The form of the value behind `--port`.
pub(crate) const PORT: &str = "PORT";
/// The form of the value behind `--proto`.
pub(crate) const PROTO: &str = "PROTO";
/// The form of the value behind `--format`.
pub(crate) const FORMAT: &str = "text|json|pflog";

/// What the words behind `show` say: which packets are shown, and how.
#[derive(Drop)]
pub struct ShowWords<'a> {
    pub joined: JoinedWords<'a>,
    pub selection: Selection,
    pub form: Form,
}

/// Whether one of some words is this one.
fn has(words: &[&str], word: &str) -> bool
    ensures { result ≡ spec.has (map (λ w. w.now) words.now) word.now }
{
    for other in words {
        if *other == word {
            return true;
        }
    }
    false
}

/// Whether a word is one for a verdict.
fn is_verdict(word: &str) -> bool
    ensures { result ≡ spec.is_verdict word.now }
{
    has(&["pass", "block", "return", "skip"], word)
}

/// Whether all of some words are words for verdicts.
fn are_verdicts(words: &[&str]) -> bool
    ensures { result ≡ list_all spec.is_verdict (map (λ w. w.now) words.now) }
{
    for word in words {
        if !is_verdict(word) {
            return false;
        }
    }
    true
}

/// The verdicts that a word lists, separated by commas.
fn verdicts_in<'a>(alloc: Global, word: &'a str) -> Result<Verdicts, Refused<'a>>
    ensures { IfOk result (spec.Lists (slice_split (λ b. b == 44) word.entry.now)) }
{
    let parts = parts_of(alloc, word)?;
    let parts = parts.as_slice();
    if !are_verdicts(parts) {
        return Err(Refused::BadValue {
            flag: "--only",
            form: VERDICTS,
            word,
        });
    }
    Ok(Verdicts {
        pass: has(parts, "pass"),
        block: has(parts, "block"),
        returned: has(parts, "return"),
        skip: has(parts, "skip"),
    })
}

/// The number behind a flag, in decimal digits.
fn count<'a>(flag: &'a str, word: &'a str) -> Result<u64, Refused<'a>>
    ensures { result_ok result ≡ number word.entry.now }
{
    notation::number(word.as_bytes()).ok_or(Refused::BadValue {
        flag,
        form: NUMBER,
        word,
    })
}

/// The network of the addresses that a word says, or a single address.
fn host<'a>(word: &'a str) -> Result<Net, Refused<'a>>
    ensures { result_ok result ≡ net_of word.entry.now }
{
    Net::parse(word.as_bytes()).ok_or(Refused::BadValue {
        flag: "--host",
        form: HOST,
        word,
    })
}

/// The port that a word says, by the name of a service or as a number.
fn port<'a>(word: &'a str) -> Result<Port, Refused<'a>>
    ensures { result_ok result ≡ spec.port_of (port_word word.entry.now) }
{
    match port_word(word.as_bytes()) {
        PortWord::Port(number) => Ok(Port(number)),
        PortWord::OutOfRange | PortWord::Unknown => Err(Refused::BadValue {
            flag: "--port",
            form: PORT,
            word,
        }),
    }
}

/// The number of the protocol that a word says, by its name or as a number.
fn protocol_number(word: &[u8]) -> Option<u8>
    ensures { result ≡ spec.protocol_number (protocol_named word.now) (number word.now) }
{
    match protocol_named(word) {
        Some(named) => Some(named),
        None => match notation::number(word) {
            Some(number) if number <= 255 => Some(number as u8),
            _ => None,
        },
    }
}

/// The protocol that a word says.
fn protocol<'a>(word: &'a str) -> Result<Protocol, Refused<'a>>
    ensures { result_ok result ≡ spec.protocol_of (spec.protocol_number (protocol_named word.entry.now) (number word.entry.now)) }
{
    match protocol_number(word.as_bytes()) {
        Some(number) => Ok(Protocol(number)),
        None => Err(Refused::BadValue {
            flag: "--proto",
            form: PROTO,
            word,
        }),
    }
}

/// The form for a word.
fn form<'a>(word: &'a str) -> Result<Form, Refused<'a>>
    ensures { result_ok result ≡ spec.form_of word.entry.now }
{
    match word {
        "text" => Ok(Form::Text),
        "json" => Ok(Form::Json),
        "pflog" => Ok(Form::Pflog),
        _ => Err(Refused::BadValue {
            flag: "--format",
            form: FORMAT,
            word,
        }),
    }
}

/// What the words behind `show` ask for.
pub(crate) fn show_words<'a>(
    alloc: Global,
    matches: &ArgMatches<'a>,
) -> Result<Asked<'a>, Refused<'a>> {
    let selection = given_selection(alloc, matches)?;
    let form = given_form(matches)?;
    Ok(Asked::Show(ShowWords {
        joined: joined_words(alloc, matches)?,
        selection,
        form,
    }))
}

/// Which packets the words ask for.
fn given_selection<'a>(alloc: Global, matches: &ArgMatches<'a>) -> Result<Selection, Refused<'a>> {
    let verdicts = match matches.get_str("only") {
        Some(word) => Some(verdicts_in(alloc, word)?),
        None => None,
    };
    let host = match matches.get_str("host") {
        Some(word) => Some(host(word)?),
        None => None,
    };
    let port = match matches.get_str("port") {
        Some(word) => Some(port(word)?),
        None => None,
    };
    let protocol = match matches.get_str("proto") {
        Some(word) => Some(protocol(word)?),
        None => None,
    };
    Ok(Selection {
        verdicts,
        rule: given_count(matches, "rule", "--rule")?,
        line: given_count(matches, "line", "--line")?,
        host,
        port,
        protocol,
        logged: matches.get_flag("logged"),
    })
}

/// The number behind a flag, if it is given.
fn given_count<'a>(
    matches: &ArgMatches<'a>,
    name: &'a str,
    flag: &'a str,
) -> Result<Option<u64>, Refused<'a>> {
    match matches.get_str(name) {
        Some(word) => Ok(Some(count(flag, word)?)),
        None => Ok(None),
    }
}

/// How the words ask for packets to be shown. At most one of the two flags is there.
fn given_form<'a>(matches: &ArgMatches<'a>) -> Result<Form, Refused<'a>> {
    if matches.get_flag("count") {
        return Ok(Form::Count);
    }
    match matches.get_str("format") {
        Some(word) => form(word),
        None => Ok(Form::Text),
    }
}
