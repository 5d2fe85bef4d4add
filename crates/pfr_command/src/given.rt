//! What words say that several commands have.
ghost use Rattle.std.specs.Prelude.{◌≡◌, IfOk};
ghost use Rattle.pfr_values.specs.Places.{ArePlaces};

use crate::around::given_flags;
use clap::ArgMatches;
use pfr_items::Items;
use pfr_prepare::Request;
use pfr_ruleset::Interface;
use pfr_values::{AlsoForm, CaptureWords, Places, Refused, interface, places_of, seed};
use std::alloc::Global;

/// The word for this place or flag, which the command needs.
pub(crate) fn given<'a>(matches: &ArgMatches<'a>, name: &'a str) -> Result<&'a str, Refused<'a>> {
    matches.get_str(name).ok_or(Refused::MissingWord(name))
}

/// The seed that the words say, or zeros.
pub(crate) fn given_seed<'a>(matches: &ArgMatches<'a>) -> Result<[u8; 32], Refused<'a>> {
    match matches.get_str("seed") {
        Some(digits) => seed(digits),
        None => Ok([0; 32]),
    }
}

/// The file with the ruleset, which is the word for a place, its interfaces and what else its text can't say.
pub(crate) fn given_rules<'a>(
    alloc: Global,
    matches: &ArgMatches<'a>,
    place: &'a str,
    adapts: bool,
    interfaces: Items<Interface>,
) -> Result<Request<'a>, Refused<'a>>
    ensures { IfOk result (λ rules. rules.interfaces ≡ interfaces) }
{
    let name = given(matches, place)?;
    let flags = given_flags(alloc, matches)?;
    Ok(Request {
        name,
        adapts,
        interfaces,
        flags,
    })
}

/// The interfaces that the words say, by their places.
pub(crate) fn given_interfaces<'a>(
    alloc: Global,
    matches: &ArgMatches<'a>,
) -> Result<Items<Interface>, Refused<'a>> {
    let name = given(matches, "interface")?;
    let words = CaptureWords {
        interface: name,
        capture: "",
        packets: "",
    };
    let first = interface(name, given(matches, "address")?)?;
    Ok(places_of(alloc, first, words, AlsoForm::Named, matches)?.interfaces)
}

/// The interfaces that the words say, and the captures of each.
pub(crate) fn given_captures<'a>(
    alloc: Global,
    matches: &ArgMatches<'a>,
) -> Result<Places<'a>, Refused<'a>>
    ensures { IfOk result (λ places. ArePlaces places.interfaces places.captures) }
{
    let name = given(matches, "interface")?;
    let words = CaptureWords {
        interface: name,
        capture: given(matches, "CAPTURE")?,
        packets: "",
    };
    let first = interface(name, given(matches, "address")?)?;
    places_of(alloc, first, words, AlsoForm::Compared, matches)
}

/// The form of the value behind `--format`, but for `show`.
pub(crate) const TEXT_OR_JSON: &str = "text|json";

/// Whether a word asks for JSON, and not for text.
fn is_json<'a>(word: &'a str) -> Result<bool, Refused<'a>> {
    match word {
        "text" => Ok(false),
        "json" => Ok(true),
        _ => Err(Refused::BadValue {
            flag: "--format",
            form: TEXT_OR_JSON,
            word,
        }),
    }
}

/// Whether the words ask for JSON.
pub(crate) fn given_as_json<'a>(matches: &ArgMatches<'a>) -> Result<bool, Refused<'a>> {
    match matches.get_str("format") {
        Some(word) => is_json(word),
        None => Ok(false),
    }
}
