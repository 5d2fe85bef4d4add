//! What `pfreplay rules` does, and the rules of a ruleset for the other commands.
use crate::rules_json::print_objects;
use pfr_command::RulesWords;
use pfr_expand::ruleset_of;
use pfr_files::{Failure, Place, REFUSED, opened, print, text_of, text_refused};
use pfr_listing::{Refused, counters_in};
use pfr_prepare::{Prepared, Request, prepared_text};
use pfr_ruleset::Ruleset;
use pfr_shadows::{Shadow, shadows};
use pfr_wording::{RuleCounts, Rules, Said, Untold};
use std::alloc::Global;
use std::io::Write;
use std::rt::Files;

/// Prints each rule of a ruleset, and answers the status.
pub fn tell_rules<'a, R: Files + AllocGlobal, O: Write, E: Write>(
    rt: &R,
    asked: &RulesWords<'a>,
    out: &mut O,
    err: &mut E,
) -> Result<u8, Failure<'a>> {
    let text = prepared_text(rt, &asked.rules, err)?;
    let told = told_in(rt.alloc(), &asked.rules, &text, err);
    drop(text);
    let told = told?;
    let ended = print_told(rt, asked, &told, out);
    drop(told);
    ended
}

/// Prints rules with what a run counted of them, if a file of counters is named.
fn print_told<'a, R: Files + AllocGlobal, O: Write>(
    rt: &R,
    asked: &RulesWords<'a>,
    told: &Told,
    out: &mut O,
) -> Result<u8, Failure<'a>> {
    let counts = counts_of(rt, asked.counters, &told.rules)?;
    print_counted(
        rt.alloc(),
        told,
        counts.as_ref(),
        told.shadows.as_slice(),
        asked.as_json,
        out,
    )
}

/// Prints rules, with what a run counted of them, if that is known, and by which others they are shadowed.
fn print_counted<'a, 's, O: Write>(
    alloc: Global,
    told: &Told,
    counts: Option<&'s RuleCounts>,
    shadows: &'s [Shadow],
    as_json: bool,
    out: &mut O,
) -> Result<u8, Failure<'a>> {
    let said = Said { counts, shadows };
    if as_json {
        print_as_json(alloc, told, said, out)
    } else {
        print_rules(alloc, &told.rules, said, out)
    }
}

/// Prints rules as JSON, with what is said of them.
fn print_as_json<'a, O: Write>(
    alloc: Global,
    told: &Told,
    said: Said<'_>,
    out: &mut O,
) -> Result<u8, Failure<'a>> {
    let rules = told.rules.told(alloc)?;
    let ended = print_objects(alloc, out, &rules, told.ruleset.filter.anchors(), said);
    drop(rules);
    ended
}

/// A ruleset, its rules as they are told, and those that are shadowed.
#[derive(Drop)]
pub(crate) struct Told {
    pub(crate) ruleset: Ruleset,
    pub(crate) rules: Rules,
    pub(crate) shadows: Vec<Shadow>,
}

/// The rules of a ruleset's text, and those that are shadowed. A fault of the text is said to `err`.
pub(crate) fn told_in<'a, E: Write>(
    alloc: Global,
    request: &Request<'_>,
    text: &Prepared,
    err: &mut E,
) -> Result<Told, Failure<'a>> {
    match ruleset_of(alloc, text.text.as_slice(), request.interfaces.as_slice()) {
        Ok(ruleset) => told_of(alloc, text, ruleset),
        Err(fault) => Err(text_refused(None, text, &fault, err)),
    }
}

/// What is told of a ruleset that this text means.
fn told_of<'a>(alloc: Global, text: &Prepared, ruleset: Ruleset) -> Result<Told, Failure<'a>> {
    match rules_and_shadows(alloc, text, &ruleset) {
        Ok((rules, shadows)) => Ok(Told {
            ruleset,
            rules,
            shadows,
        }),
        Err(failure) => {
            drop(ruleset);
            Err(failure)
        }
    }
}

/// The rules of a ruleset that this text means, and those that are shadowed.
fn rules_and_shadows<'a>(
    alloc: Global,
    text: &Prepared,
    ruleset: &Ruleset,
) -> Result<(Rules, Vec<Shadow>), Failure<'a>> {
    let shadows = shadows(alloc, ruleset)?;
    let rules = rules_of(alloc, text, ruleset)?;
    Ok((rules, shadows))
}

/// The rules of a ruleset's text. A fault of the text is said to `err`.
pub(crate) fn rules_in<'a, E: Write>(
    alloc: Global,
    request: &Request<'_>,
    text: &Prepared,
    err: &mut E,
) -> Result<Rules, Failure<'a>> {
    match ruleset_of(alloc, text.text.as_slice(), request.interfaces.as_slice()) {
        Ok(ruleset) => rules_of(alloc, text, &ruleset),
        Err(fault) => Err(text_refused(None, text, &fault, err)),
    }
}

/// The rules of a ruleset that this text means.
pub(crate) fn rules_of<'a>(
    alloc: Global,
    text: &Prepared,
    ruleset: &Ruleset,
) -> Result<Rules, Failure<'a>> {
    match Rules::of(alloc, text, ruleset) {
        Ok(rules) => Ok(rules),
        Err(why) => Err(untold(why)),
    }
}

/// What is said of rules that aren't told.
fn untold<'a>(why: Untold) -> Failure<'a> {
    match why {
        Untold::OtherRules => Failure::new(
            REFUSED,
            Place::Whole,
            "rules not told: please report this ruleset",
        ),
        Untold::Memory => Failure::no_memory(),
    }
}

/// What a run counted of these rules, if a file of counters is named.
fn counts_of<'a, R: Files + AllocGlobal>(
    rt: &R,
    name: Option<&'a str>,
    rules: &Rules,
) -> Result<Option<RuleCounts>, Failure<'a>> {
    match name {
        Some(name) => Ok(Some(counts_in(rt, name, rules)?)),
        None => Ok(None),
    }
}

/// What a run counted of these rules, by its file of counters.
fn counts_in<'a, R: Files + AllocGlobal>(
    rt: &R,
    name: &'a str,
    rules: &Rules,
) -> Result<RuleCounts, Failure<'a>> {
    let text = text_of(rt.alloc(), name, opened(rt, name)?)?;
    let (filter, translations) = rules.counts();
    match counters_in(rt.alloc(), text.as_slice(), filter, translations) {
        Ok(counts) => Ok(counts),
        Err(refused) => Err(counters_refused(refused)),
    }
}

/// What is said of a file that isn't one of these rules' counters.
fn counters_refused<'a>(refused: Refused) -> Failure<'a> {
    match refused {
        Refused::Line(number) => Failure::new(
            REFUSED,
            Place::Number("counters line", number),
            "not of this ruleset",
        ),
        Refused::Memory => Failure::no_memory(),
    }
}

/// Prints rules, with what is said of them.
fn print_rules<'a, O: Write>(
    alloc: Global,
    rules: &Rules,
    said: Said<'_>,
    out: &mut O,
) -> Result<u8, Failure<'a>> {
    let mut text = Vec::new(alloc);
    rules.append(alloc, &mut text, said)?;
    print(out, text.as_slice())
}
