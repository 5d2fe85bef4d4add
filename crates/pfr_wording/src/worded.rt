//! The text of rules in words.
ghost use Rattle.std.specs.Prelude.{◌≡◌, IfOk, IfSome};
ghost use Rattle.pfr_wording.specs.Wording as spec;

use crate::again::{lines_of, meaning_of, translation_lines};
use crate::criteria::Wording;
use crate::same::have_same_rules;
use crate::translation::Target;
use pfr_conf::ConfErrorKind;
use pfr_ruleset::{FlatAnchor, FlatTranslation, Ruleset};
use pfr_words::Bytes;
use std::alloc::{AllocError, Global};

/// The rules of a ruleset in words.
#[derive(Drop)]
pub struct Worded {
    /// The text of a ruleset: a line for each table, each translation rule, each filter rule, and the beginning and the
    /// end of each anchor that stands round filter rules.
    pub text: Vec<u8>,
    /// For each filter rule, by its number, the line of the text on which it stands, from 1.
    pub filter: Vec<usize>,
    /// For each translation rule, by its number, the line of the text on which it stands, from 1.
    pub translations: Vec<usize>,
}

/// The blanks that indent a rule for each anchor round it.
const INDENT: &[u8] = b"  ";

/// Appends the definitions of tables without entries.
fn put_tables(text: &mut Vec<u8>, tables: &[Bytes<'_>]) -> Result<(), AllocError> {
    for name in tables {
        text.extend_from_slice(b"table <")?;
        text.extend_from_slice(name.as_slice())?;
        text.extend_from_slice(b"> persist\n")?;
    }
    Ok(())
}

/// Appends the first of these rules, if it has this number, and says whether it has.
fn put_translation<T: Target>(
    text: &mut Vec<u8>,
    wording: &Wording<'_>,
    rules: &mut &[FlatTranslation<T>],
    number: usize,
) -> Result<bool, AllocError> {
    match rules.split_first() {
        Some((rule, behind)) if rule.number == number => {
            wording.append_translation(text, rule)?;
            text.extend_from_slice(b"\n")?;
            *rules = behind;
            Ok(true)
        }
        _ => Ok(false),
    }
}

/// Appends the translation rules of all kinds, in the order of their numbers.
fn put_translations(
    text: &mut Vec<u8>,
    wording: &Wording<'_>,
    ruleset: &Ruleset,
) -> Result<(), AllocError> {
    let (_, count) = ruleset.counts();
    let mut nats = ruleset.translations.nats.as_slice();
    let mut rdrs = ruleset.translations.rdrs.as_slice();
    let mut binats = ruleset.translations.binats.as_slice();
    for number in 0..count as usize {
        if !put_translation(text, wording, &mut nats, number)?
            && !put_translation(text, wording, &mut rdrs, number)?
        {
            put_translation(text, wording, &mut binats, number)?;
        }
    }
    Ok(())
}

/// Begins a line inside `depth` anchors.
fn indent(text: &mut Vec<u8>, depth: usize) -> Result<(), AllocError> {
    for _ in 0..depth {
        text.extend_from_slice(INDENT)?;
    }
    Ok(())
}

/// Appends the beginnings of the anchors whose first rule is at a place, and notes their last ones.
fn begin_anchors(
    text: &mut Vec<u8>,
    wording: &Wording<'_>,
    anchors: &mut &[FlatAnchor],
    round: &mut Vec<usize>,
    place: usize,
) -> Result<(), AllocError> {
    'anchors: while let Some((anchor, behind)) = anchors.split_first() {
        if anchor.first != place {
            break 'anchors;
        }
        indent(text, round.len())?;
        wording.append_anchor(text, anchor)?;
        text.extend_from_slice(b"\n")?;
        round.push(anchor.last)?;
        *anchors = behind;
    }
    Ok(())
}

/// Appends the ends of the anchors whose last rule is at a place.
fn end_anchors(text: &mut Vec<u8>, round: &mut Vec<usize>, place: usize) -> Result<(), AllocError> {
    'anchors: while let Some(last) = round.last().copied() {
        if last != place {
            break 'anchors;
        }
        round.pop();
        indent(text, round.len())?;
        text.extend_from_slice(b"}\n")?;
    }
    Ok(())
}

/// Appends the filter rules, with the anchors round them.
fn put_filter(
    alloc: Global,
    text: &mut Vec<u8>,
    wording: &Wording<'_>,
    ruleset: &Ruleset,
) -> Result<(), AllocError> {
    let mut anchors = ruleset.filter.anchors();
    let mut round = Vec::new(alloc);
    for (place, rule) in ruleset.filter.rules().iter().enumerate() {
        begin_anchors(text, wording, &mut anchors, &mut round, place)?;
        indent(text, round.len())?;
        wording.append_rule(text, rule, ruleset.label_of(rule))?;
        text.extend_from_slice(b"\n")?;
        end_anchors(text, &mut round, place)?;
    }
    Ok(())
}

/// The text of a ruleset's rules.
fn text_of(alloc: Global, ruleset: &Ruleset, tables: &[Bytes<'_>]) -> Result<Vec<u8>, AllocError> {
    let wording = Wording { tables };
    let mut text = Vec::new(alloc);
    put_tables(&mut text, tables)?;
    put_translations(&mut text, &wording, ruleset)?;
    put_filter(alloc, &mut text, &wording, ruleset)?;
    Ok(text)
}

/// The lines on which the rules of a ruleset stand.
#[derive(Drop)]
struct Places {
    filter: Vec<usize>,
    translations: Vec<usize>,
}

/// The lines on which the rules of `again` stand, a ruleset that was read again, if it has the same rules as `first`.
fn places_in(alloc: Global, first: &Ruleset, again: &Ruleset) -> Result<Option<Places>, AllocError>
    ensures same { IfOk result (λ places. IfSome places (λ _. spec.HaveSameRules first.now again.now)) }
    ensures lines { IfOk result (λ places. IfSome places (λ places. places.filter.items ≡ spec.lines_of again.now)) }
{
    if !have_same_rules(alloc, first, again)? {
        return Ok(None);
    }
    let filter = lines_of(alloc, again.filter.rules())?;
    let translations = translation_lines(alloc, again)?;
    Ok(Some(Places {
        filter,
        translations,
    }))
}

/// The lines of a text on which a ruleset's rules stand, if it means a ruleset with the same rules.
fn places_of(alloc: Global, ruleset: &Ruleset, text: &[u8]) -> Result<Option<Places>, AllocError>
    ensures { IfOk result (λ places. IfSome places (λ places. spec.Tells ruleset.now text.now places.filter.items)) }
{
    match meaning_of(alloc, text, ruleset.interfaces.as_slice()) {
        Ok(again) => places_in(alloc, ruleset, &again),
        Err(ConfErrorKind::Memory) => Err(AllocError),
        Err(_) => Ok(None),
    }
}

/// The rules of a ruleset in words, with the names of the tables that its text defines, in their order: a text that
/// means a ruleset with the same rules, labels and anchors. The result is None if what was written doesn't mean that.
pub fn in_words(
    alloc: Global,
    ruleset: &Ruleset,
    tables: &[Bytes<'_>],
) -> Result<Option<Worded>, AllocError>
    ensures { IfOk result (λ worded. IfSome worded (λ worded. spec.Tells ruleset.now worded.text.items worded.filter.items)) }
{
    let text = text_of(alloc, ruleset, tables)?;
    match places_of(alloc, ruleset, text.as_slice())? {
        Some(
            Places {
                filter,
                translations,
            },
        ) => Ok(Some(Worded {
            text,
            filter,
            translations,
        })),
        None => Ok(None),
    }
}
