//! The rules of a ruleset as JSON, an object on each line.
use pfr_files::{Failure, print, print_piece};
use pfr_listing::{put_count, put_option, put_string};
use pfr_ruleset::FlatAnchor;
use pfr_shadows::Shadow;
use pfr_wording::{Counted, RuleTold, RulesTold, Said, counted_at, shadow_at};
use std::alloc::{AllocError, Global};
use std::io::Write;

/// What is said of a rule beside its words.
#[derive(Clone, Copy)]
struct Remarks<'a> {
    /// What a run counted of it.
    counted: Option<&'a Counted>,
    /// The number of the filter rule by which it is shadowed.
    by: Option<usize>,
}

/// The number of a rule, if there is one.
fn number_of(rule: Option<usize>) -> Option<u64> {
    match rule {
        Some(number) => Some(number as u64),
        None => None,
    }
}

/// Appends `lead` and a string.
fn put_text(text: &mut Vec<u8>, lead: &[u8], words: &[u8]) -> Result<(), AllocError> {
    text.extend_from_slice(lead)?;
    put_string(text, words)
}

/// Appends what a run counted of a rule, or nulls.
fn put_counted(text: &mut Vec<u8>, counted: Option<&Counted>) -> Result<(), AllocError> {
    let (evaluations, packets, bytes) = match counted {
        Some(counted) => (
            Some(counted.evaluations),
            Some(counted.packets),
            Some(counted.bytes),
        ),
        None => (None, None, None),
    };
    put_option(text, b",\"evaluations\":", evaluations)?;
    put_option(text, b",\"packets\":", packets)?;
    put_option(text, b",\"bytes\":", bytes)
}

/// Appends the object of a rule of a kind, by its number.
fn put_rule(
    text: &mut Vec<u8>,
    room: &mut Vec<u8>,
    kind: &[u8],
    number: usize,
    rule: &RuleTold<'_>,
    remarks: Remarks<'_>,
) -> Result<(), AllocError> {
    put_text(text, b"{\"kind\":", kind)?;
    put_count(text, b",\"number\":", number as u64)?;
    put_count(text, b",\"line\":", rule.line as u64)?;
    room.clear();
    rule.append(room)?;
    put_text(text, b",\"rule\":", room.as_slice())?;
    put_counted(text, remarks.counted)?;
    put_option(text, b",\"shadowed_by\":", number_of(remarks.by))?;
    text.extend_from_slice(b"}\n")
}

/// Appends the object of an anchor.
fn put_anchor(text: &mut Vec<u8>, words: &[u8], anchor: &FlatAnchor) -> Result<(), AllocError> {
    put_text(text, b"{\"kind\":\"anchor\",\"anchor\":", words)?;
    put_count(text, b",\"first\":", anchor.first as u64)?;
    put_count(text, b",\"last\":", anchor.last as u64)?;
    text.extend_from_slice(b"}\n")
}

/// Prints the translation rules.
fn print_translations<'a, O: Write>(
    out: &mut O,
    text: &mut Vec<u8>,
    room: &mut Vec<u8>,
    told: &RulesTold<'_>,
    counts: Option<&[Counted]>,
) -> Result<(), Failure<'a>> {
    for (number, rule) in told.translations.as_slice().iter().enumerate() {
        let remarks = Remarks {
            counted: counted_at(counts, number),
            by: None,
        };
        put_rule(text, room, rule.kind(), number, rule, remarks)?;
        print_piece(out, text)?;
    }
    Ok(())
}

/// Prints the anchors, each with the words before its bracket.
fn print_anchors<'a, O: Write>(
    out: &mut O,
    text: &mut Vec<u8>,
    told: &RulesTold<'_>,
    anchors: &[FlatAnchor],
) -> Result<(), Failure<'a>> {
    for (words, anchor) in told.anchors.as_slice().iter().zip(anchors) {
        let words = words.strip_suffix(b" {".as_slice()).unwrap_or(words);
        put_anchor(text, words, anchor)?;
        print_piece(out, text)?;
    }
    Ok(())
}

/// Prints the filter rules.
fn print_filter<'a, O: Write>(
    out: &mut O,
    text: &mut Vec<u8>,
    room: &mut Vec<u8>,
    told: &RulesTold<'_>,
    counts: Option<&[Counted]>,
    shadows: &[Shadow],
) -> Result<(), Failure<'a>> {
    let mut shadows = shadows;
    for (number, rule) in told.filter.as_slice().iter().enumerate() {
        let remarks = Remarks {
            counted: counted_at(counts, number),
            by: shadow_at(&mut shadows, number),
        };
        put_rule(text, room, b"filter", number, rule, remarks)?;
        print_piece(out, text)?;
    }
    Ok(())
}

/// Prints the rules of a ruleset with these anchors, and what is said of them.
pub(crate) fn print_objects<'a, O: Write>(
    alloc: Global,
    out: &mut O,
    told: &RulesTold<'_>,
    anchors: &[FlatAnchor],
    said: Said<'_>,
) -> Result<u8, Failure<'a>> {
    let mut text = Vec::new(alloc);
    let mut room = Vec::new(alloc);
    let counts = said.counts;
    let translations = counts.map(|counts| counts.translations.as_slice());
    print_translations(out, &mut text, &mut room, told, translations)?;
    print_anchors(out, &mut text, told, anchors)?;
    let filter = counts.map(|counts| counts.filter.as_slice());
    print_filter(out, &mut text, &mut room, told, filter, said.shadows)?;
    print(out, text.as_slice())
}
