//! Texts in the words of the strict reader.
ghost use Rattle.std.specs.Prelude.{◌≡◌, ◌≤◌, ◌++◌, [], ◌∷◌, length, IfOk, OnOk};
ghost use Rattle.pfr_rewrite.specs.Adapting as spec;

use crate::elsewhere::other_interfaces;
use crate::whole::changes;
use pfr_conf::ConfErrorKind;
use pfr_expand::ruleset_of;
use pfr_given::Given;
use pfr_items::Items;
use pfr_marks::mark::{Mark, Place, marks};
use pfr_net::IfName;
use pfr_phrases::change::{Change, Finding, Text, finding_at};
use pfr_phrases::reason::Reason;
use pfr_phrases::tracing::{Piece, old_place, traced};
use pfr_ruleset::Interface;
use pfr_words::Bytes;
use std::alloc::{AllocError, Global};

/// What a text can't say.
#[derive(Drop)]
pub struct Surroundings {
    /// The interfaces that it is for, by their places.
    pub interfaces: Items<Interface>,
    /// What is written for its words.
    pub given: Given,
}

/// A text made of another one.
#[derive(Drop)]
pub struct Adapted<'a> {
    pub text: Items<u8>,
    /// For each line, the line of the other text that it comes from.
    pub lines: Items<usize>,
    /// Where its bytes stood in the other text, piece by piece.
    pub pieces: Items<Piece>,
    /// What was rewritten, and why, in the order of the other text.
    pub findings: Items<Finding<'a>>,
}

/// Whether the strict reader accepts a text.
fn is_accepted(alloc: Global, text: &[u8], around: &Surroundings) -> Result<bool, AllocError>
    ensures { IfOk result (λ accepted. accepted ≡ spec.is_accepted text.now around.now) }
{
    match ruleset_of(alloc, text, around.interfaces.as_slice()) {
        Ok(_) => Ok(true),
        Err(fault) => match fault.kind {
            ConfErrorKind::Memory => Err(AllocError),
            _ => Ok(false),
        },
    }
}

/// How many bytes stand before the first zero.
fn zero_in(bytes: &[u8]) -> usize
    ensures value { result ≡ spec.zero_from 0 bytes.now }
    ensures within { result ≤ length bytes.now }
{
    for (before, byte) in bytes.iter().enumerate() {
        if *byte == 0 {
            return before;
        }
    }
    bytes.len()
}

/// The name of an interface.
fn name_of(name: &IfName) -> &[u8]
    ensures { result.now ≡ spec.name_of name.now }
{
    let bytes = name.bytes.as_slice();
    let (name, _) = bytes.split_at(zero_in(bytes));
    name
}

/// The names of interfaces, by their places.
fn names_of(alloc: Global, interfaces: &[Interface]) -> Result<Items<Items<u8>>, AllocError>
    ensures { IfOk result (λ names. names ≡ spec.names_of interfaces.now) }
{
    let mut names = Items::new(alloc);
    for interface in interfaces {
        names.push(Items::copied(alloc, name_of(&interface.name))?)?;
    }
    Ok(names)
}

/// What is rewritten of a text.
fn changes_for<'a>(
    alloc: Global,
    text: &'a [u8],
    around: &Surroundings,
) -> Result<Items<Change<'a>>, AllocError>
    ensures { IfOk result (λ changes. changes ≡ spec.changes_for text.now around.now) }
{
    let own = names_of(alloc, around.interfaces.as_slice())?;
    changes(alloc, text, own, &around.given)
}

/// What is said at the place of a finding, for another reason.
fn finding_for<'a>(finding: &Finding<'a>, reason: Reason) -> Finding<'a>
    ensures { result ≡ spec.finding_for finding.now reason }
{
    Finding {
        place: finding.place,
        word: Bytes::new(finding.word.as_slice()),
        reason,
    }
}

/// Puts what is said of the words of a text behind the findings so far, at the place where the text stands.
fn put_reasons<'a>(
    findings: &mut Items<Finding<'a>>,
    finding: &Finding<'a>,
    reasons: &[Reason],
) -> Result<(), AllocError>
    ensures { OnOk result (findings.new ≡ findings.old ++ spec.findings_for finding.now reasons.now) }
{
    for reason in reasons {
        findings.push(finding_for(finding, *reason))?;
    }
    Ok(())
}

/// Puts what is said of the text of a change, if it has one, behind the findings so far.
fn put_text<'a>(
    findings: &mut Items<Finding<'a>>,
    finding: &Finding<'a>,
    text: &Option<Text>,
) -> Result<(), AllocError>
    ensures { OnOk result (findings.new ≡ findings.old ++ spec.text_findings finding.now text.now) }
{
    match text {
        Some(text) => put_reasons(findings, finding, text.reasons.as_slice()),
        None => Ok(()),
    }
}

/// Puts what a change says behind the findings so far.
fn put<'a>(findings: &mut Items<Finding<'a>>, change: &Change<'a>) -> Result<(), AllocError>
    ensures { OnOk result (findings.new ≡ (findings.old ++ change.now.finding ∷ []) ++ spec.text_findings change.now.finding change.now.text) }
{
    findings.push(finding_for(&change.finding, change.finding.reason))?;
    put_text(findings, &change.finding, &change.text)
}

/// What changes say.
fn findings_of<'a>(alloc: Global, changes: &[Change<'a>]) -> Result<Items<Finding<'a>>, AllocError>
    ensures { IfOk result (λ findings. findings ≡ spec.findings_of changes.now) }
{
    let mut findings = Items::new(alloc);
    for change in changes {
        put(&mut findings, change)?;
    }
    Ok(findings)
}

/// What changes make of a text, and what they say.
#[tactic(auto, unfolding(crate::specs::Adapting::adapted_by))]
fn adapted_by<'a>(
    alloc: Global,
    text: &'a [u8],
    changes: &[Change<'a>],
) -> Result<Adapted<'a>, AllocError>
    ensures { IfOk result (λ adapted. adapted ≡ spec.adapted_by text.now changes.now) }
{
    let traced = traced(alloc, text, changes)?;
    Ok(Adapted {
        text: traced.made.text,
        lines: traced.made.lines,
        pieces: traced.pieces,
        findings: findings_of(alloc, changes)?,
    })
}

/// Whether a word begins at an offset, or behind it.
fn is_from(offset: usize, mark: &Mark<'_>) -> bool
    ensures { result ≡ spec.is_from offset mark.now }
{
    offset <= mark.start.offset
}

/// What is said of a text that isn't rewritten: at the first of these words that begins at an offset, or behind it.
fn unsettled_from<'a>(offset: usize, marks: &[Mark<'a>]) -> Option<Finding<'a>>
    ensures { result ≡ spec.unsettled_from offset marks.now }
{
    for mark in marks {
        if is_from(offset, mark) {
            return Some(finding_at(mark, Reason::Unsettled));
        }
    }
    None
}

/// The place in a text at which the first of these changes of the new text is said.
fn first_place(pieces: &[Piece], changes: &[Change<'_>]) -> Option<Place>
    ensures { result ≡ spec.first_place pieces.now changes.now }
{
    match changes.first() {
        Some(change) => Some(old_place(pieces, change.finding.place, 0)),
        None => None,
    }
}

/// The place in a text at which its new text would be rewritten again, if it would be.
fn again_at(
    alloc: Global,
    adapted: &Adapted<'_>,
    around: &Surroundings,
) -> Result<Option<Place>, AllocError>
    ensures { IfOk result (λ place. place ≡ spec.again_at adapted.now around.now) }
{
    let changes = changes_for(alloc, adapted.text.as_slice(), around)?;
    Ok(first_place(adapted.pieces.as_slice(), changes.as_slice()))
}

/// What is said of a text that would have to be rewritten again, by the place at which it would be.
#[tactic(auto, unfolding(crate::specs::Adapting::unsettled_findings))]
fn unsettled_findings<'a>(
    alloc: Global,
    text: &'a [u8],
    place: Place,
) -> Result<Items<Finding<'a>>, AllocError>
    ensures { IfOk result (λ findings. findings ≡ spec.unsettled_findings text.now place) }
{
    let mut findings = Items::new(alloc);
    let words = marks(alloc, text)?;
    if let Some(finding) = unsettled_from(place.offset, words.as_slice()) {
        findings.push(finding)?;
    }
    Ok(findings)
}

/// A text that stays as it is, since it would have to be rewritten again at `place`.
#[tactic(auto, unfolding(crate::specs::Adapting::unsettled))]
fn unsettled<'a>(alloc: Global, text: &'a [u8], place: Place) -> Result<Adapted<'a>, AllocError>
    ensures { IfOk result (λ adapted. adapted ≡ spec.unsettled text.now place) }
{
    let unchanged = adapted_by(alloc, text, &[])?;
    Ok(Adapted {
        text: unchanged.text,
        lines: unchanged.lines,
        pieces: unchanged.pieces,
        findings: unsettled_findings(alloc, text, place)?,
    })
}

/// A text with all that is to be rewritten. If the new text would be rewritten again, the text stays as it is, and this
/// is said.
#[tactic(auto, unfolding(crate::specs::Adapting::settled))]
fn settled<'a>(
    alloc: Global,
    text: &'a [u8],
    around: &Surroundings,
) -> Result<Adapted<'a>, AllocError>
    ensures { IfOk result (λ adapted. adapted ≡ spec.settled text.now around.now) }
{
    let changes = changes_for(alloc, text, around)?;
    let adapted = adapted_by(alloc, text, changes.as_slice())?;
    if is_accepted(alloc, adapted.text.as_slice(), around)? {
        return Ok(adapted);
    }
    match again_at(alloc, &adapted, around)? {
        Some(place) => unsettled(alloc, text, place),
        None => Ok(adapted),
    }
}

/// A text in the words of the strict reader, as far as they can say the same, and what was rewritten for that.
///
/// A text that the strict reader accepts is answered as it is, and nothing is said of it. An adapted text that is
/// adapted again stays as it is.
#[tactic(auto, unfolding(crate::specs::Adapting::adapted))]
pub fn adapt<'a>(
    alloc: Global,
    text: &'a [u8],
    around: &Surroundings,
) -> Result<Adapted<'a>, AllocError>
    ensures { IfOk result (λ adapted. adapted ≡ spec.adapted text.now around.now) }
{
    if is_accepted(alloc, text, around)? {
        adapted_by(alloc, text, &[])
    } else {
        settled(alloc, text, around)
    }
}

/// The rules and anchors of a text that hold for no packet, since they name other interfaces than those that the text
/// is for. Each is reported at the first interface that it names. If the text was adapted, a group that is given stands
/// for its interfaces, since they are written in its place; else its name is taken for an interface's.
pub fn rules_of_others<'a>(
    alloc: Global,
    text: &'a [u8],
    around: &Surroundings,
    was_adapted: bool,
) -> Result<Items<Finding<'a>>, AllocError>
    ensures { IfOk result (λ findings. findings ≡ spec.rules_of_others text.now around.now was_adapted) }
{
    let own = names_of(alloc, around.interfaces.as_slice())?;
    if was_adapted {
        return other_interfaces(alloc, text, own, &around.given);
    }
    other_interfaces(alloc, text, own, &Given::new(alloc))
}
