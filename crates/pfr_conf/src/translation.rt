//! Translation rules: `nat`, `rdr` and `binat`, and anchors of such rules.
ghost use Rattle.std.specs.Prelude.{◌≡◌, ◌∷◌, [], Ok, IfOk};
ghost use Rattle.pfr_terms.specs.Input.{Reads};
ghost use Rattle.pfr_conf.specs.Translations as spec;

use crate::filter::logged;
use crate::name::some_name;
use crate::targets::{Target, single_host, target_of};
use pfr_items::Items;
use pfr_terms::hosts::{interfaces, packet_criteria, part_behind, ports, protocols};
use pfr_terms::{
    Address, AddressMatch, ConfError, Criteria, Host, Hosts, Name, Part, Reader, Written,
};
use pfr_words::names::entry_of;
use pfr_words::{Bytes, Sign};
use std::alloc::{AllocError, Global};

/// The three kinds of translation.
#[derive(Clone, Copy)]
pub enum TranslationKind {
    /// Sources of outbound packets.
    Nat,
    /// Destinations of inbound packets.
    Rdr,
    /// Both, one address for one.
    Binat,
}

/// A translation rule, with its line. Without a target (`no nat`) the packets that it holds for aren't translated.
#[derive(Drop)]
pub struct TranslationRule<'a> {
    pub line: usize,
    pub kind: TranslationKind,
    /// `pass`: what it translates isn't filtered.
    pub passes: bool,
    pub is_logged: bool,
    pub criteria: Criteria<'a>,
    pub target: Option<Target<'a>>,
}

/// A translation rule, or an anchor of such rules, which is empty.
#[derive(Drop)]
pub enum TranslationStatement<'a> {
    Rule(TranslationRule<'a>),
    Anchor(TranslationKind, Name<'a>),
}

/// The words that begin a translation rule.
const KINDS: [(&[u8], TranslationKind); 3] = [
    (b"nat", TranslationKind::Nat),
    (b"rdr", TranslationKind::Rdr),
    (b"binat", TranslationKind::Binat),
];

/// The words that begin an anchor of such rules.
const ANCHOR_KINDS: [(&[u8], TranslationKind); 3] = [
    (b"nat-anchor", TranslationKind::Nat),
    (b"rdr-anchor", TranslationKind::Rdr),
    (b"binat-anchor", TranslationKind::Binat),
];

#[tactic(auto, unfolding(crate::specs::Translations::kind_in))]
fn kind_in(word: Option<Bytes<'_>>) -> Option<TranslationKind>
    ensures { result ≡ spec.kind_in word.entry }
{
    entry_of(&KINDS, word?.as_slice())
}

#[tactic(auto, unfolding(crate::specs::Translations::anchor_kind_in))]
fn anchor_kind_in(word: Option<Bytes<'_>>) -> Option<TranslationKind>
    ensures { result ≡ spec.anchor_kind_in word.entry }
{
    entry_of(&ANCHOR_KINDS, word?.as_slice())
}

/// `nat`, `rdr` or `binat`, if one comes next.
#[tactic(auto, unfolding(crate::specs::Translations::kind))]
fn kind_ahead(reader: &mut Reader<'_, '_>) -> Option<TranslationKind>
    ensures { spec.kind reader.old ≡ Ok (result, reader.new) }
{
    let kind = kind_in(reader.plain_ahead())?;
    reader.take();
    Some(kind)
}

/// `nat-anchor`, `rdr-anchor` or `binat-anchor`, if one comes next.
#[tactic(auto, unfolding(crate::specs::Translations::anchor_kind))]
fn anchor_kind_ahead(reader: &mut Reader<'_, '_>) -> Option<TranslationKind>
    ensures { spec.anchor_kind reader.old ≡ Ok (result, reader.new) }
{
    let kind = anchor_kind_in(reader.plain_ahead())?;
    reader.take();
    Some(kind)
}

/// A list of one host.
fn only<'a>(
    alloc: Global,
    host: Written<'a, Host<'a>>,
) -> Result<Items<AddressMatch<'a>>, AllocError>
    ensures { IfOk result (λ list. list ≡ spec.only host.entry ∷ []) }
{
    let address = match host {
        Written::Item(host) => Address::Host(host),
        Written::Macro(found) => Address::Macro(found),
    };
    let mut found = Items::new(alloc);
    found.push(AddressMatch {
        is_negated: false,
        address,
    })?;
    Ok(found)
}

/// The `from` of a binat rule with a target: one address, and maybe ports.
#[tactic(auto, unfolding(crate::specs::Translations::binat_source))]
fn binat_source<'a>(alloc: Global, reader: &mut Reader<'_, 'a>) -> Result<Part<'a>, ConfError>
    ensures { Reads (spec.binat_source reader.old) result reader.new }
{
    reader.expect_word(alloc, b"from")?;
    let host = single_host(alloc, reader, false)?;
    let found = ports(alloc, reader)?;
    let addresses = only(alloc, host)?;
    Ok(Part {
        addresses: Some(addresses),
        ports: found,
    })
}

/// The criteria of a binat rule with a target.
#[tactic(auto, unfolding(crate::specs::Translations::binat_criteria))]
fn binat_criteria<'a>(alloc: Global, reader: &mut Reader<'_, 'a>) -> Result<Criteria<'a>, ConfError>
    ensures { Reads (spec.binat_criteria reader.old) result reader.new }
{
    let on = interfaces(alloc, reader)?;
    reader.eat_word(b"inet");
    let proto = protocols(alloc, reader)?;
    let source = binat_source(alloc, reader)?;
    let destination = part_behind(alloc, reader, b"to")?;
    Ok(Criteria {
        interfaces: on,
        protocols: proto,
        hosts: Hosts {
            source: Some(source),
            destination,
        },
    })
}

/// `pass`, or `pass log`, if it comes next: whether there is a `pass`, and whether there is a `log`.
#[tactic(auto, unfolding(crate::specs::Translations::passes))]
fn passes(alloc: Global, reader: &mut Reader<'_, '_>) -> Result<(bool, bool), ConfError>
    ensures { Reads (spec.passes reader.old) result reader.new }
{
    if reader.eat_word(b"pass") {
        Ok((true, logged(alloc, reader)?))
    } else {
        Ok((false, false))
    }
}

/// The criteria of a rule of this kind; only `binat` with a target asks for one address.
#[tactic(auto, unfolding(crate::specs::Translations::translated))]
fn translated<'a>(
    alloc: Global,
    reader: &mut Reader<'_, 'a>,
    kind: TranslationKind,
) -> Result<Criteria<'a>, ConfError>
    ensures { Reads (spec.translated kind reader.old) result reader.new }
{
    match kind {
        TranslationKind::Binat => binat_criteria(alloc, reader),
        _ => packet_criteria(alloc, reader),
    }
}

/// The arrow, and what a rule of this kind translates to.
#[tactic(auto, unfolding(crate::specs::Translations::target_behind_arrow))]
fn target_behind_arrow<'a>(
    alloc: Global,
    reader: &mut Reader<'_, 'a>,
    kind: TranslationKind,
) -> Result<Target<'a>, ConfError>
    ensures { Reads (spec.target_behind_arrow kind reader.old) result reader.new }
{
    reader.expect_sign(alloc, Sign::Arrow)?;
    target_of(alloc, reader, kind)
}

/// What comes behind `nat`, `rdr` or `binat` in a rule with a target.
#[tactic(auto, unfolding(crate::specs::Translations::rule_with_target))]
fn rule_with_target<'a>(
    alloc: Global,
    reader: &mut Reader<'_, 'a>,
    line: usize,
    kind: TranslationKind,
) -> Result<TranslationRule<'a>, ConfError>
    ensures { Reads (spec.rule_with_target line kind reader.old) result reader.new }
{
    let (passes, is_logged) = passes(alloc, reader)?;
    let criteria = translated(alloc, reader, kind)?;
    let target = target_behind_arrow(alloc, reader, kind)?;
    Ok(TranslationRule {
        line,
        kind,
        passes,
        is_logged,
        criteria,
        target: Some(target),
    })
}

/// What comes behind `no`.
#[tactic(auto, unfolding(crate::specs::Translations::rule_without_target))]
fn rule_without_target<'a>(
    alloc: Global,
    reader: &mut Reader<'_, 'a>,
    line: usize,
) -> Result<TranslationRule<'a>, ConfError>
    ensures { Reads (spec.rule_without_target line reader.old) result reader.new }
{
    let Some(kind) = kind_ahead(reader) else {
        return Err(reader.refuse(alloc));
    };
    let (passes, is_logged) = passes(alloc, reader)?;
    let criteria = packet_criteria(alloc, reader)?;
    Ok(TranslationRule {
        line,
        kind,
        passes,
        is_logged,
        criteria,
        target: None,
    })
}

/// A translation rule.
#[tactic(auto, unfolding(crate::specs::Translations::translation_rule))]
fn translation_rule<'a>(
    alloc: Global,
    reader: &mut Reader<'_, 'a>,
) -> Result<TranslationRule<'a>, ConfError>
    ensures { Reads (spec.translation_rule reader.old) result reader.new }
{
    let line = reader.line_ahead();
    if reader.eat_word(b"no") {
        return rule_without_target(alloc, reader, line);
    }
    match kind_ahead(reader) {
        Some(kind) => rule_with_target(alloc, reader, line, kind),
        None => Err(reader.refuse(alloc)),
    }
}

/// A translation rule, or an anchor of such rules.
#[tactic(auto, unfolding(crate::specs::Translations::translation_statement))]
pub fn translation<'a>(
    alloc: Global,
    reader: &mut Reader<'_, 'a>,
) -> Result<TranslationStatement<'a>, ConfError>
    ensures { Reads (spec.translation_statement reader.old) result reader.new }
{
    match anchor_kind_ahead(reader) {
        Some(kind) => Ok(TranslationStatement::Anchor(kind, some_name(alloc, reader)?)),
        None => Ok(TranslationStatement::Rule(translation_rule(alloc, reader)?)),
    }
}
