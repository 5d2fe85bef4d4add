//! Whether two rulesets have the same rules.
ghost use Rattle.std.specs.Prelude.{◌≡◌, true, map, option_map, IfOk};
ghost use Rattle.pfr_wording.specs.Wording as spec;

use pfr_net::Ipv4Address;
use pfr_ruleset::{
    FilterRules, FlatAnchor, FlatRule, FlatTranslation, NatAddress, RdrAddress, Ruleset,
    TranslationRules, Translations,
};
use std::alloc::{AllocError, Global};

/// A filter rule but for where it stands.
fn apart(rule: &FlatRule) -> FlatRule
    ensures { result ≡ spec.apart rule.now }
{
    FlatRule {
        label: None,
        line: 0,
        ..*rule
    }
}

/// Filter rules but for where they stand.
fn rules_apart(alloc: Global, rules: &[FlatRule]) -> Result<Vec<FlatRule>, AllocError>
    ensures { IfOk result (λ made. made.items ≡ map spec.apart rules.now) }
{
    let mut made = Vec::with_capacity(alloc, rules.len())?;
    for rule in rules {
        made.push(apart(rule))?;
    }
    Ok(made)
}

fn are_equal_rules(first: &[FlatRule], second: &[FlatRule]) -> bool
    ensures { result ≡ true → first.now ≡ second.now }
{
    first == second
}

/// Whether filter rules are the same, wherever they stand.
fn are_same_rules(
    alloc: Global,
    first: &[FlatRule],
    second: &[FlatRule],
) -> Result<bool, AllocError>
    ensures { IfOk result (λ same. same ≡ true → map spec.apart first.now ≡ map spec.apart second.now) }
{
    let first = rules_apart(alloc, first)?;
    let second = rules_apart(alloc, second)?;
    Ok(are_equal_rules(first.as_slice(), second.as_slice()))
}

/// Whether anchors are the same.
fn are_same_anchors(first: &[FlatAnchor], second: &[FlatAnchor]) -> bool
    ensures { result ≡ true → first.now ≡ second.now }
{
    first == second
}

/// The labels of the filter rules of a ruleset.
fn labels_of<'a>(alloc: Global, ruleset: &'a Ruleset) -> Result<Vec<Option<&'a [u8]>>, AllocError>
    ensures { IfOk result (λ labels. map (option_map (λ label. label.now)) labels.items ≡ spec.labels_of ruleset.now) }
{
    let mut labels = Vec::new(alloc);
    for rule in ruleset.filter.rules() {
        labels.push(ruleset.label_of(rule))?;
    }
    Ok(labels)
}

fn are_equal_labels(first: &[Option<&[u8]>], second: &[Option<&[u8]>]) -> bool
    ensures { result ≡ true → map (option_map (λ label. label.now)) first.now ≡ map (option_map (λ label. label.now)) second.now }
{
    first == second
}

/// Whether the filter rules of two rulesets have the same labels.
fn have_same_labels(alloc: Global, first: &Ruleset, second: &Ruleset) -> Result<bool, AllocError>
    ensures { IfOk result (λ same. same ≡ true → spec.labels_of first.now ≡ spec.labels_of second.now) }
{
    let first = labels_of(alloc, first)?;
    let second = labels_of(alloc, second)?;
    Ok(are_equal_labels(first.as_slice(), second.as_slice()))
}

/// A translation rule but for where it stands.
fn translation_apart<T: Copy>(rule: &FlatTranslation<T>) -> FlatTranslation<T>
    ensures { result ≡ spec.translation_apart rule.now }
{
    FlatTranslation { line: 0, ..*rule }
}

/// Translation rules of a kind but for where they stand.
fn translations_apart<T: Copy>(
    alloc: Global,
    rules: &[FlatTranslation<T>],
) -> Result<Vec<FlatTranslation<T>>, AllocError>
    ensures { IfOk result (λ made. made.items ≡ map spec.translation_apart rules.now) }
{
    let mut made = Vec::with_capacity(alloc, rules.len())?;
    for rule in rules {
        made.push(translation_apart(rule))?;
    }
    Ok(made)
}

fn are_equal_nats(
    first: &[FlatTranslation<NatAddress>],
    second: &[FlatTranslation<NatAddress>],
) -> bool
    ensures { result ≡ true → first.now ≡ second.now }
{
    first == second
}

fn are_equal_rdrs(
    first: &[FlatTranslation<RdrAddress>],
    second: &[FlatTranslation<RdrAddress>],
) -> bool
    ensures { result ≡ true → first.now ≡ second.now }
{
    first == second
}

fn are_equal_binats(
    first: &[FlatTranslation<Ipv4Address>],
    second: &[FlatTranslation<Ipv4Address>],
) -> bool
    ensures { result ≡ true → first.now ≡ second.now }
{
    first == second
}

/// Whether the rules of `nat` are the same, wherever they stand.
fn are_same_nats(
    alloc: Global,
    first: &TranslationRules<NatAddress>,
    second: &TranslationRules<NatAddress>,
) -> Result<bool, AllocError>
    ensures { IfOk result (λ same. same ≡ true → map spec.translation_apart first.now ≡ map spec.translation_apart second.now) }
{
    let first = translations_apart(alloc, first.as_slice())?;
    let second = translations_apart(alloc, second.as_slice())?;
    Ok(are_equal_nats(first.as_slice(), second.as_slice()))
}

/// Whether the rules of `rdr` are the same, wherever they stand.
fn are_same_rdrs(
    alloc: Global,
    first: &TranslationRules<RdrAddress>,
    second: &TranslationRules<RdrAddress>,
) -> Result<bool, AllocError>
    ensures { IfOk result (λ same. same ≡ true → map spec.translation_apart first.now ≡ map spec.translation_apart second.now) }
{
    let first = translations_apart(alloc, first.as_slice())?;
    let second = translations_apart(alloc, second.as_slice())?;
    Ok(are_equal_rdrs(first.as_slice(), second.as_slice()))
}

/// Whether the rules of `binat` are the same, wherever they stand.
fn are_same_binats(
    alloc: Global,
    first: &TranslationRules<Ipv4Address>,
    second: &TranslationRules<Ipv4Address>,
) -> Result<bool, AllocError>
    ensures { IfOk result (λ same. same ≡ true → map spec.translation_apart first.now ≡ map spec.translation_apart second.now) }
{
    let first = translations_apart(alloc, first.as_slice())?;
    let second = translations_apart(alloc, second.as_slice())?;
    Ok(are_equal_binats(first.as_slice(), second.as_slice()))
}

/// Whether translation rules are the same, wherever they stand.
fn are_same_translations(
    alloc: Global,
    first: &Translations,
    second: &Translations,
) -> Result<bool, AllocError>
    ensures { IfOk result (λ same. same ≡ true → spec.HaveSameTranslations first.now second.now) }
{
    let nats = are_same_nats(alloc, &first.nats, &second.nats)?;
    let rdrs = are_same_rdrs(alloc, &first.rdrs, &second.rdrs)?;
    let binats = are_same_binats(alloc, &first.binats, &second.binats)?;
    Ok(nats && rdrs && binats)
}

/// Whether filter rules are the same, with the anchors round them, wherever they stand.
fn are_same_filters(
    alloc: Global,
    first: &FilterRules,
    second: &FilterRules,
) -> Result<bool, AllocError>
    ensures { IfOk result (λ same. same ≡ true → spec.HaveSameFilters first.now second.now) }
{
    let rules = are_same_rules(alloc, first.rules(), second.rules())?;
    Ok(rules && are_same_anchors(first.anchors(), second.anchors()))
}

/// Whether two rulesets have the same rules with the same labels, wherever they stand.
pub(crate) fn have_same_rules(
    alloc: Global,
    first: &Ruleset,
    second: &Ruleset,
) -> Result<bool, AllocError>
    ensures { IfOk result (λ same. same ≡ true → spec.HaveSameRules first.now second.now) }
{
    let filters = are_same_filters(alloc, &first.filter, &second.filter)?;
    let labels = have_same_labels(alloc, first, second)?;
    let translations = are_same_translations(alloc, &first.translations, &second.translations)?;
    Ok(filters && labels && translations)
}
