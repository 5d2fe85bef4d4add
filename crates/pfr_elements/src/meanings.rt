//! What a value means wherever it may be used. It is read once, where its macro is defined.
ghost use Rattle.std.specs.Prelude.{◌≡◌, Ok, OnOk, IfOk, IfErr};
ghost use Rattle.std.specs.Option.{option_map};
ghost use Rattle.pfr_words.specs.Words.{words};
ghost use Rattle.pfr_terms.specs.declared.error.ConfErrorKind.TheVariants.{Memory};
ghost use Rattle.pfr_elements.specs.Elements.{listed};
ghost use Rattle.pfr_elements.specs.Meanings as spec;
ghost use Rattle.pfr_elements.specs.Values.{Makes};

use crate::definition::{Definition, ListMeaning, ListMeanings, Meanings, Text};
use crate::element::{Element, list_meaning};
use crate::hosts::form_read;
use crate::scope::Scope;
use crate::single::single_read;
use crate::text::{is_sound, only_plain};
use crate::value::{Draft, Value};
use pfr_items::Items;
use pfr_net::{IcmpMatch, PortMatch, Protocol};
use pfr_terms::{AddressMatch, ConfError, InterfaceMatch, InterfaceName, TableEntry, Written};
use pfr_words::spelling::words;
use pfr_words::{Bytes, Word};
use std::alloc::{AllocError, Global};
use std::mem::replace;

/// Lists without things.
fn no_lists(alloc: Global) -> ListMeanings
    ensures { result ≡ spec.no_lists }
{
    ListMeanings {
        interfaces: no_list(alloc),
        skipped: no_list(alloc),
        protocols: no_list(alloc),
        icmp_types: no_list(alloc),
        hosts: no_list(alloc),
        entries: no_list(alloc),
        ports: no_list(alloc),
    }
}

fn no_list<T>(alloc: Global) -> ListMeaning<T>
    ensures { result ≡ spec.no_list }
{
    ListMeaning {
        items: Items::new(alloc),
        tables: 0,
        fault: None,
    }
}

/// Puts what words mean as a list of one kind.
fn put_list<T: Element>(
    alloc: Global,
    scope: &Scope<'_>,
    value: &[Word<'_>],
    out: &mut ListMeaning<T::Flat>,
) -> Result<(), ConfError>
    ensures made { OnOk result (out.new ≡ listed T.kind scope.now value.now) }
    ensures refused { IfErr result (λ e. e.kind ≡ Memory) }
{
    *out = list_meaning::<T>(alloc, scope, value)?;
    Ok(())
}

/// Puts what words mean as a list of each kind.
#[tactic(auto, unfolding(crate::specs::Meanings::list_meanings))]
fn put_lists(
    alloc: Global,
    scope: &Scope<'_>,
    value: &[Word<'_>],
    out: &mut ListMeanings,
) -> Result<(), ConfError>
    ensures made { OnOk result (out.new ≡ spec.list_meanings scope.now value.now) }
    ensures refused { IfErr result (λ e. e.kind ≡ Memory) }
{
    put_list::<Written<'_, PortMatch>>(alloc, scope, value, &mut out.ports)?;
    put_list::<InterfaceMatch<'_>>(alloc, scope, value, &mut out.interfaces)?;
    put_list::<Written<'_, InterfaceName<'_>>>(alloc, scope, value, &mut out.skipped)?;
    put_list::<Written<'_, Protocol>>(alloc, scope, value, &mut out.protocols)?;
    put_list::<Written<'_, IcmpMatch>>(alloc, scope, value, &mut out.icmp_types)?;
    put_list::<AddressMatch<'_>>(alloc, scope, value, &mut out.hosts)?;
    put_list::<TableEntry<'_>>(alloc, scope, value, &mut out.entries)
}

/// What words mean as a list of each kind.
fn list_meanings(
    alloc: Global,
    scope: &Scope<'_>,
    value: &[Word<'_>],
) -> Result<ListMeanings, ConfError>
    ensures { Makes (spec.list_meanings scope.now value.now) result }
{
    let mut lists = no_lists(alloc);
    put_lists(alloc, scope, value, &mut lists).and(Ok(lists))
}

/// Two values, unless memory was refused for one of them.
fn both<A: Drop, B: Drop>(
    first: Result<A, ConfError>,
    second: Result<B, ConfError>,
) -> Result<(A, B), ConfError>
    requires { IfErr first (λ e. e.kind ≡ Memory) × IfErr second (λ e. e.kind ≡ Memory) }
    ensures made { IfOk result (λ made. (first ≡ Ok made.0) × (second ≡ Ok made.1)) }
    ensures refused { IfErr result (λ e. e.kind ≡ Memory) }
{
    let first = first?;
    Ok((first, second?))
}

/// A copy of a word.
fn copied(alloc: Global, word: Option<&[u8]>) -> Result<Option<Items<u8>>, ConfError>
    ensures { Makes (option_map (λ w. w.now) word.entry) result }
{
    match word {
        Some(word) => Ok(Some(Items::copied(alloc, word)?)),
        None => Ok(None),
    }
}

/// What words mean wherever they may stand.
#[tactic(auto, unfolding(crate::specs::Meanings::meanings_of))]
fn meanings_of(alloc: Global, scope: &Scope<'_>, value: &[Word<'_>]) -> Result<Meanings, ConfError>
    ensures { Makes (spec.meanings_of scope.now value.now) result }
{
    let form = form_read(alloc, scope.interfaces.as_slice(), 0, value);
    let target = single_read(alloc, scope, true, 0, value);
    let source = single_read(alloc, scope, false, 0, value);
    let word = copied(alloc, only_plain(value));
    let lists = list_meanings(alloc, scope, value);
    let (((form, target), source), (word, lists)) = both(
        both(both(form, target), source),
        both(word, lists),
    )?;
    Ok(Meanings {
        is_one_word: value.len() == 1,
        word,
        lists,
        form,
        target,
        source,
    })
}

/// What a text of these words means, if a use may stand for them.
fn sound_meanings(
    alloc: Global,
    scope: &Scope<'_>,
    text: &[u8],
    found: &[Word<'_>],
) -> Result<Option<Meanings>, ConfError>
    requires { found.now ≡ words text.now }
    ensures { Makes (spec.text_meanings scope.now text.now) result }
{
    if is_sound(text, found) {
        Ok(Some(meanings_of(alloc, scope, found)?))
    } else {
        Ok(None)
    }
}

/// What a text means, if a use may stand for its words.
fn text_meanings(
    alloc: Global,
    scope: &Scope<'_>,
    text: &[u8],
) -> Result<Option<Meanings>, ConfError>
    ensures { Makes (spec.text_meanings scope.now text.now) result }
{
    let found = words(alloc, text)?;
    sound_meanings(alloc, scope, text, found.as_slice())
}

/// What a macro of this value is defined as.
fn definition_by(alloc: Global, scope: &Scope<'_>, value: Value) -> Result<Definition, ConfError>
    ensures { Makes (spec.definition_by scope.now value) result }
{
    match value {
        Value::TooLong(is_list) => Ok(Definition::TooLong(is_list)),
        Value::Text(bytes) => match text_meanings(alloc, scope, bytes.as_slice())? {
            Some(meanings) => Ok(Definition::Text(Text { bytes, meanings })),
            None => Ok(Definition::Unsound),
        },
    }
}

impl<'a> Scope<'a> {
    /// What a macro of this value is defined as, wherever in the text it will be used.
    #[tactic(auto, unfolding(crate::specs::Meanings::definition_of))]
    fn definition_of(&mut self, alloc: Global, value: Value) -> Result<Definition, ConfError>
        ensures made { Makes (spec.definition_of self.old value) result }
        ensures kept { OnOk result (self.new ≡ self.old) }
    {
        let defined = replace(&mut self.defined, self.tables.len());
        let definition = definition_by(alloc, self, value);
        self.defined = defined;
        definition
    }

    /// Defines a macro, in the place of an earlier one of this name.
    pub fn define(&mut self, alloc: Global, name: Bytes<'a>, draft: Draft) -> Result<(), ConfError>
        ensures made { OnOk result (self.new ≡ spec.with_macro name.entry draft self.old) }
        ensures refused { IfErr result (λ e. e.kind ≡ Memory) }
    {
        let Draft { value, spliced } = draft;
        let definition = self.definition_of(alloc, value)?;
        self.macros.define(name, definition, spliced)?;
        Ok(())
    }
}
