//! The translation rules of a kind.
ghost use Rattle.std.specs.Prelude.{◌≡◌, ◌++◌, [], ◌∷◌, length, OnOk, OnErr};
ghost use Rattle.std.specs.Option.{option_copied};
ghost use Rattle.pfr_ruleset.specs.TranslationAids as spec;

use crate::aids::MOST_INDEXED;
use crate::flat::FlatTranslation;
use crate::translation_aids::TranslationAids;
use pfr_items::Items;
use std::alloc::{AllocError, Global};
use std::marker::Model;

/// The translation rules of one kind, in the order of the text. Contracts see nothing but the list.
#[derive(Drop)]
pub struct TranslationRules<T> {
    rules: Items<FlatTranslation<T>>,
    /// What lets a walk skip rules, once it is made.
    aids: Option<TranslationAids>,
}

impl<T> Model for TranslationRules<T> {
    ghost use Rattle.std.specs.Prelude.{List};
    ghost use Rattle.pfr_ruleset.specs.TranslationAids.{HaveAids};
    ghost use Rattle.pfr_ruleset.specs.declared.flat.FlatTranslation.{FlatTranslation};

    ghost Value = { List (FlatTranslation T) };

    ghost view = { λ t. t.rules };

    ghost invariant = { λ t. HaveAids t.rules t.aids };
}

impl<T> TranslationRules<T> {
    pub fn new(alloc: Global) -> TranslationRules<T>
        ensures { result ≡ [] }
    {
        TranslationRules {
            rules: Items::new(alloc),
            aids: None,
        }
    }

    #[inline]
    pub fn as_slice(&self) -> &[FlatTranslation<T>]
        ensures { result.now ≡ self.now }
    {
        self.rules.as_slice()
    }

    pub fn len(&self) -> usize
        ensures { result ≡ length self.now }
    {
        self.rules.len()
    }

    /// What is kept beside the rules, if it has been made.
    #[inline]
    pub fn aids(&self) -> Option<&TranslationAids>
        ensures { spec.HaveAids self.now (option_copied result) }
    {
        self.aids.as_ref()
    }
}

impl<T: Drop> TranslationRules<T> {
    /// Puts a rule behind the others. If memory is refused, the list is as before.
    pub fn push(&mut self, rule: FlatTranslation<T>) -> Result<(), AllocError>
        ensures pushed { OnOk result (self.new ≡ self.old ++ rule ∷ []) }
        ensures kept { OnErr result (self.new ≡ self.old) }
    {
        self.aids = None;
        self.rules.push(rule)
    }
}

impl<T> TranslationRules<T> {
    /// Makes what lets a walk skip rules. The rules stay as they are.
    pub fn index(&mut self, alloc: Global) -> Result<(), AllocError>
        ensures { self.new ≡ self.old }
    {
        if self.rules.len() <= MOST_INDEXED {
            self.aids = Some(TranslationAids::over(alloc, self.rules.as_slice())?);
        }
        Ok(())
    }
}
