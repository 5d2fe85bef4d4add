//! Translation rules.
ghost use Rattle.std.specs.Prelude.{◌≡◌};
ghost use Rattle.pfr_ruleset.specs.Translations as spec;

use crate::flat::{NatAddress, RdrAddress};
use crate::translation_rules::TranslationRules;
use pfr_net::Ipv4Address;
use std::alloc::{AllocError, Global};

/// The translation rules by their kinds. All of them are numbered together, in the order in which they are written.
#[derive(Drop)]
pub struct Translations {
    pub nats: TranslationRules<NatAddress>,
    pub rdrs: TranslationRules<RdrAddress>,
    pub binats: TranslationRules<Ipv4Address>,
}

impl Translations {
    /// No rules.
    pub fn new(alloc: Global) -> Translations
        ensures { result ≡ spec.no_translations }
    {
        Translations {
            nats: TranslationRules::new(alloc),
            rdrs: TranslationRules::new(alloc),
            binats: TranslationRules::new(alloc),
        }
    }

    /// Makes what lets walks skip rules of `nat` and `rdr`. The rules of `binat` are tested one by one.
    pub fn index(&mut self, alloc: Global) -> Result<(), AllocError>
        ensures { self.new ≡ self.old }
    {
        self.nats.index(alloc)?;
        self.rdrs.index(alloc)
    }
}
