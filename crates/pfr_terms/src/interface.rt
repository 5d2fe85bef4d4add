//! Interfaces, as they are written behind `on`.
ghost use Rattle.std.specs.Prelude.{◌≡◌};
ghost use Rattle.pfr_terms.specs.Terms as spec;

use crate::error::ConfError;
use crate::lists::Item;
use crate::name::{Name, Written};
use crate::reader::{Reader, is_free};
use pfr_words::Sign;
use std::alloc::Global;

/// The longest name that an interface has, in bytes.
pub const LONGEST_INTERFACE_NAME: usize = 15;

/// The name of an interface: a plain word of at most 15 bytes.
#[derive(Drop)]
pub struct InterfaceName<'a> {
    pub name: Name<'a>,
}

impl<'a> Item<'a> for InterfaceName<'a> {
    ghost use Rattle.pfr_terms.specs.Terms as spec;

    ghost parser = { spec.interface_name };

    #[tactic(auto, unfolding(crate::specs::Terms::interface_name))]
    fn read(alloc: Global, reader: &mut Reader<'_, 'a>) -> Result<InterfaceName<'a>, ConfError> {
        match reader.plain_ahead() {
            Some(word) if is_interface_name(word.as_slice()) => Ok(InterfaceName {
                name: reader.named(word),
            }),
            Some(word) => Ok(InterfaceName {
                name: reader.passed(alloc, word)?,
            }),
            None => Err(reader.refuse(alloc)),
        }
    }
}

fn is_interface_name(word: &[u8]) -> bool
    ensures { result ≡ spec.is_interface_name word.now }
{
    is_free(word) && word.len() <= LONGEST_INTERFACE_NAME
}

/// An interface that a packet has to be on, or with `!` must not be on.
#[derive(Drop)]
pub struct InterfaceMatch<'a> {
    pub is_negated: bool,
    pub interface: Written<'a, InterfaceName<'a>>,
}

impl<'a> Item<'a> for InterfaceMatch<'a> {
    ghost use Rattle.pfr_terms.specs.Terms as spec;

    ghost parser = { spec.interface_match };

    #[tactic(auto, unfolding(crate::specs::Terms::interface_match))]
    fn read(alloc: Global, reader: &mut Reader<'_, 'a>) -> Result<InterfaceMatch<'a>, ConfError> {
        let is_negated = reader.eat_sign(Sign::Not);
        let interface = Written::<'a, InterfaceName<'a>>::read(alloc, reader)?;
        Ok(InterfaceMatch {
            is_negated,
            interface,
        })
    }
}
