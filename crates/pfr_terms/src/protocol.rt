//! Protocols and ICMP types.
ghost use Rattle.std.specs.Prelude.{◌≡◌, Some};
ghost use Rattle.pfr_terms.specs.Terms as spec;
ghost use Rattle.pfr_terms.specs.Input.{Reads};

use crate::error::ConfError;
use crate::lists::Item;
use crate::reader::Reader;
use pfr_net::{IcmpMatch, Protocol};
use pfr_words::Bytes;
use pfr_words::names::{icmp_type_named, protocol_named};
use std::alloc::Global;

/// A number from 0 to 255.
#[tactic(auto, unfolding(crate::specs::Terms::octet))]
fn octet(alloc: Global, reader: &mut Reader<'_, '_>) -> Result<u8, ConfError>
    ensures { Reads (spec.octet reader.old) result reader.new }
{
    let number = reader.number(alloc, 0, 255)?;
    Ok(number as u8)
}

/// What the next word names, or a number from 0 to 255.
fn octet_or_named(
    alloc: Global,
    reader: &mut Reader<'_, '_>,
    named: Option<u8>,
) -> Result<u8, ConfError>
    ensures { Reads (spec.octet_or_named named reader.old) result reader.new }
{
    match named {
        Some(number) => {
            reader.take();
            Ok(number)
        }
        None => octet(alloc, reader),
    }
}

fn protocol_in(word: Option<Bytes<'_>>) -> Option<u8>
    ensures { result ≡ spec.protocol_in word.entry }
{
    match word {
        Some(word) => protocol_named(word.as_slice()),
        None => None,
    }
}

fn icmp_type_in(word: Option<Bytes<'_>>) -> Option<u8>
    ensures { result ≡ spec.icmp_type_in word.entry }
{
    match word {
        Some(word) => icmp_type_named(word.as_slice()),
        None => None,
    }
}

impl<'a> Item<'a> for Protocol {
    ghost use Rattle.pfr_terms.specs.Terms as spec;

    ghost parser = { spec.protocol };

    #[tactic(auto, unfolding(crate::specs::Terms::protocol))]
    fn read(alloc: Global, reader: &mut Reader<'_, 'a>) -> Result<Protocol, ConfError> {
        let named = protocol_in(reader.plain_ahead());
        Ok(Protocol(octet_or_named(alloc, reader, named)?))
    }
}

impl<'a> Item<'a> for IcmpMatch {
    ghost use Rattle.pfr_terms.specs.Terms as spec;

    ghost parser = { spec.icmp_match };

    #[tactic(auto, unfolding(crate::specs::Terms::icmp_match))]
    fn read(alloc: Global, reader: &mut Reader<'_, 'a>) -> Result<IcmpMatch, ConfError> {
        let named = icmp_type_in(reader.plain_ahead());
        let kind = octet_or_named(alloc, reader, named)?;
        let code = if reader.eat_word(b"code") {
            Some(octet(alloc, reader)?)
        } else {
            None
        };
        Ok(IcmpMatch { kind, code })
    }
}
