//! TCP flags, as they are written behind `flags`.
ghost use Rattle.std.specs.Prelude.{◌≡◌};
ghost use Rattle.pfr_terms.specs.Terms as spec;
ghost use Rattle.pfr_terms.specs.Input.{Reads};

use crate::error::ConfError;
use crate::reader::Reader;
use pfr_net::FlagSet;
use pfr_net::notation::cut;
use pfr_words::Bytes;
use std::alloc::Global;

/// The flags that a TCP packet has to have.
#[derive(Clone, Copy)]
pub enum FlagsMatch {
    /// Any flags.
    Any,
    /// Of the flags of `mask` exactly those of `set`.
    Of { set: FlagSet, mask: FlagSet },
}

/// The flag that a letter stands for.
#[tactic(auto, unfolding(crate::specs::Terms::flag_of))]
fn flag_of(letter: u8) -> Option<u8>
    ensures { result ≡ spec.flag_of letter }
{
    match letter {
        b'F' => Some(1),
        b'S' => Some(2),
        b'R' => Some(4),
        b'P' => Some(8),
        b'A' => Some(16),
        b'U' => Some(32),
        b'E' => Some(64),
        b'W' => Some(128),
        _ => None,
    }
}

fn flags_behind(letters: &[u8]) -> Option<u8>
    ensures { result ≡ spec.flags_behind 0 letters.now }
{
    let mut flags = 0;
    for letter in letters {
        match flag_of(*letter) {
            Some(flag) => flags |= flag,
            None => return None,
        }
    }
    Some(flags)
}

/// The flags that one or more letters stand for.
#[tactic(auto, unfolding(crate::specs::Terms::flag_set))]
fn flag_set(letters: &[u8]) -> Option<FlagSet>
    ensures { result ≡ spec.flag_set letters.now }
{
    if letters.is_empty() {
        return None;
    }
    Some(FlagSet(flags_behind(letters)?))
}

/// The flags that a word `SET/MASK` asks for.
#[tactic(auto, unfolding(crate::specs::Terms::flags_in))]
fn flags_in(word: &[u8]) -> Option<FlagsMatch>
    ensures { result ≡ spec.flags_in word.now }
{
    if word == b"any".as_slice() {
        return Some(FlagsMatch::Any);
    }
    let (set, mask) = cut(b'/', word)?;
    let set = flag_set(set)?;
    let mask = flag_set(mask)?;
    Some(FlagsMatch::Of { set, mask })
}

fn flags_of(word: Option<Bytes<'_>>) -> Option<FlagsMatch>
    ensures { result ≡ spec.flags_of word.entry }
{
    match word {
        Some(word) => flags_in(word.as_slice()),
        None => None,
    }
}

/// `SET/MASK`, or `any`.
#[tactic(auto, unfolding(crate::specs::Terms::flags_match))]
pub fn flags_match(alloc: Global, reader: &mut Reader<'_, '_>) -> Result<FlagsMatch, ConfError>
    ensures { Reads (spec.flags_match reader.old) result reader.new }
{
    match flags_of(reader.plain_ahead()) {
        Some(flags) => {
            reader.take();
            Ok(flags)
        }
        None => Err(reader.refuse(alloc)),
    }
}
