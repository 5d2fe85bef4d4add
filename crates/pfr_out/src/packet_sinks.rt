//! Where the packets go.
ghost use Rattle.std.specs.Prelude.{◌≡◌, IfErr, OnOk, map};
ghost use Rattle.std.specs.List.{list_all};
ghost use Rattle.pfr_commit.specs.Emissions.{by_place, held_texts};
ghost use Rattle.pfr_out.specs.PacketSinks.{EachGrew, OneRose, OneTookPart};

use pfr_capture::{Sink, write_all};
use std::convert::AsSlice;
use std::marker::Model;

/// The sinks of the packets, each at the place of its capture. Contracts see the list of them.
#[derive(Drop)]
pub struct PacketSinks<S> {
    sinks: Vec<S>,
}

impl<S> Model for PacketSinks<S> {
    ghost use Rattle.std.specs.Prelude.{List};

    ghost Value = { List S };

    ghost view = { λ a. a.sinks.items };
}

/// Writes each text to the sink at its place, in the order of the places. It returns the place of the sink that failed.
/// A text behind the last sink is dropped.
fn write_each<S: Sink, T: AsSlice<u8>>(sinks: &mut [S], texts: &[T]) -> Result<(), usize>
    ensures told { map S.told sinks.new ≡ map S.told sinks.old }
    ensures ok { OnOk result (EachGrew S.told S.written sinks.old sinks.new (by_place (map T.items texts.now))) }
    ensures fails { IfErr result (OneTookPart S.told S.written sinks.old sinks.new (by_place (map T.items texts.now))) }
    ensures no_failure { OnOk result (map S.failures sinks.new ≡ map S.failures sinks.old) }
    ensures failure { IfErr result (λ at. OneRose at (map S.failures sinks.old) (map S.failures sinks.new)) }
{
    for place in 0..sinks.len().min(texts.len()) {
        match write_all(&mut sinks[place], texts[place].as_slice()) {
            Ok(()) => {}
            Err(_) => return Err(place),
        }
    }
    Ok(())
}

impl<S> PacketSinks<S> {
    /// These sinks, each at the place of its capture.
    pub fn new(sinks: Vec<S>) -> PacketSinks<S>
        ensures { result ≡ sinks.items }
    {
        PacketSinks { sinks }
    }

    /// The sinks, by the places of their captures.
    pub fn as_slice(&self) -> &[S]
        ensures { result.now ≡ self.now }
    {
        self.sinks.as_slice()
    }
}

impl<S: Sink> PacketSinks<S> {
    /// Whether all tell their bytes.
    pub(crate) fn tell(&self) -> bool
        ensures { result ≡ list_all S.told self.now }
    {
        self.sinks.iter().all(|sink| sink.tells())
    }

    /// Writes the headers of captures, each to the sink at its place. It returns the place of the sink that failed.
    pub(crate) fn write_headers(&mut self, headers: &[[u8; 24]]) -> Result<(), usize>
        ensures told { map S.told self.new ≡ map S.told self.old }
        ensures ok { OnOk result (EachGrew S.told S.written self.old self.new (by_place headers.now)) }
        ensures fails { IfErr result (OneTookPart S.told S.written self.old self.new (by_place headers.now)) }
        ensures no_failure { OnOk result (map S.failures self.new ≡ map S.failures self.old) }
        ensures failure { IfErr result (λ at. OneRose at (map S.failures self.old) (map S.failures self.new)) }
    {
        write_each(self.sinks.as_mut_slice(), headers)
    }

    /// Writes texts, each to the sink at its place. It returns the place of the sink that failed.
    pub(crate) fn write_texts(&mut self, texts: &[Vec<u8>]) -> Result<(), usize>
        ensures told { map S.told self.new ≡ map S.told self.old }
        ensures ok { OnOk result (EachGrew S.told S.written self.old self.new (held_texts texts.now)) }
        ensures fails { IfErr result (OneTookPart S.told S.written self.old self.new (held_texts texts.now)) }
        ensures no_failure { OnOk result (map S.failures self.new ≡ map S.failures self.old) }
        ensures failure { IfErr result (λ at. OneRose at (map S.failures self.old) (map S.failures self.new)) }
    {
        write_each(self.sinks.as_mut_slice(), texts)
    }
}
