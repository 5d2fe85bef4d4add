//! The interfaces of a run, and the files of each.
ghost use Rattle.std.specs.Prelude.{◌≡◌, [], ◌∷◌, map, IfOk, OnOk, option_map};
ghost use Rattle.std.specs.List.{list_any};
ghost use Rattle.std.specs.Result.{result_ok};
ghost use Rattle.std.specs.Str.{bytes_eq};
ghost use Rattle.pfr_net.specs.Interfaces.{if_name};
ghost use Rattle.pfr_net.specs.Notation.{cut_at};
ghost use Rattle.pfr_values.specs.Places as spec;
ghost use Rattle.pfr_values.specs.declared.also.AlsoForm.TheVariants.{Compared, Named, Replayed};

use crate::refused::Refused;
use crate::values::{interface_name, network};
use clap::ArgMatches;
use pfr_items::Items;
use pfr_ruleset::Interface;
use std::alloc::{AllocError, Global};

/// How many interfaces a run has at most.
pub const MOST_INTERFACES: usize = 8;

/// The flag that names another interface of a run.
const FLAG: &str = "--also";

/// The form of the value behind it, for a command that replays captures.
pub const REPLAYED: &str = "NAME,A.B.C.D/BITS,CAPTURE,PACKETS";

/// The same for a command that reads captures.
pub const COMPARED: &str = "NAME,A.B.C.D/BITS,CAPTURE";

/// The same for a command that reads a ruleset alone.
pub const NAMED: &str = "NAME,A.B.C.D/BITS";

/// What the value behind it has to say.
#[derive(Clone, Copy)]
pub enum AlsoForm {
    /// The interface, its capture, and the file for the packets that go on.
    Replayed,
    /// The interface and its capture.
    Compared,
    /// The interface alone.
    Named,
}

/// An interface of a run by its name, and its files.
#[derive(Clone, Copy)]
pub struct CaptureWords<'a> {
    /// The name of the interface.
    pub interface: &'a str,
    /// The file with the packet capture.
    pub capture: &'a str,
    /// The file for the packets that go on.
    pub packets: &'a str,
}

/// The interfaces of a run, by their places, and the files of each.
#[derive(Drop)]
pub struct Places<'a> {
    pub interfaces: Items<Interface>,
    pub captures: Items<CaptureWords<'a>>,
}

/// The parts of a word that names another interface.
#[derive(Clone, Copy)]
struct AlsoWords<'a> {
    address: &'a str,
    words: CaptureWords<'a>,
}

/// How a form is written.
fn written(form: AlsoForm) -> &'static str {
    match form {
        AlsoForm::Replayed => REPLAYED,
        AlsoForm::Compared => COMPARED,
        AlsoForm::Named => NAMED,
    }
}

/// What stands before the first comma of a word and behind it.
fn cut(word: &str) -> Option<(&str, &str)>
    ensures { option_map (λ p. (p.0.now, p.1.now)) result ≡ cut_at 44 word.now }
{
    word.split_once(',')
}

/// A word that has no comma.
fn last_part<'a>(word: &'a str) -> Option<&'a str>
    ensures { option_map (λ part. part.now) result ≡ spec.last_part word.entry.now }
{
    if cut(word).is_some() {
        None
    } else {
        Some(word)
    }
}

/// The parts of a word, between which commas stand; nothing if it has more or fewer than its form wants.
fn parts_of<'a>(form: AlsoForm, word: &'a str) -> Option<AlsoWords<'a>>
    ensures { option_map spec.shape result ≡ spec.parts_of form word.entry.now }
{
    match form {
        AlsoForm::Replayed => replayed_parts(word),
        AlsoForm::Compared => compared_parts(word),
        AlsoForm::Named => named_parts(word),
    }
}

/// The parts of a word that names an interface, its capture and the file for its packets.
fn replayed_parts<'a>(word: &'a str) -> Option<AlsoWords<'a>>
    ensures { option_map spec.shape result ≡ spec.parts_of Replayed word.entry.now }
{
    let (interface, rest) = cut(word)?;
    let (address, rest) = cut(rest)?;
    let (capture, rest) = cut(rest)?;
    let packets = last_part(rest)?;
    let words = CaptureWords {
        interface,
        capture,
        packets,
    };
    Some(AlsoWords { address, words })
}

/// The parts of a word that names an interface and its capture.
fn compared_parts<'a>(word: &'a str) -> Option<AlsoWords<'a>>
    ensures { option_map spec.shape result ≡ spec.parts_of Compared word.entry.now }
{
    let (interface, rest) = cut(word)?;
    let (address, rest) = cut(rest)?;
    let capture = last_part(rest)?;
    let words = CaptureWords {
        interface,
        capture,
        packets: "",
    };
    Some(AlsoWords { address, words })
}

/// The parts of a word that names an interface.
fn named_parts<'a>(word: &'a str) -> Option<AlsoWords<'a>>
    ensures { option_map spec.shape result ≡ spec.parts_of Named word.entry.now }
{
    let (interface, rest) = cut(word)?;
    let address = last_part(rest)?;
    let words = CaptureWords {
        interface,
        capture: "",
        packets: "",
    };
    Some(AlsoWords { address, words })
}

/// What the word behind the flag says.
fn parts<'a>(form: AlsoForm, word: &'a str) -> Result<AlsoWords<'a>, Refused<'a>>
    ensures { option_map spec.shape (result_ok result) ≡ spec.parts_of form word.entry.now }
{
    parts_of(form, word).ok_or(misfit(form, word))
}

/// What is said of a word, or of a part of one, that isn't of its form.
fn misfit<'a>(form: AlsoForm, word: &'a str) -> Refused<'a> {
    Refused::BadValue {
        flag: FLAG,
        form: written(form),
        word,
    }
}

/// The interface that these parts of a word say.
fn interface<'a>(form: AlsoForm, parts: &AlsoWords<'a>) -> Result<Interface, Refused<'a>>
    ensures value { result_ok result ≡ spec.interface_of parts.now.words.interface.now parts.now.address.now }
    ensures named { IfOk result (λ interface. interface.name ≡ if_name parts.now.words.interface.now) }
{
    let Ok(name) = interface_name(FLAG, FLAG, parts.words.interface) else {
        return Err(misfit(form, parts.words.interface));
    };
    let Ok(network) = network(FLAG, FLAG, parts.address) else {
        return Err(misfit(form, parts.address));
    };
    Ok(Interface {
        name,
        address: network.address,
        bits: network.bits,
    })
}

/// Whether one of the interfaces of a run has this name.
pub(crate) fn is_named(captures: &[CaptureWords<'_>], name: &str) -> bool
    ensures { result ≡ list_any (λ other. bytes_eq other name.now) (spec.names_of captures.now) }
{
    for words in captures {
        if words.interface == name {
            return true;
        }
    }
    false
}

impl<'a> Places<'a> {
    /// One interface.
    fn of(
        alloc: Global,
        interface: Interface,
        words: CaptureWords<'a>,
    ) -> Result<Places<'a>, Refused<'a>>
        requires { interface.name ≡ if_name words.interface.now }
        ensures places { IfOk result (λ places. spec.ArePlaces places.interfaces places.captures) }
        ensures one { IfOk result (λ places. places ≡ spec.one_place interface words.entry) }
    {
        let mut interfaces = Items::new(alloc);
        interfaces.push(interface)?;
        let mut captures = Items::new(alloc);
        captures.push(words)?;
        Ok(Places {
            interfaces,
            captures,
        })
    }

    /// Adds the interface that the word behind the flag says.
    fn add(&mut self, form: AlsoForm, word: &'a str) -> Result<(), Refused<'a>>
        requires { spec.ArePlaces self.old.interfaces self.old.captures }
        ensures places { OnOk result (spec.ArePlaces self.new.interfaces self.new.captures) }
        ensures added { OnOk result (spec.Adds form (word.entry.now ∷ []) self.old self.new) }
    {
        if self.interfaces.len() >= MOST_INTERFACES {
            return Err(Refused::TooManyInterfaces);
        }
        let parts = parts(form, word)?;
        let interface = interface(form, &parts)?;
        if is_named(self.captures.as_slice(), parts.words.interface) {
            return Err(Refused::InterfaceTwice(parts.words.interface));
        }
        self.interfaces.push(interface)?;
        self.captures.push(parts.words)?;
        Ok(())
    }

    /// Adds the interfaces that words behind the flag say.
    fn add_all(&mut self, form: AlsoForm, words: &[&'a str]) -> Result<(), Refused<'a>>
        requires { spec.ArePlaces self.old.interfaces self.old.captures }
        ensures places { OnOk result (spec.ArePlaces self.new.interfaces self.new.captures) }
        ensures added { OnOk result (spec.Adds form (map (λ w. w.now) words.now) self.old self.new) }
    {
        for word in words {
            self.add(form, word)?;
        }
        Ok(())
    }
}

/// The interfaces of a run: its first one, and those that a command line gives by the flag.
pub fn places_of<'a>(
    alloc: Global,
    first: Interface,
    words: CaptureWords<'a>,
    form: AlsoForm,
    matches: &ArgMatches<'a>,
) -> Result<Places<'a>, Refused<'a>>
    requires { first.name ≡ if_name words.interface.now }
    ensures places { IfOk result (λ places. spec.ArePlaces places.interfaces places.captures) }
    ensures added { IfOk result (λ places. spec.Adds form (spec.words_behind matches.now) (spec.one_place first words.entry) places) }
{
    let mut places = Places::of(alloc, first, words)?;
    if let Some(words) = matches.get_strs("also") {
        places.add_all(form, words)?;
    }
    Ok(places)
}
