//! What is wrong with the words of a command line.
use crate::also::MOST_INTERFACES;
use crate::values::INSIDE;
use std::alloc::AllocError;
use std::fmt;

/// Why the words of a command line ask for nothing that can be done.
#[derive(Clone, Copy)]
pub enum Refused<'a> {
    /// The words of the command line can't be read as text.
    NoWords,
    /// The word for this place or flag is missing.
    MissingWord(&'a str),
    /// A word isn't of the form that the flag asks for.
    BadValue {
        /// The flag as it is written.
        flag: &'a str,
        /// The form, as the help calls it.
        form: &'a str,
        /// The word behind the flag, or the part of it that is wrong.
        word: &'a str,
    },
    /// Two interfaces of a run have this name, or one is given two link-level addresses.
    InterfaceTwice(&'a str),
    /// The run has no interface of this name.
    NoSuchInterface(&'a str),
    /// This network is listed with `!` and without.
    NetworkTwice(&'a str),
    /// No inside networks are given, and not every interface has a link-level address.
    NoInside,
    /// A run is for more interfaces than it may be.
    TooManyInterfaces,
    /// Memory was refused.
    Memory,
}

impl From<AllocError> for Refused<'_> {
    fn from(_refused: AllocError) -> Self {
        Refused::Memory
    }
}

impl fmt::Display for Refused<'_> {
    fn fmt<W: fmt::Write>(&self, f: &mut fmt::Formatter<W>) -> fmt::Result {
        match self {
            Refused::NoWords => write!(f, "the command line is no text"),
            Refused::MissingWord(name) => write!(f, "'{name}' is missing"),
            Refused::BadValue { flag, form, word } => {
                write!(f, "invalid value '{word}' for '{flag} <{form}>'")
            }
            Refused::InterfaceTwice(name) => write!(f, "interface twice: {name}"),
            Refused::NoSuchInterface(name) => write!(f, "no such interface: {name}"),
            Refused::NetworkTwice(word) => write!(f, "network twice: {word}"),
            // as it is said if no flag at all says which way packets go
            Refused::NoInside => write!(
                f,
                "the following required arguments were not provided: --inside <{INSIDE}>"
            ),
            Refused::TooManyInterfaces => write!(f, "more than {MOST_INTERFACES} interfaces"),
            Refused::Memory => write!(f, "no memory"),
        }
    }
}
