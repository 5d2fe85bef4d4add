//! The flags that say what the text of a ruleset can't.
use crate::table::{Beside, Given, Word};
use clap::ArgMatches;
use pfr_items::Items;
use pfr_prepare::{Flag, FlagKind};
use pfr_values::Refused;
use std::alloc::Global;

/// A flag that may be given as often as needed.
#[derive(Clone, Copy)]
pub(crate) struct Surrounding {
    kind: FlagKind,
    name: &'static str,
    /// The same as it is written.
    flag: &'static str,
    form: &'static str,
    help: &'static str,
}

/// The flags that say what the text of a ruleset can't, in the order in which what they give is taken.
pub(crate) const SURROUNDINGS: [Surrounding; 6] = [
    Surrounding {
        kind: FlagKind::InterfaceAddress,
        name: "interface-address",
        flag: "--interface-address",
        form: "NAME=A.B.C.D/BITS",
        help: "The address of another interface, and the length of its network's prefix",
    },
    Surrounding {
        kind: FlagKind::Group,
        name: "group",
        flag: "--group",
        form: "GROUP=NAME",
        help: "An interface of a group; once for each",
    },
    Surrounding {
        kind: FlagKind::Hosts,
        name: "hosts",
        flag: "--hosts",
        form: "FILE",
        help: "A file with the addresses of names, like /etc/hosts",
    },
    Surrounding {
        kind: FlagKind::Services,
        name: "services",
        flag: "--services",
        form: "FILE",
        help: "A file with the ports of names, like /etc/services",
    },
    Surrounding {
        kind: FlagKind::Table,
        name: "table",
        flag: "--table",
        form: "NAME=FILE",
        help: "What the file of a table holds: addresses, networks and names",
    },
    Surrounding {
        kind: FlagKind::Include,
        name: "include",
        flag: "--include",
        form: "NAME=FILE",
        help: "The text for include \"NAME\" and load anchor .. from \"NAME\"",
    },
];

impl Surrounding {
    /// The flag as the command line has it, beside the flag that it needs.
    pub(crate) fn word(&self, beside: Beside) -> Word {
        Word {
            name: self.name,
            given: Given::Repeated(self.form),
            beside,
            help: self.help,
        }
    }

    /// What the word behind the flag gives.
    fn given<'a>(&self, word: &'a str) -> Result<Flag<'a>, Refused<'a>> {
        match Flag::parse(self.kind, word) {
            Some(flag) => Ok(flag),
            None => Err(Refused::BadValue {
                flag: self.flag,
                form: self.form,
                word,
            }),
        }
    }

    /// Puts what the words behind the flag give behind others.
    fn add<'a>(&self, flags: &mut Items<Flag<'a>>, words: &[&'a str]) -> Result<(), Refused<'a>> {
        for word in words {
            flags.push(self.given(word)?)?;
        }
        Ok(())
    }

    /// Puts what a command line gives by the flag behind others.
    fn add_given<'a>(
        &self,
        flags: &mut Items<Flag<'a>>,
        matches: &ArgMatches<'a>,
    ) -> Result<(), Refused<'a>> {
        match matches.get_strs(self.name) {
            Some(words) => self.add(flags, words),
            None => Ok(()),
        }
    }
}

/// What a command line gives by the flags that say what the text of a ruleset can't.
pub(crate) fn given_flags<'a>(
    alloc: Global,
    matches: &ArgMatches<'a>,
) -> Result<Items<Flag<'a>>, Refused<'a>> {
    let mut flags = Items::new(alloc);
    fill(&mut flags, matches).and(Ok(flags))
}

fn fill<'a>(flags: &mut Items<Flag<'a>>, matches: &ArgMatches<'a>) -> Result<(), Refused<'a>> {
    for surrounding in &SURROUNDINGS {
        surrounding.add_given(flags, matches)?;
    }
    Ok(())
}
