//! The names of hosts(5).
ghost use Rattle.std.specs.Prelude.{◌≡◌, ◌++◌, OnOk};
ghost use Rattle.pfr_given.specs.Entries as entries;
ghost use Rattle.pfr_given.specs.Files as spec;
ghost use Rattle.pfr_given.specs.Texts as texts;
ghost use Rattle.pfr_given.specs.Written as written;

use crate::entry::{Given, Subject};
use crate::parts::{Part, cut_at, first_word, front_of};
use crate::written::put_address;
use pfr_digits::Tail;
use pfr_net::Ipv4Address;
use pfr_net::notation::dotted;
use std::alloc::{AllocError, Global};

impl Given {
    /// Adds an address for each word of a text.
    fn add_names(&mut self, alloc: Global, names: &[u8], address: &[u8]) -> Result<(), AllocError>
        ensures { OnOk result (self.new.entries ≡ self.old.entries ++ entries.entries_for Subject.Address (texts.words names.now) address.now) }
    {
        let mut rest = names;
        while let Some((name, behind)) = first_word(rest) {
            self.add(alloc, Subject::Address, name, b"", address)?;
            rest = behind;
        }
        Ok(())
    }

    /// Adds an address for each name of a host.
    fn add_names_of(
        &mut self,
        alloc: Global,
        names: &[u8],
        address: Ipv4Address,
    ) -> Result<(), AllocError>
        ensures { OnOk result (self.new.entries ≡ self.old.entries ++ spec.names_of (texts.words names.now) address) }
    {
        let mut text = Tail::new();
        put_address(&mut text, u64::from(address.0));
        self.add_names(alloc, names, text.as_slice())
    }

    /// Adds the names of a line.
    fn add_host(&mut self, alloc: Global, line: &[u8]) -> Result<(), AllocError>
        ensures { OnOk result (self.new.entries ≡ self.old.entries ++ spec.host_line line.now) }
    {
        let Some((first, names)) = first_word(front_of(Part::Plain, line)) else {
            return Ok(());
        };
        match dotted(first) {
            None => Ok(()),
            Some(address) => self.add_names_of(alloc, names, address),
        }
    }

    /// Adds the names of a text in the form of hosts(5): an address and its names on each line, and comments from a `#`
    /// on. Blanks, tabs and carriage returns separate words. A line whose address is not an IPv4 address gives nothing.
    /// A name that has several lines has an entry for each, in order.
    pub fn add_hosts(&mut self, alloc: Global, text: &[u8]) -> Result<(), AllocError>
        ensures { OnOk result (self.new.entries ≡ self.old.entries ++ spec.hosts text.now) }
    {
        let mut rest = text;
        while !rest.is_empty() {
            let (line, behind) = cut_at(Part::Line, rest);
            self.add_host(alloc, line)?;
            rest = behind;
        }
        Ok(())
    }
}
