//! The names of services(5).
ghost use Rattle.std.specs.Prelude.{◌≡◌, ◌≤◌, ◌∷◌, ◌++◌, [], length, option_map, IfOk, OnOk};
ghost use Rattle.pfr_given.specs.Entries as entries;
ghost use Rattle.pfr_given.specs.Services as spec;
ghost use Rattle.pfr_given.specs.Texts as texts;

use crate::entry::{Entry, Given, Subject};
use crate::parts::{Part, cut_at, first_word, front_of};
use pfr_digits::Tail;
use pfr_net::notation::{cut, number};
use std::alloc::{AllocError, Global};

/// Lines with one port, one behind the other.
#[derive(Clone, Copy)]
struct Group {
    port: u64,
    /// How many entries stand before theirs.
    start: usize,
}

/// More than any port.
const NO_PORT: u64 = 65536;

/// Whether a protocol is TCP or UDP.
fn has_ports(protocol: &[u8]) -> bool
    ensures { result ≡ spec.has_ports protocol.now }
{
    protocol == b"tcp".as_slice() || protocol == b"udp".as_slice()
}

/// The number of a port.
#[tactic(auto, unfolding(crate::specs::Services::port_number))]
fn port_number(digits: &[u8]) -> Option<u64>
    ensures { result ≡ spec.port_number digits.now }
{
    let port = number(digits)?;
    if port < NO_PORT { Some(port) } else { None }
}

/// The port of TCP or UDP that a word `port/protocol` says.
#[tactic(auto, unfolding(crate::specs::Services::port_of))]
fn port_of(value: &[u8]) -> Option<u64>
    ensures { result ≡ spec.port_of value.now }
{
    let (digits, protocol) = cut(b'/', value)?;
    if has_ports(protocol) {
        port_number(digits)
    } else {
        None
    }
}

/// The port of a line, its name, and the text of its aliases.
fn service_in(line: &[u8]) -> Option<(u64, &[u8], &[u8])>
    ensures { option_map (λ s. (s.0, s.1.now ∷ texts.words s.2.now)) result ≡ spec.service_line line.now }
{
    let (name, behind) = first_word(front_of(Part::Plain, line))?;
    let (value, aliases) = first_word(behind)?;
    let port = port_of(value)?;
    Some((port, name, aliases))
}

/// The lines to which a line with a port belongs, if `len` entries stand before it.
fn group_at(group: Group, port: u64, len: usize) -> Group
    ensures { result ≡ spec.group_at group port len }
{
    if group.port == port {
        group
    } else {
        Group { port, start: len }
    }
}

/// Whether one of these entries is for a word.
fn is_known(entries: &[Entry], word: &[u8]) -> bool
    ensures { result ≡ spec.is_among word.now (spec.words_of entries.now) }
{
    for entry in entries {
        if entry.word.as_slice() == word {
            return true;
        }
    }
    false
}

impl Given {
    /// Adds a name of a port, unless an entry from `start` on has it.
    fn add_name(
        &mut self,
        alloc: Global,
        start: usize,
        name: &[u8],
        port: &[u8],
    ) -> Result<(), AllocError>
        requires { start ≤ length self.old.entries }
        ensures { OnOk result (self.new.entries ≡ self.old.entries ++ spec.new_entries start self.old.entries (name.now ∷ []) port.now) }
    {
        if is_known(&self.entries.as_slice()[start..], name) {
            return Ok(());
        }
        self.add(alloc, Subject::Service, name, b"", port)
    }

    /// Adds names of a port that no entry from `start` on has.
    fn add_aliases(
        &mut self,
        alloc: Global,
        start: usize,
        names: &[u8],
        port: &[u8],
    ) -> Result<(), AllocError>
        requires { start ≤ length self.old.entries }
        ensures { OnOk result (self.new.entries ≡ self.old.entries ++ spec.new_entries start self.old.entries (texts.words names.now) port.now) }
    {
        let mut rest = names;
        while let Some((name, behind)) = first_word(rest) {
            self.add_name(alloc, start, name, port)?;
            rest = behind;
        }
        Ok(())
    }

    /// Adds the name and the aliases of a port that no entry from `start` on has.
    #[tactic(auto, using(crate::proofs::ServiceLemmas::one_name))]
    fn add_port(
        &mut self,
        alloc: Global,
        group: Group,
        name: &[u8],
        aliases: &[u8],
    ) -> Result<(), AllocError>
        requires { group.start ≤ length self.old.entries }
        ensures { OnOk result (self.new.entries ≡ self.old.entries ++ spec.port_entries group self.old.entries (name.now ∷ texts.words aliases.now)) }
    {
        let mut text = Tail::new();
        text.put_number(group.port);
        self.add_name(alloc, group.start, name, text.as_slice())?;
        self.add_aliases(alloc, group.start, aliases, text.as_slice())
    }

    /// Adds the names of a line behind others, and answers with the lines to which it belongs.
    fn add_service(&mut self, alloc: Global, group: Group, line: &[u8]) -> Result<Group, AllocError>
        requires { group.start ≤ length self.old.entries }
        ensures entries { OnOk result (self.new.entries ≡ self.old.entries ++ spec.added group self.old.entries (spec.service_line line.now)) }
        ensures group { IfOk result (λ next. next ≡ spec.group_behind group (length self.old.entries) (spec.service_line line.now)) }
    {
        let Some((port, name, aliases)) = service_in(line) else {
            return Ok(group);
        };
        let next = group_at(group, port, self.entries.len());
        self.add_port(alloc, next, name, aliases)?;
        Ok(next)
    }

    /// Adds the ports of a text in the form of services(5): a name, `port/protocol` and aliases on each line, and
    /// comments from a `#` on. Protocols other than TCP and UDP, and numbers above 65535, give nothing. Lines with one
    /// port that stand one behind the other, as those of TCP and UDP do, give each name once; a line that gives nothing
    /// doesn't part them.
    #[tactic(auto, unfolding(crate::specs::Services::services))]
    pub fn add_services(&mut self, alloc: Global, text: &[u8]) -> Result<(), AllocError>
        ensures { OnOk result (self.new.entries ≡ self.old.entries ++ spec.services text.now) }
    {
        let mut group = Group {
            port: NO_PORT,
            start: self.entries.len(),
        };
        let mut rest = text;
        while !rest.is_empty() {
            let (line, behind) = cut_at(Part::Line, rest);
            group = self.add_service(alloc, group, line)?;
            rest = behind;
        }
        Ok(())
    }
}
