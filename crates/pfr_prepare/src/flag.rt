//! Flags that say what the text of a ruleset can't.
ghost use Rattle.std.specs.Prelude.{◌≡◌, option_map};
ghost use Rattle.pfr_prepare.specs.Flags as spec;

use pfr_net::Net;
use pfr_net::notation::cut;

/// What a flag gives.
#[derive(Clone, Copy, Debug, PartialEq, Eq)]
pub enum FlagKind {
    InterfaceAddress,
    Group,
    Hosts,
    Services,
    Table,
    Include,
}

/// A flag that says what the text of a ruleset can't.
#[derive(Clone, Copy)]
pub enum Flag<'a> {
    /// The address of an interface, and its network.
    InterfaceAddress { name: &'a str, network: Net },
    /// An interface of a group.
    Group { group: &'a str, member: &'a str },
    /// A file in the form of hosts(5).
    Hosts(&'a str),
    /// A file in the form of services(5).
    Services(&'a str),
    /// The file of a table.
    Table { name: &'a str, file: &'a str },
    /// The file for the statements `include` and `load anchor` that name one.
    Include { name: &'a str, file: &'a str },
}

/// What stands before the first `=` of a word and behind it.
fn cut_of(word: &str) -> Option<(&str, &str)>
    ensures { option_map (λ p. (p.0.now, p.1.now)) result ≡ spec.cut_of word.now }
{
    word.split_once('=')
}

/// What stands before the first `=` of a word and behind it, if neither is empty.
fn parts_of(word: &str) -> Option<(&str, &str)>
    ensures { option_map (λ p. (p.0.now, p.1.now)) result ≡ spec.parts_of word.now }
{
    let (name, value) = cut_of(word)?;
    if name.is_empty() || value.is_empty() {
        None
    } else {
        Some((name, value))
    }
}

/// The network that a text writes as `A.B.C.D/BITS`.
pub fn network_of(text: &[u8]) -> Option<Net>
    ensures { result ≡ spec.network_of text.now }
{
    match cut(b'/', text) {
        Some(_) => Net::parse(text),
        None => None,
    }
}

impl<'a> Flag<'a> {
    /// The flag of a kind that a word gives: a file, or `NAME=VALUE`, cut at the first `=`, with neither part empty.
    /// The value of an interface is `A.B.C.D/BITS`. None if the word has another form.
    pub fn parse(kind: FlagKind, word: &'a str) -> Option<Flag<'a>>
        ensures { option_map spec.shape result ≡ spec.flag_of kind word.entry.now }
    {
        match kind {
            FlagKind::Hosts => Some(Flag::Hosts(word)),
            FlagKind::Services => Some(Flag::Services(word)),
            FlagKind::InterfaceAddress => Flag::of_address(word),
            FlagKind::Group => {
                let (group, member) = parts_of(word)?;
                Some(Flag::Group { group, member })
            }
            FlagKind::Table => {
                let (name, file) = parts_of(word)?;
                Some(Flag::Table { name, file })
            }
            FlagKind::Include => {
                let (name, file) = parts_of(word)?;
                Some(Flag::Include { name, file })
            }
        }
    }

    /// The flag for the address of an interface.
    fn of_address(word: &'a str) -> Option<Flag<'a>>
        ensures { option_map spec.shape result ≡ spec.address_flag (spec.parts_of word.entry.now) }
    {
        let (name, value) = parts_of(word)?;
        let network = network_of(value.as_bytes())?;
        Some(Flag::InterfaceAddress { name, network })
    }

    /// The file that it names, if it names one.
    pub fn file(&self) -> Option<&'a str>
        ensures { option_map (λ file. file.now) result ≡ spec.file_of self.now }
    {
        match self {
            Flag::InterfaceAddress { .. } | Flag::Group { .. } => None,
            Flag::Hosts(file) | Flag::Services(file) => Some(*file),
            Flag::Table { file, .. } | Flag::Include { file, .. } => Some(*file),
        }
    }
}
