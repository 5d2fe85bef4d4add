//! What may be done about faults of a ruleset.
use pfr_faults::ConfErrorKind;
use pfr_words::names::entry_of;
use std::fmt;
use std::fmt::Write;

/// The flags that give what a word of a ruleset can't say by itself, by the name of what is left out.
const FLAGS: [(&[u8], &str); 6] = [
    (b"file", "; give what the file holds by --table NAME=FILE"),
    (
        b"host name",
        "; give its address by --interface-address, --group or --hosts",
    ),
    (b"service", "; give its port by --services"),
    (b"include", "; give the file by --include NAME=FILE"),
    (b"load", "; give the file by --include NAME=FILE"),
    (
        b"antispoof",
        "; give the addresses of its interfaces by --interface-address",
    ),
];

/// What may be done about what is left out, by its name.
fn hint_of(left_out: &[u8]) -> &'static str {
    match entry_of(&FLAGS, left_out) {
        Some(hint) => hint,
        None => "",
    }
}

/// What may be done about a fault, by its kind.
fn help_of(kind: &ConfErrorKind) -> &str {
    match kind {
        ConfErrorKind::BadByte => "; outside comments stands printable ASCII alone",
        ConfErrorKind::Unterminated => {
            "; nothing closes it: a quote on its line, a brace behind it, without which nothing is rewritten"
        }
        ConfErrorKind::UnknownWord => "; it doesn't belong here, or a word is missing behind it",
        ConfErrorKind::LeftOut(left_out) => hint_of(left_out.name.as_slice()),
        ConfErrorKind::BadNumber => "; it is out of the range of numbers here",
        ConfErrorKind::BadAddress => {
            "; an address has four numbers of 0 to 255, and /0 to /32 behind a network"
        }
        ConfErrorKind::OutOfOrder => {
            "; options stand before translation rules, and these before filter rules"
        }
        ConfErrorKind::TooDeep => "; an anchor stands in sixteen others at most",
        ConfErrorKind::UndefinedMacro => "; a macro is defined before its use, NAME = \"..\"",
        ConfErrorKind::UndefinedTable => "; a table is defined before its use, table <NAME>",
        ConfErrorKind::TooMany => "; a text, a ruleset or a list is too long",
        ConfErrorKind::Clash => {
            "; the table is defined already, or holds an entry with and without !"
        }
        ConfErrorKind::Memory => "",
    }
}

/// What may be done about a fault, as it stands behind it.
#[derive(Drop)]
pub(crate) struct Hint<'a> {
    pub kind: &'a ConfErrorKind,
}

impl fmt::Display for Hint<'_> {
    fn fmt<W: Write>(&self, f: &mut fmt::Formatter<W>) -> fmt::Result {
        f.write_str(help_of(self.kind))
    }
}
