//! What `pfreplay check` says of a ruleset.
use pfr_expand::ruleset_of;
use pfr_out::ConfError;
use pfr_ruleset::Interface;
use pfr_sync::checksum;
use std::alloc::{AllocError, Global};
use std::fmt;
use std::fmt::Write;

/// How many rules a ruleset's text makes for the interfaces of a run, and the text's checksum.
#[derive(Clone, Copy)]
pub struct Summary {
    filter: u32,
    translation: u32,
    checksum: [u8; 16],
}

impl Summary {
    pub fn of(alloc: Global, text: &[u8], interfaces: &[Interface]) -> Result<Summary, ConfError> {
        let (filter, translation) = ruleset_of(alloc, text, interfaces)?.counts();
        Ok(Summary {
            filter,
            translation,
            checksum: checksum(text),
        })
    }

    /// The line that is printed.
    pub fn line(&self, alloc: Global) -> Result<String, AllocError> {
        let mut line = String::new(alloc);
        writeln!(line, "{self}")?;
        Ok(line)
    }
}

/// `F filter, T translation, CHECKSUM`, the checksum in hexadecimal digits.
impl fmt::Display for Summary {
    fn fmt<W: Write>(&self, f: &mut fmt::Formatter<W>) -> fmt::Result {
        let filter = self.filter;
        let translation = self.translation;
        write!(f, "{filter} filter, {translation} translation, ")?;
        for byte in self.checksum {
            write!(f, "{byte:02x}")?;
        }
        Ok(())
    }
}
