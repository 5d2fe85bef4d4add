//! The text of a page.
ghost use Rattle.std.specs.Prelude.{◌≡◌, ◌++◌, OnOk};
ghost use Rattle.pfr_report.specs.Escapes as spec;

use crate::escape::append_text;
use pfr_capture::{Sink, write_all};
use pfr_show::{Calendar, Stopped};
use pfr_texts::append_number;
use std::alloc::{AllocError, Global};

/// How many bytes are printed at a time, and a row more.
const PIECE: usize = 65536;

/// A page that grows: markup of its own, numbers, moments, and texts of files, which are escaped. A text of a file can't come into it as
/// markup: that stands in the program, so it is `'static`.
#[derive(Drop)]
pub(crate) struct Page {
    text: Vec<u8>,
}

impl Page {
    /// An empty page.
    pub(crate) fn new(alloc: Global) -> Page {
        Page {
            text: Vec::new(alloc),
        }
    }

    /// Appends markup.
    pub(crate) fn markup(&mut self, markup: &'static [u8]) -> Result<(), AllocError>
        ensures { OnOk result (self.new.text.items ≡ self.old.text.items ++ markup.now) }
    {
        self.text.extend_from_slice(markup)
    }

    /// Appends a text of a file, so that it is read as this text and nothing else.
    pub(crate) fn text(&mut self, bytes: &[u8]) -> Result<(), AllocError>
        ensures { OnOk result (self.new.text.items ≡ self.old.text.items ++ spec.shown bytes.now) }
    {
        append_text(&mut self.text, bytes)
    }

    /// Appends a number.
    pub(crate) fn number(&mut self, number: u64) -> Result<(), AllocError> {
        append_number(&mut self.text, number)
    }

    /// Appends the date and the time of day, `seconds` seconds behind the beginning of 1970.
    pub(crate) fn second(
        &mut self,
        calendar: &mut Calendar,
        seconds: u64,
    ) -> Result<(), AllocError> {
        calendar.append_second(&mut self.text, seconds)
    }

    /// Prints the page so far and empties it.
    pub(crate) fn print<K: Sink>(&mut self, sink: &mut K) -> Result<(), Stopped> {
        let printed = write_all(sink, self.text.as_slice());
        self.text.clear();
        match printed {
            Ok(()) => Ok(()),
            Err(_) => Err(Stopped::Printing),
        }
    }

    /// Prints the page so far and empties it, once it has the bytes of a piece.
    pub(crate) fn print_piece<K: Sink>(&mut self, sink: &mut K) -> Result<(), Stopped> {
        if self.text.len() >= PIECE {
            return self.print(sink);
        }
        Ok(())
    }
}
