//! What is printed of packets, one after the other.
use crate::joining::{Met, Run};
use crate::json::append_json;
use crate::moment::{Calendar, Moment, is_fine};
use crate::pflog::{append_opening, append_record};
use crate::selection::Selection;
use crate::shown::Shown;
use crate::text::append_text;
use crate::walking::{Stopped, Taker};
use pfr_capture::{Record, Resolution, Sink, write_all};
use pfr_packet::Outcome;
use std::alloc::{AllocError, Global};

/// How many bytes are printed at a time, and a packet more.
const PIECE: usize = 65536;

/// How packets are shown.
#[derive(Clone, Copy)]
pub enum Form {
    /// A line for each.
    Text,
    /// An object of JSON for each, on a line of its own.
    Json,
    /// A capture as pflog(4) has it.
    Pflog,
    /// Nothing: they are counted.
    Count,
}

/// Which packets are printed, and how.
#[derive(Clone, Copy)]
pub struct Asked<'a> {
    /// The run that they are joined with.
    pub run: Run<'a>,
    /// The names of its interfaces, by their places.
    pub names: &'a [&'a str],
    /// Which of them are shown.
    pub selection: Selection,
    pub form: Form,
}

/// Prints the selected packets into a sink, in the order in which it takes them.
#[derive(Drop)]
pub struct Printer<'a, K> {
    asked: Asked<'a>,
    sink: &'a mut K,
    /// What the headers of the captures say, by their places.
    forms: Vec<pfr_capture::Form>,
    /// Whether what is printed counts nanoseconds.
    is_fine: bool,
    calendar: Calendar,
    /// How many packets were selected.
    shown: u64,
    /// What isn't printed yet.
    text: Vec<u8>,
}

/// Whether one of these captures counts nanoseconds.
fn is_one_fine(forms: &[pfr_capture::Form]) -> bool {
    for form in forms {
        if is_fine(form.resolution) {
            return true;
        }
    }
    false
}

/// The resolution of a packet's capture.
fn resolution_of(forms: &[pfr_capture::Form], packet: &Record) -> Resolution {
    match forms.get(usize::from(packet.place)) {
        Some(form) => form.resolution,
        None => Resolution::Microseconds,
    }
}

impl<'a, K: Sink> Printer<'a, K> {
    /// Prints packets of captures into a sink.
    pub fn new(alloc: Global, asked: Asked<'a>, sink: &'a mut K) -> Printer<'a, K> {
        Printer {
            asked,
            sink,
            forms: Vec::new(alloc),
            is_fine: false,
            calendar: Calendar::new(alloc),
            shown: 0,
            text: Vec::new(alloc),
        }
    }

    /// How many packets it has shown, or counted.
    pub fn shown(&self) -> u64 {
        self.shown
    }

    /// Prints what isn't printed yet.
    fn print(&mut self) -> Result<(), Stopped> {
        let printed = write_all(self.sink, self.text.as_slice());
        self.text.clear();
        match printed {
            Ok(()) => Ok(()),
            Err(_) => Err(Stopped::Printing),
        }
    }

    /// Appends a packet that came to `outcome`, if it is selected.
    fn append(&mut self, met: Met<'_>, outcome: &Outcome) -> Result<(), AllocError> {
        let names = self.asked.names;
        let interface = names
            .get(usize::from(met.packet.place))
            .copied()
            .unwrap_or("");
        let resolution = resolution_of(self.forms.as_slice(), met.packet);
        let moment = Moment::of(met.packet, resolution);
        let shown = Shown::of(self.asked.run, met, outcome, interface, moment);
        if !self.asked.selection.holds(&shown) {
            return Ok(());
        }
        self.shown = self.shown.saturating_add(1);
        self.append_shown(&shown)
    }

    /// Appends a packet.
    fn append_shown(&mut self, shown: &Shown<'_>) -> Result<(), AllocError> {
        match self.asked.form {
            Form::Text => append_text(&mut self.text, &mut self.calendar, shown),
            Form::Json => append_json(&mut self.text, shown),
            Form::Pflog => self.append_logged(shown),
            Form::Count => Ok(()),
        }
    }

    /// Appends a packet as pflog(4) writes it.
    fn append_logged(&mut self, shown: &Shown<'_>) -> Result<(), AllocError> {
        match self.forms.get(usize::from(shown.met.packet.place)) {
            Some(form) => append_record(&mut self.text, shown, form.order, self.is_fine),
            None => Ok(()),
        }
    }
}

impl<K: Sink> Taker for Printer<'_, K> {
    fn begin(&mut self, forms: Vec<pfr_capture::Form>) -> Result<(), Stopped> {
        self.is_fine = is_one_fine(forms.as_slice());
        self.forms = forms;
        match self.asked.form {
            Form::Pflog => Ok(append_opening(&mut self.text, self.is_fine)?),
            Form::Text | Form::Json | Form::Count => Ok(()),
        }
    }

    fn take(&mut self, met: Met<'_>, outcome: &Outcome) -> Result<(), Stopped> {
        self.append(met, outcome)?;
        if self.text.len() >= PIECE {
            self.print()?;
        }
        Ok(())
    }

    fn rest(&mut self) -> Result<(), Stopped> {
        self.print()
    }
}
