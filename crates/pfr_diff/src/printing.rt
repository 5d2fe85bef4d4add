//! What is printed of a comparison, in words or as JSON.
use crate::changes::Told;
use crate::comparing::Compared;
use crate::json::{put_cause, put_end, put_sums};
use crate::telling::{append_cause, append_end, append_sums};
use std::alloc::{AllocError, Global};

impl Told<'_> {
    /// How many causes there are.
    pub fn len(&self) -> usize {
        self.causes.len()
    }

    /// Appends the line of a cause, by its place among them. The run has interfaces of these names.
    pub fn append_cause(
        &self,
        as_json: bool,
        interfaces: &[&str],
        place: usize,
        text: &mut Vec<u8>,
    ) -> Result<(), AllocError> {
        match self.causes.get(place) {
            Some(cause) if as_json => put_cause(text, interfaces, cause),
            Some(cause) => append_cause(text, interfaces, cause),
            None => Ok(()),
        }
    }

    /// Appends a line for each pair of decisions.
    pub fn append_sums(&self, as_json: bool, text: &mut Vec<u8>) -> Result<(), AllocError> {
        if as_json {
            put_sums(text, self.sums.as_slice())
        } else {
            append_sums(text, self.sums.as_slice())
        }
    }
}

impl<'a> Compared<'a> {
    /// What is told of the packets that change.
    pub fn told(&self, alloc: Global) -> Result<Told<'a>, AllocError> {
        self.changes.told(alloc)
    }

    /// Whether no packet changes, but one that wasn't judged might.
    pub fn is_unjudged(&self) -> bool {
        self.changes.is_empty()
            && (self.unjudged.leaves_open(self.packets) || self.untried.count() > 0)
    }

    /// How many differences no packet could have asked.
    pub(crate) fn differences(&self) -> u64 {
        self.untried.count() as u64
    }

    /// Appends what stands behind the lines about packets that change: lines about what isn't judged, and one for all
    /// packets.
    pub fn append_end(
        &self,
        alloc: Global,
        as_json: bool,
        text: &mut Vec<u8>,
    ) -> Result<(), AllocError> {
        if as_json {
            put_end(alloc, text, self)
        } else {
            append_end(text, self)
        }
    }
}
