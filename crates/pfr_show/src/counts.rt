//! How many packets are shown.
use pfr_capture::Tail;
use pfr_texts::append_number;
use std::alloc::AllocError;

/// How many packets there are.
#[derive(Clone, Copy)]
pub struct Counts {
    /// The selected ones.
    pub shown: u64,
    /// All.
    pub packets: u64,
    /// How the captures end: cut if one of them is.
    pub tail: Tail,
}

impl Counts {
    /// Appends `SHOWN of ALL packets`.
    pub fn append(&self, text: &mut Vec<u8>) -> Result<(), AllocError> {
        append_number(text, self.shown)?;
        text.extend_from_slice(b" of ")?;
        append_number(text, self.packets)?;
        match self.tail {
            Tail::Clean => text.extend_from_slice(b" packets\n"),
            Tail::Cut => text.extend_from_slice(b" packets, cut\n"),
        }
    }
}
