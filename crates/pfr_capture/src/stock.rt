//! Buffers that are used again.
ghost use Rattle.std.specs.Prelude.{◌≡◌, []};

use std::alloc::Global;

/// The longest buffer that is kept, so that a few long records don't hold memory for the rest of a capture.
const LONGEST: usize = 16384;

/// Buffers of records that aren't needed any more.
#[derive(Drop)]
pub(crate) struct Stock {
    alloc: Global,
    buffers: Vec<Vec<u8>>,
}

impl Stock {
    /// No buffers.
    pub(crate) fn new(alloc: Global) -> Stock {
        Stock {
            alloc,
            buffers: Vec::new(alloc),
        }
    }

    /// An empty buffer: one that was kept, or a new one.
    pub(crate) fn take(&mut self) -> Vec<u8>
        ensures { result.items ≡ [] }
    {
        match self.buffers.pop() {
            Some(mut buffer) => {
                buffer.clear();
                buffer
            }
            None => Vec::new(self.alloc),
        }
    }

    /// Keeps a buffer, unless it is long. If there is no memory for its place, it is freed.
    pub(crate) fn keep(&mut self, buffer: Vec<u8>) {
        if buffer.capacity() <= LONGEST {
            let _ = self.buffers.push(buffer);
        }
    }
}
