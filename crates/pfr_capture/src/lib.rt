//! Devices, and the records of a packet capture.
//!
//! A [`Source`] gives bytes, a [`Sink`] takes them, and either may fail at any call. [`Mem`] is both, over
//! bytes in memory; [`ReaderSource`] and [`WriterSink`] are devices over std's readers and writers.
//!
//! [`Capture`] reads the classic pcap format from a source. Its contract says that the records given so
//! far, followed by the bytes not given yet, are those of the source's bytes. A refusal comes only if the
//! format has it, the source failed or memory was refused, and it is for good.
#![tactic(auto)]

pub mod capture;
pub mod device;
pub mod laws;
pub mod memory;
pub mod order;
mod pieces;
pub mod reader;
pub mod reader_source;
mod stock;
pub mod transfer;
pub mod writer_sink;

pub use capture::{CaptureError, Form, Record, Resolution, Tail};
pub use device::{Fault, Sink, Source};
pub use memory::Mem;
pub use order::ByteOrder;
pub use reader::Capture;
pub use reader_source::ReaderSource;
pub use transfer::write_all;
pub use writer_sink::WriterSink;
