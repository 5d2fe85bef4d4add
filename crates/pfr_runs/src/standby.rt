//! What `pfreplay standby` does.
use pfr_capture::{ReaderSource, Source, WriterSink};
use pfr_command::Stream;
use pfr_files::{DEVICE, DONE, Failure, NO_MEMORY, Place, REFUSED, accepted, origin_of};
use pfr_out::{Framing, StandbyStop, standby};
use pfr_sync::SyncError;
use std::alloc::Global;
use std::io::{Read, Write};
use std::net::Net;
use std::rt::Files;

/// Takes the messages of a run, prints the states that a standby holds then, and answers the status.
pub fn stand_by<'a, R: Files + Net + AllocGlobal, I: Read + Drop, O: Write>(
    rt: &R,
    stream: &Stream<'a>,
    input: I,
    out: &mut O,
) -> Result<u8, Failure<'a>> {
    match stream {
        Stream::File(name) => {
            let mut source = ReaderSource::new(origin_of(rt, name, input)?);
            print_states(rt.alloc(), &mut source, Framing::File, out)
        }
        Stream::Listen(address) => {
            let mut source = ReaderSource::new(accepted(rt, address)?);
            print_states(rt.alloc(), &mut source, Framing::Bare, out)
        }
    }
}

/// Prints the states that a standby holds after the messages of a source.
fn print_states<'a, S: Source, O: Write>(
    alloc: Global,
    source: &mut S,
    framing: Framing,
    out: &mut O,
) -> Result<u8, Failure<'a>> {
    let mut sink = WriterSink::new(out);
    match standby(alloc, source, framing, &mut sink) {
        Ok(_taken) => Ok(DONE),
        Err(stop) => Err(failure_of(stop)),
    }
}

/// What is said if a standby hasn't taken all messages.
fn failure_of<'a>(stop: StandbyStop) -> Failure<'a> {
    match stop {
        StandbyStop::Message(number, refusal) => {
            Failure::new(REFUSED, Place::Message(number, code_of(refusal)), "")
        }
        StandbyStop::Read(taken) => { Failure::new(DEVICE, Place::Messages(taken), "read failed") }
        StandbyStop::Write(taken) => {
            Failure::new(DEVICE, Place::Messages(taken), "write failed")
        }
        StandbyStop::Memory(taken) => {
            Failure::new(NO_MEMORY, Place::Messages(taken), "no memory")
        }
    }
}

/// The number by which the program names why a message is refused.
fn code_of(refusal: SyncError) -> u8 {
    match refusal {
        SyncError::Short => 1,
        SyncError::Version => 2,
        SyncError::Length => 3,
        SyncError::Action(_) => 4,
        SyncError::Count => 5,
        SyncError::NoEnd => 6,
        SyncError::Trailing => 7,
        SyncError::UnknownState => 8,
        SyncError::Memory => 9,
        SyncError::Fixed(_) => 10,
    }
}
