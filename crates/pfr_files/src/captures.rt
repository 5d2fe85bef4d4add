//! The captures that a run reads.
ghost use Rattle.std.specs.Prelude.{◌≡◌, IfOk, length};

use crate::failure::{DEVICE, Failure, Place, REFUSED};
use crate::files::opened;
use crate::head::Head;
use crate::origin::Origin;
use crate::standard::is_standard;
use pfr_capture::{CaptureError, ReaderSource};
use pfr_feed::Sources;
use pfr_headers::EthernetAddress;
use pfr_values::CaptureWords;
use std::alloc::{AllocError, AllocGlobal, Global};
use std::io::{Chain, Read};
use std::rt::Files;

/// Where a capture comes from, by the files of a runtime, and by standard input: what was read ahead of it, and the rest.
pub type CaptureSource<R, I> = ReaderSource<Chain<Head, Origin<<R as Files>::File, I>>>;

/// The link type of Ethernet.
const ETHERNET: u16 = 1;

/// Opens the captures, by the places of their interfaces. One at most comes from standard input.
///
/// There is a link-level address, or none, for each of them.
pub fn sources<'a, R: Files + AllocGlobal, I: Read + Drop>(
    rt: &R,
    captures: &[CaptureWords<'a>],
    addresses: &[Option<EthernetAddress>],
    input: I,
) -> Result<Sources<CaptureSource<R, I>>, Failure<'a>>
    requires { length addresses.now ≡ length captures.now }
    ensures { IfOk result (λ sources. length sources ≡ length captures.now) }
{
    let mut input = Some(input);
    let mut sources = Vec::with_capacity(rt.alloc(), captures.len())?;
    for place in 0..captures.len() {
        let source = source(rt, &captures[place], addresses[place].is_some(), &mut input)?;
        sources.push(source).map_err(AllocError::from)?;
    }
    Ok(Sources::new(sources))
}

/// Opens the capture of an interface. If that has a link-level address, the capture has to be one of Ethernet.
fn source<'a, R: Files + AllocGlobal, I: Read + Drop>(
    rt: &R,
    words: &CaptureWords<'a>,
    has_address: bool,
    input: &mut Option<I>,
) -> Result<CaptureSource<R, I>, Failure<'a>> {
    let mut origin = origin(rt, words.capture, input)?;
    let head = if has_address {
        ethernet_head(rt.alloc(), words.interface, &mut origin)?
    } else {
        Head::none(rt.alloc())
    };
    Ok(ReaderSource::new(head.chain(origin)))
}

/// Reads the header of an interface's capture, which has to be one of Ethernet. What is no header is refused by who reads on.
fn ethernet_head<'a, R: Read>(
    alloc: Global,
    interface: &'a str,
    capture: &mut R,
) -> Result<Head, Failure<'a>> {
    let head = Head::of(alloc, capture)?;
    match head.link(alloc) {
        Ok(Some(link)) if link != ETHERNET => Err(Failure::new(
            REFUSED,
            Place::Link(interface, link),
            "",
        )),
        Ok(_) => Ok(head),
        Err(CaptureError::Memory) => Err(Failure::from(AllocError)),
        Err(_) => Err(Failure::new(DEVICE, Place::Committed(None, 0), "read failed")),
    }
}

/// Opens a file or takes standard input, which is taken once.
fn origin<'a, R: Files, I: Read>(
    rt: &R,
    name: &'a str,
    input: &mut Option<I>,
) -> Result<Origin<R::File, I>, Failure<'a>> {
    if !is_standard(name) {
        return Ok(Origin::File(opened(rt, name)?));
    }
    match input.take() {
        Some(input) => Ok(Origin::Standard(input)),
        None => Err(Failure::same_file(name)),
    }
}

/// The names of the interfaces of captures, by their places.
pub fn names_of<'a>(
    alloc: Global,
    captures: &[CaptureWords<'a>],
) -> Result<Vec<&'a str>, AllocError> {
    let mut names = Vec::new(alloc);
    for words in captures {
        names.push(words.interface)?;
    }
    Ok(names)
}
