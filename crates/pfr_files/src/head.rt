//! The header of a capture, read ahead.
ghost use Rattle.std.specs.Prelude.{◌≡◌, ◌<◌, [], length, IfOk, IfSome, OnOk, Some};
ghost use Rattle.std.specs.Io.KnownBytes.{Consumes};
ghost use Rattle.pfr_files.specs.Heads.{MoreRead, link_in, remaining_in};

use pfr_capture::{Capture, CaptureError, Mem};
use std::alloc::{AllocError, Global};
use std::io;
use std::io::{Cursor, Read};

/// How many bytes the header of a capture has.
const HEADER: usize = 24;

/// The first bytes of a capture, which were read ahead, and how reading them failed, if it did. A reader of the capture meets them
/// first, and the failure behind them.
#[derive(Drop)]
pub struct Head {
    bytes: Cursor<Vec<u8>>,
    failure: Option<io::Error>,
}

impl Read for Head {
    ghost remaining = { remaining_in };

    fn read(&mut self, piece: &mut [u8]) -> io::Result<usize> {
        let count = self.bytes.read(piece)?;
        if count == 0 && !piece.is_empty() {
            if let Some(failure) = self.failure.take() {
                return Err(failure);
            }
        }
        Ok(count)
    }
}

impl Head {
    /// Nothing that was read ahead.
    pub fn none(alloc: Global) -> Head
        ensures { remaining_in result ≡ Some [] }
    {
        Head {
            bytes: Cursor::new(Vec::new(alloc)),
            failure: None,
        }
    }

    /// Reads the header of a capture, as far as there is one.
    pub fn of<R: Read>(alloc: Global, capture: &mut R) -> Result<Head, AllocError>
        ensures { IfOk result (λ head. IfSome (remaining_in head) (Consumes (R.remaining capture.old) (R.remaining capture.new))) }
    {
        let mut bytes = Vec::new(alloc);
        let failure = fill(&mut bytes, capture)?;
        Ok(Head {
            bytes: Cursor::new(bytes),
            failure,
        })
    }

    /// The link type that they say, if they are the header of a capture.
    pub fn link(&self, alloc: Global) -> Result<Option<u16>, CaptureError>
        ensures { IfOk result (λ link. link ≡ link_in self.now.bytes.inner.items) }
    {
        link_of(
            Vec::from_slice(alloc, self.bytes.get_ref().as_slice())?,
            alloc,
        )
    }
}

/// Reads on until there are as many bytes as a header has, the input ends, or reading fails, and answers the failure.
fn fill<R: Read>(bytes: &mut Vec<u8>, capture: &mut R) -> Result<Option<io::Error>, AllocError>
    requires { bytes.old.items ≡ [] }
    ensures { OnOk result (Consumes (R.remaining capture.old) (R.remaining capture.new) bytes.new.items) }
{
    for _turn in 0..HEADER {
        if bytes.len() >= HEADER {
            return Ok(None);
        }
        match read_on(bytes, capture)? {
            Ok(true) => {}
            Ok(false) => return Ok(None),
            Err(failure) => return Ok(Some(failure)),
        }
    }
    Ok(None)
}

/// Reads once, not past a header's end, and answers whether more may come.
fn read_on<R: Read>(bytes: &mut Vec<u8>, capture: &mut R) -> Result<io::Result<bool>, AllocError>
    requires { length bytes.old.items < 24 }
    ensures { OnOk result (MoreRead (R.remaining capture.old) (R.remaining capture.new) bytes.old.items bytes.new.items) }
{
    let mut piece = [0; HEADER];
    let wanted = HEADER - bytes.len();
    match capture.read(&mut piece[..wanted]) {
        Ok(count) => {
            bytes.extend_from_slice(&piece[..count])?;
            Ok(Ok(0 < count))
        }
        Err(failure) => Ok(Err(failure)),
    }
}

/// The link type in the header at the front of these bytes, if they begin with one.
fn link_of(bytes: Vec<u8>, alloc: Global) -> Result<Option<u16>, CaptureError>
    ensures { IfOk result (λ link. link ≡ link_in bytes.items) }
{
    match Capture::open(alloc, &mut Mem::new(bytes)) {
        Ok(capture) => Ok(Some(capture.form().link)),
        Err(CaptureError::LinkType(link)) => Ok(Some(link)),
        Err(CaptureError::Memory) => Err(CaptureError::Memory),
        Err(CaptureError::Read) => Err(CaptureError::Read),
        Err(_) => Ok(None),
    }
}
