//! The connection to whom messages go to or come from.
use crate::failure::Failure;
use pfr_values::Peer;
use std::io;
use std::io::Write;
use std::net::{Net, OpenListener, OpenStream, Shutdown, TcpListener, TcpStream};

/// A connection that is written to alone. At its end the writing side is shut down, so that the peer sees that no more comes.
pub struct Connection<S: OpenStream + Drop> {
    stream: S,
}

impl<S: OpenStream + Drop> Drop for Connection<S> {
    fn drop(self) {
        let Connection { stream } = self;
        // If this fails, the connection is gone already.
        let _ = stream.shutdown(Shutdown::Write);
    }
}

impl<S: Write + OpenStream + Drop> Write for Connection<S> {
    ghost contents = { λ connection. S.contents connection.stream };

    fn write(&mut self, piece: &[u8]) -> io::Result<usize> {
        self.stream.write(piece)
    }

    fn flush(&mut self) -> io::Result<()> {
        self.stream.flush()
    }
}

/// A connection to a peer.
pub fn connected<'a, R: Net>(
    rt: &R,
    peer: &Peer<'a>,
) -> Result<Connection<R::Stream>, Failure<'a>> {
    match TcpStream::connect(rt, (peer.host, peer.port.0)) {
        Ok(stream) => Ok(Connection { stream }),
        Err(error) => Err(Failure::of_opening(peer.word, &error)),
    }
}

/// The first connection to an address of this machine. No other one is taken: the listener is closed then.
pub fn accepted<'a, R: Net>(rt: &R, address: &Peer<'a>) -> Result<R::Stream, Failure<'a>> {
    first_connection(rt, address).map_err(|error| Failure::of_opening(address.word, &error))
}

fn first_connection<R: Net>(rt: &R, address: &Peer<'_>) -> io::Result<R::Stream> {
    let listener = TcpListener::bind(rt, (address.host, address.port.0))?;
    let (stream, _from) = listener.accept()?;
    Ok(stream)
}
