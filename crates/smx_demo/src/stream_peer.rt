//! A connection as the other end of a link.
use smx_link::{LinkFault, Polled};
use smx_memory_link::Peer;
use std::io::{self, ErrorKind, Read, Write};
use std::net::TcpStream;
use std::time::Duration;

/// How long a read waits, in milliseconds.
const PATIENCE: u64 = 20;

/// A connection whose reads wait a little, and whose writes wait until they are taken.
#[derive(Drop)]
pub(crate) struct StreamPeer {
    stream: TcpStream,
}

impl StreamPeer {
    pub(crate) fn new(stream: TcpStream) -> io::Result<StreamPeer> {
        stream.set_nodelay(true)?;
        stream.set_read_timeout(Some(Duration::from_millis(PATIENCE)))?;
        Ok(StreamPeer { stream })
    }
}

impl Peer for StreamPeer {
    fn give(&mut self, buffer: &mut [u8]) -> Result<Polled, LinkFault> {
        match self.stream.read(buffer) {
            Ok(0) => Ok(Polled::End),
            Ok(count) => Ok(Polled::Octets(count)),
            Err(fault) => match fault.kind() {
                ErrorKind::WouldBlock | ErrorKind::TimedOut | ErrorKind::Interrupted => {
                    Ok(Polled::Nothing)
                }
                _ => Err(LinkFault),
            },
        }
    }

    fn take(&mut self, octets: &[u8]) -> Result<usize, LinkFault> {
        match self.stream.write_all(octets) {
            Ok(()) => Ok(octets.len()),
            Err(_) => Err(LinkFault),
        }
    }
}
