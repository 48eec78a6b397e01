//! A connection of the system's.
ghost use Rattle.std.specs.Prelude.{◌≡◌, [], false};
ghost use Rattle.smx_socket.specs.Systems.{outcome_of};

use crate::transport::{Outcome, Transport};
use mio::net::TcpStream;
use smx_trace::Trace;
use std::io;
use std::io::{ErrorKind, Read, Write};
use std::net::Shutdown;

/// A connection that doesn't block, by the system's own calls.
#[derive(Drop)]
pub struct Tcp {
    stream: TcpStream,
    // Why the last call that failed did.
    failure: Option<io::Error>,
    is_shut: bool,
    given: Trace<u8>,
    taken: Trace<u8>,
    reads: Trace<Outcome>,
    writes: Trace<Outcome>,
}

impl Tcp {
    /// Over a stream that nobody has read or written.
    pub fn new(stream: TcpStream) -> Tcp
        ensures octets { (result.given ≡ []) × (result.taken ≡ []) }
        ensures answers { (result.reads ≡ []) × (result.writes ≡ []) }
        ensures is_shut { result.is_shut ≡ false }
    {
        Tcp {
            stream,
            failure: None,
            is_shut: false,
            given: Trace::new(),
            taken: Trace::new(),
            reads: Trace::new(),
            writes: Trace::new(),
        }
    }

    /// Why the connection failed, where a call of the system did.
    pub fn failure(&self) -> Option<io::Error> {
        self.failure
    }
}

// Why a call of the system failed: none where it may be made again.
fn failure_of(answer: &io::Result<usize>) -> Option<io::Error> {
    match answer {
        Ok(_) => None,
        Err(error) => match error.kind() {
            ErrorKind::WouldBlock | ErrorKind::Interrupted => None,
            _ => Some(*error),
        },
    }
}

// What the result of a call of the system says.
fn outcome(answer: io::Result<usize>) -> Outcome
    ensures { result ≡ outcome_of answer }
{
    match answer {
        Ok(count) => Outcome::Moved(count),
        Err(error) => match error.kind() {
            ErrorKind::WouldBlock => Outcome::NotNow,
            ErrorKind::Interrupted => Outcome::Retry,
            _ => Outcome::Failed,
        },
    }
}

impl Transport for Tcp {
    ghost given = { λ t. t.given };

    ghost taken = { λ t. t.taken };

    ghost reads = { λ t. t.reads };

    ghost writes = { λ t. t.writes };

    ghost is_shut = { λ t. t.is_shut };

    fn read(&mut self, buffer: &mut [u8]) -> Outcome {
        let answer = self.stream.read(buffer);
        self.failure = failure_of(&answer).or(self.failure);
        let outcome = outcome(answer);
        if let Outcome::Moved(count) = outcome {
            self.given.extend(&buffer[..count]);
        }
        self.reads = self.reads.and(&outcome);
        outcome
    }

    fn write(&mut self, octets: &[u8]) -> Outcome {
        let answer = self.stream.write(octets);
        self.failure = failure_of(&answer).or(self.failure);
        let outcome = outcome(answer);
        if let Outcome::Moved(count) = outcome {
            self.taken.extend(&octets[..count]);
        }
        self.writes = self.writes.and(&outcome);
        outcome
    }

    fn shut_write(&mut self) {
        // Where the system refuses it the connection has ended, as the next read tells.
        let _ = self.stream.shutdown(Shutdown::Write);
        self.is_shut = true;
    }
}
