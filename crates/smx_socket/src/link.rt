//! A link over a socket.

use crate::connection::Answers;
use crate::socket::Socket;
use smx_link::{Link, LinkFault, Polled};
use std::rc::Rc;

/// A peer's octets over a socket. What is written goes out when the socket is flushed, so that all
/// that some turns say goes in one call of the system. A fault that a flush meets is told by the next
/// call.
#[derive(Drop)]
pub struct SocketLink {
    socket: Rc<Socket>,
    answers: Answers,
}

impl SocketLink {
    /// A link without a past.
    pub fn new(socket: Rc<Socket>) -> SocketLink {
        SocketLink {
            socket,
            answers: Answers::new(),
        }
    }
}

impl Link for SocketLink {
    ghost given = { λ l. l.answers.given };

    ghost taken = { λ l. l.answers.taken };

    ghost offered = { λ l. l.answers.offered };

    ghost polls = { λ l. l.answers.polls };

    ghost failures = { λ l. l.answers.failures };

    fn poll_read(&mut self, buffer: &mut [u8]) -> Result<Polled, LinkFault> {
        self.socket.poll_read(buffer, &mut self.answers)
    }

    fn write(&mut self, octets: &[u8]) -> Result<usize, LinkFault> {
        self.socket.write(octets, &mut self.answers)
    }

    fn faults(&self) -> u64 {
        self.answers.failures()
    }
}
