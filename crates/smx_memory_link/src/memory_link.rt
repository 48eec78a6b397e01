//! A link whose other end is a value.

use smx_link::{Link, LinkFault, Polled};
use smx_trace::Trace;
use std::cmp::Ord;

/// The other end of a link.
pub trait Peer {
    /// What it has for the link now. Of a count above the buffer's length the rest counts as not
    /// given.
    fn give(&mut self, buffer: &mut [u8]) -> Result<Polled, LinkFault>;

    /// How many octets it takes, from the first on. Of a count above their number the rest counts
    /// as nothing.
    fn take(&mut self, octets: &[u8]) -> Result<usize, LinkFault>;
}

/// A link to a peer in memory. A fault of the peer is a fault of the link, as long as these can be
/// counted; after that it reads as the end, and nothing is taken.
#[derive(Drop)]
pub struct MemoryLink<P: Peer + Drop> {
    peer: P,
    faults: u64,
    given: Trace<u8>,
    taken: Trace<u8>,
    offered: Trace<u8>,
    polls: Trace<Result<Polled, LinkFault>>,
}

impl<P: Peer + Drop> MemoryLink<P> {
    /// A link to this peer. It takes no memory.
    pub fn new(peer: P) -> MemoryLink<P> {
        MemoryLink {
            peer,
            faults: 0,
            given: Trace::new(),
            taken: Trace::new(),
            offered: Trace::new(),
            polls: Trace::new(),
        }
    }

    /// The other end.
    pub fn peer(&self) -> &P {
        &self.peer
    }
}

impl<P: Peer + Drop> Link for MemoryLink<P> {
    ghost given = { λ l. l.given };

    ghost taken = { λ l. l.taken };

    ghost offered = { λ l. l.offered };

    ghost polls = { λ l. l.polls };

    ghost failures = { λ l. l.faults };

    fn poll_read(&mut self, buffer: &mut [u8]) -> Result<Polled, LinkFault> {
        let room = buffer.len();
        let found = match self.peer.give(buffer) {
            Ok(Polled::Octets(count)) => Ok(Polled::Octets(count.min(room))),
            Err(_) if self.faults == u64::MAX => Ok(Polled::End),
            found => found,
        };
        match found {
            Ok(Polled::Octets(count)) => self.given.extend(&buffer[..count]),
            Ok(_) => {}
            Err(_) => self.faults += 1,
        }
        if room > 0 {
            self.polls = self.polls.and(&found);
        }
        found
    }

    fn write(&mut self, octets: &[u8]) -> Result<usize, LinkFault> {
        self.offered.extend(octets);
        match self.peer.take(octets) {
            Ok(count) => {
                let count = count.min(octets.len());
                self.taken.extend(&octets[..count]);
                Ok(count)
            }
            Err(_) if self.faults == u64::MAX => Ok(0),
            Err(fault) => {
                self.faults += 1;
                Err(fault)
            }
        }
    }

    fn faults(&self) -> u64 {
        self.faults
    }
}
