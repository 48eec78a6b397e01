//! A peer that is a loopback centre.
ghost use Rattle.std.specs.Prelude.{◌≤◌, Contains, length};

use crate::memory_link::Peer;
use smx_centre::Centre;
use smx_frame::Framer;
use smx_link::{LinkFault, Polled};
use smx_pdu::encode;
use std::alloc::Global;
use std::cmp::Ord;

/// A loopback centre at the other end of a link: it answers what the link takes, at once.
#[derive(Drop)]
pub struct CentrePeer {
    centre: Centre,
    framer: Framer,
    answers: Vec<u8>,
    at: usize,
}

impl CentrePeer {
    /// A peer around this centre.
    pub fn new(alloc: Global, centre: Centre) -> CentrePeer {
        CentrePeer {
            centre,
            framer: Framer::new(alloc, 65_536),
            answers: Vec::new(alloc),
            at: 0,
        }
    }

    /// Lets the centre deliver a message to this destination (at most 20 octets). Where memory is
    /// wanted it doesn't.
    pub fn deliver(&mut self, destination: &[u8])
        requires short { length destination.now ≤ 20 }
        requires plain { ¬ Contains destination.now 0 }
    {
        if let Ok(message) = self.centre.deliver(destination) {
            let _ = encode(&message, &mut self.answers);
        }
    }
}

impl Peer for CentrePeer {
    fn give(&mut self, buffer: &mut [u8]) -> Result<Polled, LinkFault> {
        let left = self.answers.get(self.at..).unwrap_or(&[]);
        let count = left.len().min(buffer.len());
        buffer[..count].copy_from_slice(&left[..count]);
        self.at = self.at.saturating_add(count);
        if count == 0 {
            self.answers.clear();
            self.at = 0;
            return Ok(Polled::Nothing);
        }
        Ok(Polled::Octets(count))
    }

    fn take(&mut self, octets: &[u8]) -> Result<usize, LinkFault> {
        if self.framer.feed(octets).is_err() {
            return Err(LinkFault);
        }
        for _ in 0..u64::MAX {
            let Ok(Some(request)) = self.framer.next_pdu() else {
                break;
            };
            let Ok(answers) = self.centre.on_pdu(&request) else {
                return Err(LinkFault);
            };
            for answer in &answers {
                if encode(answer, &mut self.answers).is_err() {
                    return Err(LinkFault);
                }
            }
        }
        Ok(octets.len())
    }
}
