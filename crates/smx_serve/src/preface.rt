//! What stands before a client's PDUs where the listener has `proxy_protocol`.

use smx_link::Polled;
use smx_proxy_header::{ProxyHeader, Source, read_proxy_header};
use smx_socket::{Answers, Socket};
use std::alloc::Global;

/// The octets of a header in front of its addresses.
const FIXED: usize = 16;

/// The header of the PROXY protocol that a connection begins with, as far as it came.
#[derive(Drop)]
pub(crate) struct Preface {
    octets: Vec<u8>,
}

/// How far a header has come.
#[derive(Clone, Copy)]
pub(crate) enum Prefaced {
    /// More of it is to come.
    Waits,
    /// It is whole. None where the connection's own address stands.
    Whole(Option<Source>),
    /// The connection begins with something else, or has ended.
    Wrong,
}

// How many octets of a header that begins so are still to come, as far as that is known.
fn wanted(octets: &[u8]) -> usize {
    let (Some(high), Some(low)) = (octets.get(14), octets.get(15)) else {
        return FIXED.saturating_sub(octets.len());
    };
    let length = usize::from(u16::from_be_bytes([*high, *low]));
    FIXED.saturating_add(length).saturating_sub(octets.len())
}

impl Preface {
    pub fn new(alloc: Global) -> Preface {
        Preface {
            octets: Vec::new(alloc),
        }
    }

    // What the octets that came are.
    fn judged(&self) -> Prefaced {
        match read_proxy_header(self.octets.as_slice()) {
            ProxyHeader::Part => Prefaced::Waits,
            ProxyHeader::Whole {
                source: Source::Local,
                ..
            } => Prefaced::Whole(None),
            ProxyHeader::Whole { source, .. } => Prefaced::Whole(Some(source)),
            ProxyHeader::Wrong => Prefaced::Wrong,
        }
    }

    // Reads once, no more than the header still wants. None where that is all for now.
    fn read_some(&mut self, socket: &Socket) -> Option<Prefaced> {
        let mut buffer = [0u8; 256];
        let room = wanted(self.octets.as_slice()).min(buffer.len());
        if room == 0 {
            return Some(Prefaced::Wrong);
        }
        let Some(place) = buffer.get_mut(..room) else {
            return Some(Prefaced::Wrong);
        };
        match socket.poll_read(place, &mut Answers::new()) {
            Ok(Polled::Octets(count)) => {
                let came = place.get(..count as usize).unwrap_or(&[]);
                if self.octets.extend_from_slice(came).is_err() {
                    return Some(Prefaced::Wrong);
                }
                match self.judged() {
                    Prefaced::Waits => None,
                    judged => Some(judged),
                }
            }
            Ok(Polled::Nothing) => Some(Prefaced::Waits),
            Ok(Polled::End) | Err(_) => Some(Prefaced::Wrong),
        }
    }

    /// Reads on, and nothing of what follows the header.
    pub fn read(&mut self, socket: &Socket) -> Prefaced {
        for _ in 0..u64::MAX {
            if let Some(prefaced) = self.read_some(socket) {
                return prefaced;
            }
        }
        Prefaced::Wrong
    }
}
