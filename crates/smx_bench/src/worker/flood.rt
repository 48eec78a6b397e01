//! A client that keeps a window of requests without an answer.
use smx_frame::Framer;
use smx_link::{LinkFault, Polled};
use smx_memory_link::Peer;
use smx_pdu::command::{RESPONSE, SUBMIT_SM};
use smx_pdu::status::ESME_ROK;
use std::alloc::{AllocError, Global};
use std::cmp::Ord;
use std::sync::atomic::{AtomicU64, Ordering};

/// A bind_transceiver to the account `a` with the password `p`.
const BIND: &[u8; 25] = b"\0\0\0\x19\0\0\0\x09\0\0\0\0\0\0\0\x01a\0p\0\0\x34\0\0\0";

/// A submit_sm to the destination `1`.
const SUBMIT: &[u8; 34] =
    b"\0\0\0\x22\0\0\0\x04\0\0\0\0\0\0\0\x07\0\0\0\0\0\01\0\0\0\0\0\0\0\0\0\0\0";

/// How many requests a client has without an answer at most.
const WINDOW: u64 = 10;

/// The client's end of a link: it binds, and submits whenever its window has room.
#[derive(Drop)]
pub(crate) struct Flood<'a> {
    framer: Framer,
    // Octets that the link is given, and how many of them it was.
    octets: Vec<u8>,
    at: usize,
    submitted: u64,
    answered: u64,
    // How many requests were answered over all clients.
    all: &'a AtomicU64,
    // How many requests it submits.
    most: u64,
}

impl<'a> Flood<'a> {
    /// A client that submits so many requests.
    pub(crate) fn new(
        alloc: Global,
        all: &'a AtomicU64,
        most: u64,
    ) -> Result<Flood<'a>, AllocError> {
        Ok(Flood {
            framer: Framer::new(alloc, 65_536),
            octets: Vec::from_slice(alloc, BIND)?,
            at: 0,
            submitted: 0,
            answered: 0,
            all,
            most,
        })
    }

    // Fills the window. Where memory is wanted, with less.
    fn submit_all(&mut self) {
        self.octets.clear();
        self.at = 0;
        for _ in 0..WINDOW {
            let unanswered = self.submitted.saturating_sub(self.answered);
            if self.submitted >= self.most || unanswered >= WINDOW {
                return;
            }
            if self.octets.extend_from_slice(SUBMIT).is_err() {
                return;
            }
            self.submitted = self.submitted.saturating_add(1);
        }
    }

    // Counts the responses that it was written, but no refusal.
    fn count_responses(&mut self) {
        for _ in 0..u64::MAX {
            let Ok(Some(pdu)) = self.framer.next_pdu() else {
                return;
            };
            if pdu.command == RESPONSE | SUBMIT_SM && pdu.status == ESME_ROK {
                self.answered = self.answered.saturating_add(1);
                self.all.fetch_add(1, Ordering::SeqCst);
            }
        }
    }
}

impl Peer for Flood<'_> {
    fn give(&mut self, buffer: &mut [u8]) -> Result<Polled, LinkFault> {
        if self.at >= self.octets.len() {
            self.submit_all();
        }
        let left = self.octets.get(self.at..).unwrap_or(&[]);
        let count = left.len().min(buffer.len());
        buffer[..count].copy_from_slice(&left[..count]);
        self.at = self.at.saturating_add(count);
        Ok(match count {
            0 => Polled::Nothing,
            count => Polled::Octets(count),
        })
    }

    fn take(&mut self, octets: &[u8]) -> Result<usize, LinkFault> {
        if self.framer.feed(octets).is_err() {
            return Err(LinkFault);
        }
        self.count_responses();
        Ok(octets.len())
    }
}
