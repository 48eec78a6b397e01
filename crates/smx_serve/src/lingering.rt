//! The sockets of clients that are gone.

use smx_socket::{Drained, Flushed, Socket};
use std::alloc::{AllocError, Global};
use std::rc::Rc;

/// How long such a socket stays open, in milliseconds.
const LINGER: u64 = 2_000;

// The socket of a client that is gone, until all is written and its peer has closed too, or until this
// moment. Octets that nobody reads before a socket is closed make the system reset the connection, and
// then the peer loses what it hasn't read yet; so what comes is dropped until it has read all.
#[derive(Drop)]
struct Leftover {
    socket: Rc<Socket>,
    until: u64,
    was_bound: bool,
}

/// What becomes of such a socket.
#[derive(Clone, Copy, PartialEq, Eq)]
pub(crate) enum Parting {
    /// An event tells of it.
    Waits,
    /// It may have more to read now.
    Reads,
    Over,
}

impl Leftover {
    // Writes what waits, ends the writing side once nothing does, and reads once.
    fn settle(&self, now: u64) -> Parting {
        let flushed = self.socket.shut_write();
        let drained = self.socket.drain();
        match (flushed, drained) {
            (Flushed::Failed, _) | (Flushed::All, Drained::Ended) => Parting::Over,
            _ if now >= self.until => Parting::Over,
            (_, Drained::More) => Parting::Reads,
            (_, Drained::Nothing | Drained::Ended) => Parting::Waits,
        }
    }
}

/// The sockets of clients that are gone, by the slots that they still hold.
#[derive(Drop)]
pub(crate) struct Lingering {
    places: Vec<Option<Leftover>>,
}

impl Lingering {
    // None at any of so many slots.
    pub fn new(alloc: Global, slots: usize) -> Result<Lingering, AllocError> {
        let mut places = Vec::with_capacity(alloc, slots)?;
        for _ in 0..slots {
            places.push(None)?;
        }
        Ok(Lingering { places })
    }

    // The socket of a client that had the slot lingers from this moment on.
    pub fn add(&mut self, slot: usize, socket: Rc<Socket>, was_bound: bool, now: u64) {
        if let Some(place) = self.places.get_mut(slot) {
            *place = Some(Leftover {
                socket,
                until: now.saturating_add(LINGER),
                was_bound,
            });
        }
    }

    // The slot has none from now on; one that it had is closed.
    pub fn remove(&mut self, slot: usize) {
        if let Some(place) = self.places.get_mut(slot) {
            *place = None;
        }
    }

    // The socket at the slot.
    pub fn socket(&self, slot: usize) -> Option<&Socket> {
        match self.places.get(slot) {
            Some(Some(leftover)) => Some(&leftover.socket),
            _ => None,
        }
    }

    // Whether the slot has that of a client that was never bound.
    pub fn is_of_stranger(&self, slot: usize) -> bool {
        match self.places.get(slot) {
            Some(Some(leftover)) => !leftover.was_bound,
            _ => false,
        }
    }

    // Goes on with the socket at the slot: what becomes of it. It waits where there is none.
    pub fn settle(&self, slot: usize, now: u64) -> Parting {
        match self.places.get(slot) {
            Some(Some(leftover)) => leftover.settle(now),
            _ => Parting::Waits,
        }
    }

    // Whether no slot has one.
    pub fn is_empty(&self) -> bool {
        for place in self.places.as_slice() {
            if place.is_some() {
                return false;
            }
        }
        true
    }

    // Whether one has octets left to write.
    pub fn is_writing(&self) -> bool {
        for place in self.places.as_slice() {
            if let Some(leftover) = place {
                if leftover.socket.has_octets() {
                    return true;
                }
            }
        }
        false
    }
}
