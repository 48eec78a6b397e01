//! Where the clients stand, which are kept in no order.

use std::alloc::{AllocError, Global};

// Where the client of a free slot stands.
const NOWHERE: usize = usize::MAX;

/// Where the client of each slot stands among all.
#[derive(Drop)]
pub(crate) struct Seating {
    // By slot.
    places: Vec<usize>,
    // By place: the slot of the client that stands there.
    seated: Vec<usize>,
}

impl Seating {
    // No client, and so many free slots.
    pub fn new(alloc: Global, slots: usize) -> Result<Seating, AllocError> {
        let seated = Vec::with_capacity(alloc, slots)?;
        let places = vec![in alloc; NOWHERE; slots]?;
        Ok(Seating { places, seated })
    }

    // Where the client of this slot stands; no place is so high where it has none.
    pub fn place(&self, slot: usize) -> usize {
        match self.places.get(slot) {
            Some(place) => *place,
            None => NOWHERE,
        }
    }

    fn set(&mut self, slot: usize, at: usize) {
        if let Some(place) = self.places.get_mut(slot) {
            *place = at;
        }
    }

    // The client of this slot stands last.
    pub fn add(&mut self, slot: usize) {
        let at = self.seated.len();
        self.set(slot, at);
        let _ = self.seated.push(slot);
    }

    // The client of this slot, which stands here, goes, and the last one stands here then.
    pub fn remove(&mut self, slot: usize, at: usize) {
        if at >= self.seated.len() {
            return;
        }
        let _ = self.seated.swap_remove(at);
        self.set(slot, NOWHERE);
        if let Some(moved) = self.seated.get(at).copied() {
            self.set(moved, at);
        }
    }
}
