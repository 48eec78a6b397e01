//! The places of clients.

use crate::boxes::ClientEnds;
use std::alloc::{AllocError, Global};

/// The places of clients: which are free, and of those that no worker has them, the ends.
#[derive(Drop)]
pub struct Slots {
    // Here where no worker has them.
    ends: Vec<Option<ClientEnds>>,
    free: Vec<usize>,
}

impl Slots {
    /// A slot for each of these, all free, the least first. Want of memory is answered.
    pub fn new(alloc: Global, all: Vec<ClientEnds>) -> Result<Slots, AllocError> {
        let count = all.len();
        let mut ends = Vec::with_capacity(alloc, count)?;
        for one in all {
            ends.push(Some(one))?;
        }
        let mut free = Vec::with_capacity(alloc, count)?;
        for slot in (0..count).rev() {
            free.push(slot)?;
        }
        Ok(Slots { ends, free })
    }

    /// How many slots there are.
    pub fn count(&self) -> usize {
        self.ends.len()
    }

    /// A free slot, which is no more free, and its ends.
    pub fn pick(&mut self) -> Option<(usize, ClientEnds)> {
        let slot = self.free.pop()?;
        let ends = self.ends.get_mut(slot)?.take()?;
        Some((slot, ends))
    }

    /// Takes the ends of a slot that isn't free yet.
    pub fn keep(&mut self, slot: usize, ends: ClientEnds) {
        if let Some(place) = self.ends.get_mut(slot) {
            *place = Some(ends);
        }
    }

    /// Frees a slot whose ends were taken.
    pub fn free(&mut self, slot: usize) {
        let _ = self.free.push(slot);
    }

    /// Nobody has the slot any more.
    pub fn give_back(&mut self, slot: usize, ends: ClientEnds) {
        self.keep(slot, ends);
        self.free(slot);
    }
}
