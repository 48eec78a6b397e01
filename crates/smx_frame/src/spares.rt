//! Lists of bodies that are done with.

use std::alloc::Global;

/// The most octets that a list has room for which is kept.
const OCTETS: usize = 512;

/// How many lists are kept where nothing else is said.
const FEW: usize = 16;

// Lists of bodies that are done with, to be used again: so many at most, each of at most 512 octets.
#[derive(Drop)]
pub(crate) struct Spares {
    lists: Vec<Vec<u8>>,
    most: usize,
}

impl Spares {
    // None, which takes no memory.
    pub fn new(alloc: Global) -> Spares {
        Spares {
            lists: Vec::new(alloc),
            most: FEW,
        }
    }

    // From now on so many are kept.
    pub fn keep(&mut self, most: usize) {
        self.most = most;
    }

    // Keeps a list, where there is room for it and it isn't large. One without memory is worth nothing.
    #[inline(always)]
    pub fn add(&mut self, list: Vec<u8>) {
        let room = list.capacity();
        if room == 0 || room > OCTETS || self.lists.len() >= self.most {
            return;
        }
        let _ = self.lists.push(list);
    }

    // A list that was kept, or one without memory.
    pub fn list(&mut self, alloc: Global) -> Vec<u8> {
        match self.lists.pop() {
            Some(list) => list,
            None => Vec::new(alloc),
        }
    }
}
