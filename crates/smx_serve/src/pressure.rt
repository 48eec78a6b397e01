//! What may wait for a round while a lane is pressed.

use std::alloc::{AllocError, Global};

/// A lane is pressed where its window is full, and as many requests wait behind it, though its last turn settled
/// half of it at once. Then a client that has requests under way is soon told of more, and what was said to it may
/// wait for that, so that one write takes both: up to the next round, and at most a millisecond.
#[derive(Drop)]
pub(crate) struct Pressure {
    // The number of the round.
    round: u64,
    // The moment at which a lane was found so last, in milliseconds.
    found: Option<u64>,
    // By party, since which round its octets are held back: 0 where they aren't.
    held: Vec<u64>,
}

impl Pressure {
    /// None, for so many parties. It takes the memory for all of them.
    pub fn new(alloc: Global, parties: usize) -> Result<Pressure, AllocError> {
        Ok(Pressure {
            round: 0,
            found: None,
            held: vec![in alloc; 0; parties]?,
        })
    }

    /// The next round begins.
    pub fn begin_round(&mut self) {
        self.round = self.round.saturating_add(1);
    }

    /// A lane is pressed at this moment.
    pub fn note(&mut self, now: u64) {
        self.found = Some(now);
    }

    /// Whether one was found so at this moment.
    pub fn is_on(&self, now: u64) -> bool {
        self.found == Some(now)
    }

    /// Whether a party's octets are held back in this round: where they weren't in the one before.
    pub fn holds(&mut self, party: usize) -> bool {
        match self.held.get_mut(party) {
            Some(since) if *since == 0 || *since == self.round => {
                *since = self.round;
                true
            }
            _ => false,
        }
    }

    /// A party's octets are written.
    pub fn let_go(&mut self, party: usize) {
        if let Some(since) = self.held.get_mut(party) {
            *since = 0;
        }
    }
}
