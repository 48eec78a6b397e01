//! A peer that follows a script.
use crate::memory_link::Peer;
use smx_link::{LinkFault, Polled};
use std::alloc::{AllocError, Global};
use std::cmp::Ord;

/// Octets that a peer gives once it took so many.
#[derive(Drop)]
pub struct Piece {
    pub after: usize,
    pub octets: Vec<u8>,
}

/// A peer that gives its pieces in order, each once it took enough octets for it, and keeps what it
/// takes. It takes at most so many octets a write.
#[derive(Drop)]
pub struct Script {
    pieces: Vec<Piece>,
    // The piece that is given now, and how many of its octets were given.
    piece: usize,
    at: usize,
    most: usize,
    taken: Vec<u8>,
    reads: u64,
    writes: u64,
    // Whether each piece is there.
    whole: bool,
    /// After the last piece the link ends.
    pub ends: bool,
    /// Which read fails, from 1 on; 0: none.
    pub failing_read: u64,
    /// Which write fails, from 1 on; 0: none.
    pub failing_write: u64,
}

impl Script {
    /// A script without a piece.
    pub fn new(alloc: Global, most: usize) -> Script {
        Script {
            pieces: Vec::new(alloc),
            piece: 0,
            at: 0,
            most,
            taken: Vec::new(alloc),
            reads: 0,
            writes: 0,
            whole: true,
            ends: false,
            failing_read: 0,
            failing_write: 0,
        }
    }

    /// The script and one piece more. Where memory is wanted, the script without it.
    pub fn and(mut self, after: usize, octets: &[u8]) -> Script {
        let alloc = *self.taken.allocator();
        let added = match Vec::from_slice(alloc, octets) {
            Ok(octets) => self.pieces.push(Piece { after, octets }).is_ok(),
            Err(_) => false,
        };
        self.whole = self.whole && added;
        self
    }

    /// Whether no piece was left out for want of memory.
    pub fn is_whole(&self) -> bool {
        self.whole
    }

    /// Makes room for so many octets more that it is to take.
    pub fn make_room(&mut self, octets: usize) -> Result<(), AllocError> {
        self.taken.reserve(octets)
    }

    /// What it took.
    pub fn taken(&self) -> &[u8] {
        &self.taken
    }

    /// Whether all pieces were given.
    pub fn is_over(&self) -> bool {
        self.piece >= self.pieces.len()
    }
}

impl Peer for Script {
    fn give(&mut self, buffer: &mut [u8]) -> Result<Polled, LinkFault> {
        self.reads = self.reads.saturating_add(1);
        if self.reads == self.failing_read {
            return Err(LinkFault);
        }
        let Some(piece) = self.pieces.get(self.piece) else {
            return Ok(if self.ends {
                Polled::End
            } else {
                Polled::Nothing
            });
        };
        if self.taken.len() < piece.after {
            return Ok(Polled::Nothing);
        }
        let left = piece.octets.get(self.at..).unwrap_or(&[]);
        let count = left.len().min(buffer.len());
        buffer[..count].copy_from_slice(&left[..count]);
        if count == left.len() {
            self.piece = self.piece.saturating_add(1);
            self.at = 0;
        } else {
            self.at = self.at.saturating_add(count);
        }
        Ok(Polled::Octets(count))
    }

    fn take(&mut self, octets: &[u8]) -> Result<usize, LinkFault> {
        self.writes = self.writes.saturating_add(1);
        if self.writes == self.failing_write {
            return Err(LinkFault);
        }
        let count = octets.len().min(self.most);
        match self.taken.extend_from_slice(&octets[..count]) {
            Ok(()) => Ok(count),
            Err(_) => Ok(0),
        }
    }
}
