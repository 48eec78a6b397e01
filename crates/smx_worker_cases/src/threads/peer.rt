//! A scripted peer that tells when it took enough.
use smx_link::{LinkFault, Polled};
use smx_memory_link::{Peer, Script};
use std::sync::atomic::{AtomicBool, Ordering};

/// A script, and a flag that is set once it took so many octets.
#[derive(Drop)]
pub struct Flagged<'a> {
    pub script: Script,
    pub after: usize,
    pub flag: &'a AtomicBool,
}

impl Peer for Flagged<'_> {
    fn give(&mut self, buffer: &mut [u8]) -> Result<Polled, LinkFault> {
        self.script.give(buffer)
    }

    fn take(&mut self, octets: &[u8]) -> Result<usize, LinkFault> {
        let taken = self.script.take(octets);
        if self.script.taken().len() >= self.after {
            self.flag.store(true, Ordering::SeqCst);
        }
        taken
    }
}
