//! Octets on their way out.
ghost use Rattle.std.specs.Prelude.{◌≡◌, ◌≤◌, ◌<◌, ◌++◌, ◌↔◌, ◌⊎◌, [], take, drop, length, IsTrue, IfOk};

use smx_frame::compact;
use std::alloc::{AllocError, Global};
use std::marker::Model;

/// The most octets that wait.
pub const MOST: usize = 65_536;

/// Octets that were taken and wait to go out, in order: at most 65,536. Contracts see their list.
#[derive(Drop)]
pub struct Outgoing {
    octets: Vec<u8>,
    // How many of these have gone.
    gone: usize,
}

impl Model for Outgoing {
    ghost use Rattle.std.specs.Prelude.{ℕ, List, ◌≤◌, drop, vec_len, vec_capacity};

    ghost Value = { List ℕ };

    ghost view = { λ o. drop o.gone o.octets.items };

    ghost invariant = { λ o. (o.gone ≤ vec_len o.octets) × (vec_len o.octets ≤ 65536)
        × (65536 ≤ vec_capacity o.octets) };
}

impl Outgoing {
    /// None yet. It takes the memory for all that may wait.
    pub fn new(alloc: Global) -> Result<Outgoing, AllocError>
        ensures { IfOk result (λ o. o ≡ []) }
    {
        Ok(Outgoing {
            octets: Vec::with_capacity(alloc, MOST)?,
            gone: 0,
        })
    }

    /// Those that wait.
    pub fn waiting(&self) -> &[u8]
        ensures { result.now ≡ self.now }
    {
        &self.octets[self.gone..]
    }

    /// Whether none waits.
    pub fn is_empty(&self) -> bool
        ensures { IsTrue result ↔ (self.now ≡ []) }
    {
        self.waiting().is_empty()
    }

    /// Takes octets from the first on, as many as there is room for: all of them, or so many that
    /// more than 32,768 wait.
    pub fn accept(&mut self, octets: &[u8]) -> usize
        ensures within { result ≤ length octets.now }
        ensures waits { self.new ≡ self.old ++ take result octets.now }
        ensures full { (result ≡ length octets.now) ⊎ (32768 < length self.new) }
    {
        compact(&mut self.octets, &mut self.gone);
        let count = octets.len().min(MOST - self.octets.len());
        match self.octets.extend_from_slice(&octets[..count]) {
            Ok(()) => count,
            Err(AllocError) => 0,
        }
    }

    /// So many have gone.
    pub fn let_go(&mut self, count: usize)
        requires { count ≤ length self.old }
        ensures { self.new ≡ drop count self.old }
    {
        self.gone += count;
    }
}
