//! A counter, and the notes of its history.
ghost use Rattle.std.specs.Prelude.{◌≡◌, ◌≤◌, ◌<◌, ◌+◌, IfOk, IfErr, IfSome, MatchBool};

use smx_lock::{Kept, Told};

/// A note: the seat with this number added this much.
#[derive(Clone, Copy, PartialEq, Eq, Debug)]
pub struct Added {
    pub by: u64,
    pub amount: u64,
}

/// What one hold did to the counter.
#[derive(Clone, Copy, PartialEq, Eq, Debug)]
pub enum Deed {
    /// It added this much.
    Addition(u64),
    /// It changed nothing.
    Nothing,
}

impl Told<Added> for Deed {
    ghost use Rattle.smx_lock_example.specs.Counting.{notes_told};

    ghost notes = { notes_told };
}

/// A count that stays within a limit. It agrees with the additions whose total it is.
#[derive(Drop)]
pub struct Counter {
    pub count: u64,
    pub limit: u64,
}

impl Kept for Counter {
    type Note = Added;

    type Fixed = u64;

    ghost use Rattle.std.specs.Prelude.{◌≡◌};
    ghost use Rattle.smx_lock_example.specs.Counting.{by, total};

    ghost writer = { by };

    ghost fixed = { λ c. c.limit };

    ghost some_fixed = { 0 };

    ghost agrees = { λ c h. c.count ≡ total h };
}

impl Counter {
    /// A counter at 0.
    pub fn new(limit: u64) -> Counter
        ensures count { result.count ≡ 0 }
        ensures limit { result.limit ≡ limit }
    {
        Counter { count: 0, limit }
    }

    /// Adds, and answers whether the sum kept the limit. Where it does not, nothing changes.
    pub fn add(&mut self, amount: u64) -> bool
        ensures limit { self.new.limit ≡ self.old.limit }
        ensures added { MatchBool result ((self.new.count ≡ self.old.count + amount)
            × (self.old.count + amount ≤ self.old.limit))
            ((self.new.count ≡ self.old.count) × (self.old.limit < self.old.count + amount)) }
    {
        if self.count <= self.limit && amount <= self.limit - self.count {
            self.count += amount;
            true
        } else {
            false
        }
    }
}
