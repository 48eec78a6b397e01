//! A caller with one seat.
ghost use Rattle.std.specs.Prelude.{◌≡◌, IfOk, IfErr};
ghost use Rattle.smx_lock.specs.Fronts.{IsSpent, IsLast};
ghost use Rattle.smx_lock_example.specs.Counting.{AddServes, ReadServes, by, limit, agrees};

use crate::{Added, Counter};
use smx_lock::{CriticalSection, LockSeat, SeatInPlace, Spent, StateOut, TicketLock};
use std::marker::Model;
use std::sync::Wait;

/// Contracts see an adder as its seat.
#[derive(Drop)]
pub struct Adder {
    seat: SeatInPlace<Counter>,
}

impl Model for Adder {
    ghost use Rattle.std.specs.Prelude.{ℕ};
    ghost use Rattle.smx_lock.specs.Fronts.{Front};
    ghost use Rattle.smx_lock_example.specs.declared.counter.Added.{Added};

    ghost Value = { Front Added ℕ };

    ghost view = { λ t. t.seat };
}

impl Adder {
    pub fn new(seat: LockSeat<Counter>) -> Adder
        ensures { result ≡ seat }
    {
        Adder {
            seat: SeatInPlace::new(seat),
        }
    }

    pub fn into_seat(self) -> LockSeat<Counter>
        ensures { result ≡ self }
    {
        let Adder { seat } = self;
        seat.into_seat()
    }

    /// Adds under one hold, and answers whether the sum kept the counter's limit.
    pub fn add<R: Wait>(
        &mut self,
        rt: &R,
        lock: &TicketLock<Counter>,
        amount: u64,
    ) -> Result<bool, Spent>
        requires { self.old.lock ≡ lock.now }
        ensures lock { self.new.lock ≡ self.old.lock }
        ensures served { IfOk result (AddServes self.old self.new amount) }
        ensures spent { IfErr result (λ _. IsSpent self.old self.new) }
    {
        match self.seat.hold(rt, lock, Adding { amount }) {
            Ok(done) => Ok(done),
            Err((_, spent)) => Err(spent),
        }
    }

    /// The count, read under one hold.
    pub fn read<R: Wait>(&mut self, rt: &R, lock: &TicketLock<Counter>) -> Result<u64, Spent>
        requires { self.old.lock ≡ lock.now }
        ensures lock { self.new.lock ≡ self.old.lock }
        ensures served { IfOk result (ReadServes self.old self.new) }
        ensures spent { IfErr result (λ _. IsSpent self.old self.new) }
    {
        match self.seat.hold(rt, lock, Reading) {
            Ok(count) => Ok(count),
            Err((_, spent)) => Err(spent),
        }
    }

    /// Ends the lock and gives its counter, which agrees with a history that begins with all that
    /// this adder has seen.
    // As of the lock's own `finish`, no clause says when `StateOut` comes.
    pub fn finish(self, lock: TicketLock<Counter>) -> Result<Counter, StateOut>
        requires { self.lock ≡ lock }
        ensures { IfOk result (IsLast by limit agrees self) }
    {
        lock.finish(self.into_seat())
    }
}

// Adds, and answers whether the sum kept the counter's limit.
#[derive(Drop)]
struct Adding {
    amount: u64,
}

impl CriticalSection<Counter, Added> for Adding {
    ghost use Rattle.smx_lock_example.specs.Counting.{DidAdd, deed_of, notes_told};

    type Answer = bool;

    ghost may = { λ _ _ _. Unit {0} };

    ghost does = { λ s _ old done new. DidAdd old new s.amount done };

    ghost notes = { λ s number _ done. notes_told (deed_of done s.amount) number };

    fn run(self, value: &mut Counter, _number: u64) -> bool {
        value.add(self.amount)
    }
}

// Reads the count.
#[derive(Drop)]
struct Reading;

impl CriticalSection<Counter, Added> for Reading {
    ghost use Rattle.std.specs.Prelude.{◌≡◌, []};

    type Answer = u64;

    ghost may = { λ _ _ _. Unit {0} };

    ghost does = { λ _ _ old count new. (new ≡ old) × (count ≡ old.count) };

    ghost notes = { λ _ _ _ _. [] };

    fn run(self, value: &mut Counter, _number: u64) -> u64 {
        value.count
    }
}
