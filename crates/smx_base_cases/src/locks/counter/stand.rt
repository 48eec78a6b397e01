//! A counter's lock with its seats.
ghost use Rattle.std.specs.Prelude.{◌≡◌, IfSome};

use smx_lock::{LockSeat, Spent, TicketLock, TryFault};
use smx_lock_example::{Adder, Counter, Deed};
use std::alloc::{AllocError, Global};
use std::process::Abort;
use std::sync::Wait;

// How many tickets a lock gives.
const TICKETS: u64 = 4611686018427387904;

/// A lock and its only seat.
#[derive(Drop)]
pub struct Opened {
    pub lock: TicketLock<Counter>,
    pub seat: LockSeat<Counter>,
    ghost fits: { seat.lock ≡ lock },
}

impl Opened {
    /// The lock of a counter with this limit.
    pub fn new(alloc: Global, limit: u64) -> Result<Opened, AllocError> {
        match TicketLock::new(alloc, Counter::new(limit)) {
            Ok((lock, seat)) => Ok(Opened { lock, seat }),
            Err((_, error)) => Err(error),
        }
    }

    /// The lock of a counter with the limit 10 that has so many tickets left.
    pub fn late(alloc: Global, left: u8) -> Result<Opened, AllocError> {
        let first = TICKETS - u64::from(left);
        match TicketLock::new_at(alloc, Counter::new(10), first) {
            Ok((lock, seat)) => Ok(Opened { lock, seat }),
            Err((_, error)) => Err(error),
        }
    }
}

/// Splits a seat off in a hold that is compared with it.
pub fn split<R: Wait + Abort>(
    rt: &R,
    lock: &TicketLock<Counter>,
    seat: LockSeat<Counter>,
) -> (LockSeat<Counter>, LockSeat<Counter>)
    requires { seat.lock ≡ lock.now }
    ensures one { result.0.lock ≡ lock.now }
    ensures two { result.1.lock ≡ lock.now }
{
    let mut held = lock.acquire(rt, seat).ok().expect(rt, "no ticket is left");
    let mut other = lock.split(&mut held).expect(rt, "no second seat");
    lock.compare_held(&mut held, &mut other);
    let seat = lock.release_told(held, &Deed::Nothing);
    (seat, other)
}

/// A lock and two seats.
#[derive(Drop)]
pub struct Pair {
    pub lock: TicketLock<Counter>,
    pub one: LockSeat<Counter>,
    pub two: LockSeat<Counter>,
    ghost one_fits: { one.lock ≡ lock },
    ghost two_fits: { two.lock ≡ lock },
}

impl Pair {
    /// Those of a counter with this limit.
    pub fn new<R: Wait + Abort>(rt: &R, alloc: Global, limit: u64) -> Pair {
        let Opened { lock, seat } = Opened::new(alloc, limit).expect(rt, "no lock");
        let (one, two) = split(rt, &lock, seat);
        Pair { lock, one, two }
    }
}

/// Compares two seats in both orders, and answers their numbers.
pub fn compared(
    lock: &TicketLock<Counter>,
    one: &mut LockSeat<Counter>,
    two: &mut LockSeat<Counter>,
) -> (u64, u64)
    requires one { one.old.lock ≡ lock.now }
    requires two { two.old.lock ≡ lock.now }
    ensures one { one.new.lock ≡ lock.now }
    ensures two { two.new.lock ≡ lock.now }
{
    lock.compare(one, two);
    lock.compare(two, one);
    (one.number(), two.number())
}

/// What a seat's addition is answered.
pub fn added<R: Wait>(
    rt: &R,
    lock: &TicketLock<Counter>,
    seat: LockSeat<Counter>,
    amount: u64,
) -> (LockSeat<Counter>, Result<bool, Spent>)
    requires { seat.lock ≡ lock.now }
    ensures { result.0.lock ≡ lock.now }
{
    let mut adder = Adder::new(seat);
    let done = adder.add(rt, lock, amount);
    (adder.into_seat(), done)
}

/// The count that the last seat reads, and the one that the lock leaves.
pub fn last_counts<R: Wait + Abort>(
    rt: &R,
    lock: TicketLock<Counter>,
    seat: LockSeat<Counter>,
) -> (u64, u64)
    requires { seat.lock ≡ lock }
{
    let mut adder = Adder::new(seat);
    let read = adder.read(rt, &lock).expect(rt, "no ticket is left");
    let counter = adder.finish(lock).expect(rt, "the value is out");
    (read, counter.count)
}

/// Why a try is refused, where it is.
pub fn refused(
    lock: &TicketLock<Counter>,
    seat: LockSeat<Counter>,
) -> Option<(LockSeat<Counter>, TryFault)>
    requires { seat.lock ≡ lock.now }
    ensures { IfSome result (λ r. r.0.lock ≡ lock.now) }
{
    match lock.try_acquire(seat) {
        Ok(held) => {
            lock.release_told(held, &Deed::Nothing);
            None
        }
        Err(refusal) => Some(refusal),
    }
}

/// The seat that waits in vain, since no ticket is left.
pub fn unserved<R: Wait>(
    rt: &R,
    lock: &TicketLock<Counter>,
    seat: LockSeat<Counter>,
) -> Option<LockSeat<Counter>>
    requires { seat.lock ≡ lock.now }
    ensures { IfSome result (λ s. s.lock ≡ lock.now) }
{
    match lock.acquire(rt, seat) {
        Ok(held) => {
            lock.release_told(held, &Deed::Nothing);
            None
        }
        Err((seat, Spent)) => Some(seat),
    }
}
