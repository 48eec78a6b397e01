ghost use Rattle.std.specs.Prelude.{◌≡◌};
ghost use Rattle.std.specs.Arc.{arc_value};

use crate::locks::counter::stand::{
    Opened, Pair, added, compared, last_counts, refused, split, unserved,
};
use smx_lock::{LockSeat, Spent, StateOut, TicketLock, TryFault};
use smx_lock_example::{Adder, Counter, Deed};
use std::alloc::Global;
use std::process::Abort;
use std::sync::atomic::{AtomicBool, Ordering};
use std::sync::{Arc, Wait};
use std::thread;
use std::thread::{Parker, join};

mod stand;

#[test]
fn one_seat_reads_what_it_added(rt: HostRuntime) {
    let Opened { lock, seat } = Opened::new(rt.alloc(), 10).expect(&rt, "no memory");
    let mut adder = Adder::new(seat);
    let first = (adder.add(&rt, &lock, 1), adder.read(&rt, &lock));
    let second = (adder.add(&rt, &lock, 10), adder.read(&rt, &lock));
    assert!(rt; first == (Ok(true), Ok(1)));
    assert!(rt; second == (Ok(false), Ok(1)));
    let counter = adder.finish(lock).expect(&rt, "the value is out");
    assert!(rt; (counter.count, counter.limit) == (1, 10));
}

// No test makes 2^62 seats, so that a split is refused there is said by its clause alone.
#[test]
fn two_seats_are_compared(rt: HostRuntime) {
    let Pair {
        lock,
        mut one,
        mut two,
    } = Pair::new(&rt, rt.alloc(), 10);
    let before = compared(&lock, &mut one, &mut two);
    let (mut two, done) = added(&rt, &lock, two, 2);
    let after = compared(&lock, &mut one, &mut two);
    assert!(rt; (before, done, after) == ((0, 1), Ok(true), (0, 1)));
    assert!(rt; last_counts(&rt, lock, one) == (2, 2));
}

fn add_many<R: Wait>(
    rt: &R,
    lock: &TicketLock<Counter>,
    seat: LockSeat<Counter>,
) -> LockSeat<Counter>
    requires { seat.lock ≡ lock.now }
    ensures { result.lock ≡ lock.now }
{
    let mut adder = Adder::new(seat);
    for _ in 0..1000 {
        let _ = adder.add(rt, lock, 1);
    }
    adder.into_seat()
}

#[test]
fn two_threads_add(rt: HostRuntime) {
    let Pair { lock, one, two } = Pair::new(&rt, rt.alloc(), 5000);
    let (one, _two) = join(
        &rt,
        || add_many(&rt, &lock, one),
        || add_many(&rt, &lock, two),
    );
    let counter = lock.finish(one).expect(&rt, "the value is out");
    assert!(rt; counter.count == 2000);
}

fn compare_many(
    lock: &TicketLock<Counter>,
    mut one: LockSeat<Counter>,
    mut two: LockSeat<Counter>,
) -> (LockSeat<Counter>, LockSeat<Counter>)
    requires one { one.lock ≡ lock.now }
    requires two { two.lock ≡ lock.now }
    ensures one { result.0.lock ≡ lock.now }
    ensures two { result.1.lock ≡ lock.now }
{
    for _ in 0..1000 {
        lock.compare(&mut one, &mut two);
    }
    (one, two)
}

#[test]
fn seats_are_compared_while_another_thread_adds(rt: HostRuntime) {
    let Pair {
        lock,
        one: seat,
        two: one,
    } = Pair::new(&rt, rt.alloc(), 5000);
    let (seat, two) = split(&rt, &lock, seat);
    let (mut seat, (mut one, two)) = join(
        &rt,
        || add_many(&rt, &lock, seat),
        || compare_many(&lock, one, two),
    );
    let (first, second) = compared(&lock, &mut seat, &mut one);
    assert!(rt; (first, second, two.number()) == (0, 1, 2));
    assert!(rt; last_counts(&rt, lock, two) == (1000, 1000));
}

// A seat's number in a hold that it tries for, and the count found.
fn tried(
    rt: &impl Abort,
    lock: &TicketLock<Counter>,
    seat: LockSeat<Counter>,
) -> (LockSeat<Counter>, (u64, u64))
    requires { seat.lock ≡ lock.now }
    ensures { result.0.lock ≡ lock.now }
{
    let held = lock
        .try_acquire(seat)
        .ok()
        .expect(rt, "a try with nobody there is refused");
    let found = (held.number(), held.value().count);
    (lock.release_told(held, &Deed::Nothing), found)
}

// A hold that splits two seats off.
#[derive(Drop)]
struct Splits {
    // The hold's number, and those of the seats.
    numbers: (u64, u64, u64),
    // What the first of them is answered, which tries beside the hold.
    fault: TryFault,
    seat: LockSeat<Counter>,
    one: LockSeat<Counter>,
}

fn tried_beside(rt: &impl Abort, lock: &TicketLock<Counter>, seat: LockSeat<Counter>) -> Splits
    requires { seat.lock ≡ lock.now }
    ensures { result.one.lock ≡ lock.now }
{
    let mut held = lock
        .try_acquire(seat)
        .ok()
        .expect(rt, "a try with nobody there is refused");
    let one = lock.split(&mut held).expect(rt, "no second seat");
    let two = lock.split(&mut held).expect(rt, "no third seat");
    let (one, fault) = refused(lock, one).expect(rt, "two hold");
    let numbers = (held.number(), one.number(), two.number());
    let seat = lock.release_told(held, &Deed::Nothing);
    Splits {
        numbers,
        fault,
        seat,
        one,
    }
}

#[test]
fn a_try_fails_only_beside_another(rt: HostRuntime) {
    let Opened { lock, seat } = Opened::new(rt.alloc(), 10).expect(&rt, "no memory");
    assert!(rt; seat.number() == 0);
    let Splits {
        numbers,
        fault,
        seat,
        one,
    } = tried_beside(&rt, &lock, seat);
    assert!(rt; (numbers, fault) == ((0, 1, 2), TryFault::Busy));
    let (one, found) = tried(&rt, &lock, one);
    assert!(rt; (found, seat.number(), one.number()) == ((1, 0), 0, 1));
}

#[test]
fn the_last_ticket_is_used(rt: HostRuntime) {
    let Opened { lock, seat } = Opened::late(rt.alloc(), 1).expect(&rt, "no memory");
    let held = lock.acquire(&rt, seat).ok().expect(&rt, "a ticket is left");
    let seat = lock.release_told(held, &Deed::Nothing);
    let seat = unserved(&rt, &lock, seat).expect(&rt, "no ticket is left");
    let (seat, fault) = refused(&lock, seat).expect(&rt, "no ticket is left");
    let counter = lock.finish(seat).expect(&rt, "the value is out");
    assert!(rt; (fault, counter.limit) == (TryFault::Spent, 10));
}

#[test]
fn a_spent_lock_gives_the_seat_back(rt: HostRuntime) {
    let Opened { lock, seat } = Opened::late(rt.alloc(), 0).expect(&rt, "no memory");
    let (seat, fault) = refused(&lock, seat).expect(&rt, "no ticket is left");
    assert!(rt; (seat.number(), fault) == (0, TryFault::Spent));
    let seat = unserved(&rt, &lock, seat).expect(&rt, "no ticket is left");
    let mut adder = Adder::new(seat);
    let answers = (adder.add(&rt, &lock, 1), adder.read(&rt, &lock));
    let number = adder.into_seat().number();
    assert!(rt; (answers, number) == ((Err(Spent), Err(Spent)), 0));
}

#[test]
fn refused_memory_gives_the_value_back(rt: HostRuntime) {
    let counter = match TicketLock::new(rt.alloc(), Counter::new(10)) {
        Ok((lock, seat)) => lock.finish(seat).expect(&rt, "the value is out"),
        Err((counter, _)) => counter,
    };
    assert!(rt; (counter.count, counter.limit) == (0, 10));
}

// What a thread has that takes the lock and never gives it back.
#[derive(Drop)]
struct Keeper {
    lock: Arc<TicketLock<Counter>>,
    seat: LockSeat<Counter>,
    // The thread has the lock.
    taken: Arc<AtomicBool>,
    ghost fits: { seat.lock ≡ arc_value lock },
}

impl Keeper {
    fn new(
        rt: &impl Abort,
        alloc: Global,
        lock: TicketLock<Counter>,
        seat: LockSeat<Counter>,
    ) -> Keeper
        requires { seat.lock ≡ lock }
        ensures { arc_value result.lock ≡ lock }
    {
        let taken = Arc::new(alloc, AtomicBool::new(false))
            .ok()
            .expect(rt, "no memory");
        let lock = Arc::new(alloc, lock).ok().expect(rt, "no memory");
        Keeper { lock, seat, taken }
    }

    fn keep<R: Wait>(self, rt: &R) {
        let Keeper { lock, seat, taken } = self;
        let held = lock.acquire(rt, seat);
        drop(lock);
        taken.store(true, Ordering::SeqCst);
        let parker = Parker::new();
        for _ in rt.forever() {
            parker.park(rt);
        }
        let _never = held;
        unreachable!()
    }
}

// Waits until the flag is set.
fn wait_for<R: Wait>(rt: &R, flag: &AtomicBool) {
    for _ in rt.forever() {
        if flag.load(Ordering::SeqCst) {
            break;
        }
        thread::yield_now();
    }
}

#[test]
fn a_hold_that_never_ends_keeps_the_value(rt: HostRuntime) {
    let Pair {
        lock,
        one: last,
        two,
    } = Pair::new(&rt, rt.alloc(), 10);
    let keeper = Keeper::new(&rt, rt.alloc(), lock, two);
    let lock = Arc::try_clone(&keeper.lock)
        .ok()
        .expect(&rt, "too many shares");
    let taken = Arc::try_clone(&keeper.taken)
        .ok()
        .expect(&rt, "too many shares");
    let spawned = thread::spawn(&rt, move || keeper.keep(&rt)).ok();
    let _thread = spawned.expect(&rt, "no thread");
    wait_for(&rt, &taken);
    let lock = Arc::try_unwrap(lock).ok().expect(&rt, "the lock is shared");
    assert!(rt; matches!(lock.finish(last), Err(StateOut)));
}
