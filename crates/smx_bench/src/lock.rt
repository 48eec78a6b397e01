//! The ticket lock beside the toolchain's `Mutex`, each round a counter.
ghost use Rattle.std.specs.Prelude.{◌≡◌};

use crate::figures::{Hundredths, Work, nanos_of_all, nanos_of_works, no_memory, push, stopped};
use smx_lock::{SeatInPlace, TicketLock};
use smx_lock_example::{Adder, Counter};
use std::alloc::{AllocError, Global};
use std::io;
use std::rt::Clock;
use std::sync::{Mutex, Wait};
use std::thread::Threads;

const ALONE: u64 = 2_000_000;

const TOGETHER: u64 = 400_000;

/// Prints the time of an uncontended hold in nanoseconds; then, for 2, 4 and 8 threads that add to
/// a counter, holds in millions a second under each lock, and the Mutex's by the ticket lock's.
pub(crate) fn run<R: Threads + Wait + Sync + Print + Clock + AllocGlobal>(
    rt: &R,
) -> io::Result<()> {
    let (ticket, mutex) = nanos_under_both(rt, rt.alloc(), 1, ALONE)?;
    println!(rt;
        "uncontended acquire and release: ticket lock {} ns, std Mutex {} ns",
        Hundredths::quotient(ticket, ALONE),
        Hundredths::quotient(mutex, ALONE)
    )?;
    for &threads in &[2, 4, 8] {
        measure(rt, rt.alloc(), threads)?;
    }
    Ok(())
}

fn measure<R: Threads + Wait + Sync + Print + Clock>(
    rt: &R,
    alloc: Global,
    threads: u64,
) -> io::Result<()> {
    let (ticket, mutex) = nanos_under_both(rt, alloc, threads, TOGETHER)?;
    println!(rt;
        "{threads} threads, million holds a second: ticket lock {}, std Mutex {} ({} to 1)",
        Hundredths::quotient(TOGETHER * 1000, ticket),
        Hundredths::quotient(TOGETHER * 1000, mutex),
        Hundredths::quotient(ticket, mutex)
    )
}

// The nanoseconds in which so many threads add 1 to a counter so often, over all of them: under the
// ticket lock, and under the Mutex.
fn nanos_under_both<R: Threads + Wait + Sync + Clock>(
    rt: &R,
    alloc: Global,
    threads: u64,
    times: u64,
) -> io::Result<(u64, u64)> {
    let ticket = nanos_under_ticket_lock(rt, alloc, threads, times)?;
    let mutex = nanos_under_mutex(rt, alloc, threads, times)?;
    Ok((ticket, mutex))
}

fn nanos_under_ticket_lock<R: Threads + Wait + Sync + Clock>(
    rt: &R,
    alloc: Global,
    threads: u64,
    times: u64,
) -> io::Result<u64> {
    match TicketLock::new(alloc, Counter::new(u64::MAX)) {
        Ok((lock, first)) => {
            let mut seat = SeatInPlace::new(first);
            nanos_of_adders(rt, alloc, &lock, &mut seat, threads, times)
        }
        Err(_) => Err(no_memory()),
    }
}

// The first seat takes no part.
fn nanos_of_adders<R: Threads + Wait + Sync + Clock>(
    rt: &R,
    alloc: Global,
    lock: &TicketLock<Counter>,
    seat: &mut SeatInPlace<Counter>,
    threads: u64,
    times: u64,
) -> io::Result<u64>
    requires { seat.old.lock ≡ lock.now }
{
    let works = works_on(rt, alloc, lock, seat, threads, times / threads.max(1))?;
    nanos_of_all(rt, works, times, "additions")
}

fn nanos_under_mutex<R: Threads + Wait + Sync + Clock>(
    rt: &R,
    alloc: Global,
    threads: u64,
    times: u64,
) -> io::Result<u64> {
    let mutex = Mutex::new(Counter::new(u64::MAX));
    match under_mutex(alloc, &mutex, threads, times / threads.max(1)) {
        Ok(works) => Ok(nanos_of_works(rt, works)?.0),
        Err(_) => Err(no_memory()),
    }
}

fn under_mutex<'a>(
    alloc: Global,
    mutex: &'a Mutex<Counter>,
    threads: u64,
    times: u64,
) -> Result<Vec<UnderMutex<'a>>, AllocError> {
    let mut works = Vec::new(alloc);
    for _ in 0..threads {
        works.push(UnderMutex { mutex, times })?;
    }
    Ok(works)
}

/// What one thread does: it adds 1 so often.
#[derive(Drop)]
struct UnderTicketLock<'a> {
    lock: &'a TicketLock<Counter>,
    adder: Adder,
    times: u64,
    ghost fits: { adder.lock ≡ lock.now },
}

impl Work for UnderTicketLock<'_> {
    // Counts the additions.
    fn run<R: Wait>(self, rt: &R) -> u64 {
        let UnderTicketLock {
            lock,
            mut adder,
            times,
            ..
        } = self;
        add_all(rt, lock, &mut adder, times)
    }
}

// Adds 1 so often, and counts the additions.
fn add_all<R: Wait>(rt: &R, lock: &TicketLock<Counter>, adder: &mut Adder, times: u64) -> u64
    requires { adder.old.lock ≡ lock.now }
{
    for added in 0..times {
        if adder.add(rt, lock, 1).is_err() {
            return added;
        }
    }
    times
}

/// The same under the other lock.
#[derive(Drop)]
struct UnderMutex<'a> {
    mutex: &'a Mutex<Counter>,
    times: u64,
}

impl Work for UnderMutex<'_> {
    fn run<R: Wait>(self, rt: &R) -> u64 {
        for _ in 0..self.times {
            self.mutex.lock(rt).add(1);
        }
        self.times
    }
}

// The work of so many threads, with seats split off this one.
fn works_on<'a, R: Wait>(
    rt: &R,
    alloc: Global,
    lock: &'a TicketLock<Counter>,
    seat: &mut SeatInPlace<Counter>,
    threads: u64,
    times: u64,
) -> io::Result<Vec<UnderTicketLock<'a>>>
    requires { seat.old.lock ≡ lock.now }
{
    let mut works = Vec::new(alloc);
    for _ in 0..threads {
        let work = work_on(rt, lock, seat, times)?;
        push(&mut works, work)?;
    }
    Ok(works)
}

fn work_on<'a, R: Wait>(
    rt: &R,
    lock: &'a TicketLock<Counter>,
    seat: &mut SeatInPlace<Counter>,
    times: u64,
) -> io::Result<UnderTicketLock<'a>>
    requires { seat.old.lock ≡ lock.now }
    ensures { seat.new.lock ≡ seat.old.lock }
{
    match seat.split(rt, lock) {
        Ok(split) => Ok(UnderTicketLock {
            lock,
            adder: Adder::new(split.into_seat()),
            times,
        }),
        Err(spent) => Err(stopped(spent)),
    }
}
