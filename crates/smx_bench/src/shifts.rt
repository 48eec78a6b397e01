//! Requests over one lane that is turned over all the while. A port and the lane's tap take turns on
//! one thread, so that nothing but the lane's own work shows in the time.
ghost use Rattle.std.specs.Prelude.{◌≡◌, slice_get, Some, All};
ghost use Rattle.smx_shared.specs.Views.{locks_of};

use crate::figures::{Hundredths, REFUSED, nanos_since, stopped};
use crate::seats::{Drawer, Seat, last_drawer, open, seat_at};
use smx_lane::Limits;
use smx_shared::{Door, Exchange, Tap};
use std::alloc::Global;
use std::io;
use std::rt::Clock;
use std::sync::Wait;
use std::time::Instant;

const LIMITS: Limits = Limits {
    queue: 64,
    window: 64,
    client: 64,
    history: 100_000,
};

const REQUESTS: u64 = 10_000_000;

/// About so many requests fill the lane's history once.
const FIRST: u64 = 25_000;

/// The requests that are under way together.
const BATCH: u64 = 20;

/// The tap turns the lane over once it has made so many notes since the last time, two a request.
const SHIFT: usize = 12_500;

/// Prints the requests in thousands a second, from the submit to the collected response: those of
/// the first 25,000, and of all 10,000,000.
pub(crate) fn run<R: Wait + Print + Clock>(rt: &R, alloc: Global) -> io::Result<()> {
    let (exchange, mut door, taps) = open(rt, alloc, LIMITS, 1)?;
    run_at(rt, alloc, &exchange, &mut door, taps)
}

fn run_at<R: Wait + Print + Clock>(
    rt: &R,
    alloc: Global,
    at: &Exchange,
    door: &mut Door,
    taps: Vec<Tap>,
) -> io::Result<()>
    requires door { locks_of door.old.fronts ≡ at.now }
    requires taps { All (λ t. slice_get at.now t.lane ≡ Some t.front.lock) taps.items }
{
    let mut drawer = last_drawer(at, taps)?;
    let mut seat = seat_at(rt, at, door)?;
    print_rates(rt, alloc, &mut seat, &mut drawer)
}

fn print_rates<R: Wait + Print + Clock>(
    rt: &R,
    alloc: Global,
    seat: &mut Seat,
    drawer: &mut Drawer,
) -> io::Result<()> {
    let (first, whole, shifts) = nanos_of_all(rt, alloc, seat, drawer)?;
    println!(rt;
        "one lane, {shifts} shifts: the first {FIRST} requests {}, all {REQUESTS} {} thousand a second",
        Hundredths::quotient(FIRST * 1_000_000, first),
        Hundredths::quotient(REQUESTS * 1_000_000, whole)
    )
}

// The nanoseconds of the first requests and of all, and how often the lane was turned over.
fn nanos_of_all<R: Wait + Clock>(
    rt: &R,
    alloc: Global,
    seat: &mut Seat,
    drawer: &mut Drawer,
) -> io::Result<(u64, u64, u64)> {
    let start = Instant::now(rt)?;
    let (notes, early) = serve_batches(rt, alloc, seat, drawer, FIRST / BATCH, 0)?;
    let first = nanos_since(rt, start)?;
    let rest = (REQUESTS - FIRST) / BATCH;
    let (_, late) = serve_batches(rt, alloc, seat, drawer, rest, notes)?;
    let whole = nanos_since(rt, start)?;
    Ok((first, whole, early.saturating_add(late)))
}

// So many batches, before which the tap has made so many notes since the lane was turned over. It
// answers how many the tap has made after them, and how often the lane was turned over.
fn serve_batches<R: Wait>(
    rt: &R,
    alloc: Global,
    seat: &mut Seat,
    drawer: &mut Drawer,
    batches: u64,
    before: usize,
) -> io::Result<(usize, u64)> {
    let (mut notes, mut shifts) = (before, 0u64);
    for _ in 0..batches {
        notes = notes.saturating_add(2 * BATCH as usize);
        let is_due = notes >= SHIFT;
        if !serve_batch(rt, alloc, seat, drawer) || is_due && !drawer.turn_over(rt, SHIFT) {
            return Err(stopped(REFUSED));
        }
        if is_due {
            notes = 0;
            shifts = shifts.saturating_add(1);
        }
    }
    Ok((notes, shifts))
}

// The requests of a batch: all are submitted, then all are served, and then all responses collected.
// It tells whether nothing was refused.
fn serve_batch<R: Wait>(rt: &R, alloc: Global, seat: &mut Seat, drawer: &mut Drawer) -> bool {
    for _ in 0..BATCH {
        if !seat.submit(rt, alloc) {
            return false;
        }
    }
    for _ in 0..BATCH {
        let Ok(true) = drawer.serve(rt) else {
            return false;
        };
    }
    for _ in 0..BATCH {
        let Ok(true) = seat.collect(rt, 0) else {
            return false;
        };
    }
    true
}
