//! Requests of several ports over shared lanes. Each port and each lane's tap has a thread of its own.
ghost use Rattle.std.specs.Prelude.{◌≡◌, slice_get, Some, All};
ghost use Rattle.smx_shared.specs.Views.{locks_of};

use crate::figures::{Hundredths, Work, nanos_of_all, push};
use crate::seats::{Drawer, Seat, open, seat_at};
use crate::shifts;
use smx_lane::Limits;
use smx_shared::{Door, Exchange, Tap};
use std::alloc::Global;
use std::rt::Clock;
use std::sync::Wait;
use std::sync::atomic::{AtomicU64, Ordering};
use std::thread::Threads;
use std::{io, thread};

const LIMITS: Limits = Limits {
    queue: 64,
    window: 64,
    client: 64,
    history: 200_000,
};

/// The requests of a case, over all its ports.
const REQUESTS: u64 = 40_000;

/// How many requests a port submits ahead of the responses that it collected.
const AHEAD: u64 = 16;

/// How often a thread looks for work before it gives up.
const LOOKS: usize = 1_000_000_000;

/// Prints the requests in thousands a second, from the submit to the collected response, of 1, 2 and
/// 4 ports on one lane and on four. The starts and ends of the threads are in the time. Then of one
/// port on one lane that is turned over all the while.
pub(crate) fn run<R: Threads + Wait + Sync + Print + Clock + AllocGlobal>(
    rt: &R,
) -> io::Result<()> {
    for &lanes in &[1, 4] {
        for &ports in &[1, 2, 4] {
            measure(rt, rt.alloc(), ports, lanes)?;
        }
    }
    shifts::run(rt, rt.alloc())
}

fn measure<R: Threads + Wait + Sync + Print + Clock>(
    rt: &R,
    alloc: Global,
    ports: u64,
    lanes: usize,
) -> io::Result<()> {
    let nanos = nanos_of_case(rt, alloc, ports, lanes)?;
    println!(rt;
        "ports {ports}, lanes {lanes}: {} thousand requests a second",
        Hundredths::quotient(REQUESTS * 1_000_000, nanos)
    )
}

fn nanos_of_case<R: Threads + Wait + Sync + Clock>(
    rt: &R,
    alloc: Global,
    ports: u64,
    lanes: usize,
) -> io::Result<u64> {
    let (exchange, mut door, taps) = open(rt, alloc, LIMITS, lanes)?;
    nanos_at(rt, alloc, &exchange, &mut door, taps, ports)
}

fn nanos_at<R: Threads + Wait + Sync + Clock>(
    rt: &R,
    alloc: Global,
    at: &Exchange,
    door: &mut Door,
    taps: Vec<Tap>,
    ports: u64,
) -> io::Result<u64>
    requires door { locks_of door.old.fronts ≡ at.now }
    requires taps { All (λ t. slice_get at.now t.lane ≡ Some t.front.lock) taps.items }
{
    let active = AtomicU64::new(ports);
    let mut parties = Vec::new(alloc);
    add_clients(rt, alloc, at, door, ports, &active, &mut parties)?;
    add_taps(at, taps, &active, &mut parties)?;
    nanos_of_all(rt, parties, 2 * REQUESTS, "responses queued or collected")
}

// So many clients, which share the requests of a case.
fn add_clients<'a, R: Wait>(
    rt: &R,
    alloc: Global,
    at: &'a Exchange,
    door: &mut Door,
    ports: u64,
    active: &'a AtomicU64,
    parties: &mut Vec<Party<'a>>,
) -> io::Result<()>
    requires { locks_of door.old.fronts ≡ at.now }
{
    for _ in 0..ports {
        let client = Party::Client {
            alloc,
            seat: seat_at(rt, at, door)?,
            requests: REQUESTS / ports.max(1),
            active,
        };
        push(parties, client)?;
    }
    Ok(())
}

// The taps of all lanes.
fn add_taps<'a>(
    at: &'a Exchange,
    taps: Vec<Tap>,
    active: &'a AtomicU64,
    parties: &mut Vec<Party<'a>>,
) -> io::Result<()>
    requires { All (λ t. slice_get at.now t.lane ≡ Some t.front.lock) taps.items }
{
    for tap in taps {
        let drawer = Drawer { at, tap };
        push(parties, Party::Upstream { drawer, active })?;
    }
    Ok(())
}

/// What has a thread of its own. `active` counts the clients that aren't done.
#[derive(Drop)]
enum Party<'a> {
    /// A client, and how many requests it submits.
    Client {
        alloc: Global,
        seat: Seat<'a>,
        requests: u64,
        active: &'a AtomicU64,
    },
    /// A lane's tap.
    Upstream {
        drawer: Drawer<'a>,
        active: &'a AtomicU64,
    },
}

impl Work for Party<'_> {
    // Counts the responses that were collected, or those that were queued.
    fn run<R: Wait>(self, rt: &R) -> u64 {
        match self {
            Party::Client {
                alloc,
                mut seat,
                requests,
                active,
            } => {
                let collected = submit_all(rt, alloc, &mut seat, requests);
                active.fetch_sub(1, Ordering::SeqCst);
                collected
            }
            Party::Upstream { mut drawer, active } => serve_all(rt, &mut drawer, active),
        }
    }
}

// Submits a client's requests, and answers how many responses were collected.
fn submit_all<R: Wait>(rt: &R, alloc: Global, seat: &mut Seat, requests: u64) -> u64 {
    let mut submitted: u64 = 0;
    let mut collected: u64 = 0;
    for turn in 0..LOOKS {
        if collected >= requests {
            break;
        }
        let idle = submitted >= requests || submitted.saturating_sub(collected) >= AHEAD;
        if !idle {
            if !seat.submit(rt, alloc) {
                break;
            }
            submitted = submitted.saturating_add(1);
        }
        match seat.collect(rt, turn) {
            Ok(true) => collected = collected.saturating_add(1),
            Ok(false) if idle => thread::yield_now(),
            Ok(false) => {}
            Err(_) => break,
        }
    }
    collected
}

// Serves until no client is active, and answers how many responses were queued.
fn serve_all<R: Wait>(rt: &R, drawer: &mut Drawer, active: &AtomicU64) -> u64 {
    let mut queued: u64 = 0;
    for _ in 0..LOOKS {
        match drawer.serve(rt) {
            Ok(true) => queued = queued.saturating_add(1),
            Ok(false) => {}
            Err(_) => {
                if active.load(Ordering::SeqCst) == 0 {
                    break;
                }
                thread::yield_now();
            }
        }
    }
    queued
}
