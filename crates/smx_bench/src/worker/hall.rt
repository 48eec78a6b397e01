//! The workers of all clients and the one towards the centre, turned one after another.
use crate::figures::{Hundredths, nanos_since, stopped};
use crate::worker::carrier::Carrier;
use crate::worker::member::Member;
use smx_memory_link::{FlagGate, Nobody};
use smx_turns::RunEnd;
use std::io;
use std::rt::Clock;
use std::sync::Wait;
use std::sync::atomic::{AtomicU64, Ordering};
use std::time::Instant;

/// How many turns a worker makes at most before the next one is turned.
const TURNS: u64 = 64;

/// How many turns that do nothing are measured.
const IDLE_TURNS: u64 = 100_000;

const BUSY: &str = "a worker had something to do";

/// A worker of either kind.
pub(crate) trait Worker {
    /// Turns it for as long as there is something to do, at most so often.
    fn run<R: Wait>(
        &mut self,
        rt: &R,
        gate: &mut FlagGate,
        nobody: &mut Nobody,
        turns: u64,
    ) -> RunEnd;
}

/// The nanoseconds of a turn that does nothing, once the worker has done what is left.
pub(crate) fn nanos_of_idle_turn<W: Worker, R: Wait + Clock>(
    worker: &mut W,
    rt: &R,
    gate: &mut FlagGate,
    nobody: &mut Nobody,
) -> io::Result<Hundredths> {
    let RunEnd::Idle = worker.run(rt, gate, nobody, TURNS) else {
        return Err(stopped(BUSY));
    };
    let start = Instant::now(rt)?;
    for _ in 0..IDLE_TURNS {
        let RunEnd::Idle = worker.run(rt, gate, nobody, 1) else {
            return Err(stopped(BUSY));
        };
    }
    Ok(Hundredths::quotient(nanos_since(rt, start)?, IDLE_TURNS))
}

/// The nanoseconds until so many requests are answered over all clients.
pub(crate) fn nanos_of_requests<R: Wait + Clock>(
    rt: &R,
    members: &mut [Member],
    carrier: &mut Carrier,
    gate: &mut FlagGate,
    nobody: &mut Nobody,
    answered: &AtomicU64,
    requests: u64,
) -> io::Result<u64> {
    let start = Instant::now(rt)?;
    if serve(rt, members, carrier, gate, nobody, answered, requests) {
        nanos_since(rt, start)
    } else {
        Err(stopped("a worker ended before all was answered"))
    }
}

// Turns each worker while it has something to do, until so many requests are answered over all
// clients. It tells whether they were.
fn serve<R: Wait>(
    rt: &R,
    members: &mut [Member],
    carrier: &mut Carrier,
    gate: &mut FlagGate,
    nobody: &mut Nobody,
    answered: &AtomicU64,
    requests: u64,
) -> bool {
    for _ in 0..requests {
        if answered.load(Ordering::SeqCst) >= requests {
            return true;
        }
        for member in members.iter_mut() {
            if !goes_on(member.run(rt, gate, nobody, TURNS)) {
                return false;
            }
        }
        if !goes_on(carrier.run(rt, gate, nobody, TURNS)) {
            return false;
        }
    }
    false
}

// Whether a worker may be turned again.
fn goes_on(end: RunEnd) -> bool {
    matches!(end, RunEnd::Idle | RunEnd::Turns | RunEnd::Filled)
}
