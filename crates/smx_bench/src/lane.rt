//! Rounds of accept, take, answer and collect on one lane.
use crate::figures::{REFUSED, nanos_since, stopped};
use smx_lane::{Answered, Lane, Limits, Request, Sent};
use smx_pdu::{Body, Pdu};
use std::alloc::Global;
use std::io;
use std::rt::Clock;
use std::time::Instant;

/// How many clients take turns, and how many entries are stored before the first round.
const STORED: [(u64, usize); 4] = [(1, 1_000), (1, 900_000), (256, 1_000), (256, 900_000)];

/// The windows of the table, and how many clients take turns beside each.
const WINDOWS: [u32; 4] = [1, 10, 100, 1_024];

const CLIENTS: [u64; 3] = [1, 16, 256];

/// Rounds that are measured.
#[derive(Clone, Copy)]
struct Case {
    window: u32,
    /// The clients whose requests fill the window but for one place, each with as many as one client
    /// may have. Where there are none the window is empty.
    fillers: u64,
    /// The clients that take turns. Their numbers come after those of the fillers.
    clients: u64,
    /// The first round that is measured finds at least so many entries.
    stored: usize,
    /// How often it is measured, of which the least is shown, and the rounds of each.
    repeats: u64,
    rounds: u64,
}

/// Prints the nanoseconds of a round with 1 and with 256 clients, from 1,000 and from 900,000 stored
/// entries on, and then a table of them beside a window that is full but for one place.
pub(crate) fn run<R: Print + Clock + AllocGlobal>(rt: &R) -> io::Result<()> {
    for &(clients, stored) in &STORED {
        measure(rt, rt.alloc(), clients, stored)?;
    }
    println!(rt; "window full but for one place, and clients that take turns:")?;
    for &window in &WINDOWS {
        for &clients in &CLIENTS {
            measure_beside(rt, rt.alloc(), window, clients)?;
        }
    }
    Ok(())
}

/// Prints the nanoseconds of a round with so many clients, from so many stored entries on.
pub(crate) fn measure<R: Print + Clock>(
    rt: &R,
    alloc: Global,
    clients: u64,
    stored: usize,
) -> io::Result<()> {
    let case = Case {
        window: 16,
        fillers: 0,
        clients,
        stored,
        repeats: 1,
        rounds: 20_000,
    };
    let nanos = nanos_of_round(rt, alloc, case)?;
    println!(rt; "{clients} clients, {stored} entries: {nanos} ns a round")
}

// Prints a cell of the table.
fn measure_beside<R: Print + Clock>(
    rt: &R,
    alloc: Global,
    window: u32,
    clients: u64,
) -> io::Result<()> {
    let case = Case {
        window,
        fillers: 4,
        clients,
        stored: 0,
        repeats: 5,
        rounds: 4_000,
    };
    let nanos = nanos_of_round(rt, alloc, case)?;
    println!(rt; "window {window}, {clients} clients: {nanos} ns a round")
}

// The nanoseconds of a round.
fn nanos_of_round<R: Clock>(rt: &R, alloc: Global, case: Case) -> io::Result<u64> {
    let limits = Limits {
        queue: 16,
        window: case.window,
        client: 256,
        history: 1_000_000,
    };
    match Lane::new(alloc, limits) {
        Ok(mut lane) => least_nanos(rt, alloc, &mut lane, case),
        Err(fault) => Err(stopped(fault)),
    }
}

// The least of some measurements, once the lane is as it should be before them.
fn least_nanos<R: Clock>(rt: &R, alloc: Global, lane: &mut Lane, case: Case) -> io::Result<u64> {
    let Some(before) = prepare(alloc, lane, case) else {
        return Err(stopped(REFUSED));
    };
    let mut done = before;
    let mut least = u64::MAX;
    for _ in 0..case.repeats {
        least = least.min(nanos_of_rounds(rt, alloc, lane, case, done)?);
        done = done.saturating_add(case.rounds);
    }
    Ok(least.checked_div(case.rounds).unwrap_or(0))
}

// The nanoseconds of one measurement.
fn nanos_of_rounds<R: Clock>(
    rt: &R,
    alloc: Global,
    lane: &mut Lane,
    case: Case,
    done: u64,
) -> io::Result<u64> {
    let start = Instant::now(rt)?;
    if rounds(alloc, lane, case, done, case.rounds) {
        nanos_since(rt, start)
    } else {
        Err(stopped(REFUSED))
    }
}

// Admits all clients, fills the window and the history, and answers how many rounds that took.
fn prepare(alloc: Global, lane: &mut Lane, case: Case) -> Option<u64> {
    for client in 1..=case.fillers.saturating_add(case.clients) {
        if lane.admit(0, client).is_err() {
            return None;
        }
    }
    if case.fillers > 0 {
        for ordinal in 1..u64::from(case.window) {
            take_one(alloc, lane, client_of(ordinal, case.fillers), ordinal)?;
        }
    }
    // A round stores four entries.
    let missing = case.stored.saturating_sub(lane.entries().len()).div_ceil(4) as u64;
    rounds(alloc, lane, case, 0, missing).then_some(missing)
}

// So many rounds, in which the clients take turns. It tells whether none was refused.
fn rounds(alloc: Global, lane: &mut Lane, case: Case, done: u64, count: u64) -> bool {
    for next in 0..count {
        let number = done.saturating_add(next);
        let client = client_of(number, case.clients).saturating_add(case.fillers);
        if !round(alloc, lane, client, number.saturating_add(1)) {
            return false;
        }
    }
    true
}

fn client_of(number: u64, clients: u64) -> u64 {
    number.checked_rem(clients).unwrap_or(0).saturating_add(1)
}

// Accepts a submit_sm without a body, which its client calls 7, and takes the oldest request.
fn take_one(alloc: Global, lane: &mut Lane, client: u64, ordinal: u64) -> Option<Sent> {
    if !lane.is_next(0, client, ordinal) || !lane.is_own(0, client) {
        return None;
    }
    let request = Request {
        client,
        ordinal,
        own: 7,
        command: 0x0000_0004,
        body: Body::empty(alloc),
    };
    if lane.accept(0, request).is_err() {
        return None;
    }
    lane.take(0, 0).ok()
}

// One request of the client there and its response back. It tells whether nothing was refused.
fn round(alloc: Global, lane: &mut Lane, client: u64, ordinal: u64) -> bool {
    let Some(sent) = take_one(alloc, lane, client, ordinal) else {
        return false;
    };
    let response = Pdu {
        command: 0x8000_0004,
        status: 0,
        number: sent.upstream,
        body: sent.request.body,
    };
    let answered = lane.answer(0, response);
    matches!(answered, Answered::Queued { .. })
        && lane.is_own(0, client)
        && lane.collect(0, client).is_some()
}
