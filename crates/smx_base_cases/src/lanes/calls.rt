//! Lists of calls, what needs a loop of its own, and refused memory.

use crate::lanes::fixture::Row::{Clients, Is};
use crate::lanes::fixture::Step::{Accept, Answer, Take};
use crate::lanes::fixture::{ROOMY, Row, SUBMIT_SM, play, played, request, said, submitted};
use crate::rows::check;
use smx_lane::{AdmitFault, Call, Lane, LaneFault, Limits, Reply, run_all};
use std::alloc::{AllocError, Global};
use std::process::Abort;
use std::test::*;

// Four clients take turns to fill a window of 1,024, so the request with number n is that of client
// (n - 1) % 4 + 1.
fn fill(rt: &impl Abort, alloc: Global, lane: &mut Lane) {
    for number in 1..=1_024_u32 {
        let client = u64::from(number.saturating_sub(1) % 4).saturating_add(1);
        let number = u64::from(number);
        let rows = [
            Is(Accept(client, number), "accepted", 0),
            Is(Take(0), "taken", number),
        ];
        play(rt, alloc, lane, "filled", &rows);
    }
}

// Answers a full window, five numbers on from one answer to the next, which reaches each number
// once. Each is answered just once.
fn answer_all(rt: &impl Abort, alloc: Global, lane: &mut Lane) {
    for step in 0..1_024_u32 {
        let behind = step.saturating_mul(5) % 1_024;
        let number = behind.saturating_add(1);
        let client = u64::from(behind % 4).saturating_add(1);
        let rows = [
            Is(Answer(number), "queued", client),
            Is(Answer(number), "unknown", u64::from(number)),
        ];
        play(rt, alloc, lane, "answered", &rows);
    }
}

const FULL: [Row; 2] = [
    Is(Accept(5, 1), "accepted", 0),
    Is(Take(0), "window full", 0),
];

// A full window takes no more, is answered, and takes the next. Number 1,020 is answered last, since
// 1,023 * 5 is 4 * 1,024 + 1,019, so its place is given next.
#[test]
fn full_window_is_answered_in_another_order(rt: HostRuntime) {
    let wide = Limits {
        queue: 1,
        window: 1_024,
        client: 256,
        history: 10_000,
    };
    let mut lane = played(&rt, rt.alloc(), "full window", wide, &[Clients(5)]);
    fill(&rt, rt.alloc(), &mut lane);
    play(&rt, rt.alloc(), &mut lane, "full window", &FULL);
    answer_all(&rt, rt.alloc(), &mut lane);
    let next = [Is(Take(0), "taken", 1_024 + 1_020)];
    play(&rt, rt.alloc(), &mut lane, "full window", &next);
}

// A window has at most 1,024 places.
#[test]
fn too_wide_a_window_is_refused(rt: HostRuntime) {
    let too_wide = Limits {
        window: 1_025,
        ..ROOMY
    };
    let fault = Lane::new(rt.alloc(), too_wide).err();
    assert!(rt; fault == Some(LaneFault::BadLimits));
}

// Ten calls, of which the third and the sixth don't keep to their conditions.
fn ten_calls(rt: &impl Abort, alloc: Global) -> Vec<Call> {
    let calls = [
        Call::Admit { by: 3, client: 1 },
        Call::Accept {
            by: 3,
            request: request(rt, alloc, 1, 1, SUBMIT_SM),
        },
        Call::Accept {
            by: 3,
            request: request(rt, alloc, 1, 1, SUBMIT_SM),
        },
        Call::Take { by: 9, now: 0 },
        Call::Answer {
            by: 9,
            response: submitted(alloc, 1),
        },
        Call::Collect { by: 9, client: 1 },
        Call::Collect { by: 3, client: 1 },
        Call::TurnOver { by: 9, least: 6 },
        Call::TurnOver { by: 9, least: 5 },
        Call::Retire { by: 3, client: 1 },
    ];
    Vec::from_array(alloc, calls).expect(rt, "out of memory")
}

const WORDS: [(&str, u64); 10] = [
    ("admitted", 0),
    ("accepted", 0),
    ("unkept", 0),
    ("taken", 1),
    ("queued", 1),
    ("unkept", 0),
    ("submit_sm_resp", 0),
    ("too few", 0),
    ("turned over", 5),
    ("retired", 0),
];

// Asserts that the replies are these words.
fn check_words(rt: &impl Abort, replies: &[Reply]) {
    assert!(rt; replies.len() == WORDS.len());
    for at in 0..WORDS.len() {
        let found = said(&replies[at]);
        check(rt, found == WORDS[at], found.0, at);
    }
}

// The calls of a list are made in order, but for those that don't keep to their conditions.
#[test]
fn lists_of_calls(rt: HostRuntime) {
    let mut lane = played(&rt, rt.alloc(), "lists", ROOMY, &[]);
    let calls = ten_calls(&rt, rt.alloc());
    let replies = run_all(&mut lane, rt.alloc(), calls).expect(&rt, "out of memory");
    check_words(&rt, &replies);
    check(&rt, lane.entries().len() == 1, "entries", 0);
}

// What an admit left: true where it said want of memory and changed nothing, or did its work.
fn admits_or_says(lane: &mut Lane) -> bool {
    match lane.admit(0, 1) {
        Ok(()) => lane.entries().len() == 1,
        Err(fault) => fault == AdmitFault::NoMemory && lane.entries().is_empty(),
    }
}

// The same of a turn over.
fn turns_or_says(lane: &mut Lane) -> bool {
    let stored = lane.entries().len();
    match lane.turn_over(0, 0) {
        Ok(Some(list)) => list.len() == stored && lane.entries().is_empty(),
        Ok(None) => false,
        Err(AllocError) => lane.entries().len() == stored,
    }
}

fn is_made_or_says(made: &mut Result<Lane, LaneFault>) -> bool {
    match made {
        Ok(lane) => admits_or_says(lane) && lane.limits() == ROOMY && turns_or_says(lane),
        Err(fault) => *fault == LaneFault::NoMemory,
    }
}

// Want of memory is said by name, and leaves the lane as it was: refuse-memory refuses each
// allocation in turn.
#[test]
fn refused_memory(rt: HostRuntime) {
    let mut made = Lane::new(rt.alloc(), ROOMY);
    assert!(rt; is_made_or_says(&mut made));
}
