//! Calls on a lane as rows, each with what comes of it.

use crate::lanes::said::said as told;
use smx_lane::{Call, Lane, Limits, Reply, Request, run};
use smx_pdu::{Body, Pdu, is_forwarded};
use std::alloc::Global;
use std::process::Abort;
use std::test::*;

pub(crate) const ROOMY: Limits = Limits {
    queue: 10,
    window: 10,
    client: 10,
    history: 1_000,
};

pub(crate) const SUBMIT_SM: u32 = 0x0000_0004;

/// A call of caller 0. Each request is a submit_sm where no command is named, and its client calls it 7; each
/// response is a submit_sm_resp.
#[derive(Clone, Copy)]
pub(crate) enum Step {
    Admit(u64),
    // Of a client, under an ordinal.
    Accept(u64, u64),
    // The same of client 1 and another command.
    Pass(u64, u32),
    // At a moment.
    Take(u64),
    // Under a number upstream.
    Answer(u32),
    Collect(u64),
    Retire(u64),
    TurnOver(usize),
    Down,
    Fail,
    // At a moment, what was taken so long before.
    Expire(u64, u64),
    Up,
}

/// What a lane is asked for.
#[derive(Clone, Copy)]
pub(crate) enum Row {
    // A call, and what comes of it: a word, and the number that goes with it or 0.
    Is(Step, &'static str, u64),
    // So many clients are admitted, from 1 on.
    Clients(u64),
    // Rounds of client 1, each accepted, taken, answered and collected: the first ordinal, the number of its
    // request upstream, and how many. Each is taken at the moment one below its ordinal, and all in one place.
    Rounds(u64, u32, u32),
}

/// A request that its client calls 7.
pub(crate) fn request(
    rt: &impl Abort,
    alloc: Global,
    client: u64,
    ordinal: u64,
    command: u32,
) -> Request {
    assert!(rt; is_forwarded(command));
    Request {
        client,
        ordinal,
        own: 7,
        command,
        body: Body::empty(alloc),
    }
}

/// The submit_sm_resp to what went upstream under the number.
pub(crate) fn submitted(alloc: Global, number: u32) -> Pdu {
    Pdu {
        command: 0x8000_0004,
        status: 0,
        number,
        body: Body::empty(alloc),
    }
}

fn call_of(rt: &impl Abort, alloc: Global, step: Step) -> Call {
    match step {
        Step::Admit(client) => Call::Admit { by: 0, client },
        Step::Accept(client, ordinal) => Call::Accept {
            by: 0,
            request: request(rt, alloc, client, ordinal, SUBMIT_SM),
        },
        Step::Pass(ordinal, command) => Call::Accept {
            by: 0,
            request: request(rt, alloc, 1, ordinal, command),
        },
        Step::Take(now) => Call::Take { by: 0, now },
        Step::Answer(number) => Call::Answer {
            by: 0,
            response: submitted(alloc, number),
        },
        Step::Collect(client) => Call::Collect { by: 0, client },
        Step::Retire(client) => Call::Retire { by: 0, client },
        Step::TurnOver(least) => Call::TurnOver { by: 0, least },
        Step::Down => Call::Down { by: 0 },
        Step::Fail => Call::Fail { by: 0 },
        Step::Expire(now, age) => Call::FailExpired { by: 0, now, age },
        Step::Up => Call::Up { by: 0 },
    }
}

/// A reply in a word, with its number: that upstream of what is taken, the client of what is queued for one, the
/// status of what is collected, the length of a list.
pub(crate) fn said(reply: &Reply) -> (&'static str, u64) {
    match reply {
        Reply::Collected(Some(pdu)) if pdu.number == 7 && pdu.body.is_empty() => {
            (name_of(pdu.command), u64::from(pdu.status))
        }
        _ => {
            let (word, numbers) = told(reply);
            (word, numbers[0])
        }
    }
}

fn name_of(response: u32) -> &'static str {
    match response {
        0x8000_0000 => "generic_nack",
        0x8000_0004 => "submit_sm_resp",
        0x8000_0021 => "submit_multi_resp",
        0x8000_0103 => "data_sm_resp",
        _ => "another",
    }
}

fn compare(rt: &impl Abort, name: &str, found: (&str, u64), wanted: (&str, u64)) {
    let ((is, count), (word, number)) = (found, wanted);
    assert!(rt; found == wanted, "{name}: {word} {number} is {is} {count}");
}

fn is(
    rt: &impl Abort,
    alloc: Global,
    lane: &mut Lane,
    name: &str,
    step: Step,
    wanted: (&str, u64),
) {
    let reply = run(lane, call_of(rt, alloc, step));
    compare(rt, name, said(&reply), wanted);
}

fn rounds(
    rt: &impl Abort,
    alloc: Global,
    lane: &mut Lane,
    name: &str,
    first: (u64, u32),
    count: u32,
) {
    for done in 0..count {
        let ordinal = first.0.saturating_add(u64::from(done));
        let number = first.1.saturating_add(done.saturating_mul(1_024));
        let now = ordinal.saturating_sub(1);
        let taken = ("taken", u64::from(number));
        is(
            rt,
            alloc,
            lane,
            name,
            Step::Accept(1, ordinal),
            ("accepted", 0),
        );
        is(rt, alloc, lane, name, Step::Take(now), taken);
        is(rt, alloc, lane, name, Step::Answer(number), ("queued", 1));
        is(
            rt,
            alloc,
            lane,
            name,
            Step::Collect(1),
            ("submit_sm_resp", 0),
        );
    }
}

/// Asserts what comes of each row.
pub(crate) fn play(rt: &impl Abort, alloc: Global, lane: &mut Lane, name: &str, rows: &[Row]) {
    for row in rows {
        match *row {
            Row::Is(step, word, number) => is(rt, alloc, lane, name, step, (word, number)),
            Row::Clients(count) => {
                for client in 1..=count {
                    is(rt, alloc, lane, name, Step::Admit(client), ("admitted", 0));
                }
            }
            Row::Rounds(ordinal, number, count) => {
                rounds(rt, alloc, lane, name, (ordinal, number), count);
            }
        }
    }
}

/// A lane under these limits behind the rows, of which it asserts what comes.
pub(crate) fn played(
    rt: &impl Abort,
    alloc: Global,
    name: &str,
    limits: Limits,
    rows: &[Row],
) -> Lane {
    let mut lane = Lane::new(alloc, limits).expect(rt, "no lane");
    play(rt, alloc, &mut lane, name, rows);
    lane
}
