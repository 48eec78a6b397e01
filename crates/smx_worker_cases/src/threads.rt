//! Two clients' workers and one towards the centre, each in a thread of its own, over links in
//! memory. The first client's gate holds its submit until the second client's response was written,
//! and the second's until the first's bind was answered. So the test ends well in no order in which
//! one client is served to its end before the other.
mod peer;

use crate::client::{desk, seat_of};
use crate::hall::{Client, Hall, Line, enter, last_line};
use crate::stand::World;
use crate::threads::peer::Flagged;
use crate::upstream::session;
use crate::{client, upstream};
use smx_centre::{Centre, Mode};
use smx_client::Desk;
use smx_memory_link::{CentrePeer, FlagGate, MemoryLink, Nobody, Script};
use smx_slots::{ClientEnds, LaneEnds, ends_of};
use smx_turns::RunEnd;
use smx_upstream::Parts;
use std::alloc::Global;
use std::process::Abort;
use std::rt::Clock;
use std::sync::Wait;
use std::sync::atomic::{AtomicBool, AtomicU64, Ordering};
use std::test::*;
use std::thread::{join, sleep};
use std::time::Duration;

// How many turns a worker makes at most. A turn that does nothing is followed by a millisecond's
// sleep.
const TURNS: u64 = 10_000;

// A client's bind, number 1, to the account `a` with the password `p`, and a submit_sm to the
// destination `1`, number 7.
const BEGIN: &[u8] = b"\0\0\0\x19\0\0\0\x09\0\0\0\0\0\0\0\x01a\0p\0\0\x34\0\0\0\
\0\0\0\x22\0\0\0\x04\0\0\0\0\0\0\0\x07\0\0\0\0\0\01\0\0\0\0\0\0\0\0\0\0\0";

// A client's unbind, number 9.
const UNBIND: &[u8] = b"\0\0\0\x10\0\0\0\x06\0\0\0\0\0\0\0\x09";

// How many octets the bind's answer has, and how many the answers to `BEGIN`.
const BIND_ANSWER: usize = 25;

const ANSWERS: usize = BIND_ANSWER + 18;

// What the second client is written: its bind's answer, its response, its unbind's answer. The
// centre counts its message ids, and sees this client's message first.
const SECOND: &[u8] = b"\0\0\0\x19\x80\0\0\x09\0\0\0\0\0\0\0\x01smx\0\x02\x10\0\x01\x34\
\0\0\0\x12\x80\0\0\x04\0\0\0\0\0\0\0\x071\0\
\0\0\0\x10\x80\0\0\x06\0\0\0\0\0\0\0\x09";

// What the first client is written: the same, with the second message id.
const FIRST: &[u8] = b"\0\0\0\x19\x80\0\0\x09\0\0\0\0\0\0\0\x01smx\0\x02\x10\0\x01\x34\
\0\0\0\x12\x80\0\0\x04\0\0\0\0\0\0\0\x072\0\
\0\0\0\x10\x80\0\0\x06\0\0\0\0\0\0\0\x09";

// The worker of a client. The other end of its link takes one octet a write, and sets the flag once it
// took so many.
fn guest<'a, R: Abort>(
    rt: &R,
    alloc: Global,
    client: Client<'a>,
    desk: &'a Desk,
    ends: ClientEnds,
    after: usize,
    flag: &'a AtomicBool,
) -> client::Seat<'a, 'a, MemoryLink<Flagged<'a>>> {
    let Client { at, port, .. } = client;
    let ClientEnds { inbox, senders } = ends;
    let link = MemoryLink::new(Flagged {
        script: Script::new(alloc, 1).and(0, BEGIN).and(ANSWERS, UNBIND),
        after,
        flag,
    });
    seat_of(rt, alloc, at, desk, port, inbox, senders, link, 0, 0)
}

// Whether the worker has left. After a turn that did nothing it sleeps.
fn has_left<R: Clock + Abort>(rt: &R, end: RunEnd) -> bool {
    match end {
        RunEnd::Turns | RunEnd::Filled => {}
        RunEnd::Idle => sleep(rt, Duration::from_millis(1)),
        RunEnd::Left => return true,
        RunEnd::Fault(fault) => panic!(rt; "a worker: {fault:?}"),
    }
    false
}

// Turns the client's worker until its client has left.
fn turn_client<R: Wait + Clock + Abort>(
    rt: &R,
    seat: &mut client::Seat<MemoryLink<Flagged>>,
    gate: &mut FlagGate,
    nobody: &mut Nobody,
) {
    for _ in 0..TURNS {
        if has_left(rt, seat.run(rt, gate, nobody, 1)) {
            return;
        }
    }
    panic!(rt; "a client is not done after its turns");
}

// Serves the client, whose gate has this flag, until it has left. It is written just what is wanted.
fn serve<R: Wait + Clock + Abort>(
    rt: &R,
    alloc: Global,
    client: Client,
    desk: &Desk,
    ends: ClientEnds,
    after: usize,
    told: &AtomicBool,
    flag: &AtomicBool,
    wanted: &[u8],
    done: &AtomicU64,
) {
    let mut seat = guest(rt, alloc, client, desk, ends, after, told);
    let mut nobody = Nobody::new();
    turn_client(rt, &mut seat, &mut FlagGate::new(flag), &mut nobody);
    let client::Seat { at, worker, .. } = seat;
    let closed = worker.close(at, rt, &mut nobody);
    assert!(rt; closed.link.peer().script.taken() == wanted);
    done.fetch_add(1, Ordering::SeqCst);
}

// The worker of the lane, over a link to a loopback centre.
fn carrier<'a, R: Abort>(
    rt: &R,
    alloc: Global,
    line: Line<'a>,
    ends: LaneEnds,
) -> upstream::Seat<'a, MemoryLink<CentrePeer>> {
    let Line { at, tap, .. } = line;
    let LaneEnds {
        answers,
        senders,
        owed,
    } = ends;
    let centre = CentrePeer::new(alloc, Centre::new(alloc, Mode::Plain));
    let parts = Parts {
        link: MemoryLink::new(centre),
        tap,
        session: session(rt, alloc),
        answers,
        senders,
        owed,
    };
    upstream::Seat::new(rt, alloc, at, parts, 1_000)
}

// Turns the worker of the lane until both clients are done.
fn turn_lane<R: Wait + Clock + Abort>(
    rt: &R,
    seat: &mut upstream::Seat<MemoryLink<CentrePeer>>,
    world: &mut World,
    done: &AtomicU64,
) {
    for _ in 0..TURNS {
        if done.load(Ordering::SeqCst) >= 2 {
            return;
        }
        assert!(rt;
            !has_left(rt, seat.run(rt, world, 0, 1)),
            "the lane's worker has left"
        );
    }
    panic!(rt; "the clients are not done after their turns");
}

// Serves the lane until both clients are done, and then until its session ended, to which the centre
// agreed.
fn carry<R: Wait + Clock + Abort>(
    rt: &R,
    alloc: Global,
    line: Line,
    ends: LaneEnds,
    done: &AtomicU64,
) {
    let mut seat = carrier(rt, alloc, line, ends);
    let mut world = World::new();
    turn_lane(rt, &mut seat, &mut world, done);
    assert!(rt; seat.worker.stop() == Ok(true));
    assert!(rt; seat.run(rt, &mut world, 0, TURNS) == RunEnd::Left);
}

// The workers are made in their threads.
#[test]
fn workers_in_three_threads(rt: HostRuntime) {
    let alloc = rt.alloc();
    let Hall {
        exchange,
        mut door,
        taps,
    } = Hall::roomy(&rt, alloc, 1);
    let line = last_line(&rt, &exchange, taps);
    let desk = desk(&rt, alloc);
    let ends = ends_of(&rt, alloc, 2, 1, 4);
    let (mut clients, mut lanes) = ends.expect(&rt, "out of memory");
    let lane = lanes.pop().expect(&rt, "a lane has no ends");
    let own = clients.pop().expect(&rt, "a client has no ends");
    let other = clients.pop().expect(&rt, "a client has no ends");
    let first = enter(&rt, &exchange, &mut door).expect(&rt, "no client");
    let second = enter(&rt, &exchange, &mut door).expect(&rt, "no client");
    let (bound, served) = (AtomicBool::new(false), AtomicBool::new(false));
    let done = AtomicU64::new(0);
    join(
        &rt,
        || carry(&rt, alloc, line, lane, &done),
        || {
            join(
                &rt,
                || serve(
                    &rt,
                    alloc,
                    first,
                    &desk,
                    own,
                    BIND_ANSWER,
                    &bound,
                    &served,
                    FIRST,
                    &done,
                ),
                || serve(
                    &rt, alloc, second, &desk, other, ANSWERS, &served, &bound, SECOND, &done,
                ),
            );
        },
    );
}
