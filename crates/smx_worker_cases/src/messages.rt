//! A message of the centre and its answer, through both workers in turn: the centre's number and the
//! client's stand for each other.
use crate::client::{desk, seat_of};
use crate::hall::{Client, Hall, Line, enter, last_line};
use crate::stand::{Piece, World, link_to, script, took};
use crate::upstream::session;
use crate::{client, upstream};
use smx_client::Desk;
use smx_memory_link::{MemoryLink, Script};
use smx_slots::{ClientEnds, LaneEnds, ends_of};
use smx_turns::RunEnd;
use smx_upstream::Parts;
use std::alloc::Global;
use std::process::Abort;
use std::sync::Wait;
use std::test::*;

// bind_transceiver of `proxy` with the password `pw`, and the centre's answer.
const CENTRE_BIND: &[u8] = b"\0\0\0\x1e\0\0\0\x09\0\0\0\0\x7f\xff\xff\xfdproxy\0pw\0\0\x34\0\0\0";

const CENTRE_BOUND: &[u8] = b"\0\0\0\x17\x80\0\0\x09\0\0\0\0\x7f\xff\xff\xfdcentre\0";

// bind_transceiver of the account `a`, number 1, and its answer.
const CLIENT_BIND: &[u8] = b"\0\0\0\x19\0\0\0\x09\0\0\0\0\0\0\0\x01a\0p\0\0\x34\0\0\0";

const CLIENT_BOUND: &[u8] = b"\0\0\0\x19\x80\0\0\x09\0\0\0\0\0\0\0\x01smx\0\x02\x10\0\x01\x34";

// deliver_sm to the address `4915`: number 3 as the centre sends it, number 1 as the client gets it.
const MESSAGE: &[u8] = b"\0\0\0\x25\0\0\0\x05\0\0\0\0\0\0\0\x03\
\0\0\0\0\0\04915\0\0\0\0\0\0\0\0\0\0\0";

const DELIVERED: &[u8] = b"\0\0\0\x25\0\0\0\x05\0\0\0\0\0\0\0\x01\
\0\0\0\0\0\04915\0\0\0\0\0\0\0\0\0\0\0";

// The client's answer to its number 1, and the answer that the centre gets to its number 3.
const ANSWER: &[u8] = b"\0\0\0\x11\x80\0\0\x05\0\0\0\0\0\0\0\x01\0";

const ANSWERED: &[u8] = b"\0\0\0\x11\x80\0\0\x05\0\0\0\0\0\0\0\x03\0";

// The centre sends its message once it was bound, behind the answer; the client answers once it has
// its message.
const CENTRE: [Piece; 2] = [(0, CENTRE_BOUND), (30, MESSAGE)];

const CLIENT: [Piece; 2] = [(0, CLIENT_BIND), (62, ANSWER)];

fn guest<'a, 'd, R: Abort>(
    rt: &R,
    alloc: Global,
    client: Client<'a>,
    desk: &'d Desk,
    ends: ClientEnds,
) -> client::Seat<'a, 'd, MemoryLink<Script>> {
    let Client { at, port, .. } = client;
    let ClientEnds { inbox, senders } = ends;
    let link = link_to(rt, script(alloc, 65_536, &CLIENT));
    seat_of(rt, alloc, at, desk, port, inbox, senders, link, 0, 0)
}

fn carrier<'a, R: Abort>(
    rt: &R,
    alloc: Global,
    line: Line<'a>,
    ends: LaneEnds,
) -> upstream::Seat<'a, MemoryLink<Script>> {
    let Line { at, tap, .. } = line;
    let LaneEnds {
        answers,
        senders,
        owed,
    } = ends;
    let parts = Parts {
        link: link_to(rt, script(alloc, 65_536, &CENTRE)),
        tap,
        session: session(rt, alloc),
        answers,
        senders,
        owed,
    };
    upstream::Seat::new(rt, alloc, at, parts, 1_000)
}

// Turns both workers by turns: the client's is bound, the message comes, is sent and answered, and the
// answer goes up.
fn exchange<R: Wait + Abort>(
    rt: &R,
    lane: &mut upstream::Seat<MemoryLink<Script>>,
    seat: &mut client::Seat<MemoryLink<Script>>,
) {
    let mut world = World::new();
    for _ in 0..2 {
        let World { gate, book } = &mut world;
        assert!(rt; seat.run(rt, gate, book, 100) == RunEnd::Idle);
        assert!(rt; lane.run(rt, &mut world, 0, 100) == RunEnd::Idle);
    }
}

#[test]
fn centre_and_client_exchange_a_message(rt: HostRuntime) {
    let alloc = rt.alloc();
    let Hall {
        exchange: hall,
        mut door,
        taps,
    } = Hall::roomy(&rt, alloc, 1);
    let desk = desk(&rt, alloc);
    let ends = ends_of(&rt, alloc, 1, 1, 4);
    let (mut clients, mut lanes) = ends.expect(&rt, "out of memory");
    let lane_ends = lanes.pop().expect(&rt, "a lane has no ends");
    let own = clients.pop().expect(&rt, "a client has no ends");
    let client = enter(&rt, &hall, &mut door).expect(&rt, "no client");
    let mut lane = carrier(&rt, alloc, last_line(&rt, &hall, taps), lane_ends);
    let mut seat = guest(&rt, alloc, client, &desk, own);
    exchange(&rt, &mut lane, &mut seat);
    let client::Seat { at, worker, .. } = seat;
    let closed = worker.close(at, &rt, &mut World::new().book);
    assert!(rt; took(&closed.link, &[CLIENT_BOUND, DELIVERED]));
    let upstream::Seat { at, worker, .. } = lane;
    let closed = worker.close(at, &rt, &mut World::new().gate);
    assert!(rt; took(&closed.link, &[CENTRE_BIND, ANSWERED]));
}
