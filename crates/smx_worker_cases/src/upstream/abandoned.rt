//! Requests that wait on a lane that has no link.
use super::*;
use crate::hall::is_of;
use smx_history::{Kind, Limits};
use smx_shared::Starts;
use smx_turns::Party;
use smx_upstream::{AbandonEnd, give_up_queued, lose};
use std::test::*;

// A window of two, so that three rounds are needed for five requests.
const NARROW: Limits = Limits {
    queue: 10,
    window: 2,
    client: 10,
    history: 1_000,
};

// The client comes, submits five times and loses its lane. Then the lane comes up three times, gives two
// requests, two and one, and goes down, and fails them. The client collects what tells it so.
const KINDS: [Kind; 29] = [
    Kind::Admit,
    Kind::Accept,
    Kind::Accept,
    Kind::Accept,
    Kind::Accept,
    Kind::Accept,
    Kind::Down,
    Kind::Up,
    Kind::Take,
    Kind::Take,
    Kind::Down,
    Kind::Fail,
    Kind::Fail,
    Kind::Up,
    Kind::Take,
    Kind::Take,
    Kind::Down,
    Kind::Fail,
    Kind::Fail,
    Kind::Up,
    Kind::Take,
    Kind::Down,
    Kind::Fail,
    Kind::Collect,
    Kind::Collect,
    Kind::Collect,
    Kind::Collect,
    Kind::Collect,
    Kind::Retire,
];

fn submits_five<R: Wait + Abort>(rt: &R, alloc: Global, client: &mut Client) {
    for _request in 0..5 {
        assert!(rt; submit(rt, alloc, client) == Ok(0));
    }
}

fn collects_five_failures<R: Wait + Abort>(rt: &R, client: &mut Client) {
    for _request in 0..5 {
        assert!(rt; collects(rt, client, FAILED));
    }
    assert!(rt; collects(rt, client, None));
}

#[test]
fn queued_requests_are_given_up(rt: HostRuntime) {
    let Hall {
        exchange,
        mut door,
        mut taps,
    } = Hall::new(&rt, rt.alloc(), NARROW, 1, Starts::FIRST);
    let mut tap = last_tap(&exchange, &mut taps).expect(&rt, "there is one lane");
    let mut client = enter(&rt, &exchange, &mut door).expect(&rt, "no client");
    submits_five(&rt, rt.alloc(), &mut client);
    let mut gate = World::new().gate;
    assert!(rt; lose(&mut tap, &exchange, &rt, &mut gate).failed == 0);
    let given = give_up_queued(&mut tap, &exchange, &rt, &mut gate, 60_000);
    assert!(rt; given.failed == 5 && matches!(given.end, AbandonEnd::Emptied));
    assert!(rt; gate.tidings == 5 && gate.last == Some(Party::Client { client: 1, lane: 0 }));
    collects_five_failures(&rt, &mut client);
    assert!(rt; submit(&rt, rt.alloc(), &mut client) == Err(SubmitFault::AllFull));
    assert!(rt; client.leave(&rt));
    assert!(rt; is_of(&lanes_of(&rt, exchange, door), &KINDS));
}
