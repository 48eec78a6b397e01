//! A lane whose history fills up, and which no tap turns over.
use super::Ask::{Collect, Submit};
use super::Serve::{Answer, Take};
use super::Step::{Asks, Enters, Leaves, Serves};
use super::*;
use crate::hall::ROOMY;
use std::test::*;

fn add(rt: &impl Abort, steps: &mut Vec<Step>, more: &[Step]) {
    steps.extend_from_slice(more).expect(rt, "out of memory");
}

// So many clients come and go, one after another.
fn add_visits(rt: &impl Abort, steps: &mut Vec<Step>, count: usize) {
    for _ in 0..count {
        add(rt, steps, &[Enters(None), Leaves(0, true)]);
    }
}

// So many requests of the client pass, one after another.
fn add_requests(rt: &impl Abort, steps: &mut Vec<Step>, client: u64, count: u32) {
    for own in 1..=count {
        // The window's first place is given once more each time.
        let number = own.wrapping_sub(1).wrapping_mul(1_024).wrapping_add(1);
        let passing = [
            Asks(0, Submit(own, Ok(0))),
            Serves(0, Take(0, Ok((client, number)))),
            Serves(0, Answer(number, Brought::To(client))),
            Asks(0, Collect(0, Ok(Some((0, own))))),
        ];
        add(rt, steps, &passing);
    }
}

// Four times as many clients as the history has places for, and four times as many entries of requests.
#[test]
fn lane_never_fills(rt: HostRuntime) {
    let mut steps = Vec::new(rt.alloc());
    add_visits(&rt, &mut steps, 2_000);
    add(&rt, &mut steps, &[Enters(None)]);
    add_requests(&rt, &mut steps, 2_001, 1_000);
    let lanes = lanes_after(&rt, rt.alloc(), ROOMY, 1, Starts::FIRST, &steps);
    assert!(rt; lanes.len() == 1);
}

fn add_submits(rt: &impl Abort, steps: &mut Vec<Step>, place: usize, count: u32) {
    for own in 1..=count {
        add(rt, steps, &[Asks(place, Submit(own, Ok(0)))]);
    }
}

// The lane's end takes 1 of the 1,000 places, a member 1, a request that is queued 3, one that was
// taken 2 and a response 1. One more call wants 4: two members and 332 requests leave 1, and with a
// response collected there are 4.
#[test]
fn lane_holds_all_that_it_may(rt: HostRuntime) {
    let limits = Limits {
        queue: 400,
        client: 256,
        ..ROOMY
    };
    let full = [
        Enters(Some(EnterFault::HistoryFull)),
        Asks(1, Submit(77, Err(SubmitFault::AllFull))),
    ];
    let mut steps = Vec::new(rt.alloc());
    add(&rt, &mut steps, &[Enters(None), Enters(None)]);
    add_submits(&rt, &mut steps, 0, 256);
    add_submits(&rt, &mut steps, 1, 76);
    add(&rt, &mut steps, &full);
    add(&rt, &mut steps, &[Serves(0, Take(0, Ok((1, 1))))]);
    add(&rt, &mut steps, &full);
    add(&rt, &mut steps, &[Serves(0, Answer(1, Brought::To(1)))]);
    add(&rt, &mut steps, &full);
    add(
        &rt,
        &mut steps,
        &[
            Asks(0, Collect(0, Ok(Some((0, 1))))),
            Asks(1, Submit(77, Ok(0))),
        ],
    );
    add(&rt, &mut steps, &[full[0]]);
    let lanes = lanes_after(&rt, rt.alloc(), limits, 1, Starts::FIRST, &steps);
    assert!(rt; lanes.len() == 1);
}
