//! Clients and taps that go on together, and what their lanes noted.
use super::Ask::{Collect, Submit, TryCollect};
use super::Serve::{Answer, Down, Expire, Fail, Take, TryTake, TurnOver, Up};
use super::Step::{Asks, Enters, Leaves, Serves};
use super::*;
use crate::hall::Brought::{Late, To, Unknown};
use crate::hall::{ROOMY, is_of};
use smx_history::{AlreadyDown, FailRefusal, Kind, NoneExpired, TakeRefusal, UpRefusal};
use std::test::*;

// An entry by its seat, kind and client, and whether it is of a request.
type Call = (u64, Kind, u64, bool);

// Whether the lane's entries are these calls, those of requests with this ordinal, the others with 0.
fn has_calls(lane: &Lane, calls: &[Call], ordinal: u64) -> bool {
    let mut rest = calls;
    for entry in lane.entries() {
        let Some((&(by, kind, client, of_request), behind)) = rest.split_first() else {
            return false;
        };
        let wanted = if of_request { ordinal } else { 0 };
        if (entry.by, entry.kind, entry.client, entry.ordinal) != (by, kind, client, wanted) {
            return false;
        }
        rest = behind;
    }
    rest.is_empty()
}

// How many of the lanes have their calls: lane k those with ordinal k + 1.
fn count_with_calls(lanes: &[Lane], calls: &[Call]) -> usize {
    let mut count: usize = 0;
    for lane in 0..lanes.len() {
        if has_calls(&lanes[lane], calls, lane as u64 + 1) {
            count = count.saturating_add(1);
        }
    }
    count
}

// The last four tickets: the tap's seat, the client's seat, its admit and its request.
const LAST_TICKETS: [Step; 12] = [
    Enters(None),
    Asks(0, Submit(7, Ok(0))),
    Asks(0, Collect(0, Err(Spent))),
    Asks(0, TryCollect(Err(TryFault::Spent))),
    Asks(0, Submit(8, Err(SubmitFault::Spent))),
    Serves(0, Take(0, Err(TakeFault::Spent))),
    Serves(0, TryTake(Err(TryTakeFault::Spent))),
    Serves(0, Expire(0, 0, Err(ExpiryFault::Spent))),
    Serves(0, TurnOver(0, Err(TurnFault::Spent))),
    Serves(0, Answer(1, Brought::Spent)),
    Leaves(0, false),
    Enters(Some(EnterFault::Spent)),
];

#[test]
fn tickets_end(rt: HostRuntime) {
    let starts = Starts {
        ticket: LAST - 4,
        ..Starts::FIRST
    };
    let lanes = lanes_after(&rt, rt.alloc(), ROOMY, 1, starts, &LAST_TICKETS);
    assert!(rt; is_of(&lanes, &[Kind::Admit, Kind::Accept]));
}

// The last client, and its last request. Ordinal 2^62 tries lane (2^62 - 1) % 2 first.
const LAST_COUNTS: [Step; 5] = [
    Enters(None),
    Asks(0, Submit(7, Ok(1))),
    Asks(0, Submit(8, Err(SubmitFault::Exhausted))),
    Serves(1, Take(0, Ok((LAST, 1)))),
    Enters(Some(EnterFault::Exhausted)),
];

#[test]
fn counts_end(rt: HostRuntime) {
    let starts = Starts {
        client: LAST,
        ordinal: LAST,
        ..Starts::FIRST
    };
    lanes_after(&rt, rt.alloc(), ROOMY, 2, starts, &LAST_COUNTS);
}

// Two clients on one lane. The first leaves with a request taken: its response comes late, the
// other's is queued, and known once. Seat 0 is the door's, 1 the tap's, 2 and 3 the clients'.
const TWO_CLIENTS: [Step; 13] = [
    Enters(None),
    Enters(None),
    Serves(
        0,
        TryTake(Err(TryTakeFault::Refused(TakeRefusal::QueueEmpty))),
    ),
    Asks(0, Submit(7, Ok(0))),
    Asks(1, Submit(7, Ok(0))),
    Serves(0, Take(0, Ok((1, 1)))),
    Serves(0, TryTake(Ok((2, 2)))),
    Leaves(0, true),
    Serves(0, Answer(1, Late)),
    Asks(0, TryCollect(Ok(None))),
    Serves(0, Answer(2, To(2))),
    Serves(0, Answer(2, Unknown(2))),
    Asks(0, TryCollect(Ok(Some((0, 7))))),
];

const TWO_CLIENTS_CALLS: [Call; 10] = [
    (2, Kind::Admit, 1, false),
    (3, Kind::Admit, 2, false),
    (2, Kind::Accept, 1, true),
    (3, Kind::Accept, 2, true),
    (1, Kind::Take, 1, true),
    (1, Kind::Take, 2, true),
    (2, Kind::Retire, 1, false),
    (1, Kind::Late, 1, true),
    (1, Kind::Answer, 2, true),
    (3, Kind::Collect, 2, true),
];

#[test]
fn lane_has_all_calls(rt: HostRuntime) {
    let lanes = lanes_after(&rt, rt.alloc(), ROOMY, 1, Starts::FIRST, &TWO_CLIENTS);
    assert!(rt; count_with_calls(&lanes, &TWO_CLIENTS_CALLS) == 1);
}

// Two requests are taken, at 100 and at 300. The older is kept until it is 500 old, and then fails.
// The younger stays, and is answered. The client is told ESME_RSUBMITFAIL (SMPP 3.4, section 5.1.3)
// of the first, and then has the response to the second.
const GIVING_UP: [Step; 12] = [
    Enters(None),
    Asks(0, Submit(7, Ok(0))),
    Asks(0, Submit(8, Ok(0))),
    Serves(0, Take(100, Ok((1, 1)))),
    Serves(0, Take(300, Ok((1, 2)))),
    Serves(0, Expire(599, 500, Err(ExpiryFault::Refused(NoneExpired)))),
    Serves(0, Expire(600, 500, Ok(Failed::Queued { client: 1 }))),
    Serves(0, Expire(600, 500, Err(ExpiryFault::Refused(NoneExpired)))),
    Serves(0, Answer(2, To(1))),
    Asks(0, Collect(0, Ok(Some((0x45, 7))))),
    Asks(0, Collect(0, Ok(Some((0, 8))))),
    Asks(0, Collect(0, Ok(None))),
];

const GIVING_UP_KINDS: [Kind; 9] = [
    Kind::Admit,
    Kind::Accept,
    Kind::Accept,
    Kind::Take,
    Kind::Take,
    Kind::Fail,
    Kind::Answer,
    Kind::Collect,
    Kind::Collect,
];

#[test]
fn the_older_is_given_up(rt: HostRuntime) {
    let lanes = lanes_after(&rt, rt.alloc(), ROOMY, 1, Starts::FIRST, &GIVING_UP);
    assert!(rt; is_of(&lanes, &GIVING_UP_KINDS));
}

// The second of two requests is queued as the link is lost: nothing is taken or accepted, and the
// lane does not come up while the first is neither answered nor failed. The first fails, and its
// client is told (SMPP 3.4, section 5.1.3). The lane comes up once, and the second is taken.
const DOWN_AND_UP: [Step; 17] = [
    Enters(None),
    Asks(0, Submit(7, Ok(0))),
    Asks(0, Submit(8, Ok(0))),
    Serves(0, Take(0, Ok((1, 1)))),
    Serves(0, Fail(Err(FailFault::Refused(FailRefusal::Up)))),
    Serves(0, Down(Ok(()))),
    Serves(0, Down(Err(DownFault::Refused(AlreadyDown)))),
    Serves(0, Take(0, Err(TakeFault::Refused(TakeRefusal::Down)))),
    Asks(0, Submit(9, Err(SubmitFault::AllFull))),
    Serves(0, Up(Err(UpFault::Refused(UpRefusal::WindowNotEmpty)))),
    Serves(0, Fail(Ok(Failed::Queued { client: 1 }))),
    Serves(0, Fail(Err(FailFault::Refused(FailRefusal::WindowEmpty)))),
    Asks(0, Collect(0, Ok(Some((0x45, 7))))),
    Asks(0, Collect(0, Ok(None))),
    Serves(0, Up(Ok(()))),
    Serves(0, Up(Err(UpFault::Refused(UpRefusal::AlreadyUp)))),
    Serves(0, Take(0, Ok((1, 1_025)))),
];

const DOWN_AND_UP_KINDS: [Kind; 9] = [
    Kind::Admit,
    Kind::Accept,
    Kind::Accept,
    Kind::Take,
    Kind::Down,
    Kind::Fail,
    Kind::Collect,
    Kind::Up,
    Kind::Take,
];

#[test]
fn lane_comes_up_again(rt: HostRuntime) {
    let lanes = lanes_after(&rt, rt.alloc(), ROOMY, 1, Starts::FIRST, &DOWN_AND_UP);
    assert!(rt; is_of(&lanes, &DOWN_AND_UP_KINDS));
}

// Three clients over four lanes. The first two clients' requests are taken, and the first one's is
// answered and collected. The second client leaves with a request taken on each lane, whose response
// then comes late; the third one's requests stay queued.
const SPREAD: [Step; 36] = [
    Enters(None),
    Enters(None),
    Enters(None),
    Asks(0, Submit(11, Ok(0))),
    Asks(0, Submit(12, Ok(1))),
    Asks(0, Submit(13, Ok(2))),
    Asks(0, Submit(14, Ok(3))),
    Asks(1, Submit(11, Ok(0))),
    Asks(1, Submit(12, Ok(1))),
    Asks(1, Submit(13, Ok(2))),
    Asks(1, Submit(14, Ok(3))),
    Asks(2, Submit(11, Ok(0))),
    Asks(2, Submit(12, Ok(1))),
    Asks(2, Submit(13, Ok(2))),
    Asks(2, Submit(14, Ok(3))),
    Serves(0, Take(0, Ok((1, 1)))),
    Serves(0, Take(0, Ok((2, 2)))),
    Serves(0, Answer(1, To(1))),
    Asks(0, Collect(0, Ok(Some((0, 11))))),
    Serves(1, Take(0, Ok((1, 1)))),
    Serves(1, Take(0, Ok((2, 2)))),
    Serves(1, Answer(1, To(1))),
    Asks(0, Collect(1, Ok(Some((0, 12))))),
    Serves(2, Take(0, Ok((1, 1)))),
    Serves(2, Take(0, Ok((2, 2)))),
    Serves(2, Answer(1, To(1))),
    Asks(0, Collect(2, Ok(Some((0, 13))))),
    Serves(3, Take(0, Ok((1, 1)))),
    Serves(3, Take(0, Ok((2, 2)))),
    Serves(3, Answer(1, To(1))),
    Asks(0, Collect(3, Ok(Some((0, 14))))),
    Leaves(1, true),
    Serves(0, Answer(2, Late)),
    Serves(1, Answer(2, Late)),
    Serves(2, Answer(2, Late)),
    Serves(3, Answer(2, Late)),
];

// On each lane seat 0 is the door's, 1 the tap's, 2 to 4 the clients'. A request's ordinal is one
// more than its lane; that of an admit and of a retire is 0.
const SPREAD_CALLS: [Call; 12] = [
    (2, Kind::Admit, 1, false),
    (3, Kind::Admit, 2, false),
    (4, Kind::Admit, 3, false),
    (2, Kind::Accept, 1, true),
    (3, Kind::Accept, 2, true),
    (4, Kind::Accept, 3, true),
    (1, Kind::Take, 1, true),
    (1, Kind::Take, 2, true),
    (1, Kind::Answer, 1, true),
    (2, Kind::Collect, 1, true),
    (3, Kind::Retire, 2, false),
    (1, Kind::Late, 2, true),
];

#[test]
fn lanes_have_their_own_calls(rt: HostRuntime) {
    let lanes = lanes_after(&rt, rt.alloc(), ROOMY, 4, Starts::FIRST, &SPREAD);
    assert!(rt; count_with_calls(&lanes, &SPREAD_CALLS) == 4);
}
