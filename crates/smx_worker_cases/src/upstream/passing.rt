//! What passes between a client's tokens and the centre.
use super::Step::{
    Answers, Asked, Closes, Collects, Ended, Gets, GivesUp, GoesOn, Last, Runs, Stands, Stops,
    Submits, Told,
};
use super::*;
use crate::hall::is_of;
use smx_history::Kind;
use smx_pdu::decode;
use smx_turns::Fault;
use std::test::*;

// The centre gives its response to the bind, and then a message.
const ONE_MESSAGE: [Piece; 2] = [(30, &BOUND), (30, &MESSAGE)];

// A request and its response, a message, and an answer to a message of an earlier link, which is in the
// return box before the first turn and goes nowhere. The centre gives its response to the bind, then a
// message, and then the response to the request. The worker tells of the response and of the message.
const ONE_EACH_PIECES: [Piece; 3] = [(30, &BOUND), (30, &MESSAGE), (64, &RESPONSE)];

const ONE_EACH_STEPS: [Step; 7] = [
    Submits(Ok(0)),
    Runs(0, 1_000, RunEnd::Idle),
    Stands(UpstreamState::Bound),
    Told(2),
    Gets(Some((1, &TEXT))),
    Closes(&[&BIND, &SUBMIT]),
    Collects(ANSWERED),
];

fn lanes_of_one_each<R: Wait + Abort>(rt: &R, alloc: Global, history: usize) -> Vec<Lane> {
    let answer = decode(alloc, &ANSWER).expect(rt, "a PDU");
    let setting = Setting {
        case: history,
        script: script(alloc, 65_536, &ONE_EACH_PIECES),
        answer: Some(answer),
        history,
        places: 1,
    };
    lanes_after(rt, alloc, setting, &ONE_EACH_STEPS)
}

// A lane whose history is said to have 8 entries is turned over at each note, which leaves the last
// two: the down of the worker's end, and a collect.
const ONE_EACH_KINDS: [Kind; 6] = [
    Kind::Admit,
    Kind::Accept,
    Kind::Take,
    Kind::Answer,
    Kind::Down,
    Kind::Collect,
];

#[test]
fn one_of_each(rt: HostRuntime) {
    let all = lanes_of_one_each(&rt, rt.alloc(), 1_000);
    assert!(rt; is_of(&all, &ONE_EACH_KINDS));
    let last = lanes_of_one_each(&rt, rt.alloc(), 8);
    assert!(rt; is_of(&last, &ONE_EACH_KINDS[4..]));
}

// The client's answer to the message has the greatest body, so that 65,536 octets wait: that turn asks
// its gate nothing. The last turn is one in which nothing came.
const WAITING_STEPS: [Step; 9] = [
    Runs(0, 1_000, RunEnd::Idle),
    Gets(Some((1, &TEXT))),
    Asked(6),
    Answers(1, 0, 65_520),
    Runs(0, 1, RunEnd::Turns),
    Asked(6),
    Runs(0, 1, RunEnd::Turns),
    Asked(8),
    Runs(0, 1_000, RunEnd::Idle),
];

#[test]
fn waiting_octets_stop_a_turn(rt: HostRuntime) {
    let setting = Setting::new(0, script(rt.alloc(), 65_536, &ONE_MESSAGE));
    lanes_after(&rt, rt.alloc(), setting, &WAITING_STEPS);
}

// The centre answers the first request once it has the second, and then the second. After 59,999 ms
// the request still waits, after 60,000 its client is told that it failed, and the late response
// reaches nobody.
const LATE_PIECES: [Piece; 3] = [(30, &BOUND), (114, &RESPONSE), (114, &SECOND_RESPONSE)];

const LATE_STEPS: [Step; 13] = [
    Submits(Ok(0)),
    Runs(0, 1_000, RunEnd::Idle),
    Runs(59_999, 1_000, RunEnd::Idle),
    Collects(None),
    Told(0),
    Runs(60_000, 1_000, RunEnd::Idle),
    Told(1),
    Collects(FAILED),
    Submits(Ok(0)),
    Runs(60_001, 1_000, RunEnd::Idle),
    Collects(ANSWERED_SECOND),
    Collects(None),
    Closes(&[&BIND, &SUBMIT, &ENQUIRY, &SECOND]),
];

#[test]
fn late_response_reaches_nobody(rt: HostRuntime) {
    let setting = Setting::new(0, script(rt.alloc(), 65_536, &LATE_PIECES));
    lanes_after(&rt, rt.alloc(), setting, &LATE_STEPS);
}

// A request is taken, and fails with the link at its second read; another is queued before the lane goes
// down, and nothing is accepted while it is. The next worker takes the second, and nothing again. Each
// tells of the submit_sm that it sent itself.
const ANSWERING: [Piece; 2] = [(30, &BOUND), (64, &SECOND_RESPONSE)];

const ANEW_STEPS: [Step; 13] = [
    Submits(Ok(0)),
    Last(None),
    Runs(0, 1_000, RunEnd::Fault(Fault::Link)),
    Last(Some((1, 4))),
    Submits(Ok(0)),
    GoesOn(1, &[&BIND, &SUBMIT], &ANSWERING),
    Last(None),
    Collects(FAILED),
    Submits(Err(SubmitFault::AllFull)),
    Runs(0, 1_000, RunEnd::Idle),
    Last(Some((1, 4))),
    Collects(ANSWERED_SECOND),
    Closes(&[&BIND, &SECOND]),
];

#[test]
fn lane_goes_on_over_a_new_link(rt: HostRuntime) {
    let mut failing = script(rt.alloc(), 65_536, &[(30, &BOUND)]);
    failing.failing_read = 2;
    lanes_after(&rt, rt.alloc(), Setting::new(0, failing), &ANEW_STEPS);
}

// The centre gives message 3 over either link. The client answers the first once the second link is
// bound: that answer goes nowhere, and the second message is answered by its own.
const OWN_LINK_STEPS: [Step; 10] = [
    Runs(0, 1_000, RunEnd::Idle),
    Gets(Some((1, &TEXT))),
    GoesOn(0, &[&BIND], &ONE_MESSAGE),
    Runs(0, 1_000, RunEnd::Idle),
    Answers(1, 0x64, 1),
    Runs(0, 1_000, RunEnd::Idle),
    Gets(Some((2, &TEXT))),
    Answers(2, 0, 1),
    Runs(0, 1_000, RunEnd::Idle),
    Closes(&[&BIND, &ANSWER]),
];

#[test]
fn answer_goes_out_over_its_own_link(rt: HostRuntime) {
    let setting = Setting::new(0, script(rt.alloc(), 65_536, &ONE_MESSAGE));
    lanes_after(&rt, rt.alloc(), setting, &OWN_LINK_STEPS);
}

// The proxy's unbind, the centre's answer, and what tells it that its message is out of place.
const UNBIND: [u8; 16] = [
    0, 0, 0, 0x10, 0, 0, 0, 6, 0, 0, 0, 0, 0x7F, 0xFF, 0xFF, 0xFF,
];

const UNBOUND: [u8; 16] = [
    0, 0, 0, 0x10, 0x80, 0, 0, 6, 0, 0, 0, 0, 0x7F, 0xFF, 0xFF, 0xFF,
];

const REFUSAL: [u8; 16] = [0, 0, 0, 0x10, 0x80, 0, 0, 5, 0, 0, 0, 4, 0, 0, 0, 3];

// The centre gives its response to the bind, then that to the request and a message, and answers the
// unbind. Before it is bound a stop says nothing. Once it is, the first says the unbind and the second
// nothing more. The request that came before the stop has its response, the one that came after it
// isn't taken. This over a link that takes all at once, and over one that takes an octet a write.
const STOPPED_PIECES: [Piece; 4] = [
    (30, &BOUND),
    (80, &RESPONSE),
    (80, &MESSAGE),
    (96, &UNBOUND),
];

const STOPPED_STEPS: [Step; 13] = [
    Stops(false),
    Stands(UpstreamState::Binding),
    Submits(Ok(0)),
    Runs(0, 1_000, RunEnd::Idle),
    Stops(true),
    Stops(false),
    Stands(UpstreamState::Unbinding),
    Submits(Ok(0)),
    Runs(0, 1_000, RunEnd::Left),
    Ended(Some(End::Stopped)),
    Closes(&[&BIND, &SUBMIT, &UNBIND, &REFUSAL]),
    Collects(ANSWERED),
    Collects(None),
];

#[test]
fn stopped_in_order(rt: HostRuntime) {
    for most in [65_536, 1] {
        let setting = Setting::new(most, script(rt.alloc(), most, &STOPPED_PIECES));
        lanes_after(&rt, rt.alloc(), setting, &STOPPED_STEPS);
    }
}

// One request is taken and one queued when all is given up: the client is told of both, and nothing more
// is accepted. Over the link the answer to a message still goes out, the response that comes then reaches
// nobody, and the session unbinds.
const GIVEN_UP_PIECES: [Piece; 4] = [
    (30, &BOUND),
    (30, &MESSAGE),
    (81, &RESPONSE),
    (97, &UNBOUND),
];

const GIVEN_UP_STEPS: [Step; 17] = [
    Submits(Ok(0)),
    Runs(0, 1_000, RunEnd::Idle),
    Gets(Some((1, &TEXT))),
    Submits(Ok(0)),
    Told(1),
    GivesUp(1, 2),
    Told(3),
    Collects(FAILED),
    Collects(FAILED),
    Submits(Err(SubmitFault::AllFull)),
    Answers(1, 0, 1),
    Runs(1, 1_000, RunEnd::Idle),
    Collects(None),
    Told(3),
    Stops(true),
    Runs(1, 1_000, RunEnd::Left),
    Closes(&[&BIND, &SUBMIT, &ANSWER, &UNBIND]),
];

#[test]
fn all_is_given_up(rt: HostRuntime) {
    let setting = Setting::new(0, script(rt.alloc(), 65_536, &GIVEN_UP_PIECES));
    lanes_after(&rt, rt.alloc(), setting, &GIVEN_UP_STEPS);
}
