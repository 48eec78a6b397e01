//! What passes between a client and its lanes.
use super::Step::{
    Account, At, Closes, Ended, Gets, Refused, Responds, Routes, Runs, Sends, Shuts, Stands, Stops,
    Told,
};
use super::*;
use smx_turns::Fault;
use std::cmp::Ord;
use std::test::*;

// A client that binds, over a link that takes one octet a write: the first turn reads, and each one
// after it writes an octet.
#[test]
fn octets_taken_and_waiting_are_the_answer(rt: HostRuntime) {
    for turns in 1..=30usize {
        let taken = (turns - 1).min(25);
        let end = if turns <= 26 {
            RunEnd::Turns
        } else {
            RunEnd::Idle
        };
        let steps = [
            Runs(turns as u64, end),
            Stands(ClientState::BoundTrx, 25 - taken),
            Closes(&[&BOUND[..taken]], false),
        ];
        let setting = Setting::new(turns, script(rt.alloc(), 1, &[(0, BIND)]));
        lanes_after(&rt, rt.alloc(), setting, &steps);
    }
}

// submit_sm, number 7, with a body of one octet, which nobody reads; and its response with the
// message_id `1`.
const SUBMIT: &[u8] = b"\0\0\0\x11\0\0\0\x04\0\0\0\0\0\0\0\x07s";

const SUBMITTED: &[u8] = b"\0\0\0\x12\x80\0\0\x04\0\0\0\0\0\0\0\x071\0";

// The client's request is accepted, of which the lane is told, and its response collected. Two routes
// were made and one client's taken back.
const RESPONSE_PIECES: [Piece; 2] = [(0, BIND), (25, SUBMIT)];

const RESPONSE_STEPS: [Step; 7] = [
    Runs(100, RunEnd::Idle),
    Told(Some(Party::Lane(0))),
    Responds(0, b"1\0", 0),
    Runs(100, RunEnd::Idle),
    Stands(ClientState::BoundTrx, 0),
    Closes(&[&BOUND, SUBMITTED], false),
    Routes(2, 1),
];

#[test]
fn response_bears_the_clients_number(rt: HostRuntime) {
    let setting = Setting::new(0, script(rt.alloc(), 4_096, &RESPONSE_PIECES));
    lanes_after(&rt, rt.alloc(), setting, &RESPONSE_STEPS);
}

// Twelve submit_sm that come together, numbers 1 to 12. The lane takes ten of a client's requests: the
// others are refused with ESME_RMSGQFUL (5.1.3), and the ten answered in their order.
const TOGETHER: &[u8] = b"\
    \0\0\0\x11\0\0\0\x04\0\0\0\0\0\0\0\x01s\
    \0\0\0\x11\0\0\0\x04\0\0\0\0\0\0\0\x02s\
    \0\0\0\x11\0\0\0\x04\0\0\0\0\0\0\0\x03s\
    \0\0\0\x11\0\0\0\x04\0\0\0\0\0\0\0\x04s\
    \0\0\0\x11\0\0\0\x04\0\0\0\0\0\0\0\x05s\
    \0\0\0\x11\0\0\0\x04\0\0\0\0\0\0\0\x06s\
    \0\0\0\x11\0\0\0\x04\0\0\0\0\0\0\0\x07s\
    \0\0\0\x11\0\0\0\x04\0\0\0\0\0\0\0\x08s\
    \0\0\0\x11\0\0\0\x04\0\0\0\0\0\0\0\x09s\
    \0\0\0\x11\0\0\0\x04\0\0\0\0\0\0\0\x0as\
    \0\0\0\x11\0\0\0\x04\0\0\0\0\0\0\0\x0bs\
    \0\0\0\x11\0\0\0\x04\0\0\0\0\0\0\0\x0cs";

const TWO_REFUSED: &[u8] = b"\
    \0\0\0\x10\x80\0\0\x04\0\0\0\x14\0\0\0\x0b\
    \0\0\0\x10\x80\0\0\x04\0\0\0\x14\0\0\0\x0c";

const TEN_ANSWERED: &[u8] = b"\
    \0\0\0\x12\x80\0\0\x04\0\0\0\0\0\0\0\x011\0\
    \0\0\0\x12\x80\0\0\x04\0\0\0\0\0\0\0\x021\0\
    \0\0\0\x12\x80\0\0\x04\0\0\0\0\0\0\0\x031\0\
    \0\0\0\x12\x80\0\0\x04\0\0\0\0\0\0\0\x041\0\
    \0\0\0\x12\x80\0\0\x04\0\0\0\0\0\0\0\x051\0\
    \0\0\0\x12\x80\0\0\x04\0\0\0\0\0\0\0\x061\0\
    \0\0\0\x12\x80\0\0\x04\0\0\0\0\0\0\0\x071\0\
    \0\0\0\x12\x80\0\0\x04\0\0\0\0\0\0\0\x081\0\
    \0\0\0\x12\x80\0\0\x04\0\0\0\0\0\0\0\x091\0\
    \0\0\0\x12\x80\0\0\x04\0\0\0\0\0\0\0\x0a1\0";

#[test]
fn requests_that_come_together(rt: HostRuntime) {
    let pieces = [(0, BIND), (25, TOGETHER)];
    let setting = Setting::new(0, script(rt.alloc(), 4_096, &pieces));
    let answers = [Responds(0, b"1\0", 0); 10];
    let mut steps = Vec::new(rt.alloc());
    let begin = [Runs(100, RunEnd::Idle), Told(Some(Party::Lane(0)))];
    let end = [
        Runs(100, RunEnd::Idle),
        Closes(&[&BOUND, TWO_REFUSED, TEN_ANSWERED], false),
    ];
    for part in [&begin[..], &answers[..], &end[..]] {
        steps.extend_from_slice(part).expect(&rt, "out of memory");
    }
    lanes_after(&rt, rt.alloc(), setting, steps.as_slice());
}

// Two messages are sent under the numbers 1 and 2. The answer to 1 goes back under the centre's
// number. Once the client is closed, the message that it didn't answer and the one in its box are
// answered with 0x64.
const ANSWER: &[u8] = b"\0\0\0\x10\x80\0\0\x05\0\0\0\0\0\0\0\x01";

const SENT: &[u8] = b"\0\0\0\x10\0\0\0\x05\0\0\0\0\0\0\0\x01\
    \0\0\0\x10\0\0\0\x05\0\0\0\0\0\0\0\x02";

const ANSWERS_PIECES: [Piece; 2] = [(0, BIND), (57, ANSWER)];

const ANSWERS_STEPS: [Step; 11] = [
    Runs(100, RunEnd::Idle),
    Sends(3),
    Sends(4),
    Runs(100, RunEnd::Idle),
    Told(Some(Party::Answer(0))),
    Sends(5),
    Closes(&[&BOUND, SENT], true),
    Gets(Some((0x8000_0005, 0, 3))),
    Gets(Some((0x8000_0005, 0x64, 4))),
    Gets(Some((0x8000_0005, 0x64, 5))),
    Gets(None),
];

#[test]
fn messages_are_answered(rt: HostRuntime) {
    let setting = Setting::new(0, script(rt.alloc(), 4_096, &ANSWERS_PIECES));
    lanes_after(&rt, rt.alloc(), setting, &ANSWERS_STEPS);
}

// The second answer waits while the return box, which has one place, has the first, and then has its
// place. Until the enquiry that came with them is decided nothing is read: the link's fourth read
// would fail. The enquiry is answered in the turn that puts the answer, which reads nothing.
// The second is a generic_nack, which answers a message too.
const WAITING: &[u8] = b"\0\0\0\x10\x80\0\0\x05\0\0\0\0\0\0\0\x02\
    \0\0\0\x10\x80\0\0\0\0\0\0\x08\0\0\0\x01\
    \0\0\0\x10\0\0\0\x15\0\0\0\0\0\0\0\x09";

const WAITING_PIECES: [Piece; 2] = [(0, BIND), (57, WAITING)];

const WAITING_STEPS: [Step; 8] = [
    Sends(3),
    Sends(4),
    Runs(100, RunEnd::Turns),
    Gets(Some((0x8000_0005, 0, 4))),
    Gets(None),
    Runs(1, RunEnd::Turns),
    Stands(ClientState::BoundTrx, 16),
    Gets(Some((0x8000_0000, 8, 3))),
];

#[test]
fn answer_waits_for_its_box(rt: HostRuntime) {
    let mut script = script(rt.alloc(), 4_096, &WAITING_PIECES);
    script.failing_read = 4;
    let setting = Setting {
        case: 0,
        script,
        lanes: 1,
        places: 1,
        silence: 0,
        message_time: 0,
    };
    lanes_after(&rt, rt.alloc(), setting, &WAITING_STEPS);
}

#[test]
fn unbind_and_bad_length_end_it(rt: HostRuntime) {
    // unbind, number 8; a length of 15, with an enquiry behind that nobody answers.
    let unbind: &[u8] = b"\0\0\0\x10\0\0\0\x06\0\0\0\0\0\0\0\x08";
    let unbound: &[u8] = b"\0\0\0\x10\x80\0\0\x06\0\0\0\0\0\0\0\x08";
    let short: &[u8] = b"\0\0\0\x0f\0\0\0\x15\0\0\0\0\0\0\0\x09\0\0\0\x10\0\0\0\x15";
    let nack: &[u8] = b"\0\0\0\x10\x80\0\0\0\0\0\0\x02\0\0\0\0";
    let cases = [(unbind, unbound, End::Left), (short, nack, End::BadLength)];
    for (octets, answer, ending) in cases {
        let steps = [
            Ended(None),
            Runs(100, RunEnd::Left),
            Ended(Some(ending)),
            Closes(&[&BOUND, answer], false),
        ];
        let script = script(rt.alloc(), 7, &[(0, BIND), (25, octets)]);
        lanes_after(&rt, rt.alloc(), Setting::new(octets.len(), script), &steps);
    }
}

#[test]
fn link_that_fails(rt: HostRuntime) {
    let mut script = script(rt.alloc(), 4_096, &[(0, BIND)]);
    script.failing_read = 2;
    let steps = [Runs(100, RunEnd::Fault(Fault::Link)), Ended(None)];
    lanes_after(&rt, rt.alloc(), Setting::new(0, script), &steps);
}

// Of two responses of 65,536 octets, on two lanes, a turn collects one, and the next none.
const STOPPING_PIECES: [Piece; 3] = [(0, BIND), (25, SUBMIT), (25, SUBMIT)];

const STOPPING_STEPS: [Step; 7] = [
    Runs(100, RunEnd::Idle),
    Responds(1, b"", 65_520),
    Responds(0, b"", 65_520),
    Runs(1, RunEnd::Turns),
    Stands(ClientState::BoundTrx, 65_536),
    Runs(1, RunEnd::Turns),
    Stands(ClientState::BoundTrx, 65_536),
];

#[test]
fn turn_stops_where_many_octets_wait(rt: HostRuntime) {
    let setting = Setting {
        case: 0,
        script: script(rt.alloc(), 100_000, &STOPPING_PIECES),
        lanes: 2,
        places: 1,
        silence: 0,
        message_time: 0,
    };
    lanes_after(&rt, rt.alloc(), setting, &STOPPING_STEPS);
}

// The proxy's enquire_link, number 7fffffff, and its answer.
const ENQUIRY: &[u8] = b"\0\0\0\x10\0\0\0\x15\0\0\0\0\x7f\xff\xff\xff";

const ENQUIRED: &[u8] = b"\0\0\0\x10\x80\0\0\x15\0\0\0\0\x7f\xff\xff\xff";

// A client that is silent for a second is sent enquire_link, once. An octet of its answer is life.
// After a second without an octet behind the next one it is silent, and the worker is done.
const SILENT_PIECES: [Piece; 2] = [(0, BIND), (41, ENQUIRED)];

const SILENT_STEPS: [Step; 19] = [
    Runs(100, RunEnd::Idle),
    At(999),
    Runs(100, RunEnd::Idle),
    Stands(ClientState::BoundTrx, 0),
    At(1_000),
    Runs(1, RunEnd::Turns),
    Stands(ClientState::BoundTrx, 16),
    Runs(100, RunEnd::Idle),
    At(1_999),
    Runs(1, RunEnd::Idle),
    At(2_000),
    Runs(100, RunEnd::Idle),
    At(2_999),
    Runs(1, RunEnd::Idle),
    At(3_000),
    Runs(1, RunEnd::Left),
    Stands(ClientState::Ended, 0),
    Ended(Some(End::Silent)),
    Closes(&[&BOUND, ENQUIRY, ENQUIRY], false),
];

#[test]
fn silence_is_enquired(rt: HostRuntime) {
    let mut setting = Setting::new(0, script(rt.alloc(), 4_096, &SILENT_PIECES));
    setting.silence = 1_000;
    lanes_after(&rt, rt.alloc(), setting, &SILENT_STEPS);
}

// A program that stood still for a minute: what came meanwhile is read before silence is judged.
const STILL_PIECES: [Piece; 2] = [(0, BIND), (41, ENQUIRED)];

const STILL_STEPS: [Step; 8] = [
    Runs(100, RunEnd::Idle),
    At(1_000),
    Runs(1, RunEnd::Turns),
    At(63_000),
    Runs(100, RunEnd::Idle),
    Stands(ClientState::BoundTrx, 0),
    Runs(1, RunEnd::Idle),
    Closes(&[&BOUND, ENQUIRY], false),
];

#[test]
fn what_came_is_read_first(rt: HostRuntime) {
    let mut setting = Setting::new(0, script(rt.alloc(), 4_096, &STILL_PIECES));
    setting.silence = 1_000;
    lanes_after(&rt, rt.alloc(), setting, &STILL_STEPS);
}

// Messages that the client doesn't answer in time are answered with 0x64, in the turn that judges
// them. Its late answer to the first reaches nobody.
const LATE: &[u8] = b"\0\0\0\x10\x80\0\0\x05\0\0\0\0\0\0\0\x01";

const OVERDUE_PIECES: [Piece; 2] = [(0, BIND), (73, LATE)];

const THIRD: &[u8] = b"\0\0\0\x10\0\0\0\x05\0\0\0\0\0\0\0\x03";

const OVERDUE_STEPS: [Step; 21] = [
    Runs(100, RunEnd::Idle),
    Sends(3),
    Sends(4),
    At(1),
    Runs(1, RunEnd::Turns),
    At(2),
    Runs(100, RunEnd::Idle),
    At(5_000),
    Runs(1, RunEnd::Idle),
    Gets(None),
    At(5_001),
    Runs(1, RunEnd::Turns),
    Gets(Some((0x8000_0005, 0x64, 3))),
    Gets(None),
    Sends(5),
    Runs(100, RunEnd::Idle),
    At(5_002),
    Runs(100, RunEnd::Idle),
    Gets(Some((0x8000_0005, 0x64, 4))),
    Closes(&[&BOUND, SENT, THIRD], true),
    Gets(Some((0x8000_0005, 0x64, 5))),
];

#[test]
fn messages_have_their_time(rt: HostRuntime) {
    let mut setting = Setting::new(0, script(rt.alloc(), 4_096, &OVERDUE_PIECES));
    setting.message_time = 5_000;
    lanes_after(&rt, rt.alloc(), setting, &OVERDUE_STEPS);
}

// A request that may not be one more is answered with the status 0x14, and no lane is told of it. The
// next one is accepted.
const FULL: &[u8] = b"\0\0\0\x10\x80\0\0\x04\0\0\0\x14\0\0\0\x07";

const FULL_PIECES: [Piece; 3] = [(0, BIND), (25, SUBMIT), (41, SUBMIT)];

const FULL_STEPS: [Step; 8] = [
    Shuts(Some(Point::Admitting)),
    Runs(2, RunEnd::Turns),
    Told(None),
    Stands(ClientState::BoundTrx, 16),
    Shuts(None),
    Runs(100, RunEnd::Idle),
    Told(Some(Party::Lane(0))),
    Closes(&[&BOUND, FULL], false),
];

#[test]
fn gate_admits_no_request(rt: HostRuntime) {
    let setting = Setting::new(0, script(rt.alloc(), 4_096, &FULL_PIECES));
    lanes_after(&rt, rt.alloc(), setting, &FULL_STEPS);
}

// A bind by an account that has no more of them is answered with the status 0x0D, and the client
// stays open.
const NOT_BOUND: &[u8] = b"\0\0\0\x10\x80\0\0\x09\0\0\0\x0d\0\0\0\x01";

const NOT_BOUND_STEPS: [Step; 6] = [
    Shuts(Some(Point::Binding(0))),
    Runs(100, RunEnd::Idle),
    Account(None),
    Stands(ClientState::Opened, 0),
    Closes(&[NOT_BOUND], false),
    Routes(0, 1),
];

#[test]
fn gate_lets_no_more_bind(rt: HostRuntime) {
    let setting = Setting::new(0, script(rt.alloc(), 4_096, &[(0, BIND)]));
    lanes_after(&rt, rt.alloc(), setting, &NOT_BOUND_STEPS);
}

// A bind with a wrong password waits until the gate lets it be refused. It is told as it came; the bind
// behind it, by the account with the index 0, is granted.
const WRONG: &[u8] = b"\0\0\0\x19\0\0\0\x09\0\0\0\0\0\0\0\x01a\0q\0\0\x34\0\0\0";

const REFUSED: &[u8] = b"\0\0\0\x10\x80\0\0\x09\0\0\0\x0e\0\0\0\x01";

const REFUSED_STEPS: [Step; 11] = [
    Shuts(Some(Point::Refusing)),
    Runs(100, RunEnd::Idle),
    Stands(ClientState::Opened, 0),
    Refused(None),
    Shuts(None),
    Runs(100, RunEnd::Idle),
    Refused(Some((0x0E, b"a\0q\0\0\x34\0\0\0"))),
    Account(Some(0)),
    Stands(ClientState::BoundTrx, 0),
    Ended(None),
    Closes(&[REFUSED, &BOUND], false),
];

#[test]
fn gate_paces_refusals(rt: HostRuntime) {
    let setting = Setting::new(0, script(rt.alloc(), 4_096, &[(0, WRONG), (16, BIND)]));
    lanes_after(&rt, rt.alloc(), setting, &REFUSED_STEPS);
}

// Once it is bound the client is sent unbind, number 7fffffff, once. Its request then is answered
// with the status 0x14, and its unbind_resp ends it.
const UNBIND: &[u8] = b"\0\0\0\x10\0\0\0\x06\0\0\0\0\x7f\xff\xff\xff";

const UNBOUND: &[u8] = b"\0\0\0\x10\x80\0\0\x06\0\0\0\0\x7f\xff\xff\xff";

const STOPPED_PIECES: [Piece; 3] = [(0, BIND), (41, SUBMIT), (57, UNBOUND)];

const STOPPED_STEPS: [Step; 11] = [
    Stops(false),
    Runs(100, RunEnd::Idle),
    Stops(true),
    Stands(ClientState::Unbinding, 16),
    Stops(false),
    Stands(ClientState::Unbinding, 16),
    Runs(100, RunEnd::Left),
    Ended(Some(End::Stopped)),
    Told(None),
    Stands(ClientState::Ended, 0),
    Closes(&[&BOUND, UNBIND, FULL], false),
];

#[test]
fn stop_waits_for_the_clients_answer(rt: HostRuntime) {
    let setting = Setting::new(0, script(rt.alloc(), 4_096, &STOPPED_PIECES));
    lanes_after(&rt, rt.alloc(), setting, &STOPPED_STEPS);
}
