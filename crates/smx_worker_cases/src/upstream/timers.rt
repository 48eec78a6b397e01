//! Timers that a turn judges late: what had come before it counts first.
use super::Step::{Closes, Collects, Runs, Stands, Submits, Told};
use super::*;
use std::test::*;

// The centre's answer to the enquiry, and a generic_nack of nothing.
const ALIVE: [u8; 16] = [
    0, 0, 0, 0x10, 0x80, 0, 0, 0x15, 0, 0, 0, 0, 0x7F, 0xFF, 0xFF, 0xFE,
];

const STRAY: [u8; 16] = [0, 0, 0, 0x10, 0x80, 0, 0, 0, 0, 0, 0, 3, 0, 0, 0, 9];

// The centre answers the enquiry and then the request once it has both. The enquiry is said at 1,000,
// and the next turn comes at 62,000: each answer lies in the link then, behind a read of its own.
const ANSWERED_PIECES: [Piece; 3] = [(30, &BOUND), (80, &ALIVE), (80, &RESPONSE)];

const ANSWERED_STEPS: [Step; 9] = [
    Submits(Ok(0)),
    Runs(0, 1_000, RunEnd::Idle),
    Runs(1_000, 1, RunEnd::Turns),
    Runs(62_000, 1_000, RunEnd::Idle),
    Stands(UpstreamState::Bound),
    Told(1),
    Collects(ANSWERED),
    Collects(None),
    Closes(&[&BIND, &SUBMIT, &ENQUIRY]),
];

// The same where it answers the enquiry alone: the request fails in the turn that finds nothing more.
const UNANSWERED_STEPS: [Step; 9] = [
    Submits(Ok(0)),
    Runs(0, 1_000, RunEnd::Idle),
    Runs(1_000, 1, RunEnd::Turns),
    Runs(62_000, 1, RunEnd::Turns),
    Collects(None),
    Runs(62_000, 1, RunEnd::Turns),
    Stands(UpstreamState::Bound),
    Collects(FAILED),
    Closes(&[&BIND, &SUBMIT, &ENQUIRY]),
];

// The same where it answers neither: the first turn ends the session.
const SILENT_STEPS: [Step; 6] = [
    Submits(Ok(0)),
    Runs(0, 1_000, RunEnd::Idle),
    Runs(1_000, 1, RunEnd::Turns),
    Runs(62_000, 1, RunEnd::Left),
    Closes(&[&BIND, &SUBMIT, &ENQUIRY]),
    Collects(FAILED),
];

#[test]
fn turn_that_comes_late(rt: HostRuntime) {
    let cases: [(&[Piece], &[Step]); 3] = [
        (&ANSWERED_PIECES, &ANSWERED_STEPS),
        (&ANSWERED_PIECES[..2], &UNANSWERED_STEPS),
        (&ANSWERED_PIECES[..1], &SILENT_STEPS),
    ];
    for (pieces, steps) in cases {
        let setting = Setting::new(pieces.len(), script(rt.alloc(), 65_536, pieces));
        lanes_after(&rt, rt.alloc(), setting, steps);
    }
}

// Each read brings octets. So the request waits until it is twice as old as it may be, and the session
// is silent at no time.
const ENDLESS_PIECES: [Piece; 6] = [
    (30, &BOUND),
    (64, &STRAY),
    (64, &STRAY),
    (64, &STRAY),
    (64, &STRAY),
    (64, &STRAY),
];

const ENDLESS_STEPS: [Step; 9] = [
    Submits(Ok(0)),
    Runs(0, 2, RunEnd::Turns),
    Runs(60_000, 1, RunEnd::Turns),
    Runs(119_999, 1, RunEnd::Turns),
    Collects(None),
    Runs(120_000, 1, RunEnd::Turns),
    Told(1),
    Collects(FAILED),
    Closes(&[&BIND, &SUBMIT, &ENQUIRY]),
];

#[test]
fn centre_that_writes_without_end(rt: HostRuntime) {
    let setting = Setting::new(0, script(rt.alloc(), 65_536, &ENDLESS_PIECES));
    lanes_after(&rt, rt.alloc(), setting, &ENDLESS_STEPS);
}

// The link takes an octet a write, so that octets of the enquiry are left and nothing is read. The
// session is silent at 2,000, and the next moment ends it, but no further turn at the same.
const CLOGGED_STEPS: [Step; 7] = [
    Runs(0, 1_000, RunEnd::Idle),
    Runs(1_000, 1, RunEnd::Turns),
    Runs(1_999, 1, RunEnd::Turns),
    Runs(2_000, 1, RunEnd::Turns),
    Runs(2_000, 1, RunEnd::Turns),
    Runs(2_001, 1, RunEnd::Left),
    Closes(&[&BIND, &[0, 0, 0, 0x10]]),
];

#[test]
fn centre_that_takes_nothing_more(rt: HostRuntime) {
    let setting = Setting::new(0, script(rt.alloc(), 1, &[(30, &BOUND)]));
    lanes_after(&rt, rt.alloc(), setting, &CLOGGED_STEPS);
}
