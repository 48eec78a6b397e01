//! Lanes against replies worked out by hand.

use crate::lanes::fixture::Row::{Clients, Is, Rounds};
use crate::lanes::fixture::Step::{
    Accept, Admit, Answer, Collect, Down, Expire, Fail, Pass, Retire, Take, TurnOver, Up,
};
use crate::lanes::fixture::{ROOMY, Row, SUBMIT_SM, played};
use smx_lane::Limits;
use std::alloc::Global;
use std::process::Abort;
use std::test::*;

const TIGHT: Limits = Limits {
    queue: 1,
    window: 1,
    client: 1,
    history: 1_000,
};

const TWO_PLACES: Limits = Limits { window: 2, ..ROOMY };

const THREE_PLACES: Limits = Limits { window: 3, ..ROOMY };

const ONE_PLACE: Limits = Limits {
    window: 1,
    history: 10_000,
    ..ROOMY
};

const FULL_CLIENT: [Row; 3] = [
    Is(Admit(1), "admitted", 0),
    Is(Accept(1, 1), "accepted", 0),
    Is(Accept(1, 2), "client full", 0),
];

// Only a greater number than each before is admitted, also behind a shift.
const RISING_NUMBERS: [Row; 7] = [
    Is(Admit(5), "admitted", 0),
    Is(Admit(5), "known", 0),
    Is(Admit(4), "known", 0),
    Is(Retire(5), "retired", 0),
    Is(TurnOver(1), "turned over", 2),
    Is(Admit(5), "known", 0),
    Is(TurnOver(1), "too few", 0),
];

// Client 1 retires with a request queued, which is taken all the same. Its response comes late.
const RETIRED_CLIENT: [Row; 8] = [
    Is(Admit(1), "admitted", 0),
    Is(Accept(1, 1), "accepted", 0),
    Is(Retire(1), "retired", 0),
    Is(Retire(1), "not admitted", 0),
    Is(Take(0), "taken", 1),
    Is(Answer(2), "unknown", 2),
    Is(Answer(1), "late", 0),
    Is(Collect(1), "nothing", 0),
];

// 1 + 4 * 249 entries, and no room for four more beside the client's retire and the lane's down.
const FULL_HISTORY: [Row; 5] = [
    Is(Admit(1), "admitted", 0),
    Rounds(1, 1, 249),
    Is(Accept(1, 250), "history full", 0),
    Is(Retire(1), "retired", 0),
    Is(TurnOver(0), "turned over", 998),
];

// There are as many rounds again behind a shift.
const TURNED_HISTORY: [Row; 9] = [
    Is(Admit(1), "admitted", 0),
    Rounds(1, 1, 249),
    Is(Accept(1, 250), "history full", 0),
    Is(TurnOver(1), "turned over", 997),
    Rounds(250, 1 + 249 * 1_024, 249),
    Is(Accept(1, 499), "history full", 0),
    Is(TurnOver(997), "too few", 0),
    Is(TurnOver(996), "turned over", 996),
    Is(TurnOver(1), "too few", 0),
];

// 498 clients make an entry each and have their retire to come, and with the lane's down that is 997.
// The down makes it 499 entries, and there is no room for four more until they are handed out.
const MANY_CLIENTS: [Row; 6] = [
    Clients(498),
    Is(Admit(499), "history full", 0),
    Is(Down, "down", 0),
    Is(Up, "history full", 0),
    Is(TurnOver(499), "turned over", 499),
    Is(Up, "up", 0),
];

// The only place is given in its generations 0, 1, 2 and on.
const MANY_NUMBERS: [Row; 2] = [Is(Admit(1), "admitted", 0), Rounds(1, 1, 1_000)];

// A window of three takes the numbers 1, 2 and 3 and then no more. Of the places that are free the
// one that was freed last is given, each under the next number of its own: an old number is unknown.
const GIVEN_AGAIN: [Row; 19] = [
    Is(Admit(1), "admitted", 0),
    Is(Accept(1, 1), "accepted", 0),
    Is(Accept(1, 2), "accepted", 0),
    Is(Accept(1, 3), "accepted", 0),
    Is(Accept(1, 4), "accepted", 0),
    Is(Accept(1, 5), "accepted", 0),
    Is(Accept(1, 6), "accepted", 0),
    Is(Take(0), "taken", 1),
    Is(Take(0), "taken", 2),
    Is(Take(0), "taken", 3),
    Is(Take(0), "window full", 0),
    Is(Answer(1), "queued", 1),
    Is(Answer(3), "queued", 1),
    Is(Take(0), "taken", 1_024 + 3),
    Is(Take(0), "taken", 1_024 + 1),
    Is(Answer(1), "unknown", 1),
    Is(Answer(1_024 + 1), "queued", 1),
    Is(Take(0), "taken", 2 * 1_024 + 1),
    Is(Answer(2), "queued", 1),
];

// A window of two: the place of the first is given again, under another number than that of the
// second, and both are answered.
const ONE_OF_TWO_GIVEN_AGAIN: [Row; 10] = [
    Is(Admit(1), "admitted", 0),
    Is(Accept(1, 1), "accepted", 0),
    Is(Accept(1, 2), "accepted", 0),
    Is(Accept(1, 3), "accepted", 0),
    Is(Take(0), "taken", 1),
    Is(Take(0), "taken", 2),
    Is(Answer(1), "queued", 1),
    Is(Take(0), "taken", 1_024 + 1),
    Is(Answer(2), "queued", 1),
    Is(Answer(1_024 + 1), "queued", 1),
];

// The first place has its next number after a lost link, and the number of before is unknown.
const LOST_LINK: [Row; 11] = [
    Is(Admit(1), "admitted", 0),
    Is(Accept(1, 1), "accepted", 0),
    Is(Accept(1, 2), "accepted", 0),
    Is(Take(0), "taken", 1),
    Is(Down, "down", 0),
    Is(Fail, "failed", 1),
    Is(Fail, "window empty", 0),
    Is(Up, "up", 0),
    Is(Take(0), "taken", 1_025),
    Is(Answer(1), "unknown", 1),
    Is(Answer(1_025), "queued", 1),
];

// What was taken may still be answered while the lane is down, and what is queued waits. The client
// of the second request retires before it fails, and its place is given to the third.
const ANSWERED_WHILE_DOWN: [Row; 14] = [
    Is(Admit(1), "admitted", 0),
    Is(Accept(1, 1), "accepted", 0),
    Is(Accept(1, 2), "accepted", 0),
    Is(Accept(1, 3), "accepted", 0),
    Is(Take(0), "taken", 1),
    Is(Take(0), "taken", 2),
    Is(Down, "down", 0),
    Is(Answer(1), "queued", 1),
    Is(Take(0), "is down", 0),
    Is(Up, "window not empty", 0),
    Is(Retire(1), "retired", 0),
    Is(Fail, "late", 0),
    Is(Up, "up", 0),
    Is(Take(0), "taken", 1_024 + 2),
];

// ESME_RSUBMITFAIL in the response of the three that submit, ESME_RSYSERR in generic_nack for
// query_sm, replace_sm and cancel_sm (SMPP 3.4, section 5.1.3). All have numbers of one place.
const FAILURES: [Row; 43] = [
    Is(Admit(1), "admitted", 0),
    Is(Pass(1, SUBMIT_SM), "accepted", 0),
    Is(Take(0), "taken", 1),
    Is(Down, "down", 0),
    Is(Fail, "failed", 1),
    Is(Fail, "window empty", 0),
    Is(Collect(1), "submit_sm_resp", 0x45),
    Is(Up, "up", 0),
    Is(Pass(2, 0x0000_0021), "accepted", 0),
    Is(Take(0), "taken", 1_024 + 1),
    Is(Down, "down", 0),
    Is(Fail, "failed", 1),
    Is(Fail, "window empty", 0),
    Is(Collect(1), "submit_multi_resp", 0x45),
    Is(Up, "up", 0),
    Is(Pass(3, 0x0000_0103), "accepted", 0),
    Is(Take(0), "taken", 2 * 1_024 + 1),
    Is(Down, "down", 0),
    Is(Fail, "failed", 1),
    Is(Fail, "window empty", 0),
    Is(Collect(1), "data_sm_resp", 0x45),
    Is(Up, "up", 0),
    Is(Pass(4, 0x0000_0003), "accepted", 0),
    Is(Take(0), "taken", 3 * 1_024 + 1),
    Is(Down, "down", 0),
    Is(Fail, "failed", 1),
    Is(Fail, "window empty", 0),
    Is(Collect(1), "generic_nack", 0x08),
    Is(Up, "up", 0),
    Is(Pass(5, 0x0000_0007), "accepted", 0),
    Is(Take(0), "taken", 4 * 1_024 + 1),
    Is(Down, "down", 0),
    Is(Fail, "failed", 1),
    Is(Fail, "window empty", 0),
    Is(Collect(1), "generic_nack", 0x08),
    Is(Up, "up", 0),
    Is(Pass(6, 0x0000_0008), "accepted", 0),
    Is(Take(0), "taken", 5 * 1_024 + 1),
    Is(Down, "down", 0),
    Is(Fail, "failed", 1),
    Is(Fail, "window empty", 0),
    Is(Collect(1), "generic_nack", 0x08),
    Is(Up, "up", 0),
];

// A request is given up once it is so old, its client is told by ESME_RSUBMITFAIL (SMPP 3.4, section
// 5.1.3), and its response comes for nobody.
const GIVEN_UP: [Row; 10] = [
    Is(Admit(1), "admitted", 0),
    Is(Expire(100, 0), "none so old", 0),
    Is(Accept(1, 1), "accepted", 0),
    Is(Take(100), "taken", 1),
    Is(Expire(599, 500), "none so old", 0),
    Is(Expire(600, 500), "failed", 1),
    Is(Expire(600, 500), "none so old", 0),
    Is(Collect(1), "submit_sm_resp", 0x45),
    Is(Answer(1), "unknown", 1),
    Is(Collect(1), "nothing", 0),
];

// Of two requests the older is given up. The younger is answered.
const OLDER_GIVEN_UP: [Row; 11] = [
    Is(Admit(1), "admitted", 0),
    Is(Accept(1, 1), "accepted", 0),
    Is(Take(100), "taken", 1),
    Is(Accept(1, 2), "accepted", 0),
    Is(Take(300), "taken", 2),
    Is(Expire(650, 500), "failed", 1),
    Is(Expire(650, 500), "none so old", 0),
    Is(Answer(2), "queued", 1),
    Is(Collect(1), "submit_sm_resp", 0x45),
    Is(Collect(1), "submit_sm_resp", 0),
    Is(Expire(1_000, 500), "none so old", 0),
];

// A lane that is down gives up what is too old, and then comes up.
const GIVEN_UP_WHILE_DOWN: [Row; 8] = [
    Is(Admit(1), "admitted", 0),
    Is(Accept(1, 1), "accepted", 0),
    Is(Take(100), "taken", 1),
    Is(Down, "down", 0),
    Is(Expire(599, 500), "none so old", 0),
    Is(Expire(600, 500), "failed", 1),
    Is(Collect(1), "submit_sm_resp", 0x45),
    Is(Up, "up", 0),
];

// The client has retired, so nobody is told.
const GIVEN_UP_LATE: [Row; 8] = [
    Is(Admit(1), "admitted", 0),
    Is(Accept(1, 1), "accepted", 0),
    Is(Take(100), "taken", 1),
    Is(Retire(1), "retired", 0),
    Is(Expire(599, 500), "none so old", 0),
    Is(Expire(600, 500), "late", 0),
    Is(Expire(600, 500), "none so old", 0),
    Is(Answer(1), "unknown", 1),
];

// A take at a moment below that of the last take counts as at that: both were taken at 1,000.
const TAKES_DO_NOT_FALL: [Row; 12] = [
    Is(Admit(1), "admitted", 0),
    Is(Accept(1, 1), "accepted", 0),
    Is(Take(1_000), "taken", 1),
    Is(Accept(1, 2), "accepted", 0),
    Is(Take(10), "taken", 2),
    Is(Expire(1_499, 500), "none so old", 0),
    Is(Expire(1_500, 500), "failed", 1),
    Is(Expire(1_500, 500), "failed", 1),
    Is(Expire(1_500, 500), "none so old", 0),
    Is(Collect(1), "submit_sm_resp", 0x45),
    Is(Collect(1), "submit_sm_resp", 0x45),
    Is(Collect(1), "nothing", 0),
];

// So does an expiry: each is as at 1,700. An answer to the first is unknown once it is given up.
const EXPIRIES_DO_NOT_FALL: [Row; 11] = [
    Is(Admit(1), "admitted", 0),
    Is(Accept(1, 1), "accepted", 0),
    Is(Take(1_600), "taken", 1),
    Is(Accept(1, 2), "accepted", 0),
    Is(Take(1_700), "taken", 2),
    Is(Expire(0, 101), "none so old", 0),
    Is(Expire(0, 100), "failed", 1),
    Is(Answer(1), "unknown", 1),
    Is(Expire(0, 100), "none so old", 0),
    Is(Expire(0, 0), "failed", 1),
    Is(Answer(2), "unknown", 2),
];

// The list by ages has room for nine in a window of two, and is made anew again and again: the one
// request that stays is found, and none of those that were answered.
const ONE_STAYS: [Row; 8] = [
    Is(Admit(1), "admitted", 0),
    Is(Accept(1, 1), "accepted", 0),
    Is(Take(0), "taken", 1),
    Rounds(2, 2, 100),
    Is(Expire(200, 150), "failed", 1),
    Is(Answer(1), "unknown", 1),
    Is(Expire(200, 0), "none so old", 0),
    Is(Collect(1), "submit_sm_resp", 0x45),
];

// Of two that stay, the older is in the second place.
const TWO_STAY: [Row; 17] = [
    Is(Admit(1), "admitted", 0),
    Is(Accept(1, 1), "accepted", 0),
    Is(Take(0), "taken", 1),
    Is(Accept(1, 2), "accepted", 0),
    Is(Take(1), "taken", 2),
    Is(Answer(1), "queued", 1),
    Is(Collect(1), "submit_sm_resp", 0),
    Is(Accept(1, 3), "accepted", 0),
    Is(Take(2), "taken", 1_025),
    Rounds(4, 3, 100),
    Is(Expire(150, 150), "none so old", 0),
    Is(Expire(151, 150), "failed", 1),
    Is(Answer(2), "unknown", 2),
    Is(Expire(151, 150), "none so old", 0),
    Is(Expire(152, 150), "failed", 1),
    Is(Answer(1_025), "unknown", 1_025),
    Is(Expire(152, 0), "none so old", 0),
];

// Plays the rows on a new lane under these limits.
fn scenario(rt: &impl Abort, alloc: Global, name: &str, limits: Limits, rows: &[Row]) {
    played(rt, alloc, name, limits, rows);
}

// Who is full, and what a history may come to.
#[test]
fn lanes_are_full_as_worked_out(rt: HostRuntime) {
    let alloc = rt.alloc();
    let full = "client full before the queue";
    scenario(&rt, alloc, full, TIGHT, &FULL_CLIENT);
    let gone = "retired clients get nothing";
    scenario(&rt, alloc, gone, ROOMY, &RETIRED_CLIENT);
    scenario(&rt, alloc, "rounds fill the history", ROOMY, &FULL_HISTORY);
    scenario(&rt, alloc, "turned lanes go on", ROOMY, &TURNED_HISTORY);
    scenario(&rt, alloc, "clients fill the history", ROOMY, &MANY_CLIENTS);
}

// Which numbers and places are given.
#[test]
fn lanes_give_numbers_as_worked_out(rt: HostRuntime) {
    let alloc = rt.alloc();
    let rising = "numbers of clients rise";
    scenario(&rt, alloc, rising, ROOMY, &RISING_NUMBERS);
    let each = "each round has a number";
    scenario(&rt, alloc, each, ONE_PLACE, &MANY_NUMBERS);
    let again = "places are given again";
    scenario(&rt, alloc, again, THREE_PLACES, &GIVEN_AGAIN);
    let one = "one of two places is given again";
    scenario(&rt, alloc, one, TWO_PLACES, &ONE_OF_TWO_GIVEN_AGAIN);
}

// What is failed at a lost link, and by its age.
#[test]
fn lanes_fail_as_worked_out(rt: HostRuntime) {
    let alloc = rt.alloc();
    let lost = "numbers go on over a lost link";
    scenario(&rt, alloc, lost, ROOMY, &LOST_LINK);
    let down = "lanes are answered while down";
    scenario(&rt, alloc, down, ROOMY, &ANSWERED_WHILE_DOWN);
    scenario(&rt, alloc, "failures tell by the command", ROOMY, &FAILURES);
    scenario(&rt, alloc, "requests are given up", ROOMY, &GIVEN_UP);
    scenario(&rt, alloc, "the older is given up", ROOMY, &OLDER_GIVEN_UP);
    let old = "given up while down";
    scenario(&rt, alloc, old, ROOMY, &GIVEN_UP_WHILE_DOWN);
    scenario(&rt, alloc, "nobody is told late", ROOMY, &GIVEN_UP_LATE);
    scenario(&rt, alloc, "takes do not fall", ROOMY, &TAKES_DO_NOT_FALL);
    let rising = "expiries do not fall";
    scenario(&rt, alloc, rising, ROOMY, &EXPIRIES_DO_NOT_FALL);
    scenario(&rt, alloc, "ages: one stays", TWO_PLACES, &ONE_STAYS);
    scenario(&rt, alloc, "ages: two stay", THREE_PLACES, &TWO_STAY);
}
