//! Histories that are legal, and changes that make them illegal.

use crate::lanes::fixture::Row::{Is, Rounds};
use crate::lanes::fixture::{ROOMY, Row, SUBMIT_SM, Step, play, played};
use crate::rows::check;
use smx_history::Kind::{Accept, Admit, Answer, Collect, Down, Fail, Late, Retire, Take, Up};
use smx_history::{Entry, Kind, Limits};
use smx_lane::Lane;
use smx_legal::{is_legal, is_legal_shifts};
use std::alloc::Global;
use std::process::Abort;
use std::test::*;

const SUBMIT_SM_RESP: u32 = 0x8000_0004;

const QUERY_SM: u32 = 0x0000_0003;

const QUERY_SM_RESP: u32 = 0x8000_0003;

const GENERIC_NACK: u32 = 0x8000_0000;

// An entry of caller 0.
fn entry(kind: Kind, client: u64, ordinal: u64, number: u32, command: u32) -> Entry {
    Entry {
        kind,
        by: 0,
        client,
        ordinal,
        number,
        command,
    }
}

// One client, two requests: the first answered in time and collected, the second answered late.
fn session() -> [Entry; 9] {
    [
        entry(Admit, 1, 0, 0, 0),
        entry(Accept, 1, 1, 7, SUBMIT_SM),
        entry(Accept, 1, 2, 7, SUBMIT_SM),
        entry(Take, 1, 1, 1, 0),
        entry(Take, 1, 2, 2, 0),
        entry(Answer, 1, 1, 1, SUBMIT_SM_RESP),
        entry(Collect, 1, 1, 0, 0),
        entry(Retire, 1, 0, 0, 0),
        entry(Late, 1, 2, 2, SUBMIT_SM_RESP),
    ]
}

// Two requests are taken and fail, the second after its client has retired.
fn lost_link() -> [Entry; 11] {
    [
        entry(Admit, 1, 0, 0, 0),
        entry(Accept, 1, 1, 7, SUBMIT_SM),
        entry(Accept, 1, 2, 7, QUERY_SM),
        entry(Take, 1, 1, 1, 0),
        entry(Take, 1, 2, 2, 0),
        entry(Down, 0, 0, 0, 0),
        entry(Fail, 1, 1, 1, SUBMIT_SM_RESP),
        entry(Collect, 1, 1, 0, 0),
        entry(Retire, 1, 0, 0, 0),
        entry(Fail, 1, 2, 2, GENERIC_NACK),
        entry(Up, 0, 0, 0, 0),
    ]
}

// The number of an open request is not given to another, and that of an answered one not within
// 1,000,000 takes. What is answered doesn't fail, nor the other way round. Nothing is taken while
// the lane is down.
#[test]
fn lists_are_told_apart(rt: HostRuntime) {
    let admit = entry(Admit, 1, 0, 0, 0);
    let accept = entry(Accept, 1, 1, 7, SUBMIT_SM);
    let second = entry(Accept, 1, 2, 7, SUBMIT_SM);
    let take = entry(Take, 1, 1, 1, 0);
    let again = entry(Take, 1, 2, 1, 0);
    let other = entry(Take, 1, 2, 1_025, 0);
    let answer = entry(Answer, 1, 1, 1, SUBMIT_SM_RESP);
    let fail = entry(Fail, 1, 1, 1, SUBMIT_SM_RESP);
    let down = entry(Down, 0, 0, 0, 0);
    let up = entry(Up, 0, 0, 0, 0);
    let lists: [(&[Entry], bool); 13] = [
        (&[], true),
        (&session(), true),
        (&lost_link(), true),
        (&[admit, accept, take, answer, second, other], true),
        (&[admit, accept, take, answer, second, again], false),
        (&[admit, accept, second, take, other, answer], true),
        (&[admit, accept, second, take, again, answer], false),
        (&[admit, accept, take, down, answer], true),
        (&[admit, accept, take, down, fail], true),
        (&[admit, accept, take, down, answer, fail], false),
        (&[admit, accept, take, down, fail, answer], false),
        (&[admit, accept, down, take], false),
        (&[admit, accept, down, up, take], true),
    ];
    for at in 0..lists.len() {
        let (list, legal) = lists[at];
        check(&rt, is_legal(list, ROOMY) == legal, "lists", at);
    }
}

// Whether the session is found illegal once these entries are swapped.
fn is_found(a: usize, b: usize) -> bool {
    let mut spoiled = session();
    if a >= spoiled.len() || b >= spoiled.len() {
        return false;
    }
    spoiled.swap(a, b);
    !is_legal(&spoiled, ROOMY)
}

const SWAPPED: [(usize, usize); 8] = [
    (0, 1),
    (1, 2),
    (1, 3),
    (3, 4),
    (3, 5),
    (5, 6),
    (6, 7),
    (7, 8),
];

#[test]
fn swapped_entries_are_found(rt: HostRuntime) {
    for at in 0..SWAPPED.len() {
        let (a, b) = SWAPPED[at];
        check(&rt, is_found(a, b), "swapped", at);
    }
}

// Whether the list is found illegal with this entry in that place.
fn is_wrong(list: &mut [Entry], at: usize, entry: Entry) -> bool {
    if let Some(place) = list.get_mut(at) {
        *place = entry;
    }
    !is_legal(list, ROOMY)
}

#[test]
fn wrong_entries_are_found(rt: HostRuntime) {
    let mut by_another = entry(Admit, 1, 0, 0, 0);
    by_another.by = 1;
    // A place, and the entry that stands there instead.
    let instead = [
        (0, by_another),
        (0, entry(Admit, 0, 0, 0, 0)),
        (0, entry(Admit, 1, 1, 0, 0)),
        (1, entry(Accept, 1, 0, 7, SUBMIT_SM)),
        (1, entry(Accept, 1, 1, 7, SUBMIT_SM_RESP)),
        (3, entry(Take, 1, 1, 0, 0)),
        (3, entry(Take, 1, 1, 0x7FFF_FFFD, 0)),
        (4, entry(Take, 1, 1, 2, 0)),
        (5, entry(Answer, 1, 1, 3, SUBMIT_SM_RESP)),
        (5, entry(Answer, 1, 1, 1, QUERY_SM_RESP)),
        (6, entry(Collect, 1, 2, 0, 0)),
        (7, entry(Retire, 2, 0, 0, 0)),
        (8, entry(Answer, 1, 2, 2, SUBMIT_SM_RESP)),
        (8, entry(Accept, 1, 3, 7, SUBMIT_SM)),
    ];
    for row in 0..instead.len() {
        let (at, entry) = instead[row];
        check(&rt, is_wrong(&mut session(), at, entry), "entries", row);
    }
}

#[test]
fn wrong_links_are_found(rt: HostRuntime) {
    let instead = [
        (5, entry(Up, 0, 0, 0, 0)),
        (5, entry(Down, 1, 0, 0, 0)),
        (5, entry(Down, 0, 0, 1, 0)),
        (6, entry(Fail, 1, 1, 1, GENERIC_NACK)),
        (6, entry(Fail, 1, 1, 2, SUBMIT_SM_RESP)),
        (6, entry(Answer, 1, 1, 1, QUERY_SM_RESP)),
        (8, entry(Accept, 1, 3, 7, SUBMIT_SM)),
        (8, entry(Up, 0, 0, 0, 0)),
        (9, entry(Fail, 1, 2, 2, QUERY_SM_RESP)),
        (9, entry(Fail, 1, 1, 1, SUBMIT_SM_RESP)),
        (9, entry(Collect, 1, 2, 0, 0)),
        (10, entry(Down, 0, 0, 0, 0)),
    ];
    for row in 0..instead.len() {
        let (at, entry) = instead[row];
        check(&rt, is_wrong(&mut lost_link(), at, entry), "links", row);
    }
}

// A request is taken and its link lost: it fails, the next is refused, and once the lane is up again
// the next is accepted.
const LOST_AND_FOUND: [Row; 10] = [
    Is(Step::Admit(1), "admitted", 0),
    Is(Step::Accept(1, 1), "accepted", 0),
    Is(Step::Take(0), "taken", 1),
    Is(Step::Down, "down", 0),
    Is(Step::Fail, "failed", 1),
    Is(Step::Fail, "window empty", 0),
    Is(Step::Collect(1), "submit_sm_resp", 0x45),
    Is(Step::Accept(1, 2), "is down", 0),
    Is(Step::Up, "up", 0),
    Is(Step::Accept(1, 2), "accepted", 0),
];

// What the lane has noted then.
fn lost_and_found() -> [Entry; 8] {
    [
        entry(Admit, 1, 0, 0, 0),
        entry(Accept, 1, 1, 7, SUBMIT_SM),
        entry(Take, 1, 1, 1, 0),
        entry(Down, 0, 0, 0, 0),
        entry(Fail, 1, 1, 1, SUBMIT_SM_RESP),
        entry(Collect, 1, 1, 0, 0),
        entry(Up, 0, 0, 0, 0),
        entry(Accept, 1, 2, 7, SUBMIT_SM),
    ]
}

#[test]
fn lost_lanes_come_up_again(rt: HostRuntime) {
    let lane = played(&rt, rt.alloc(), "lost", ROOMY, &LOST_AND_FOUND);
    let are_noted = lane.entries() == lost_and_found().as_slice();
    check(&rt, are_noted, "noted", 0);
    check(&rt, is_legal(lane.entries(), ROOMY), "legal", 0);
}

const TIGHT: Limits = Limits {
    queue: 2,
    window: 2,
    client: 2,
    history: 11,
};

const TIGHTER: Limits = Limits {
    history: 10,
    ..TIGHT
};

// Two requests wait in the queue, two are open in the window, and the one client has both. The size
// is three entries, three to come of each of two requests, the client's retire and a down.
#[test]
fn limits_are_kept(rt: HostRuntime) {
    let session = session();
    assert!(rt; is_legal(&session, TIGHT));
    assert!(rt; !is_legal(&session, Limits { queue: 1, ..TIGHT }));
    assert!(rt; !is_legal(&session, Limits { window: 1, ..TIGHT }));
    assert!(rt; !is_legal(&session, Limits { client: 1, ..TIGHT }));
    assert!(rt; !is_legal(&session, TIGHTER));
}

const FULL: Limits = Limits {
    history: 11,
    ..ROOMY
};

const FULLER: Limits = Limits {
    history: 10,
    ..ROOMY
};

// Whether the session in two shifts, the second behind so many entries, is legal under the history 11
// and under 10, and whether it is under 11 with its shifts the other way round.
fn joined(rt: &impl Abort, alloc: Global, at: usize) -> (bool, bool, bool) {
    let all = session();
    let (before, after) = all.split_at(at.min(all.len()));
    let first = Vec::from_slice(alloc, before).expect(rt, "out of memory");
    let second = Vec::from_slice(alloc, after).expect(rt, "out of memory");
    let mut lists = [first, second];
    let is_legal = is_legal_shifts(&lists, FULL);
    let fits = is_legal_shifts(&lists, FULLER);
    lists.swap(0, 1);
    (is_legal, fits, is_legal_shifts(&lists, FULL))
}

// The size is 3 and 7 after the first two entries, and 11 after each from the third to the eighth.
// The rules go on over a shift, and the count of entries begins anew: a shift before the third entry
// takes one or two entries off the 11.
#[test]
fn shifts_are_joined(rt: HostRuntime) {
    for at in 0..10 {
        let wanted = (true, at == 1 || at == 2, at == 0 || at == 9);
        let found = joined(&rt, rt.alloc(), at);
        check(&rt, found == wanted, "shifts", at);
    }
    assert!(rt; is_legal_shifts(&[], ROOMY));
}

// 249 rounds fill the history, and so do 249 more behind a shift.
const FILLED: [Row; 3] = [
    Is(Step::Admit(1), "admitted", 0),
    Rounds(1, 1, 249),
    Is(Step::Accept(1, 250), "history full", 0),
];

const FILLED_AGAIN: [Row; 2] = [
    Rounds(250, 1 + 249 * 1_024, 249),
    Is(Step::Accept(1, 499), "history full", 0),
];

// The list that a lane hands out where it stores so many entries.
fn turned_over(rt: &impl Abort, lane: &mut Lane, least: usize) -> Vec<Entry> {
    let handed = lane.turn_over(0, least).expect(rt, "out of memory");
    let list = handed.expect(rt, "the lane hands out no list");
    check(rt, list.len() == least, "entries", least);
    list
}

// The lists that a lane hands out are legal joined, and in no other order.
#[test]
fn lists_of_a_lane_are_legal(rt: HostRuntime) {
    let mut lane = played(&rt, rt.alloc(), "filled", ROOMY, &FILLED);
    let first = turned_over(&rt, &mut lane, 997);
    play(&rt, rt.alloc(), &mut lane, "filled again", &FILLED_AGAIN);
    let second = turned_over(&rt, &mut lane, 996);
    let mut lists = [first, second];
    assert!(rt; is_legal_shifts(&lists, ROOMY));
    lists.swap(0, 1);
    assert!(rt; !is_legal_shifts(&lists, ROOMY));
}
