use self::Row::{Full, Gives, GivesAt, Last, Settles, Takes, TakesOverdue};
use crate::rows::check;
use smx_routes::{MoWindow, WindowFault};
use std::alloc::Global;
use std::process::Abort;
use std::test::*;

const DELIVER_SM: u32 = 0x0000_0005;

const DELIVER_SM_RESP: u32 = 0x8000_0005;

const DATA_SM: u32 = 0x0000_0103;

// A call of a window with what it answers.
#[derive(Clone, Copy)]
enum Row {
    // The lane, the centre's number and the command, and the number given: none where it is full.
    Gives(usize, u32, u32, Option<u32>),
    // The same at a moment, of lane 0.
    GivesAt(u64, u32, Option<u32>),
    // What was sent at this moment or before.
    TakesOverdue(u64, Option<(usize, u32, u32)>),
    // A response by its number and command.
    Settles(u32, u32, Option<(usize, u32)>),
    Takes(Option<(usize, u32, u32)>),
    Last(u32),
    Full(bool),
}

fn holds(window: &mut MoWindow, row: Row) -> bool {
    match row {
        Gives(lane, number, command, wanted) => {
            window.give(lane, number, command, 0).ok() == wanted
        }
        GivesAt(since, number, wanted) => {
            window.give(0, number, DELIVER_SM, since).ok() == wanted
        }
        TakesOverdue(until, wanted) => window.take_overdue(until) == wanted,
        Settles(number, command, wanted) => window.settle(number, command) == wanted,
        Takes(wanted) => window.take_first() == wanted,
        Last(wanted) => window.last() == wanted,
        Full(wanted) => window.is_full() == wanted,
    }
}

// The only place is taken until its message is answered, by the response to its command or by
// generic_nack.
const ONE_PLACE: [Row; 11] = [
    Gives(0, 3, DELIVER_SM, Some(1)),
    Full(true),
    Gives(0, 4, DELIVER_SM, None),
    Settles(1, 0x8000_0004, None),
    Settles(2, DELIVER_SM_RESP, None),
    Settles(1, 0x8000_0000, Some((0, 3))),
    Settles(1, 0x8000_0000, None),
    Gives(7, 4, DELIVER_SM, Some(2)),
    Settles(2, DELIVER_SM_RESP, Some((7, 4))),
    Full(false),
    Last(2),
];

// The greatest number but one is given, which an enquiry bears, and then 1. The least number is taken
// first.
const GOES_ROUND: [Row; 9] = [
    Gives(1, 11, DELIVER_SM, Some(0x7FFF_FFFE)),
    Last(0x7FFF_FFFE),
    Gives(0, 10, DELIVER_SM, Some(1)),
    Gives(2, 12, DATA_SM, Some(2)),
    Last(2),
    Takes(Some((0, 10, DELIVER_SM))),
    Takes(Some((2, 12, DATA_SM))),
    Takes(Some((1, 11, DELIVER_SM))),
    Takes(None),
];

// What is overdue is taken, the first first, and answered no more.
const OVERDUE: [Row; 9] = [
    GivesAt(1_000, 10, Some(1)),
    GivesAt(1_000, 11, Some(2)),
    GivesAt(1_001, 12, Some(3)),
    TakesOverdue(999, None),
    TakesOverdue(1_000, Some((0, 10, DELIVER_SM))),
    Settles(1, DELIVER_SM_RESP, None),
    Settles(2, DELIVER_SM_RESP, Some((0, 11))),
    TakesOverdue(1_000, None),
    TakesOverdue(1_001, Some((0, 12, DELIVER_SM))),
];

// A window that goes on where another ended.
const GOES_ON: [Row; 2] = [Last(5), Gives(0, 10, DELIVER_SM, Some(6))];

// Plays the rows on a window of so many places that goes on behind this number.
fn play(rt: &impl Abort, alloc: Global, places: u32, last: u32, rows: &[Row]) {
    assert!(rt; last <= 0x7FFF_FFFE);
    let mut window = MoWindow::after(alloc, places, last).expect(rt, "no window");
    check(rt, window.places() == places, "places", 0);
    for at in 0..rows.len() {
        check(rt, holds(&mut window, rows[at]), "window", at);
    }
}

#[test]
fn windows_give_and_settle(rt: HostRuntime) {
    play(&rt, rt.alloc(), 1, 0, &ONE_PLACE);
    play(&rt, rt.alloc(), 3, 0x7FFF_FFFD, &GOES_ROUND);
    play(&rt, rt.alloc(), 3, 0, &OVERDUE);
    play(&rt, rt.alloc(), 2, 5, &GOES_ON);
}

const BAD_SIZES: [u32; 3] = [0, 1_025, u32::MAX];

#[test]
fn sizes_have_a_range(rt: HostRuntime) {
    for at in 0..BAD_SIZES.len() {
        let fault = MoWindow::new(rt.alloc(), BAD_SIZES[at]).err();
        check(&rt, fault == Some(WindowFault::BadSize), "bad sizes", at);
    }
}

// Whether 1,024 places are taken, by numbers in order.
fn is_filled(window: &mut MoWindow) -> bool {
    for number in 1..=1_024 {
        if window.give(0, number, DELIVER_SM, 0) != Ok(number) {
            return false;
        }
    }
    window.is_full()
}

// Want of memory is said by name: refuse-memory refuses each allocation in turn. What follows
// takes none.
#[test]
fn refused_memory(rt: HostRuntime) {
    match MoWindow::new(rt.alloc(), 1_024) {
        Ok(mut window) => assert!(rt; is_filled(&mut window)),
        Err(fault) => assert!(rt; fault == WindowFault::NoMemory),
    }
}
