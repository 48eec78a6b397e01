use crate::rows::{check, says};
use smx_ticket_core::{Caller, Core, Event, Illegal};
use std::alloc::Global;
use std::process::Abort;
use std::test::*;

const ENDED: u64 = 1 << 62;

// An event, its answer, and the state of a caller behind it.
type Row = (Event, Result<(), Illegal>, usize, Option<Caller>);

const TURNS: [Row; 16] = [
    (Event::ReadNext(0), Ok(()), 0, Some(Caller::Read(0))),
    (Event::Draw(0), Ok(()), 0, Some(Caller::Waiting(0))),
    (Event::ReadNext(1), Ok(()), 1, Some(Caller::Read(1))),
    (Event::Draw(1), Ok(()), 1, Some(Caller::Waiting(1))),
    (Event::Look(1), Ok(()), 1, Some(Caller::Waiting(1))),
    (Event::Look(0), Ok(()), 0, Some(Caller::Holding(0))),
    (Event::Leave(0), Ok(()), 0, Some(Caller::Idle)),
    (Event::Look(1), Ok(()), 1, Some(Caller::Holding(1))),
    (Event::ReadServing(0), Ok(()), 0, Some(Caller::Saw(1))),
    (Event::TryDraw(0), Ok(()), 0, Some(Caller::Idle)),
    (Event::Leave(1), Ok(()), 1, Some(Caller::Idle)),
    (Event::ReadServing(0), Ok(()), 0, Some(Caller::Saw(2))),
    (Event::TryDraw(0), Ok(()), 0, Some(Caller::Holding(2))),
    (Event::Leave(0), Ok(()), 0, Some(Caller::Idle)),
    (
        Event::Leave(0),
        Err(Illegal::WrongState),
        0,
        Some(Caller::Idle),
    ),
    (Event::ReadNext(2), Err(Illegal::NoCaller), 2, None),
];

// A caller whose draw is lost reads again.
const LOST_DRAW: [Row; 5] = [
    (Event::ReadNext(0), Ok(()), 0, Some(Caller::Read(5))),
    (Event::ReadNext(1), Ok(()), 1, Some(Caller::Read(5))),
    (Event::Draw(1), Ok(()), 1, Some(Caller::Waiting(5))),
    (Event::Draw(0), Ok(()), 0, Some(Caller::Read(6))),
    (Event::Look(1), Ok(()), 1, Some(Caller::Holding(5))),
];

const TICKETS_END: [Row; 2] = [
    (Event::ReadNext(0), Ok(()), 0, Some(Caller::Read(ENDED))),
    (
        Event::Draw(0),
        Err(Illegal::Spent),
        0,
        Some(Caller::Read(ENDED)),
    ),
];

// Plays the rows with so many callers from this ticket on: behind them these are the next ticket and
// the one that is served.
fn play(rt: &impl Abort, alloc: Global, start: (usize, u64), rows: &[Row], after: (u64, u64)) {
    let (callers, first) = start;
    assert!(rt; first <= ENDED);
    let mut core = Core::start(alloc, callers, first).expect(rt, "out of memory");
    for at in 0..rows.len() {
        let (event, answer, by, caller) = rows[at];
        check(rt, core.step(event) == answer, "answers", at);
        check(rt, core.caller(by) == caller, "callers", at);
    }
    check(rt, (core.next(), core.serving()) == after, "tickets", 0);
}

#[test]
fn callers_take_turns(rt: HostRuntime) {
    play(&rt, rt.alloc(), (2, 0), &TURNS, (3, 3));
    play(&rt, rt.alloc(), (2, 5), &LOST_DRAW, (6, 5));
    play(&rt, rt.alloc(), (1, ENDED), &TICKETS_END, (ENDED, ENDED));
}

const REFUSALS: [(Illegal, &str); 3] = [
    (Illegal::NoCaller, "no caller has this index"),
    (
        Illegal::WrongState,
        "the caller's state does not allow this event",
    ),
    (Illegal::Spent, "every ticket was drawn"),
];

#[test]
fn refusals_say_why(rt: HostRuntime) {
    for at in 0..REFUSALS.len() {
        let (illegal, words) = REFUSALS[at];
        let is_said = says(&rt, rt.alloc(), &illegal, words);
        check(&rt, is_said, words, at);
    }
}
