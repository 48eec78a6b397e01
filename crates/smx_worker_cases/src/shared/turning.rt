//! Lanes that are turned over.
ghost use Rattle.std.specs.Prelude.{◌≡◌};
ghost use Rattle.smx_shared.specs.Views.{locks_of};

use super::Ask::{Collect, Submit};
use super::Serve::{Answer, Take, TurnOver};
use super::Step::{Asks, Enters, Leaves, Serves};
use super::*;
use crate::hall::{ROOMY, count_of, is_of, last_line};
use smx_history::Kind;
use smx_shared::MakeFault;
use std::test::*;

fn add(rt: &impl Abort, steps: &mut Vec<Step>, more: &[Step]) {
    steps.extend_from_slice(more).expect(rt, "out of memory");
}

// A turn over hands out just this many entries: it hands out none where one more is wanted, and none
// at once after it.
fn add_turn_over(rt: &impl Abort, steps: &mut Vec<Step>, count: usize) {
    let more = [
        Serves(0, TurnOver(count.saturating_add(1), Ok(None))),
        Serves(0, TurnOver(count, Ok(Some(count)))),
        Serves(0, TurnOver(1, Ok(None))),
    ];
    add(rt, steps, &more);
}

// A client enters, 1,000 of its requests pass, and it leaves. Each 25th is taken before a turn over and
// answered after it. The steps, and how many entries are handed out in all.
fn requests(rt: &impl Abort, alloc: Global) -> (Vec<Step>, usize) {
    let mut steps = Vec::new(alloc);
    let mut stored: usize = 0;
    add(rt, &mut steps, &[Enters(None)]);
    for own in 1..=1_000u32 {
        // The window's first place is given once more each time.
        let number = own.wrapping_sub(1).wrapping_mul(1_024).wrapping_add(1);
        let begin = [
            Asks(0, Submit(own, Ok(0))),
            Serves(0, Take(0, Ok((1, number)))),
        ];
        add(rt, &mut steps, &begin);
        if own % 25 == 0 {
            // The admit, 24 requests with four entries each, an accept and a take; from then on the
            // answer and the collect of the last request, and the same.
            let count = if own == 25 { 99 } else { 100 };
            add_turn_over(rt, &mut steps, count);
            stored = stored.saturating_add(count);
        }
        let end = [
            Serves(0, Answer(number, Brought::To(1))),
            Asks(0, Collect(0, Ok(Some((0, own))))),
        ];
        add(rt, &mut steps, &end);
    }
    add(rt, &mut steps, &[Leaves(0, true)]);
    (steps, stored)
}

// 1,000 requests pass over a lane that stores 1,000 entries: the admit, four entries of each request,
// and the retire.
#[test]
fn lane_goes_on_over_shifts(rt: HostRuntime) {
    let (steps, stored) = requests(&rt, rt.alloc());
    let lanes = lanes_after(&rt, rt.alloc(), ROOMY, 1, Starts::FIRST, &steps);
    assert!(rt; stored == 3_999);
    let kinds = [Kind::Answer, Kind::Collect, Kind::Retire];
    assert!(rt; is_of(&lanes, &kinds));
}

// A client enters, and the lane is turned over: how many entries were stored, and how many of them
// handed out.
fn hands_out_or_keeps<R: Wait + Abort>(
    rt: &R,
    at: &Exchange,
    door: &mut Door,
    line: &mut Line,
) -> (usize, usize)
    requires { locks_of door.old.fronts ≡ at.now }
    ensures { locks_of door.new.fronts ≡ at.now }
{
    let admits = usize::from(enter(rt, at, door).is_ok());
    let handed = match line.tap.turn_over(line.at, rt, 1) {
        Ok(Some(entries)) => entries.len(),
        Ok(None) | Err(TurnFault::NoMemory) => 0,
        Err(TurnFault::Spent) => panic!(rt; "tickets are left"),
    };
    (admits, handed)
}

// Where the new list is refused, the lane keeps its entry: refuse-memory refuses each allocation
// in turn.
#[test]
fn refused_memory_at_a_turn_over(rt: HostRuntime) {
    let (exchange, mut door, taps) = match Exchange::new(&rt, rt.alloc(), ROOMY, 1) {
        Ok(made) => made,
        Err(unmade) => return assert!(rt; unmade.fault == MakeFault::NoMemory),
    };
    let mut line = last_line(&rt, &exchange, taps);
    let (admits, handed) = hands_out_or_keeps(&rt, &exchange, &mut door, &mut line);
    drop(line);
    let lanes = lanes_of(&rt, exchange, door);
    let lane = lanes.last().expect(&rt, "there is one lane");
    let kept = count_of(lane, Kind::Admit);
    assert!(rt; kept.saturating_add(handed) == admits);
}
