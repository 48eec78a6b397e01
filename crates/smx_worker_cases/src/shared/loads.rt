//! How much lanes hold.

use super::Ask::{Collect, Submit};
use super::Serve::{Answer, Take};
use super::Step::{Asks, Enters, Serves, Weighs};
use super::*;
use crate::hall::ROOMY;
use std::test::*;

// So much on a lane.
const fn load(queued: usize, unanswered: usize, earliest: Option<u64>, entries: usize) -> Load {
    Load {
        queued,
        unanswered,
        earliest,
        entries,
    }
}

// A client enters, two of its requests are accepted and taken at 500 and 700 milliseconds, and the first is
// answered and collected: each but the look is an entry.
#[test]
fn lane_tells_how_much_it_holds(rt: HostRuntime) {
    let steps = [
        Weighs(0, load(0, 0, None, 0)),
        Enters(None),
        Weighs(0, load(0, 0, None, 1)),
        Asks(0, Submit(7, Ok(0))),
        Asks(0, Submit(8, Ok(0))),
        Weighs(0, load(2, 0, None, 3)),
        Serves(0, Take(500, Ok((1, 1)))),
        Weighs(0, load(1, 1, Some(500), 4)),
        Serves(0, Take(700, Ok((1, 2)))),
        Weighs(0, load(0, 2, Some(500), 5)),
        Serves(0, Answer(1, Brought::To(1))),
        Weighs(0, load(0, 1, Some(700), 6)),
        Asks(0, Collect(0, Ok(Some((0, 7))))),
        Weighs(0, load(0, 1, Some(700), 7)),
    ];
    let _lanes = lanes_after(&rt, rt.alloc(), ROOMY, 1, Starts::FIRST, &steps);
}
