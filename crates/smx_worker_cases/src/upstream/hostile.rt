//! A centre whose link ends, fails or takes little, and one that answers what nobody asked.
use super::Step::{Closes, Collects, Gets, Runs, Submits, Told};
use super::*;
use crate::hall::is_of;
use crate::stand::octet_by_octet;
use smx_history::Kind;
use smx_turns::Fault;
use std::cmp::Ord;
use std::test::*;

// The centre's answer to the bind, a message and its response to the request, of 23, 37 and 18
// octets.
const SAID: [Piece; 3] = [(30, &BOUND), (64, &MESSAGE), (64, &RESPONSE)];

// A request beside a worker over this link, where so many octets of the centre were heard, and so many
// of the bind and the request taken. The client was sent the message where it came whole. Of a request
// that was sent and not answered it is told a failure, and of one that waits nothing.
fn meets<R: Wait + Abort>(
    rt: &R,
    alloc: Global,
    script: Script,
    end: RunEnd,
    heard: usize,
    taken: usize,
) {
    let message: Option<(u32, &[u8])> = (heard >= 60).then_some((1, &TEXT));
    let told = match heard {
        0..23 => None,
        23..78 => FAILED,
        _ => ANSWERED,
    };
    let bind = &BIND[..taken.min(30)];
    let request = &SUBMIT[..taken.saturating_sub(30).min(34)];
    let steps = [
        Submits(Ok(0)),
        Runs(0, 1_000, end),
        Closes(&[bind, request]),
        Gets(message),
        Collects(told),
    ];
    lanes_after(rt, alloc, Setting::new(heard, script), &steps);
}

// How many octets are owed to the centre once so many were heard.
fn owed(heard: usize) -> usize {
    if heard < 23 { 30 } else { 64 }
}

// The link ends after each octet of what the centre says.
#[test]
fn link_that_ends(rt: HostRuntime) {
    for count in 0..=78 {
        for most in [65_536, 1] {
            let mut script = octet_by_octet(rt.alloc(), most, &SAID, count);
            script.ends = true;
            meets(&rt, rt.alloc(), script, RunEnd::Left, count, owed(count));
        }
    }
}

// Each read fails once: what came before it counts. The last finds nothing where it doesn't fail.
#[test]
fn link_that_fails_at_a_read(rt: HostRuntime) {
    for heard in 0..=79 {
        let mut script = octet_by_octet(rt.alloc(), 65_536, &SAID, 78);
        script.failing_read = heard as u64 + 1;
        let end = if heard < 79 {
            RunEnd::Fault(Fault::Link)
        } else {
            RunEnd::Idle
        };
        meets(&rt, rt.alloc(), script, end, heard.min(78), owed(heard));
    }
}

fn over_failing_write(alloc: Global, most: usize, write: u64) -> Script {
    let mut script = octet_by_octet(alloc, most, &SAID, 78);
    script.failing_write = write;
    script
}

// Each write of an octet fails once, of the bind and of the request. A link that takes nothing is
// offered the bind as long as the worker is turned.
#[test]
fn link_that_fails_at_a_write(rt: HostRuntime) {
    let alloc = rt.alloc();
    for taken in 0..64 {
        let script = over_failing_write(alloc, 1, taken as u64 + 1);
        let heard = if taken < 30 { 0 } else { 23 };
        let fault = RunEnd::Fault(Fault::Link);
        meets(&rt, alloc, script, fault, heard, taken);
    }
    let script = over_failing_write(alloc, 1, 65);
    meets(&rt, alloc, script, RunEnd::Idle, 78, 64);
    let script = over_failing_write(alloc, 0, 0);
    meets(&rt, alloc, script, RunEnd::Turns, 0, 0);
}

// generic_nacks with the numbers 1 to 1,000, behind the centre's answer to the bind.
fn stray(rt: &impl Abort, alloc: Global) -> Vec<u8> {
    let mut octets = Vec::from_slice(alloc, &BOUND).expect(rt, "out of memory");
    for number in 1..=1_000u32 {
        let head = octets.extend_from_slice(&[0, 0, 0, 0x10, 0x80, 0, 0, 0, 0, 0, 0, 3]);
        head.expect(rt, "out of memory");
        let tail = octets.extend_from_slice(&number.to_be_bytes());
        tail.expect(rt, "out of memory");
    }
    octets
}

// Responses to no request reach nobody, and the lane notes none of them: its entries are of the
// client's coming and of the worker's end.
const STRAY_STEPS: [Step; 5] = [
    Runs(0, 1_000, RunEnd::Idle),
    Told(0),
    Closes(&[&BIND]),
    Gets(None),
    Collects(None),
];

#[test]
fn responses_that_nobody_asked_for(rt: HostRuntime) {
    let octets = stray(&rt, rt.alloc());
    let setting = Setting::new(0, script(rt.alloc(), 65_536, &[(30, &octets)]));
    let lanes = lanes_after(&rt, rt.alloc(), setting, &STRAY_STEPS);
    assert!(rt; is_of(&lanes, &[Kind::Admit, Kind::Down]));
}
