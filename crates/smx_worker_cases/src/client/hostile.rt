//! A client whose link ends, fails or takes little.
use super::Step::{Closes, Ended, Runs};
use super::*;
use crate::hall::is_of;
use crate::stand::octet_by_octet;
use smx_history::Kind;
use smx_turns::Fault;
use std::cmp::Ord;
use std::test::*;

// The bind, submit_sm 7 to the address `1`, and unbind 8: of 25, 34 and 16 octets.
const SAID: [u8; 75] = *b"\0\0\0\x19\0\0\0\x09\0\0\0\0\0\0\0\x01a\0p\0\0\x34\0\0\0\
    \0\0\0\x22\0\0\0\x04\0\0\0\0\0\0\0\x07\0\0\0\0\0\01\0\0\0\0\0\0\0\0\0\0\0\
    \0\0\0\x10\0\0\0\x06\0\0\0\0\0\0\0\x08";

// The answers to the bind and to the unbind, of 25 and 16 octets.
const ANSWERS: [u8; 41] = *b"\0\0\0\x19\x80\0\0\x09\0\0\0\0\0\0\0\x01smx\0\x02\x10\0\x01\x34\
    \0\0\0\x10\x80\0\0\x06\0\0\0\0\0\0\0\x08";

// A client over this link, of which so many octets were heard, and which took so many of the answers:
// the request is accepted where it came whole, and the client retires once it is closed. Its work has
// ended by its unbind, where that came whole, or with its link.
fn meets<R: Wait + Abort>(
    rt: &R,
    alloc: Global,
    script: Script,
    end: RunEnd,
    heard: usize,
    taken: usize,
) {
    let ending = match end {
        RunEnd::Left if heard < 75 => Some(End::LinkEnded),
        _ if heard < 75 => None,
        _ => Some(End::Left),
    };
    let steps = [
        Runs(1_000, end),
        Ended(ending),
        Closes(&[&ANSWERS[..taken.min(41)]], false),
    ];
    let lanes = lanes_after(rt, alloc, Setting::new(heard, script), &steps);
    let kinds: &[Kind] = if heard >= 59 {
        &[Kind::Admit, Kind::Accept, Kind::Retire]
    } else {
        &[Kind::Admit, Kind::Retire]
    };
    assert!(rt; is_of(&lanes, kinds), "after {heard} octets");
}

// How many octets of the answers are owed once so many were heard.
fn owed(heard: usize) -> usize {
    match heard {
        0..25 => 0,
        25..75 => 25,
        _ => 41,
    }
}

// The link ends after each octet of what the client says, all at once.
#[test]
fn link_that_ends(rt: HostRuntime) {
    for count in 0..=75 {
        for most in [65_536, 1] {
            let said: [Piece; 1] = [(0, &SAID[..count])];
            let mut script = script(rt.alloc(), most, &said[..count.min(1)]);
            script.ends = true;
            meets(&rt, rt.alloc(), script, RunEnd::Left, count, owed(count));
        }
    }
}

// The client says an octet a read. Each read fails once: what came before it counts.
#[test]
fn link_that_fails_at_a_read(rt: HostRuntime) {
    for heard in 0..=75 {
        let mut script = octet_by_octet(rt.alloc(), 65_536, &[(0, &SAID)], 75);
        script.failing_read = heard as u64 + 1;
        let end = if heard < 75 {
            RunEnd::Fault(Fault::Link)
        } else {
            RunEnd::Left
        };
        meets(&rt, rt.alloc(), script, end, heard, owed(heard));
    }
}

// A client that says all at once, over a link that takes so many octets a write and fails at this
// one.
fn whole(alloc: Global, most: usize, failing_write: u64) -> Script {
    let mut script = script(alloc, most, &[(0, &SAID)]);
    script.failing_write = failing_write;
    script
}

// Each write of an octet fails once: those before it were taken. A link that takes nothing is
// offered the answers as long as it is turned.
#[test]
fn link_that_fails_at_a_write(rt: HostRuntime) {
    let alloc = rt.alloc();
    for taken in 0..41 {
        let script = whole(alloc, 1, taken as u64 + 1);
        meets(&rt, alloc, script, RunEnd::Fault(Fault::Link), 75, taken);
    }
    meets(&rt, alloc, whole(alloc, 1, 42), RunEnd::Left, 75, 41);
    meets(&rt, alloc, whole(alloc, 0, 0), RunEnd::Turns, 75, 0);
}
