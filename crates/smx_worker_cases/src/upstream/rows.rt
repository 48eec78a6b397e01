//! What a centre gives, and what comes of it.
use super::Step::{Closes, Ended, Runs};
use super::*;
use smx_turns::Fault;
use std::test::*;

// A bind that is refused.
const UNBOUND: [u8; 16] = [
    0, 0, 0, 0x10, 0x80, 0, 0, 9, 0, 0, 0, 0x0D, 0x7F, 0xFF, 0xFF, 0xFD,
];

// generic_nack of a bad length.
const NACK: [u8; 16] = [0, 0, 0, 0x10, 0x80, 0, 0, 0, 0, 0, 0, 2, 0, 0, 0, 0];

// An unbind and its answer.
const UNBIND: [u8; 16] = [0, 0, 0, 0x10, 0, 0, 0, 6, 0, 0, 0, 0, 0, 0, 0, 9];

const UNBIND_ANSWER: [u8; 16] = [0, 0, 0, 0x10, 0x80, 0, 0, 6, 0, 0, 0, 0, 0, 0, 0, 9];

// These steps over a link that takes all at once, and over one that takes an octet a write, where the
// centre gives both once it has the bind.
fn goes_so<R: Wait + Abort>(rt: &R, alloc: Global, gives: [&[u8]; 2], steps: &[Step]) {
    let pieces: [Piece; 2] = [(BIND.len(), gives[0]), (BIND.len(), gives[1])];
    for most in [65_536, 1] {
        let setting = Setting::new(most, script(alloc, most, &pieces));
        lanes_after(rt, alloc, setting, steps);
    }
}

// After a second of silence the worker enquires, and after another one it ends.
const QUIET: [Step; 3] = [
    Runs(0, 1_000, RunEnd::Idle),
    Runs(999, 1_000, RunEnd::Idle),
    Closes(&[&BIND]),
];

const ENQUIRING: [Step; 5] = [
    Runs(0, 1_000, RunEnd::Idle),
    Runs(999, 1_000, RunEnd::Idle),
    Runs(1_000, 1_000, RunEnd::Idle),
    Runs(1_999, 1_000, RunEnd::Idle),
    Closes(&[&BIND, &ENQUIRY]),
];

const ENDING: [Step; 8] = [
    Runs(0, 1_000, RunEnd::Idle),
    Runs(999, 1_000, RunEnd::Idle),
    Runs(1_000, 1_000, RunEnd::Idle),
    Runs(1_999, 1_000, RunEnd::Idle),
    Ended(None),
    Runs(2_000, 1_000, RunEnd::Left),
    Ended(Some(End::Silent)),
    Closes(&[&BIND, &ENQUIRY]),
];

#[test]
fn silence(rt: HostRuntime) {
    let given: [&[u8]; 2] = [&BOUND, &[]];
    for steps in [&QUIET[..], &ENQUIRING[..], &ENDING[..]] {
        goes_so(&rt, rt.alloc(), given, steps);
    }
}

// A refused bind, a bad length, an unbind.
#[test]
fn ends(rt: HostRuntime) {
    let cases: [([&[u8]; 2], &[u8], End); 3] = [
        ([&UNBOUND, &UNBIND], &[], End::Refused(0x0D)),
        ([&BOUND, &[0, 0, 0, 0x0F]], &NACK, End::BadLength),
        ([&BOUND, &UNBIND], &UNBIND_ANSWER, End::Left),
    ];
    for (gives, takes, ending) in cases {
        let steps = [
            Runs(0, 1_000, RunEnd::Left),
            Ended(Some(ending)),
            Closes(&[&BIND, takes]),
        ];
        goes_so(&rt, rt.alloc(), gives, &steps);
    }
}

// deliver_sm with this number to an address of one octet.
fn message(number: u8, address: u8) -> [u8; 24] {
    [
        0, 0, 0, 0x18, 0, 0, 0, 5, 0, 0, 0, 0, 0, 0, 0, number, 0, 0, 0, 0, 0, 0, address, 0,
    ]
}

// What tells the centre that nobody gets its message.
fn refusal(status: u8, number: u8) -> [u8; 16] {
    [
        0, 0, 0, 0x10, 0x80, 0, 0, 5, 0, 0, 0, status, 0, 0, 0, number,
    ]
}

// The centre gives five messages.
fn messages(alloc: Global) -> Script {
    let mut script = Script::new(alloc, 65_536).and(30, &BOUND);
    for (number, address) in [(3, b'4'), (4, b'4'), (5, b'5'), (6, b'6')] {
        script = script.and(30, &message(number, address));
    }
    script.and(30, &[0, 0, 0, 0x10, 0, 0, 0, 5, 0, 0, 0, 0, 0, 0, 0, 7])
}

// It is told that nobody gets the last four.
fn refusals(rt: &impl Abort, alloc: Global) -> Vec<u8> {
    let mut octets = Vec::new(alloc);
    for (status, number) in [(0x14, 4), (0x64, 5), (0x64, 6), (2, 7)] {
        let told = octets.extend_from_slice(&refusal(status, number));
        told.expect(rt, "out of memory");
    }
    octets
}

// The box has one place; nobody has the address 5; no sender stands where 6 is; a message without a
// body names no address.
#[test]
fn refused_messages(rt: HostRuntime) {
    let takes = refusals(&rt, rt.alloc());
    let steps = [
        Runs(0, 1_000, RunEnd::Idle),
        Closes(&[&BIND, takes.as_slice()]),
    ];
    let setting = Setting::new(0, messages(rt.alloc()));
    lanes_after(&rt, rt.alloc(), setting, &steps);
}

// A link that ends, and one whose first read fails.
#[test]
fn lost_links(rt: HostRuntime) {
    let mut ending = script(rt.alloc(), 65_536, &[(0, &BOUND)]);
    ending.ends = true;
    let left = [
        Runs(0, 1_000, RunEnd::Left),
        Ended(Some(End::LinkEnded)),
        Closes(&[&BIND]),
    ];
    lanes_after(&rt, rt.alloc(), Setting::new(0, ending), &left);
    let mut failing = script(rt.alloc(), 65_536, &[]);
    failing.failing_read = 1;
    let fault = RunEnd::Fault(Fault::Link);
    let failed = [Runs(0, 1_000, fault), Ended(None), Closes(&[&BIND])];
    lanes_after(&rt, rt.alloc(), Setting::new(1, failing), &failed);
}
