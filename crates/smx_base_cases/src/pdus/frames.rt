use self::Row::{Fails, Feed, Gives, Refuses, Waits};
use crate::pdus::spelling::copy;
use crate::rows::{check, says};
use smx_frame::{FrameFault, Framer, compact, stream_law};
use std::alloc::Global;
use std::process::Abort;
use std::test::*;

// submit_sm 7 to the address `1`, which has 18 octets of body.
const SUBMIT: [u8; 34] = [
    0, 0, 0, 0x22, 0, 0, 0, 4, 0, 0, 0, 0, 0, 0, 0, 7, 0, 0, 0, 0, 0, 0, 0x31, 0, 0, 0, 0, 0, 0, 0,
    0, 0, 0, 0,
];

// A call of a framer with what comes of it.
#[derive(Clone, Copy)]
enum Row<'a> {
    Feed(&'a [u8]),
    // The next PDU has this command, status and number, and this body.
    Gives(u32, u32, u32, &'a [u8]),
    // There is no PDU yet, and these octets are left.
    Waits(&'a [u8]),
    // The fault is next, and these octets are left.
    Fails(FrameFault, &'a [u8]),
    // Nothing more is taken.
    Refuses(FrameFault),
}

// What is next: a PDU's command, status and number and its body, nothing, or a fault.
type Next<'a> = Result<Option<((u32, u32, u32), &'a [u8])>, FrameFault>;

fn gives(rt: &impl Abort, framer: &mut Framer, wanted: Next) -> bool {
    match framer.next_pdu() {
        Ok(Some(pdu)) => {
            let fields = (pdu.command, pdu.status, pdu.number);
            wanted == Ok(Some((fields, pdu.body.as_slice())))
        }
        Ok(None) => wanted == Ok(None),
        Err(fault) => {
            assert!(rt; fault != FrameFault::NoMemory, "out of memory");
            wanted == Err(fault)
        }
    }
}

fn holds(rt: &impl Abort, framer: &mut Framer, row: Row) -> bool {
    match row {
        Feed(piece) => {
            framer.feed(piece).expect(rt, "no fault is known");
            true
        }
        Gives(command, status, number, body) => {
            gives(rt, framer, Ok(Some(((command, status, number), body))))
        }
        Waits(rest) => gives(rt, framer, Ok(None)) && framer.rest() == rest,
        Fails(fault, rest) => gives(rt, framer, Err(fault)) && framer.rest() == rest,
        Refuses(fault) => framer.feed(&SUBMIT) == Err(fault),
    }
}

fn play(rt: &impl Abort, framer: &mut Framer, rows: &[Row]) {
    for at in 0..rows.len() {
        let holds = holds(rt, framer, rows[at]);
        check(rt, holds, "frames", at);
    }
}

// A stream cut at each place is the same PDU.
#[test]
fn cut_at_every_place(rt: HostRuntime) {
    for place in 0..SUBMIT.len() {
        let (first, second) = SUBMIT.split_at(place);
        let rows = [
            Feed(first),
            Waits(first),
            Feed(second),
            Gives(4, 0, 7, &SUBMIT[16..]),
            Waits(&[]),
        ];
        let mut framer = Framer::new(rt.alloc(), 65_536);
        play(&rt, &mut framer, &rows);
    }
    stream_law();
}

// How many PDUs are handed out, at most.
fn handed_out(rt: &impl Abort, framer: &mut Framer, most: u32) -> u32 {
    for done in 0..most {
        if !gives(rt, framer, Ok(Some(((4, 0, 7), &SUBMIT[16..])))) {
            return done;
        }
    }
    most
}

// How many PDUs come of the stream in pieces of this size.
fn found(rt: &impl Abort, framer: &mut Framer, stream: &[u8], size: usize) -> u32 {
    let mut found: u32 = 0;
    for piece in stream.chunks(size.max(1)) {
        framer.reserve(piece.len()).expect(rt, "out of memory");
        framer.feed(piece).expect(rt, "no fault is known");
        found = found.saturating_add(handed_out(rt, framer, 200));
    }
    found
}

const SIZES: [usize; 3] = [1, 50, 4_000];

// A hundred PDUs and one that lacks its last octet, octet by octet, in pieces and in one piece.
#[test]
fn many(rt: HostRuntime) {
    let mut stream = Vec::new(rt.alloc());
    for _ in 0..101 {
        stream
            .extend_from_slice(&SUBMIT)
            .expect(&rt, "out of memory");
    }
    stream.pop();
    for at in 0..SIZES.len() {
        let mut framer = Framer::new(rt.alloc(), 34);
        let count = found(&rt, &mut framer, &stream, SIZES[at]);
        check(&rt, count == 100, "sizes", at);
        play(&rt, &mut framer, &[Waits(&SUBMIT[..33])]);
    }
}

const BAD_LENGTHS: [([u8; 4], FrameFault); 3] = [
    ([0, 0, 0, 0x0F], FrameFault::Below16),
    ([0, 1, 0, 1], FrameFault::AboveMax),
    ([0xFF, 0, 0, 0], FrameFault::AboveMax),
];

// A bad length is a fault once its four octets stand there, behind what came before it, and the
// framer keeps it.
#[test]
fn bad_lengths(rt: HostRuntime) {
    for at in 0..BAD_LENGTHS.len() {
        let (octets, fault) = BAD_LENGTHS[at];
        let rows = [
            Feed(&SUBMIT),
            Feed(&octets[..3]),
            Gives(4, 0, 7, &SUBMIT[16..]),
            Waits(&octets[..3]),
            Feed(&octets[3..]),
            Fails(fault, &octets),
            Refuses(fault),
            Fails(fault, &octets),
        ];
        let mut framer = Framer::new(rt.alloc(), 65_536);
        play(&rt, &mut framer, &rows);
    }
}

// The greatest length is no fault.
#[test]
fn longest(rt: HostRuntime) {
    let zeros = [0; 65_532];
    let rows = [
        Feed(&[0, 1, 0, 0]),
        Waits(&[0, 1, 0, 0]),
        Feed(&zeros),
        Gives(0, 0, 0, &zeros[..65_520]),
    ];
    let mut framer = Framer::new(rt.alloc(), 65_536);
    play(&rt, &mut framer, &rows);
}

// Nor is that of a header alone.
#[test]
fn shortest(rt: HostRuntime) {
    let octets = [
        0, 0, 0, 16, 0x80, 0, 0, 0, 0, 0, 0, 3, 0, 0, 0, 5, 0, 0, 0, 17,
    ];
    let rows = [
        Feed(&octets),
        Gives(0x8000_0000, 3, 5, &[]),
        Fails(FrameFault::AboveMax, &octets[16..]),
    ];
    let mut framer = Framer::new(rt.alloc(), 16);
    play(&rt, &mut framer, &rows);
}

// What is left of 1, 2, 3, 4 moves once as much was handed out.
const COMPACTED: [(usize, &[u8], usize); 4] = [
    (0, &[1, 2, 3, 4], 0),
    (1, &[1, 2, 3, 4], 1),
    (2, &[3, 4], 0),
    (4, &[], 0),
];

#[test]
fn compacted(rt: HostRuntime) {
    for at in 0..COMPACTED.len() {
        let (start, wanted, left) = COMPACTED[at];
        let mut octets = copy(&rt, rt.alloc(), &[1, 2, 3, 4]);
        let mut place = start.min(octets.len());
        compact(&mut octets, &mut place);
        let holds = octets.as_slice() == wanted && place == left;
        check(&rt, holds, "compacted", at);
    }
}

// The end of a PDU is read into the list that is lent. The body of the next one, which is shorter, takes the
// list that was given back.
#[test]
fn lent_and_given_back(rt: HostRuntime) {
    let mut framer = Framer::new(rt.alloc(), 65_536);
    framer.keep(1);
    framer.feed(&SUBMIT[..20]).expect(&rt, "no fault is known");
    framer.reserve(4_096).expect(&rt, "out of memory");
    let (mut octets, end) = framer.lend();
    assert_eq!(rt; framer.rest().len(), 0);
    octets[end..end + 14].copy_from_slice(&SUBMIT[20..]);
    framer.take_back(octets, end + 14);
    let found = framer.next_pdu().expect(&rt, "out of memory");
    let pdu = found.expect(&rt, "it is whole");
    assert!(rt; pdu.body.as_slice() == &SUBMIT[16..]);
    framer.give_back(pdu);
    let nack = [0, 0, 0, 17, 0x80, 0, 0, 0, 0, 0, 0, 3, 0, 0, 0, 5, 9];
    let rows = [Feed(&nack), Gives(0x8000_0000, 3, 5, &[9]), Waits(&[])];
    play(&rt, &mut framer, &rows);
}

const FAULTS: [(FrameFault, &str); 3] = [
    (
        FrameFault::Below16,
        "a length below the 16 octets of a header",
    ),
    (FrameFault::AboveMax, "a length above the greatest one"),
    (FrameFault::NoMemory, "out of memory"),
];

#[test]
fn faults_in_words(rt: HostRuntime) {
    for at in 0..FAULTS.len() {
        let (fault, words) = FAULTS[at];
        let is_said = says(&rt, rt.alloc(), &fault, words);
        check(&rt, is_said, words, at);
    }
}
