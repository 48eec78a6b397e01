use crate::pdus::spelling::is_spelled;
use crate::rows::check;
use smx_centre::{Centre, Mode};
use smx_pdu::Pdu;
use std::alloc::Global;
use std::process::Abort;
use std::test::*;

// A PDU's command, status, number and body.
type Fields = (u32, u32, u32, &'static [u8]);

fn has_fields(pdu: &Pdu, wanted: &Fields) -> bool {
    (pdu.command, pdu.status, pdu.number) == (wanted.0, wanted.1, wanted.2)
        && pdu.body.as_slice() == wanted.3
}

fn have_fields(pdus: &[Pdu], wanted: &[Fields]) -> bool {
    if pdus.len() != wanted.len() {
        return false;
    }
    for at in 0..wanted.len() {
        if !has_fields(&pdus[at], &wanted[at]) {
            return false;
        }
    }
    true
}

const SUBMIT: Fields = (0x8000_0004, 0, 1, b"1\0");

const DATA: Fields = (0x8000_0103, 0, 2, b"2\0");

const QUERY: Fields = (0x8000_0003, 8, 3, b"");

const SUBMIT_COPY: Fields = (0x8000_0004, 0, 0x7000_0000, b"1\0");

const DATA_COPY: Fields = (0x8000_0103, 0, 0x7000_0000, b"2\0");

const QUERY_COPY: Fields = (0x8000_0003, 8, 0x7000_0000, b"");

// A request's command and number, with its answers.
type Row = (u32, u32, &'static [Fields]);

// The other PDUs are answered alike in each mode.
const SILENT: [Row; 13] = [
    (4, 1, &[]),
    (0x103, 2, &[]),
    (3, 3, &[]),
    (1, 7, &[(0x8000_0001, 0, 7, b"centre\0")]),
    (2, 7, &[(0x8000_0002, 0, 7, b"centre\0")]),
    (9, 7, &[(0x8000_0009, 0, 7, b"centre\0")]),
    (0x15, 7, &[(0x8000_0015, 0, 7, b"")]),
    (6, 7, &[(0x8000_0006, 0, 7, b"")]),
    (5, 7, &[(0x8000_0000, 3, 7, b"")]),
    (0xB, 7, &[(0x8000_0000, 3, 7, b"")]),
    (0xAA, 7, &[(0x8000_0000, 3, 7, b"")]),
    (0x8000_0000, 7, &[]),
    (0x8000_0005, 7, &[]),
];

// The answers to submit_sm 1, data_sm 2 and query_sm 3, which a centre doesn't know.
const PLAIN: [Row; 3] = [(4, 1, &[SUBMIT]), (0x103, 2, &[DATA]), (3, 3, &[QUERY])];

const REVERSED: [Row; 3] = [(4, 1, &[]), (0x103, 2, &[DATA, SUBMIT]), (3, 3, &[])];

const TWICE: [Row; 3] = [
    (4, 1, &[SUBMIT, SUBMIT]),
    (0x103, 2, &[DATA, DATA]),
    (3, 3, &[QUERY, QUERY]),
];

const STRANGER: [Row; 3] = [
    (4, 1, &[SUBMIT, SUBMIT_COPY]),
    (0x103, 2, &[DATA, DATA_COPY]),
    (3, 3, &[QUERY, QUERY_COPY]),
];

fn is_answered(rt: &impl Abort, alloc: Global, centre: &mut Centre, row: &Row) -> bool {
    let (command, number, wanted) = row;
    let request = Pdu::header_only(alloc, *command, 0, *number);
    let answers = centre.on_pdu(&request).expect(rt, "out of memory");
    have_fields(&answers, wanted)
}

// Asserts what a centre in this mode answers.
fn answers(rt: &impl Abort, alloc: Global, mode: Mode, rows: &[Row]) {
    let mut centre = Centre::new(alloc, mode);
    for at in 0..rows.len() {
        let holds = is_answered(rt, alloc, &mut centre, &rows[at]);
        check(rt, holds, "centre", at);
    }
}

#[test]
fn modes(rt: HostRuntime) {
    answers(&rt, rt.alloc(), Mode::Plain, &PLAIN);
    answers(&rt, rt.alloc(), Mode::Reversed, &REVERSED);
    answers(&rt, rt.alloc(), Mode::Twice, &TWICE);
    answers(&rt, rt.alloc(), Mode::Stranger, &STRANGER);
    answers(&rt, rt.alloc(), Mode::Silent, &SILENT);
}

// Whether the centre answers submit_sm so, asked again where memory was refused.
fn answers_at_last(alloc: Global, centre: &mut Centre, number: u32, wanted: &[Fields]) -> bool {
    let request = Pdu::header_only(alloc, 4, 0, number);
    for _ in 0..2 {
        if let Ok(answers) = centre.on_pdu(&request) {
            return have_fields(&answers, wanted);
        }
    }
    false
}

// Want of memory counts no message and sends none: refuse-memory refuses each allocation in
// turn, one in a run.
#[test]
fn refused_memory(rt: HostRuntime) {
    let mut centre = Centre::new(rt.alloc(), Mode::Reversed);
    let both: [Fields; 2] = [(0x8000_0004, 0, 2, b"2\0"), SUBMIT];
    assert!(rt; answers_at_last(rt.alloc(), &mut centre, 1, &[]));
    assert!(rt; answers_at_last(rt.alloc(), &mut centre, 2, &both));
}

// deliver_sm to `4915`, twice: its octets.
#[test]
fn deliveries(rt: HostRuntime) {
    let mut centre = Centre::new(rt.alloc(), Mode::Plain);
    for number in 1..3 {
        let wanted = [
            0, 0, 0, 0x25, 0, 0, 0, 5, 0, 0, 0, 0, 0, 0, 0, number, 0, 0, 0, 0, 0, 0, 0x34, 0x39,
            0x31, 0x35, 0, 0, 0, 0, 0, 0, 0, 0, 0, 0, 0,
        ];
        let message = centre.deliver(b"4915").expect(&rt, "out of memory");
        assert!(rt; is_spelled(&rt, rt.alloc(), &message, &wanted));
    }
}
