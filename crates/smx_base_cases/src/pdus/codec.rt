use crate::pdus::spelling::is_spelled;
use crate::rows::{check, says};
use smx_pdu::{
    Body, MAX_PDU, Pdu, PduFault, TooLong, command, decode, encode, encode_within, is_forwarded,
    is_response_to, one_spelling, read_header, response_id, status,
};
use std::alloc::Global;
use std::process::Abort;
use std::test::*;

// submit_sm 7 to the address `1`, which has 18 octets of body.
const SUBMIT: [u8; 34] = [
    0, 0, 0, 0x22, 0, 0, 0, 4, 0, 0, 0, 0, 0, 0, 0, 7, 0, 0, 0, 0, 0, 0, 0x31, 0, 0, 0, 0, 0, 0, 0,
    0, 0, 0, 0,
];

// The response to the request 1 upstream: the message_id is `1`.
const RESPONSE: [u8; 18] = [
    0, 0, 0, 0x12, 0x80, 0, 0, 4, 0, 0, 0, 0, 0, 0, 0, 1, 0x31, 0,
];

// generic_nack of an unknown command, for the request 5: a header alone.
const NACK: [u8; 16] = [0, 0, 0, 0x10, 0x80, 0, 0, 0, 0, 0, 0, 3, 0, 0, 0, 5];

#[test]
fn headers(rt: HostRuntime) {
    let header = read_header(&NACK);
    assert!(rt; header.length == 16 && header.number == 5);
    assert!(rt; header.command == command::GENERIC_NACK);
    assert!(rt; header.status == status::ESME_RINVCMDID);
}

fn has_fields(pdu: &Pdu, fields: (u32, u32, u32), body: usize) -> bool {
    (pdu.command, pdu.status, pdu.number) == fields
        && pdu.body.len() == body
        && pdu.body.is_empty() == (body == 0)
}

fn is_spelled_within(rt: &impl Abort, alloc: Global, pdu: &Pdu, wanted: &[u8]) -> bool {
    let mut octets = Vec::with_capacity(alloc, MAX_PDU).expect(rt, "out of memory");
    encode_within(pdu, &mut octets);
    octets.as_slice() == wanted
}

// Asserts that the octets have this command, status and number and a body of this length.
fn vector(rt: &impl Abort, alloc: Global, octets: &[u8], fields: (u32, u32, u32), body: usize) {
    let pdu = decode(alloc, octets).expect(rt, "a PDU");
    check(rt, has_fields(&pdu, fields, body), "fields", body);
    let is_spelled = is_spelled(rt, alloc, &pdu, octets);
    check(rt, is_spelled, "octets", body);
    let is_within = is_spelled_within(rt, alloc, &pdu, octets);
    check(rt, is_within, "octets within", body);
}

// Each vector is read as these fields, and written again as it was.
#[test]
fn vectors(rt: HostRuntime) {
    vector(&rt, rt.alloc(), &SUBMIT, (4, 0, 7), 18);
    vector(&rt, rt.alloc(), &RESPONSE, (0x8000_0004, 0, 1), 2);
    vector(&rt, rt.alloc(), &NACK, (0x8000_0000, 3, 5), 0);
    one_spelling();
}

const UNDECODED: [u8; 16] = [0, 0, 0, 0x10, 0x80, 0, 0, 0, 0, 0, 0, 2, 0, 0, 0, 0];

// An outbind has no response.
const OUTBIND_REFUSED: [u8; 16] = [0, 0, 0, 0x10, 0x80, 0, 0, 0, 0, 0, 0, 4, 0, 0, 0, 9];

const SUBMIT_REFUSED: [u8; 16] = [0, 0, 0, 0x10, 0x80, 0, 0, 4, 0, 0, 0, 0x14, 0, 0, 0, 9];

const ENQUIRY: [u8; 16] = [0, 0, 0, 0x10, 0, 0, 0, 0x15, 0, 0, 0, 0, 0, 0, 0, 9];

const SUBMIT_FAILED: [u8; 16] = [0, 0, 0, 0x10, 0x80, 0, 0, 4, 0, 0, 0, 8, 0, 0, 0, 7];

const SUBMITTED: [u8; 18] = [
    0, 0, 0, 0x12, 0x80, 0, 0, 4, 0, 0, 0, 0, 0, 0, 0, 7, 0x31, 0,
];

fn check_spelled(rt: &impl Abort, alloc: Global, pdu: Pdu, octets: &[u8]) {
    assert!(rt; is_spelled(rt, alloc, &pdu, octets));
}

// The octets of answers and of a request, spelled by hand (SMPP 3.4, sections 3.2, 4.3 and 5.1).
#[test]
fn answers(rt: HostRuntime) {
    let alloc = rt.alloc();
    let submit = Pdu::header_only(alloc, 4, 0, 7);
    check_spelled(&rt, alloc, Pdu::unknown(alloc, 5), &NACK);
    check_spelled(&rt, alloc, Pdu::undecoded(alloc), &UNDECODED);
    let refusal = Pdu::refusal(alloc, 0xB, 4, 9);
    check_spelled(&rt, alloc, refusal, &OUTBIND_REFUSED);
    let refusal = Pdu::refusal(alloc, 4, 0x14, 9);
    check_spelled(&rt, alloc, refusal, &SUBMIT_REFUSED);
    let enquiry = Pdu::header_only(alloc, 0x15, 0, 9);
    check_spelled(&rt, alloc, enquiry, &ENQUIRY);
    let response = submit.header_response(alloc, 8);
    check_spelled(&rt, alloc, response, &SUBMIT_FAILED);
    let id = Vec::from_slice(alloc, b"1\0").expect(&rt, "out of memory");
    let response = submit.response(0, Body::short(id));
    check_spelled(&rt, alloc, response, &SUBMITTED);
}

// What is printed for debugging has no octets of a body, as a bind's has a password.
#[test]
fn printed_without_octets(rt: HostRuntime) {
    let octets = Vec::from_slice(rt.alloc(), b"secret").expect(&rt, "out of memory");
    let body = Body::short(octets);
    let text = format!(in rt.alloc(); "{body:?}").expect(&rt, "out of memory");
    assert!(rt; text.as_str() == "Body(6 octets)");
}

const FAULTS: [(PduFault, &str); 4] = [
    (
        PduFault::Short { octets: 15 },
        "15 octets are fewer than the 16 of a header",
    ),
    (
        PduFault::Length {
            field: 34,
            octets: 33,
        },
        "the length field says 34, and there are 33 octets",
    ),
    (
        PduFault::TooLong { octets: 65_537 },
        "65537 octets are more than the 65,536 of a PDU",
    ),
    (PduFault::NoMemory, "out of memory"),
];

#[test]
fn faults_in_words(rt: HostRuntime) {
    for at in 0..FAULTS.len() {
        let (fault, words) = FAULTS[at];
        let is_said = says(&rt, rt.alloc(), &fault, words);
        check(&rt, is_said, words, at);
    }
    let words = "a body has at most 65,520 octets";
    assert!(rt; says(&rt, rt.alloc(), &TooLong, words));
}

// So many octets of a body.
fn body_of(rt: &impl Abort, alloc: Global, length: usize) -> Vec<u8> {
    let octets = vec![in alloc; 0x61u8; length];
    octets.expect(rt, "out of memory")
}

// Whether these octets, of a PDU of 65,536, are read as one with this body.
fn is_longest(rt: &impl Abort, alloc: Global, octets: &[u8], body: &[u8]) -> bool {
    let back = decode(alloc, octets).expect(rt, "a PDU");
    octets.len() == 65_536 && octets.starts_with(&[0, 1, 0, 0]) && back.body.as_slice() == body
}

#[test]
fn the_longest_body(rt: HostRuntime) {
    let octets = body_of(&rt, rt.alloc(), 65_520);
    let pdu = Pdu::new(4, 0, 1, octets).ok().expect(&rt, "it fits");
    let mut out = Vec::new(rt.alloc());
    encode(&pdu, &mut out).expect(&rt, "out of memory");
    assert!(rt; is_longest(&rt, rt.alloc(), &out, pdu.body.as_slice()));
}

#[test]
fn one_octet_too_many(rt: HostRuntime) {
    let octets = body_of(&rt, rt.alloc(), 65_521);
    let refused = Pdu::new(4, 0, 1, octets).err();
    let (octets, _too_long) = refused.expect(&rt, "it fits");
    assert!(rt; octets.len() == 65_521);
}

// The request ids of SMPP 3.4, table 5-1, with a response each, and some that have none; and whether
// they are forwarded.
const COMMANDS: [(u32, Option<u32>, bool); 18] = [
    (1, Some(0x8000_0001), false),
    (2, Some(0x8000_0002), false),
    (3, Some(0x8000_0003), true),
    (4, Some(0x8000_0004), true),
    (5, Some(0x8000_0005), false),
    (6, Some(0x8000_0006), false),
    (7, Some(0x8000_0007), true),
    (8, Some(0x8000_0008), true),
    (9, Some(0x8000_0009), false),
    (0x15, Some(0x8000_0015), false),
    (0x21, Some(0x8000_0021), true),
    (0x103, Some(0x8000_0103), true),
    (0, None, false),
    (0xA, None, false),
    (0xB, None, false),
    (0x102, None, false),
    (0x8000_0000, None, false),
    (0x8000_0004, None, false),
];

// Whether the response and generic_nack answer the command and it does not answer itself, where there
// is a response.
fn answers_as(id: u32, response: Option<u32>) -> bool {
    match response {
        Some(response) => {
            is_response_to(id, response)
                && is_response_to(id, 0x8000_0000)
                && !is_response_to(id, id)
        }
        None => true,
    }
}

#[test]
fn commands(rt: HostRuntime) {
    for at in 0..COMMANDS.len() {
        let (id, response, forwarded) = COMMANDS[at];
        check(&rt, response_id(id) == response, "responses", at);
        check(&rt, answers_as(id, response), "answers", at);
        check(&rt, is_forwarded(id) == forwarded, "forwarded", at);
    }
}

// The contracts name ids by these constants, so no clause sees a wrong number: the numbers of
// SMPP 3.4, table 5-1, are here.
const NUMBERS: [(u32, u32); 15] = [
    (command::BIND_RECEIVER, 0x0000_0001),
    (command::BIND_TRANSMITTER, 0x0000_0002),
    (command::QUERY_SM, 0x0000_0003),
    (command::SUBMIT_SM, 0x0000_0004),
    (command::DELIVER_SM, 0x0000_0005),
    (command::UNBIND, 0x0000_0006),
    (command::REPLACE_SM, 0x0000_0007),
    (command::CANCEL_SM, 0x0000_0008),
    (command::BIND_TRANSCEIVER, 0x0000_0009),
    (command::OUTBIND, 0x0000_000B),
    (command::ENQUIRE_LINK, 0x0000_0015),
    (command::SUBMIT_MULTI, 0x0000_0021),
    (command::ALERT_NOTIFICATION, 0x0000_0102),
    (command::DATA_SM, 0x0000_0103),
    (command::GENERIC_NACK, 0x8000_0000),
];

#[test]
fn numbers_of_the_standard(rt: HostRuntime) {
    for at in 0..NUMBERS.len() {
        let (constant, number) = NUMBERS[at];
        check(&rt, constant == number, "numbers", at);
    }
}

// Whether the PDU is written as `RESPONSE`, or not at all.
fn is_written_or_not(alloc: Global, pdu: &Pdu) -> bool {
    let mut out = Vec::new(alloc);
    match encode(pdu, &mut out) {
        Ok(()) => out.as_slice() == RESPONSE.as_slice(),
        Err(_) => out.is_empty(),
    }
}

// Want of memory is said by name, and leaves what was there: refuse-memory refuses each
// allocation in turn.
#[test]
fn refused_memory(rt: HostRuntime) {
    match decode(rt.alloc(), &RESPONSE) {
        Ok(pdu) => assert!(rt; is_written_or_not(rt.alloc(), &pdu)),
        Err(fault) => assert!(rt; fault == PduFault::NoMemory),
    }
}
