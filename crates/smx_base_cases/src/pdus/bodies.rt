use crate::pdus::spelling::copy;
use crate::rows::{check, says};
use smx_pdu::{Bind, BodyFault, read_bind, read_destination, write_bind};
use std::alloc::Global;
use std::process::Abort;
use std::test::*;

// system_id `a`, password `p`, version 0x34, and empty texts else.
const BIND: [u8; 9] = [0x61, 0, 0x70, 0, 0, 0x34, 0, 0, 0];

// A message to the address `1`.
const MESSAGE: [u8; 18] = [0, 0, 0, 0, 0, 0, 0x31, 0, 0, 0, 0, 0, 0, 0, 0, 0, 0, 0];

// Octets after the last field are left unread.
#[test]
fn a_bind_is_read(rt: HostRuntime) {
    let body = [0x61, 0, 0x70, 0, 0, 0x34, 0, 0, 0, 0xFF, 0];
    let bind = read_bind(&body).expect(&rt, "a bind");
    check(&rt, bind.system_id == b"a".as_slice(), "system_id", 0);
    check(&rt, bind.password == b"p".as_slice(), "password", 0);
    check(&rt, bind.system_type.is_empty(), "system_type", 0);
    check(&rt, bind.address_range.is_empty(), "address_range", 0);
    let numbers = (bind.interface_version, bind.addr_ton, bind.addr_npi);
    check(&rt, numbers == (0x34, 0, 0), "numbers", 0);
}

const WHOLE: Bind<'static> = Bind {
    system_id: b"proxy",
    password: b"pw",
    system_type: b"",
    interface_version: 0x34,
    addr_ton: 1,
    addr_npi: 2,
    address_range: b"49",
};

fn fits_with(password: &[u8]) -> bool {
    let mut bind = WHOLE;
    bind.password = password;
    bind.fits()
}

// Passwords, and whether a bind with them fits.
const PASSWORDS: [(&[u8], bool); 3] = [
    (b"12345678", true),
    (b"123456789", false),
    (b"p\0w", false),
];

#[test]
fn a_bind_is_written_where_it_fits(rt: HostRuntime) {
    assert!(rt; WHOLE.fits());
    let mut out = copy(&rt, rt.alloc(), &[7]);
    write_bind(&WHOLE, &mut out).expect(&rt, "out of memory");
    assert!(rt; out.as_slice() == b"\x07proxy\0pw\0\0\x34\x01\x0249\0".as_slice());
    for at in 0..PASSWORDS.len() {
        let (password, fits) = PASSWORDS[at];
        check(&rt, fits_with(password) == fits, "passwords", at);
    }
}

// Whether a bind isn't read for that fault.
fn fails(body: &[u8], fault: BodyFault) -> bool {
    read_bind(body).err() == Some(fault)
}

// Whether a text of so many octets is read there, once it and the fields behind it have ended.
fn is_read(rt: &impl Abort, alloc: Global, body: &[u8]) -> bool {
    let mut ended = copy(rt, alloc, body);
    ended.extend_from_slice(&[0; 9]).expect(rt, "out of memory");
    read_bind(&ended).is_ok()
}

// Whether a text behind these octets has so many octets at most, its end included.
fn has_limit(rt: &impl Abort, alloc: Global, before: &[u8], limit: usize) -> bool {
    let mut body = copy(rt, alloc, before);
    for _ in 1..limit {
        body.push(0x61).expect(rt, "out of memory");
        if !fails(&body, BodyFault::Truncated) {
            return false;
        }
    }
    let is_read = is_read(rt, alloc, &body);
    body.push(0x61).expect(rt, "out of memory");
    is_read && fails(&body, BodyFault::FieldTooLong)
}

// Each text of a bind, behind the shortest fields before it, at its greatest length.
const TEXTS: [(&[u8], usize); 4] = [
    (b"", 16),
    (b"\0", 9),
    (b"\0\0", 13),
    (b"\0\0\0\x34\0\0", 41),
];

#[test]
fn limits_of_a_bind(rt: HostRuntime) {
    for at in 0..TEXTS.len() {
        let (before, limit) = TEXTS[at];
        let is_limit = has_limit(&rt, rt.alloc(), before, limit);
        check(&rt, is_limit, "texts", at);
    }
}

// A bind that ends before its end lacks the first field that isn't there.
#[test]
fn parts_of_a_bind(rt: HostRuntime) {
    for len in 0..BIND.len() {
        let is_truncated = fails(&BIND[..len], BodyFault::Truncated);
        check(&rt, is_truncated, "parts", len);
    }
    // The system_id is at fault before the password is.
    let body = [0x61; 40];
    assert!(rt; fails(&body[..15], BodyFault::Truncated));
    assert!(rt; fails(&body[..16], BodyFault::FieldTooLong));
}

// A service_type of six octets has no room for its end, nor has an address of 65.
#[test]
fn destinations(rt: HostRuntime) {
    let mut long = [0x31; 71];
    long[..6].fill(0);
    let bodies: [(&[u8], Result<&[u8], BodyFault>); 6] = [
        (&MESSAGE, Ok(b"1")),
        (&MESSAGE[..8], Ok(b"1")),
        (b"\0\0\0\0\0\x004915\0", Ok(b"4915")),
        (&MESSAGE[..7], Err(BodyFault::Truncated)),
        (b"abcdef\0\0\0", Err(BodyFault::FieldTooLong)),
        (&long, Err(BodyFault::FieldTooLong)),
    ];
    for at in 0..bodies.len() {
        let (body, wanted) = bodies[at];
        check(&rt, read_destination(body) == wanted, "destinations", at);
    }
}

const FAULTS: [(BodyFault, &str); 2] = [
    (BodyFault::Truncated, "the body ends within a field"),
    (
        BodyFault::FieldTooLong,
        "a text has no end within its greatest length",
    ),
];

#[test]
fn body_faults_in_words(rt: HostRuntime) {
    for at in 0..FAULTS.len() {
        let (fault, words) = FAULTS[at];
        let is_said = says(&rt, rt.alloc(), &fault, words);
        check(&rt, is_said, words, at);
    }
}
