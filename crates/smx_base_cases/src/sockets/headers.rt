//! Headers of the PROXY protocol, written by hand from section 2.2 of its specification.
use crate::rows::{check, says};
use smx_proxy_header::{MAX_HEADER, ProxyHeader, Source, read_proxy_header};
use std::process::Abort;
use std::test::*;

// From 10.0.0.7, port 4711, to 192.168.1.1, port 2775; and the first octets of an SMPP PDU.
const TCP4: [u8; 32] = [
    0x0D, 0x0A, 0x0D, 0x0A, 0x00, 0x0D, 0x0A, 0x51, 0x55, 0x49, 0x54, 0x0A, 0x21, 0x11, 0, 12, 10,
    0, 0, 7, 192, 168, 1, 1, 0x12, 0x67, 0x0A, 0xD7, 0, 0, 0, 0x10,
];

// From 2001:db8::1, port 4711, to 2001:db8::2, port 2775, with the TLV PP2_TYPE_NOOP of one octet.
const TCP6: [u8; 56] = [
    0x0D, 0x0A, 0x0D, 0x0A, 0x00, 0x0D, 0x0A, 0x51, 0x55, 0x49, 0x54, 0x0A, 0x21, 0x21, 0, 40,
    0x20, 0x01, 0x0D, 0xB8, 0, 0, 0, 0, 0, 0, 0, 0, 0, 0, 0, 1, 0x20, 0x01, 0x0D, 0xB8, 0, 0, 0, 0,
    0, 0, 0, 0, 0, 0, 0, 2, 0x12, 0x67, 0x0A, 0xD7, 0x04, 0, 1, 0,
];

const OF_TCP4: Source = Source::V4 {
    address: [10, 0, 0, 7],
    port: 4711,
};

const OF_TCP6: Source = Source::V6 {
    address: [0x20, 0x01, 0x0D, 0xB8, 0, 0, 0, 0, 0, 0, 0, 0, 0, 0, 0, 1],
    port: 4711,
};

// What these octets in place of those from the version on are, with as many zeros behind the length as
// the last number says.
fn with_fields(fields: [u8; 4], zeros: usize) -> ProxyHeader {
    let mut octets = [0u8; 5_000];
    octets[..12].copy_from_slice(&TCP4[..12]);
    octets[12..16].copy_from_slice(&fields);
    match octets.get(..16 + zeros.min(4_900)) {
        Some(front) => read_proxy_header(front),
        None => ProxyHeader::Wrong,
    }
}

fn whole(length: usize, source: Source) -> ProxyHeader {
    ProxyHeader::Whole { length, source }
}

fn local(length: usize) -> ProxyHeader {
    whole(length, Source::Local)
}

// A header is whole at its last octet, and is the same whatever follows; each front of it is a part.
#[test]
fn each_front_is_a_part(rt: HostRuntime) {
    for count in 0..TCP4.len() {
        let wanted = if count < 28 {
            ProxyHeader::Part
        } else {
            whole(28, OF_TCP4)
        };
        check(
            &rt,
            read_proxy_header(&TCP4[..count]) == wanted,
            "TCP4",
            count,
        );
    }
    assert!(rt; read_proxy_header(&TCP4) == whole(28, OF_TCP4));
    for count in 0..TCP6.len() {
        check(
            &rt,
            read_proxy_header(&TCP6[..count]) == ProxyHeader::Part,
            "TCP6",
            count,
        );
    }
    assert!(rt; read_proxy_header(&TCP6) == whole(56, OF_TCP6));
}

// A signature that is wrong at one octet is no header from that octet on.
#[test]
fn a_wrong_signature(rt: HostRuntime) {
    for place in 0..12 {
        let mut octets = TCP4;
        octets[place] ^= 0x80;
        for count in 0..octets.len() {
            let wanted = if count <= place {
                ProxyHeader::Part
            } else {
                ProxyHeader::Wrong
            };
            check(
                &rt,
                read_proxy_header(&octets[..count]) == wanted,
                "signature",
                place,
            );
        }
    }
}

// Version 1, which is a text, and an SMPP bind are no headers.
#[test]
fn other_beginnings(rt: HostRuntime) {
    assert!(rt;
        read_proxy_header(b"PROXY TCP4 10.0.0.7 192.168.1.1 4711 2775\r\n") == ProxyHeader::Wrong
    );
    assert!(rt; read_proxy_header(b"P") == ProxyHeader::Wrong);
    assert!(rt; read_proxy_header(&[0, 0, 0, 0x20, 0, 0, 0, 9]) == ProxyHeader::Wrong);
    assert!(rt; read_proxy_header(&[0]) == ProxyHeader::Wrong);
    assert!(rt; read_proxy_header(&[]) == ProxyHeader::Part);
}

// Of the version and the command only 0x20 and 0x21 are read.
#[test]
fn versions_and_commands(rt: HostRuntime) {
    for octet in 0..=255u8 {
        let is_known = octet == 0x20 || octet == 0x21;
        let wanted = if is_known {
            local(16)
        } else {
            ProxyHeader::Wrong
        };
        check(
            &rt,
            with_fields([octet, 0, 0, 0], 0) == wanted,
            "commands",
            usize::from(octet),
        );
        let mut front = TCP4;
        front[12] = octet;
        let wanted = if is_known {
            ProxyHeader::Part
        } else {
            ProxyHeader::Wrong
        };
        check(
            &rt,
            read_proxy_header(&front[..13]) == wanted,
            "fronts",
            usize::from(octet),
        );
    }
}

// With LOCAL no address is read, also where there is one; of a family that isn't TCP over IPv4 or IPv6
// only the length is.
#[test]
fn no_address(rt: HostRuntime) {
    let mut octets = TCP4;
    octets[12] = 0x20;
    assert!(rt; read_proxy_header(&octets) == local(28));
    for family in [0x00u8, 0x10, 0x12, 0x20, 0x22, 0x31, 0x32, 0xFF] {
        octets = TCP4;
        octets[13] = family;
        check(
            &rt,
            read_proxy_header(&octets) == local(28),
            "families",
            usize::from(family),
        );
    }
    assert!(rt; with_fields([0x21, 0x31, 0, 216], 215) == ProxyHeader::Part);
    assert!(rt; with_fields([0x21, 0x31, 0, 216], 216) == local(232));
}

// Too few octets for the addresses, and more than 4,096.
#[test]
fn lengths(rt: HostRuntime) {
    let nowhere = Source::V4 {
        address: [0; 4],
        port: 0,
    };
    assert!(rt; with_fields([0x21, 0x11, 0, 11], 100) == ProxyHeader::Wrong);
    assert!(rt; with_fields([0x21, 0x11, 0, 12], 100) == whole(28, nowhere));
    assert!(rt; with_fields([0x21, 0x21, 0, 35], 100) == ProxyHeader::Wrong);
    assert!(rt; with_fields([0x21, 0x21, 0, 36], 35) == ProxyHeader::Part);
    assert!(rt; with_fields([0x21, 0x11, 0x10, 0], 4_095) == ProxyHeader::Part);
    assert!(rt; with_fields([0x21, 0x11, 0x10, 0], 4_096) == whole(MAX_HEADER, nowhere));
    assert!(rt; with_fields([0x21, 0x11, 0x10, 1], 4_900) == ProxyHeader::Wrong);
    assert!(rt; with_fields([0x20, 0x00, 0xFF, 0xFF], 0) == ProxyHeader::Wrong);
    let mut front = TCP4;
    front[14] = 0x10;
    assert!(rt; read_proxy_header(&front[..15]) == ProxyHeader::Part);
    front[14] = 0x11;
    assert!(rt; read_proxy_header(&front[..15]) == ProxyHeader::Wrong);
}

// The addresses as texts.
#[test]
fn sources_as_texts(rt: HostRuntime) {
    assert!(rt; says(&rt, rt.alloc(), &OF_TCP4, "10.0.0.7:4711"));
    assert!(rt; says(&rt, rt.alloc(), &OF_TCP6, "[2001:db8::1]:4711"));
}
